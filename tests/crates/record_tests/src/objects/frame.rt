//! What is decoded from some bytes. The wanted answers were worked out from the table of kinds in
//! prose.
use Wanted::*;
use rbd_journal::FrameFault::*;
use rbd_journal::{FrameFault, decode, encode};
use rbd_kinds::{Bytes, JournalEvent, Name, NoMemory};
use std::alloc::Global;
use std::test::Fail;

/// An event and the length of its frame, or a fault.
enum Wanted {
    Write(u64, &'static [u8], usize),
    Discard(u64, u64, usize),
    Resize(u64, usize),
    SnapCreate(&'static [u8], usize),
    SnapRemove(&'static [u8], usize),
    SnapRollback(&'static [u8], usize),
    Demote(usize),
    Fault(FrameFault),
}

const TABLE: &[(&[u8], Wanted)] = &[
    (b"", Fault(Short)),
    (b"\x18", Fault(BadKind(0x18))),
    (b"\x13\0\0\0\x07", Fault(BadLength(7))),
    (b"\x14\0\0\0\x02s", Fault(Short)),
    (b"\x14\0\0\0\x02s/", Fault(BadText(6))),
    (
        b"\x11\0\0\0\x0d\0\0\0\0\0\0\x0f\xfehello",
        Write(4094, b"hello", 18),
    ),
    (b"\x14\0\0\0\x02s1", SnapCreate(b"s1", 7)),
    (b"\0", Fault(BadKind(0x00))),
    (b"\x10\0\0\0\0", Fault(BadKind(0x10))),
    (b"\x01\0\0\0\0", Fault(BadKind(0x01))),
    (b"\x07\0\0\0\0", Fault(BadKind(0x07))),
    (b"!\0\0\0\x09123456789", Fault(BadKind(0x21))),
    (b"'\0\0\0\0", Fault(BadKind(0x27))),
    (b"\x91", Fault(BadKind(0x91))),
    (b"\xff\0", Fault(BadKind(0xff))),
    (b"\x11", Fault(Short)),
    (b"\x12\0", Fault(Short)),
    (b"\x13\0\0", Fault(Short)),
    (b"\x14\0\0\0", Fault(Short)),
    (b"\x17\0\0\0", Fault(Short)),
    (b"\x11\0\0\0\0", Fault(BadLength(0))),
    (b"\x11\0\0\0\x08\0\0\0\0\0\0\0\0", Fault(BadLength(8))),
    (b"\x11\0\0\0\x09", Fault(Short)),
    (b"\x11\0\0\0\x09\0\0\0\0\0\0\0\0", Fault(Short)),
    (b"\x11\0\x10\0\x08", Fault(Short)),
    (b"\x11\0\x10\0\x09", Fault(BadLength(1_048_585))),
    (b"\x11\xff\xff\xff\xff", Fault(BadLength(0xffffffff))),
    (
        b"\x11\x0d\0\0\0\0\0\0\0\0\0\0\x01hello",
        Fault(BadLength(0xd000000)),
    ),
    (b"\x12\0\0\0\x0fxxxxxxxxxxxxxxx", Fault(BadLength(15))),
    (b"\x12\0\0\0\x10xxxxxxxxxxxxxxx", Fault(Short)),
    (b"\x12\0\0\0\x11xxxxxxxxxxxxxxxxx", Fault(BadLength(17))),
    (b"\x13\0\0\0\0", Fault(BadLength(0))),
    (b"\x13\0\0\0\x081234567", Fault(Short)),
    (b"\x13\0\0\0\x09xxxxxxxxx", Fault(BadLength(9))),
    (b"\x14\0\0\0\0", Fault(BadLength(0))),
    (b"\x15\0\0\0\0a", Fault(BadLength(0))),
    (
        b"\x14\0\0\0@xxxxxxxxxxxxxxxxxxxxxxxxxxxxxxxxxxxxxxxxxxxxxxxxxxxxxxxxxxxxxxx",
        Fault(Short),
    ),
    (
        b"\x16\0\0\0Axxxxxxxxxxxxxxxxxxxxxxxxxxxxxxxxxxxxxxxxxxxxxxxxxxxxxxxxxxxxxxxxx",
        Fault(BadLength(65)),
    ),
    (b"\x15\0\0\0\x01", Fault(Short)),
    (b"\x17\0\0\0\x01x", Fault(BadLength(1))),
    (b"\x17\0\0\0\x01", Fault(BadLength(1))),
    (b"\x11\0\0\0\x09\0\0\0\0\0\0\0\0a", Write(0, b"a", 14)),
    (
        b"\x11\0\0\0\x09\x7f\xff\xff\xff\xff\xff\xff\xffa",
        Write(0x7fffffffffffffff, b"a", 14),
    ),
    (b"\x11\0\0\0\x09\x80\0\0\0\0\0\0\0a", Fault(BadLength(9))),
    (
        b"\x11\0\0\0\x0a\x7f\xff\xff\xff\xff\xff\xff\xffab",
        Fault(BadLength(10)),
    ),
    (
        b"\x11\0\0\0\x09\xff\xff\xff\xff\xff\xff\xff\xffa",
        Fault(BadLength(9)),
    ),
    (
        b"\x11\0\0\0\x0a\0\0\0\0\0\0\0\x01\0\xff\x17",
        Write(1, b"\0\xff", 15),
    ),
    (
        b"\x12\0\0\0\x10\0\0\0\0\0\0\0\0\0\0\0\0\0\0\0\x01",
        Discard(0, 1, 21),
    ),
    (
        b"\x12\0\0\0\x10\0\0\0\0\0\0\x10\0\0\0\0\0\0\0\0\0",
        Fault(BadLength(0)),
    ),
    (
        b"\x12\0\0\0\x10\xff\xff\xff\xff\xff\xff\xff\xff\0\0\0\0\0\0\0\0",
        Fault(BadLength(0)),
    ),
    (
        b"\x12\0\0\0\x10\0\0\0\0\0\0\0\0\x80\0\0\0\0\0\0\0",
        Discard(0, 0x8000000000000000, 21),
    ),
    (
        b"\x12\0\0\0\x10\0\0\0\0\0\0\0\x01\x80\0\0\0\0\0\0\0",
        Fault(BadLength(0x8000000000000000)),
    ),
    (
        b"\x12\0\0\0\x10\xff\xff\xff\xff\xff\xff\xff\xff\0\0\0\0\0\0\0\x01",
        Fault(BadLength(1)),
    ),
    (
        b"\x12\0\0\0\x10\xff\xff\xff\xff\xff\xff\xff\xff\xff\xff\xff\xff\xff\xff\xff\xff",
        Fault(BadLength(0xffffffffffffffff)),
    ),
    (
        b"\x12\0\0\0\x10\0\0\0\0\0\0\x01\x02\0\0\0\0\0\0\0\x03rest",
        Discard(258, 3, 21),
    ),
    (b"\x13\0\0\0\x08\0\0\0\0\0\0\0\0", Resize(0, 13)),
    (
        b"\x13\0\0\0\x08\x80\0\0\0\0\0\0\0",
        Resize(0x8000000000000000, 13),
    ),
    (
        b"\x13\0\0\0\x08\x80\0\0\0\0\0\0\x01",
        Fault(BadLength(0x8000000000000001)),
    ),
    (
        b"\x13\0\0\0\x08\xff\xff\xff\xff\xff\xff\xff\xff",
        Fault(BadLength(0xffffffffffffffff)),
    ),
    (
        b"\x13\0\0\0\x08\x01\x02\x03\x04\x05\x06\x07\x08\0",
        Resize(0x102030405060708, 13),
    ),
    (b"\x14\0\0\0\x09AZaz09._-", SnapCreate(b"AZaz09._-", 14)),
    (b"\x15\0\0\0\x01_", SnapRemove(b"_", 6)),
    (b"\x16\0\0\0\x02z.", SnapRollback(b"z.", 7)),
    (b"\x15\0\0\0\x02s1/", SnapRemove(b"s1", 7)),
    (
        b"\x16\0\0\0@xxxxxxxxxxxxxxxxxxxxxxxxxxxxxxxxxxxxxxxxxxxxxxxxxxxxxxxxxxxxxxxx",
        SnapRollback(
            b"xxxxxxxxxxxxxxxxxxxxxxxxxxxxxxxxxxxxxxxxxxxxxxxxxxxxxxxxxxxxxxxx",
            69,
        ),
    ),
    (b"\x14\0\0\0\x05.sync", SnapCreate(b".sync", 10)),
    (b"\x14\0\0\0\x02.a", SnapCreate(b".a", 7)),
    (b"\x15\0\0\0\x01-", SnapRemove(b"-", 6)),
    (b"\x16\0\0\0\x02-b", SnapRollback(b"-b", 7)),
    (b"\x14\0\0\0\x02./", Fault(BadText(6))),
    (b"\x15\0\0\0\x02/-", Fault(BadText(5))),
    (b"\x16\0\0\0\x04a/b/", Fault(BadText(6))),
    (b"\x14\0\0\0\x02a@", Fault(BadText(6))),
    (b"\x14\0\0\0\x02a[", Fault(BadText(6))),
    (b"\x14\0\0\0\x02a`", Fault(BadText(6))),
    (b"\x14\0\0\0\x02a{", Fault(BadText(6))),
    (b"\x15\0\0\0\x02a:", Fault(BadText(6))),
    (b"\x15\0\0\0\x01 ", Fault(BadText(5))),
    (
        b"\x16\0\0\0@xxxxxxxxxxxxxxxxxxxxxxxxxxxxxxxxxxxxxxxxxxxxxxxxxxxxxxxxxxxxxxx\x80",
        Fault(BadText(68)),
    ),
    (b"\x14\0\0\0\x03a\0b", Fault(BadText(6))),
    (b"\x14\0\0\0\x03/", Fault(Short)),
    (b"\x17\0\0\0\0", Demote(5)),
    (b"\x17\0\0\0\0\x18", Demote(5)),
];

fn is_wanted(event: &JournalEvent, length: usize, wanted: &Wanted) -> bool {
    match (event, wanted) {
        (JournalEvent::Write { at, bytes }, Write(a, b, n)) => {
            *at == *a && bytes.as_slice() == *b && length == *n
        }
        (JournalEvent::Discard { at, len }, Discard(a, l, n)) => *at == *a
            && *len == *l
            && length == *n,
        (JournalEvent::Resize { size }, Resize(s, n)) => *size == *s && length == *n,
        (JournalEvent::SnapCreate { name }, SnapCreate(t, n)) => name.as_slice() == *t
            && length == *n,
        (JournalEvent::SnapRemove { name }, SnapRemove(t, n)) => name.as_slice() == *t
            && length == *n,
        (JournalEvent::SnapRollback { name }, SnapRollback(t, n)) => {
            name.as_slice() == *t && length == *n
        }
        (JournalEvent::Demote, Demote(n)) => length == *n,
        _ => false,
    }
}

/// Whether what was decoded is wanted, and is encoded as it stood.
fn is_read(
    alloc: Global,
    bytes: &[u8],
    event: &JournalEvent,
    length: usize,
    wanted: &Wanted,
) -> Result<bool, NoMemory> {
    let again = encode(alloc, event)?;
    let same = again.len() == length && bytes.starts_with(again.as_slice());
    Ok(same && is_wanted(event, length, wanted))
}

fn is_fault(fault: FrameFault, wanted: &Wanted) -> bool {
    matches!(wanted, Fault(f) if *f == fault)
}

fn row_holds(alloc: Global, bytes: &[u8], wanted: &Wanted) -> Result<bool, NoMemory> {
    match decode(alloc, bytes) {
        Ok((event, length)) => is_read(alloc, bytes, &event, length, wanted),
        Err(fault) => Ok(is_fault(fault, wanted)),
    }
}

/// Each row's answer; and what was decoded is encoded as it stood.
#[test]
fn decodes_the_table(rt: HostRuntime) -> Result<(), Fail> {
    for (row, (bytes, wanted)) in TABLE.iter().enumerate() {
        assert!(rt; row_holds(rt.alloc(), bytes, wanted)?, "row {row}");
    }
    Ok(())
}

#[test]
fn encodes_a_write(rt: HostRuntime) -> Result<(), Fail> {
    let alloc = rt.alloc();
    let event = JournalEvent::Write {
        at: 4094,
        bytes: Bytes::from_slice(alloc, b"hello")?,
    };
    let frame = encode(alloc, &event)?;
    let wanted = b"\x11\0\0\0\x0d\0\0\0\0\0\0\x0f\xfehello";
    assert!(rt; frame.as_slice() == wanted.as_slice());
    Ok(())
}

#[test]
fn encodes_a_snapshot(rt: HostRuntime) -> Result<(), Fail> {
    let alloc = rt.alloc();
    let name = Name::parse(Bytes::from_slice(alloc, b".sync")?).ok_or(".sync is a name")?;
    let frame = encode(alloc, &JournalEvent::SnapCreate { name })?;
    assert!(rt; frame.as_slice() == b"\x14\0\0\0\x05.sync".as_slice());
    Ok(())
}
