//! What an object shows after each operation. The wanted views were worked out from the rules in
//! prose.
use Operation::*;
use rbd_kinds::{NoMemory, Part, SnapContext, SnapId, SnapIds};
use rbd_object::{LARGEST_OBJECT, Object};
use rbd_parts::{gather, shifted_parts};
use std::alloc::Global;
use std::process::Abort;
use std::test::Fail;

/// One operation. A change begins with its context: a number, and the snapshots that exist.
enum Operation {
    New,
    Write(u32, &'static [u32], u8, &'static [u8]),
    WriteFull(u32, &'static [u32], &'static [u8]),
    Zero(u32, &'static [u32], u8, u8),
    Empty(u32, &'static [u32]),
    Remove(u32, &'static [u32]),
    /// The bytes, and whether they are copied.
    CopyUp(&'static [u8], bool),
    Trim(&'static [u32]),
}

/// Each line has an operation and what four bytes from offset 0 then are in the head and in the
/// snapshots 1 to 4: `.` for a zero, and `????`, as the buffer was before, where the object is
/// absent.
const TABLE: &[(Operation, &str)] = &[
    (Trim(&[]), "???? ???? ???? ???? ????"),
    (Zero(0, &[], 0, 4), "???? ???? ???? ???? ????"),
    (CopyUp(b"ab", true), "ab.. ab.. ab.. ab.. ab.."),
    (CopyUp(b"zz", false), "ab.. ab.. ab.. ab.. ab.."),
    (Write(0, &[], 3, b"C"), "ab.C ab.C ab.C ab.C ab.C"),
    (Write(1, &[1], 0, b"X"), "Xb.C ab.C Xb.C Xb.C Xb.C"),
    (Write(1, &[1], 1, b"Y"), "XY.C ab.C XY.C XY.C XY.C"),
    (Zero(1, &[1], 1, 2), "X..C ab.C X..C X..C X..C"),
    (Zero(1, &[1], 3, 9), "X... ab.C X... X... X..."),
    (Zero(1, &[1], 9, 9), "X... ab.C X... X... X..."),
    (Write(1, &[1], 2, b"D"), "X.D. ab.C X.D. X.D. X.D."),
    (Empty(2, &[2, 1]), ".... ab.C X.D. .... ...."),
    (Write(2, &[2, 1], 2, b""), ".... ab.C X.D. .... ...."),
    (Remove(2, &[2, 1]), "???? ab.C X.D. ???? ????"),
    (Remove(3, &[3, 2, 1]), "???? ab.C X.D. ???? ????"),
    (CopyUp(b"pp", true), "pp.. ab.C X.D. ???? pp.."),
    (WriteFull(3, &[3, 2], b"qrs"), "qrs. ab.C X.D. ???? qrs."),
    (Write(4, &[4, 2], 0, b"Z"), "Zrs. ab.C X.D. ???? qrs."),
    (Write(2, &[2, 1], 1, b"W"), "ZWs. ab.C X.D. ???? qrs."),
    (Trim(&[4, 1]), "ZWs. ab.C ???? ???? qrs."),
    (Trim(&[2]), "ZWs. ???? ???? ???? ????"),
    (Write(4, &[4], 3, b"t"), "ZWst ???? ???? ???? ????"),
    (New, "???? ???? ???? ???? ????"),
    (Write(0, &[], 0, b"abcd"), "abcd abcd abcd abcd abcd"),
    (Write(2, &[4, 2], 0, b"A"), "Abcd ???? abcd Abcd Abcd"),
    (Write(2, &[4, 2], 1, b"B"), "ABcd ???? abcd ABcd ABcd"),
    (Write(3, &[4, 2], 2, b"C"), "ABCd ???? abcd ???? ABCd"),
    (Zero(4, &[4, 2], 2, 1), "AB.d ???? abcd ???? ABCd"),
    (Zero(4, &[4, 2], 3, 1), "AB.. ???? abcd ???? ABCd"),
    (WriteFull(4, &[4, 2], b"g"), "g... ???? abcd ???? ABCd"),
    (CopyUp(b"nn", false), "g... ???? abcd ???? ABCd"),
    (Trim(&[4]), "g... ???? ???? ???? ABCd"),
    (Empty(4, &[4]), ".... ???? ???? ???? ABCd"),
    (CopyUp(b"mm", false), ".... ???? ???? ???? ABCd"),
    (Remove(4, &[4]), "???? ???? ???? ???? ABCd"),
    (CopyUp(b"oo", true), "oo.. ???? ???? ???? ABCd"),
    (Trim(&[]), "oo.. ???? ???? ???? ????"),
    (Write(4, &[], 3, b"k"), "oo.k ???? ???? ???? ????"),
    (WriteFull(4, &[], b""), ".... ???? ???? ???? ????"),
    (New, "???? ???? ???? ???? ????"),
    (CopyUp(b"uv", true), "uv.. uv.. uv.. uv.. uv.."),
    (Write(3, &[3, 2, 1], 1, b"w"), "uw.. uv.. uv.. uv.. uw.."),
    (Trim(&[1, 3]), "uw.. uv.. ???? uv.. uw.."),
    (Write(3, &[3, 1], 2, b"x"), "uwx. uv.. ???? uv.. uwx."),
    (Remove(4, &[4, 3, 1]), "???? uv.. ???? uv.. uwx."),
    (Trim(&[4]), "???? ???? ???? ???? uwx."),
    (Write(4, &[4], 1, b"y"), ".y.. ???? ???? ???? uwx."),
];

fn ids(alloc: Global, numbers: &[u32]) -> Result<Vec<SnapId>, NoMemory> {
    let mut snaps = Vec::new(alloc);
    for number in numbers {
        snaps.push(SnapId(*number))?;
    }
    Ok(snaps)
}

fn context(alloc: Global, number: u32, snaps: &[u32]) -> Result<SnapContext, NoMemory> {
    Ok(SnapContext {
        seq: SnapId(number),
        snaps: SnapIds::from_vec(ids(alloc, snaps)?),
    })
}

/// Does a change under its context.
fn change(
    rt: &impl Abort,
    object: &mut Object,
    given: &SnapContext,
    operation: &Operation,
) -> Result<(), NoMemory> {
    match operation {
        Write(_, _, at, bytes) => {
            assert!(rt; bytes.len() <= 4);
            object.write(given, *at as u64, bytes)
        }
        WriteFull(_, _, bytes) => {
            assert!(rt; bytes.len() <= 4);
            object.write_full(given, bytes)
        }
        Zero(_, _, at, len) => object.zero(given, *at as u64, *len as u64),
        Empty(..) => object.empty(given),
        _ => object.remove(given),
    }
}

fn copy_up(
    rt: &impl Abort,
    object: &mut Object,
    bytes: &[u8],
    copied: bool,
) -> Result<(), NoMemory> {
    let did = object.copy_up(bytes)?;
    assert_eq!(rt; did, copied);
    Ok(())
}

fn trim(alloc: Global, object: &mut Object, live: &[u32]) -> Result<(), NoMemory> {
    object.trim(ids(alloc, live)?.as_slice());
    Ok(())
}

/// Does an operation. All changes have one arm, so that a context is made, and let go, once.
fn apply(
    rt: &impl Abort,
    alloc: Global,
    object: &mut Object,
    operation: &Operation,
) -> Result<(), NoMemory> {
    match operation {
        New => {
            *object = Object::new(alloc);
            Ok(())
        }
        CopyUp(bytes, copied) => copy_up(rt, object, bytes, *copied),
        Trim(live) => trim(alloc, object, live),
        Write(number, snaps, ..)
        | WriteFull(number, snaps, _)
        | Zero(number, snaps, ..)
        | Empty(number, snaps)
        | Remove(number, snaps) => {
            let given = context(alloc, *number, snaps)?;
            change(rt, object, &given, operation)
        }
    }
}

/// The head for 0, else the snapshot of this number.
fn view_of(number: u32) -> Option<SnapId> {
    if number == 0 {
        None
    } else {
        Some(SnapId(number))
    }
}

/// Reads a view into a buffer, and writes its zeros as `.`.
fn look(rt: &impl Abort, object: &Object, number: u32, buffer: &mut [u8]) {
    let is_there = object.read(view_of(number), 0, buffer);
    assert_eq!(rt; is_there, object.exists(view_of(number)));
    for byte in buffer.iter_mut() {
        if *byte == 0 {
            *byte = b'.';
        }
    }
}

#[test]
fn views_after_each_operation(rt: HostRuntime) -> Result<(), Fail> {
    let alloc = rt.alloc();
    let mut object = Object::new(alloc);
    for (line, (operation, wanted)) in TABLE.iter().enumerate() {
        apply(&rt, alloc, &mut object, operation)?;
        let mut number = 0;
        for view in wanted.split_whitespace() {
            let mut buffer = [b'?'; 4];
            look(&rt, &object, number, &mut buffer);
            assert!(rt;
                buffer.as_slice() == view.as_bytes(),
                "line {line}, view {number}"
            );
            number = number.wrapping_add(1);
        }
    }
    Ok(())
}

#[test]
fn a_copy_up_fills_only_an_absent_head(rt: HostRuntime) -> Result<(), Fail> {
    let mut object = Object::new(rt.alloc());
    copy_up(&rt, &mut object, &[0xaa], true)?;
    copy_up(&rt, &mut object, &[0xbb], false)?;
    byte_is(&rt, &object, 0, 0, 0xaa);
    byte_is(&rt, &object, 0, LARGEST_OBJECT, 0);
    Ok(())
}

/// The byte of a view at an offset, where the object is there. What was in the buffer before is no
/// byte of it.
fn byte_of(object: &Object, number: u32, at: u64) -> Option<u8> {
    let mut byte = [b'?'];
    if object.read(view_of(number), at, &mut byte) {
        Some(byte[0])
    } else {
        None
    }
}

/// The object is there, and has this byte.
fn byte_is(rt: &impl Abort, object: &Object, number: u32, at: u64, byte: u8) {
    assert_eq!(rt; byte_of(object, number, at), Some(byte));
}

fn has_pages(rt: &impl Abort, object: &Object, pages: u64) {
    assert_eq!(rt; object.pages(), pages);
}

#[test]
fn versions_share_pages(rt: HostRuntime) -> Result<(), Fail> {
    let alloc = rt.alloc();
    let mut object = Object::new(alloc);
    let whole = Run {
        at: 0,
        byte: 7,
        len: 10_000,
    };
    write_under(alloc, &mut object, 0, &[], &whole)?;
    has_pages(&rt, &object, 3);

    let one_byte = Run {
        at: 4096,
        byte: 9,
        len: 1,
    };
    write_under(alloc, &mut object, 1, &[1], &one_byte)?;
    has_pages(&rt, &object, 4);
    byte_is(&rt, &object, 1, 4096, 7);
    byte_is(&rt, &object, 0, 4096, 9);

    object.trim(&[]);
    has_pages(&rt, &object, 3);
    Ok(())
}

/// Two parts of an object that take bytes 100, 101 and 104 of the image.
const PARTS: [Part; 2] = [
    Part {
        offset: 7,
        at: 100,
        len: 2,
    },
    Part {
        offset: 9,
        at: 104,
        len: 1,
    },
];

#[test]
fn parts_lie_in_the_bytes_of_an_extent(rt: HostRuntime) -> Result<(), Fail> {
    let shifts = shifted_parts(rt.alloc(), 99, &PARTS)?;
    let gathered = gather(rt.alloc(), b"abcdefg", shifts.as_slice())?;
    assert_eq!(rt; gathered.as_slice(), b"bcf".as_slice());
    Ok(())
}

#[test]
fn bytes_past_the_last_are_gathered_as_zeros(rt: HostRuntime) -> Result<(), Fail> {
    let gathered = gather(rt.alloc(), b"abcdefgh", &PARTS)?;
    assert_eq!(rt; gathered.as_slice(), b"h\0\0".as_slice());
    Ok(())
}

/// Random operations, and what they show, which a program of its own worked out on plain lists of
/// bytes. Each row has what is done: `w` writes, `z` makes zero, `p` does so with two parts, the
/// second at byte 9,000, `f` writes a whole head, `e` empties it, `r` removes it, `c` copies up and
/// `t` trims. Then come the context's number, its snapshots or those that are live (a bit each), an
/// offset, a length, and the byte that is written so often; and at the end a fingerprint of the
/// first 12,300 bytes of the head and of the snapshots 1 to 4, 0 for none.
const RANDOM: &str = "\
w 0 0 8193 269 156 2191290403 2191290403 2191290403 2191290403 2191290403
w 0 0 4096 5000 121 3827560967 3827560967 3827560967 3827560967 3827560967
z 0 0 4095 1 223 3827560967 3827560967 3827560967 3827560967 3827560967
c 0 0 1 4096 11 3827560967 3827560967 3827560967 3827560967 3827560967
w 0 0 7745 1588 183 560963758 560963758 560963758 560963758 560963758
f 1 1 9452 1 225 844334598 560963758 844334598 844334598 844334598
w 0 0 4097 1787 200 1655628238 560963758 1655628238 1655628238 1655628238
p 1 1 8192 2188 150 1655628238 560963758 1655628238 1655628238 1655628238
w 1 1 0 2482 172 2459787983 560963758 2459787983 2459787983 2459787983
p 1 1 12287 2332 27 2459787983 560963758 2459787983 2459787983 2459787983
p 1 1 9396 0 17 2459787983 560963758 2459787983 2459787983 2459787983
z 1 1 8191 1682 230 2459787983 560963758 2459787983 2459787983 2459787983
w 1 1 1948 4096 195 3352746631 560963758 3352746631 3352746631 3352746631
w 1 1 4097 148 80 4004020807 560963758 4004020807 4004020807 4004020807
w 2 3 4096 1195 157 2893974061 560963758 4004020807 2893974061 2893974061
w 2 3 5567 1 230 3905689040 560963758 4004020807 3905689040 3905689040
r 2 3 6327 2440 175 0 560963758 4004020807 0 0
z 2 3 8307 5000 185 0 560963758 4004020807 0 0
p 2 3 4097 2247 87 0 560963758 4004020807 0 0
w 2 3 0 4096 162 3618450823 560963758 4004020807 3618450823 3618450823
w 2 3 8191 1445 156 4200153891 560963758 4004020807 4200153891 4200153891
p 2 3 0 88 247 2228997667 560963758 4004020807 2228997667 2228997667
w 2 3 8191 1 81 4117685848 560963758 4004020807 4117685848 4117685848
f 3 7 8192 0 249 3922406791 560963758 4004020807 4117685848 3922406791
z 3 7 4096 1104 62 3922406791 560963758 4004020807 4117685848 3922406791
w 3 7 1589 2 243 4152675111 560963758 4004020807 4117685848 4152675111
w 3 7 4095 5000 167 4141182887 560963758 4004020807 4117685848 4141182887
w 3 7 1 1 81 3396075192 560963758 4004020807 4117685848 3396075192
e 3 7 4097 5000 22 3922406791 560963758 4004020807 4117685848 3922406791
e 3 7 4097 1111 119 3922406791 560963758 4004020807 4117685848 3922406791
w 3 7 8192 100 40 3563251591 560963758 4004020807 4117685848 3563251591
w 3 7 10201 1780 144 654857095 560963758 4004020807 4117685848 654857095
t 4 13 8193 2716 192 654857095 560963758 0 4117685848 654857095
z 4 13 9644 492 208 654857095 560963758 0 4117685848 654857095
w 3 5 8393 1761 148 2611148571 560963758 0 4117685848 654857095
w 4 13 12287 5000 6 3369030305 560963758 0 4117685848 654857095
z 4 13 10029 1 65 1005808909 560963758 0 4117685848 654857095
t 4 12 1005 1 32 1005808909 0 0 4117685848 654857095
c 4 12 4097 527 211 1005808909 0 0 4117685848 654857095
c 4 12 8192 2 64 1005808909 0 0 4117685848 654857095
w 4 12 8193 0 220 1005808909 0 0 4117685848 654857095
w 4 12 1 0 219 1005808909 0 0 4117685848 654857095
p 4 12 4095 2 99 945027725 0 0 4117685848 654857095
p 4 12 4096 1756 32 2129725841 0 0 4117685848 654857095
w 3 4 1309 176 96 2340743569 0 0 4117685848 654857095
z 4 12 0 1768 14 2129725841 0 0 4117685848 654857095
w 4 12 6889 1714 118 1062735185 0 0 4117685848 654857095
w 4 12 1 920 110 3299612753 0 0 4117685848 654857095
w 3 4 12287 1074 32 3720455403 0 0 4117685848 654857095
z 4 12 10850 2172 203 3930903899 0 0 4117685848 654857095
w 4 12 12287 4096 184 4266118163 0 0 4117685848 654857095
w 4 12 726 2312 26 3771612801 0 0 4117685848 654857095
p 4 12 5594 497 7 3771612801 0 0 4117685848 654857095
r 4 12 4661 364 10 0 0 0 4117685848 654857095
t 4 4 4096 5000 26 0 0 0 4117685848 0
z 4 4 1 1 166 0 0 0 4117685848 0
w 4 4 6450 4096 102 2003905927 0 0 4117685848 0
c 4 4 6149 1691 216 2003905927 0 0 4117685848 0
f 4 4 9499 2119 176 1254333655 0 0 4117685848 0
z 4 4 2446 100 192 1254333655 0 0 4117685848 0";

fn number(word: &str) -> u32 {
    match word.parse::<u32>() {
        Ok(number) => number,
        Err(_) => 0,
    }
}

/// The numbers of a row, with 0 for the letter before them.
fn numbers(alloc: Global, row: &str) -> Result<Vec<u32>, NoMemory> {
    let mut numbers = Vec::new(alloc);
    for word in row.split_whitespace() {
        numbers.push(number(word))?;
    }
    Ok(numbers)
}

fn field(numbers: &[u32], place: usize) -> u32 {
    match numbers.get(place) {
        Some(number) => *number,
        None => 0,
    }
}

/// The snapshots of some bits, newest first.
fn snaps_of(alloc: Global, bits: u32) -> Result<Vec<SnapId>, NoMemory> {
    let mut snaps = Vec::new(alloc);
    for (bit, snap) in [(8, 4), (4, 3), (2, 2), (1, 1)] {
        if bits & bit > 0 {
            snaps.push(SnapId(snap))?;
        }
    }
    Ok(snaps)
}

fn repeated(alloc: Global, byte: u32, len: u32) -> Result<Vec<u8>, NoMemory> {
    let mut bytes = Vec::new(alloc);
    bytes.resize(len as usize, (byte % 256) as u8)?;
    Ok(bytes)
}

fn part(offset: u32, len: u32) -> Part {
    Part {
        offset: offset as u64,
        at: 0,
        len: len as u64,
    }
}

/// Writes where that is within the largest object.
fn write(object: &mut Object, given: &SnapContext, at: u32, bytes: &[u8]) -> Result<(), NoMemory> {
    if bytes.len() > 20_000 {
        return Ok(());
    }
    if at > 20_000 {
        return Ok(());
    }
    object.write(given, at as u64, bytes)
}

/// One byte that stands so often from a place on.
#[derive(Clone, Copy)]
struct Run {
    at: u32,
    byte: u32,
    len: u32,
}

/// Writes a run, under the context of a number and these snapshots.
fn write_under(
    alloc: Global,
    object: &mut Object,
    number: u32,
    snaps: &[u32],
    run: &Run,
) -> Result<(), NoMemory> {
    let given = context(alloc, number, snaps)?;
    let bytes = repeated(alloc, run.byte, run.len)?;
    write(object, &given, run.at, bytes.as_slice())
}

/// Makes the head these bytes where they are within the largest object.
fn fill(object: &mut Object, given: &SnapContext, bytes: &[u8]) -> Result<(), NoMemory> {
    if bytes.len() > 20_000 {
        return Ok(());
    }
    object.write_full(given, bytes)
}

/// Does what a row's letter says.
fn step(alloc: Global, object: &mut Object, letter: u8, numbers: &[u32]) -> Result<(), NoMemory> {
    let snaps = snaps_of(alloc, field(numbers, 2))?;
    if letter == b't' {
        object.trim(snaps.as_slice());
        return Ok(());
    }
    let (at, len) = (field(numbers, 3), field(numbers, 4));
    let bytes = repeated(alloc, field(numbers, 5), len)?;
    if letter == b'c' {
        object.copy_up(bytes.as_slice())?;
        return Ok(());
    }
    let given = SnapContext {
        seq: SnapId(field(numbers, 1)),
        snaps: SnapIds::from_vec(snaps),
    };
    match letter {
        b'w' => write(object, &given, at, bytes.as_slice()),
        b'f' => fill(object, &given, bytes.as_slice()),
        b'z' => object.zero(&given, at as u64, len as u64),
        b'p' => object.zero_parts(&given, &[part(at, len), part(9_000, len)]),
        b'e' => object.empty(&given),
        _ => object.remove(&given),
    }
}

fn fingerprint(object: &Object, number: u32, buffer: &mut [u8]) -> u32 {
    if !object.read(view_of(number), 0, buffer) {
        return 0;
    }
    let mut print = 7_u32;
    for byte in buffer.iter() {
        print = print.wrapping_mul(31).wrapping_add(*byte as u32);
    }
    print
}

/// Whether the head and the snapshots show what a row says.
fn shows(object: &Object, numbers: &[u32], buffer: &mut [u8]) -> bool {
    for number in 0..5 {
        if fingerprint(object, number, buffer) != field(numbers, number as usize + 6) {
            return false;
        }
    }
    true
}

fn row_holds(
    alloc: Global,
    object: &mut Object,
    row: &str,
    buffer: &mut [u8],
) -> Result<bool, NoMemory> {
    let Some(letter) = row.as_bytes().first() else {
        return Ok(false);
    };
    let numbers = numbers(alloc, row)?;
    step(alloc, object, *letter, numbers.as_slice())?;
    Ok(shows(object, numbers.as_slice(), buffer))
}

/// Goes through the rows, and tells how many there are.
fn all_rows_hold(
    rt: &impl Abort,
    alloc: Global,
    object: &mut Object,
    buffer: &mut [u8],
) -> Result<u32, NoMemory> {
    let mut rows = 0_u32;
    for row in RANDOM.split('\n') {
        assert!(rt; row_holds(alloc, object, row, buffer)?, "{row}");
        rows = rows.wrapping_add(1);
    }
    Ok(rows)
}

#[test]
fn random_operations_show_what_plain_lists_do(rt: HostRuntime) -> Result<(), Fail> {
    let mut object = Object::new(rt.alloc());
    let mut buffer = repeated(rt.alloc(), 0, 12_300)?;
    let rows = all_rows_hold(&rt, rt.alloc(), &mut object, buffer.as_mut_slice())?;
    assert_eq!(rt; rows, 60);
    Ok(())
}
