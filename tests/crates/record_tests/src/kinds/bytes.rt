//! Bytes and lists, their copies, and what shares them.
use crate::{fails, holds};
use rbd_kinds::{Bytes, Growing, Ids, ImageId, NoMemory, Payload, Sequence, TryClone};
use std::alloc::Global;
use std::process::Abort;
use std::test::Fail;

fn are(bytes: &Bytes, wanted: &[u8]) -> bool {
    bytes.len() == wanted.len()
        && bytes.is_empty() == wanted.is_empty()
        && bytes.as_slice() == wanted
}

/// Whether the bytes and their copy are these.
fn are_kept(bytes: &Bytes, wanted: &[u8]) -> Result<bool, NoMemory> {
    let copy = bytes.try_clone()?;
    Ok(are(bytes, wanted) && are(&copy, wanted))
}

#[test]
fn bytes_are_kept(rt: HostRuntime) -> Result<(), Fail> {
    let none = Bytes::new(rt.alloc());
    assert!(rt; are(&none, b""));
    let some = Bytes::from_slice(rt.alloc(), b"abc")?;
    assert!(rt; holds(are_kept(&some, b"abc")));
    Ok(())
}

/// Whether so many of the bytes from a place on are these.
fn slice_is(bytes: &Bytes, at: usize, wanted: &[u8]) -> Result<bool, NoMemory> {
    if bytes.len() < at || bytes.len() - at < wanted.len() {
        return Ok(false);
    }
    let slice = bytes.slice(at, wanted.len())?;
    Ok(are(&slice, wanted))
}

/// A copy and slices of bytes that lie in their own memory, or in shared memory.
fn copies_and_slices_are_the_bytes(bytes: &Bytes) -> Result<bool, NoMemory> {
    let kept = are_kept(bytes, b"abcde")?;
    let whole = slice_is(bytes, 0, b"abcde")?;
    let middle = slice_is(bytes, 1, b"bcd")?;
    let none = slice_is(bytes, 5, b"")?;
    Ok(kept && whole && middle && none)
}

/// The same of a copy that is shared once more, while the bytes stay.
fn copy_is_shared(bytes: &Bytes) -> Result<bool, NoMemory> {
    let again = bytes.try_clone()?.share()?;
    copies_and_slices_are_the_bytes(&again)
}

/// The same of what shares the bytes.
fn are_shared(own: Bytes) -> Result<bool, NoMemory> {
    let shared = own.share()?;
    Ok(holds(copies_and_slices_are_the_bytes(&shared)) && holds(copy_is_shared(&shared)))
}

#[test]
fn shared_bytes_are_the_bytes(rt: HostRuntime) -> Result<(), Fail> {
    let own = Bytes::from_slice(rt.alloc(), b"abcde")?;
    assert!(rt; holds(copies_and_slices_are_the_bytes(&own)));
    assert!(rt; holds(are_shared(own)));
    Ok(())
}

const LIST: [ImageId; 2] = [ImageId(3); 2];

fn is_list(ids: &Ids) -> bool {
    ids.len() == 2 && !ids.is_empty() && ids.as_slice() == LIST.as_slice()
}

fn copy_is_list(ids: &Ids) -> Result<bool, NoMemory> {
    let copy = ids.try_clone()?;
    Ok(is_list(&copy))
}

/// Whether the items of the list are taken out of it as they were.
fn gives_list(ids: Ids) -> Result<bool, NoMemory> {
    let items = ids.into_vec()?;
    Ok(items.as_slice() == LIST.as_slice())
}

/// The same of a copy that is shared once more, while the list stays.
fn copy_gives_list(ids: &Ids) -> Result<bool, NoMemory> {
    gives_list(ids.try_clone()?.share()?)
}

fn is_shared(own: Ids) -> Result<bool, NoMemory> {
    let shared = own.share()?;
    let copied = holds(copy_is_list(&shared)) && holds(copy_gives_list(&shared));
    let given = gives_list(shared)?;
    Ok(copied && given)
}

fn is_kept(alloc: Global) -> Result<bool, NoMemory> {
    let own = Ids::from_vec(Vec::from_slice(alloc, &LIST)?);
    let copied = holds(copy_is_list(&own));
    let shared = is_shared(own)?;
    Ok(copied && shared)
}

#[test]
fn a_shared_list_and_its_copies_are_the_list(rt: HostRuntime) {
    assert!(rt; holds(is_kept(rt.alloc())));
}

/// Whether a list that is empty grows by two numbers, and becomes a list that holds them.
fn grows(mut ids: Growing<u32>) -> Result<bool, NoMemory> {
    push_two(&mut ids)?;
    let grown = ids.len() == 2 && !ids.is_empty() && ids.as_slice() == [7, 5].as_slice();
    let same = Sequence::from_vec(ids.into_vec());
    Ok(grown && same.as_slice() == [7, 5].as_slice())
}

fn push_two(ids: &mut Growing<u32>) -> Result<(), NoMemory> {
    ids.push(7)?;
    ids.push(5)
}

#[test]
fn a_list_grows_at_its_end(rt: HostRuntime) {
    let ids = Growing::new(rt.alloc());
    assert!(rt; ids.is_empty());
    assert!(rt; holds(grows(ids)));
}

fn payload_is(bytes: Bytes, wanted: &[u8]) -> bool {
    match Payload::new(bytes) {
        Some(payload) => payload.into_bytes().as_slice() == wanted,
        None => false,
    }
}

#[test]
fn a_payload_gives_its_bytes(rt: HostRuntime) -> Result<(), Fail> {
    assert!(rt; payload_is(Bytes::from_slice(rt.alloc(), b"abc")?, b"abc"));
    Ok(())
}

/// Whether so many bytes are a payload.
fn is_payload(alloc: Global, len: usize) -> Result<bool, NoMemory> {
    let bytes = Bytes::from_vec(vec![in alloc; b'a'; len]?);
    Ok(Payload::new(bytes).is_some())
}

#[test]
fn a_payload_has_a_byte_and_not_too_many(rt: HostRuntime) {
    assert!(rt; fails(is_payload(rt.alloc(), 0)));
    assert!(rt; holds(is_payload(rt.alloc(), 1)));
    assert!(rt; holds(is_payload(rt.alloc(), 65_536)));
    assert!(rt; fails(is_payload(rt.alloc(), 65_537)));
}
