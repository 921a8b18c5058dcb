//! Names, and names that are asked for.
use crate::{fails, holds};
use rbd_kinds::{AskedName, Bytes, Name, NoMemory, TryClone};
use std::alloc::Global;
use std::cmp::Ordering;
use std::process::Abort;

fn name(alloc: Global, text: &str) -> Result<Option<Name>, NoMemory> {
    Ok(Name::parse(Bytes::from_slice(alloc, text.as_bytes())?))
}

fn is_name(alloc: Global, text: &str) -> Result<bool, NoMemory> {
    Ok(name(alloc, text)?.is_some())
}

/// Whether a letter, so many times, is a name.
fn is_name_of_length(alloc: Global, len: usize) -> Result<bool, NoMemory> {
    let text = Bytes::from_vec(vec![in alloc; b'a'; len]?);
    Ok(Name::parse(text).is_some())
}

/// Each of some texts is a name, or none is.
fn are_names(rt: &impl Abort, alloc: Global, texts: &str, wanted: bool) {
    for text in texts.split('|') {
        assert!(rt; is_name(alloc, text) == Ok(wanted), "{text}");
    }
}

#[test]
fn names_are_one_to_sixty_four_bytes(rt: HostRuntime) {
    are_names(
        &rt,
        rt.alloc(),
        "a|Z|0|_|a.b-c_d|_.|0-|vm-1.disk_0|.|-|.sync|-a",
        true,
    );
    are_names(&rt, rt.alloc(), "|a/b|a@b|a b|a\n|\u{e9}", false);
    assert!(rt; holds(is_name_of_length(rt.alloc(), 63)));
    assert!(rt; holds(is_name_of_length(rt.alloc(), 64)));
    assert!(rt; fails(is_name_of_length(rt.alloc(), 65)));
}

fn asked(alloc: Global, text: &str) -> Result<Option<AskedName>, NoMemory> {
    Ok(AskedName::parse(Bytes::from_slice(alloc, text.as_bytes())?))
}

fn is_asked_name(alloc: Global, text: &str) -> Result<bool, NoMemory> {
    Ok(asked(alloc, text)?.is_some())
}

/// Each of some texts may be asked for as a name, or none may.
fn are_asked_names(rt: &impl Abort, alloc: Global, texts: &str, wanted: bool) {
    for text in texts.split('|') {
        assert!(rt; is_asked_name(alloc, text) == Ok(wanted), "{text}");
    }
}

#[test]
fn names_that_begin_with_a_dot_or_a_dash_are_not_asked_for(rt: HostRuntime) {
    are_asked_names(&rt, rt.alloc(), "a|Z|0|_|a.b-c_d|_.|0-|sync", true);
    are_asked_names(&rt, rt.alloc(), ".|-|.sync|.disk|-a||a/b", false);
}

/// Whether it has the bytes, and so does the name that it is and that it becomes.
fn is_named(asked: AskedName, text: &[u8]) -> bool {
    let seen = asked.as_slice() == text && asked.as_name().as_slice() == text;
    let name = asked.into_name();
    seen && name.as_slice() == text
}

fn has_its_bytes(alloc: Global, text: &str) -> Result<bool, NoMemory> {
    match asked(alloc, text)? {
        Some(asked) => Ok(is_named(asked, text.as_bytes())),
        None => Ok(false),
    }
}

#[test]
fn a_name_that_is_asked_for_has_the_bytes(rt: HostRuntime) {
    assert!(rt; holds(has_its_bytes(rt.alloc(), "disk")));
}

fn are_in_order(left: &Option<Name>, right: &Option<Name>, order: Ordering) -> bool {
    left.cmp(right) == order && (left == right) == (order == Ordering::Equal)
}

fn compare(alloc: Global, left: &str, right: &str, order: Ordering) -> Result<bool, NoMemory> {
    let left = name(alloc, left)?;
    let right = name(alloc, right)?;
    Ok(are_in_order(&left, &right, order))
}

#[test]
fn names_are_ordered_by_their_bytes(rt: HostRuntime) {
    assert!(rt; holds(compare(rt.alloc(), "a", "a", Ordering::Equal)));
    assert!(rt; holds(compare(rt.alloc(), "a", "aa", Ordering::Less)));
    assert!(rt; holds(compare(rt.alloc(), "b", "aa", Ordering::Greater)));
    assert!(rt; holds(compare(rt.alloc(), "Z", "a", Ordering::Less)));
    assert!(rt; holds(compare(rt.alloc(), "disk10", "disk9", Ordering::Less)));
}

/// Whether a name and its copy have the bytes.
fn is_copied(name: &Name, text: &[u8]) -> Result<bool, NoMemory> {
    let copy = name.try_clone()?;
    Ok(name.as_slice() == text && copy.as_slice() == text)
}

fn copy_has_the_bytes(alloc: Global, text: &str) -> Result<bool, NoMemory> {
    match name(alloc, text)? {
        Some(name) => is_copied(&name, text.as_bytes()),
        None => Ok(false),
    }
}

#[test]
fn a_name_and_its_copy_have_the_bytes(rt: HostRuntime) {
    assert!(rt; holds(copy_has_the_bytes(rt.alloc(), "disk")));
}
