//! Names and children, with answers worked out by hand.
use crate::holds;
use rbd_kinds::{Bytes, ImageId, Name, NoMemory, SnapId};
use rbd_registry::{AddFault, Children, Directory, RenameFault};
use std::alloc::Global;
use std::process::Abort;

const PARENT: ImageId = ImageId(7);

const SNAP: SnapId = SnapId(2);

fn name(rt: &impl Abort, alloc: Global, text: &[u8]) -> Result<Name, NoMemory> {
    Ok(Name::parse(Bytes::from_slice(alloc, text)?).expect(rt, "a name"))
}

fn is_id(added: Result<ImageId, AddFault>, id: u32) -> bool {
    match added {
        Ok(image) => image == ImageId(id),
        Err(_fault) => false,
    }
}

fn is_fault(added: Result<ImageId, AddFault>, why: AddFault) -> bool {
    match added {
        Ok(_image) => false,
        Err(fault) => fault == why,
    }
}

/// Whether a name is added, with this id.
fn adds(
    rt: &impl Abort,
    alloc: Global,
    directory: &mut Directory,
    text: &[u8],
    id: u32,
) -> Result<bool, NoMemory> {
    let name = name(rt, alloc, text)?;
    Ok(is_id(directory.add(&name), id))
}

/// Whether none is added, for this reason.
fn adds_none(
    rt: &impl Abort,
    alloc: Global,
    directory: &mut Directory,
    text: &[u8],
    why: AddFault,
) -> Result<bool, NoMemory> {
    let name = name(rt, alloc, text)?;
    Ok(is_fault(directory.add(&name), why))
}

fn finds(
    rt: &impl Abort,
    alloc: Global,
    directory: &Directory,
    text: &[u8],
    want: Option<ImageId>,
) -> Result<bool, NoMemory> {
    let name = name(rt, alloc, text)?;
    Ok(directory.find(&name) == want)
}

/// Whether a name is renamed, or why not.
fn renames(
    rt: &impl Abort,
    alloc: Global,
    directory: &mut Directory,
    from: &[u8],
    to: &[u8],
    want: Result<(), RenameFault>,
) -> Result<bool, NoMemory> {
    let from = name(rt, alloc, from)?;
    let to = name(rt, alloc, to)?;
    Ok(directory.rename(&from, &to) == want)
}

/// Whether the names are these, in this order.
fn lists(directory: &Directory, want: &[&[u8]]) -> Result<bool, NoMemory> {
    let names = directory.list()?;
    Ok(are_these(names.as_slice(), want))
}

fn are_these(names: &[Name], want: &[&[u8]]) -> bool {
    if names.len() != want.len() {
        return false;
    }
    for (name, text) in names.iter().zip(want) {
        if name.as_slice() != *text {
            return false;
        }
    }
    true
}

/// Three names, added in an order that isn't that of their bytes.
fn add_three(rt: &impl Abort, alloc: Global, directory: &mut Directory) {
    assert!(rt; holds(adds(rt, alloc, directory, b"disk", 1)));
    assert!(rt; holds(adds(rt, alloc, directory, b"data", 2)));
    assert!(rt; holds(adds(rt, alloc, directory, b"Disk", 3)));
}

#[test]
fn names_are_listed_by_their_bytes(rt: HostRuntime) {
    let mut directory = Directory::new(rt.alloc());
    add_three(&rt, rt.alloc(), &mut directory);
    assert!(rt; holds(lists(&directory, &[b"Disk", b"data", b"disk"])));
}

/// A name that isn't there, and one that is, are refused; a third one is renamed.
fn rename(rt: &impl Abort, alloc: Global, directory: &mut Directory) {
    assert!(rt; holds(finds(rt, alloc, directory, b"other", None)));
    assert!(rt; holds(adds_none(rt, alloc, directory, b"disk", AddFault::Exists)));
    let no_name = Err(RenameFault::NoName);
    assert!(rt; holds(renames(rt, alloc, directory, b"other", b"disk", no_name)));
    let exists = Err(RenameFault::Exists);
    assert!(rt; holds(renames(rt, alloc, directory, b"disk", b"data", exists)));
    assert!(rt; holds(renames(rt, alloc, directory, b"disk", b"other", Ok(()))));
    assert!(rt; holds(finds(rt, alloc, directory, b"disk", None)));
    assert!(rt; holds(finds(rt, alloc, directory, b"other", Some(ImageId(1)))));
}

#[test]
fn a_name_is_found_until_it_is_renamed_or_its_image_goes(rt: HostRuntime) {
    let alloc = rt.alloc();
    let mut directory = Directory::new(alloc);
    add_three(&rt, alloc, &mut directory);
    rename(&rt, alloc, &mut directory);
    assert!(rt; directory.remove(ImageId(1)));
    assert!(rt; !directory.remove(ImageId(1)));
    assert!(rt; holds(lists(&directory, &[b"Disk", b"data"])));
}

#[test]
fn an_id_is_not_drawn_again(rt: HostRuntime) {
    let alloc = rt.alloc();
    let mut directory = Directory::new(alloc);
    add_three(&rt, alloc, &mut directory);
    assert!(rt; directory.remove(ImageId(3)));
    assert!(rt; holds(adds(&rt, alloc, &mut directory, b"Disk", 4)));
}

/// A letter for the last hexadecimal digit of a number.
fn letter(number: u16) -> u8 {
    b'a' + (number % 16) as u8
}

/// Adds 4,096 names.
fn fill(rt: &impl Abort, alloc: Global, directory: &mut Directory) {
    for number in 0..4096u16 {
        let text = [letter(number / 256), letter(number / 16), letter(number)];
        assert!(rt; holds(adds(rt, alloc, directory, &text, number as u32 + 1)));
    }
}

#[test]
fn the_4097th_name_is_refused(rt: HostRuntime) {
    let alloc = rt.alloc();
    let mut directory = Directory::new(alloc);
    fill(&rt, alloc, &mut directory);
    assert!(rt; holds(adds_none(&rt, alloc, &mut directory, b"more", AddFault::Full)));
    assert!(rt; directory.remove(ImageId(1)));
    assert!(rt; holds(adds(&rt, alloc, &mut directory, b"more", 4097)));
}

/// Parents, their snapshots, and the children of these.
const CHILDREN: [(u32, u32, u32); 7] = [
    (7, 2, 9),
    (7, 2, 8),
    (7, 2, 9),
    (7, 1, 4),
    (7, 3, 5),
    (6, 2, 3),
    (8, 2, 1),
];

fn add_children(children: &mut Children) -> Result<(), NoMemory> {
    for (parent, snap, child) in CHILDREN {
        children.add(ImageId(parent), SnapId(snap), ImageId(child))?;
    }
    Ok(())
}

/// Whether these are the children of one snapshot.
fn are_children(children: &Children, want: &[ImageId]) -> Result<bool, NoMemory> {
    let found = children.of(PARENT, SNAP)?;
    Ok(found.as_slice() == want)
}

/// Whether the children of one snapshot are listed, and one that is removed no more.
fn lists_children(children: &mut Children) -> Result<bool, NoMemory> {
    add_children(children)?;
    let both = are_children(children, &[ImageId(8), ImageId(9)])?;
    let first = children.remove(PARENT, SNAP, ImageId(8));
    let second = children.remove(PARENT, SNAP, ImageId(8));
    let left = are_children(children, &[ImageId(9)])?;
    Ok(both && first && !second && left)
}

#[test]
fn children_are_those_of_one_snapshot(rt: HostRuntime) {
    let mut children = Children::new(rt.alloc());
    assert!(rt; holds(lists_children(&mut children)));
}
