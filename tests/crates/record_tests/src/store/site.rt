//! What a site answers and logs. The wanted answers were worked out from the rules in prose.
use super::bench::{Bench, C1, IMAGE, create, name};
use crate::holds;
use rbd_kinds::{
    Answer, Bytes, ChildrenOp, DataOp, DirectoryOp, HeaderOp, ImageId, Name, NoMemory, Op, Part,
    Parts, SiteId, SnapContext, SnapId, SnapIds,
};
use rbd_site::{Done, DoneOp, Site};
use std::alloc::Global;
use std::process::Abort;
use std::test::Fail;

/// `len` bytes of an object from its first on.
fn front(alloc: Global, len: u64) -> Result<Parts, NoMemory> {
    let mut parts = Vec::new(alloc);
    parts.push(Part {
        offset: 0,
        at: 0,
        len,
    })?;
    Ok(Parts::from_vec(parts))
}

/// Takes a snapshot of the image, for client 1.
pub fn take_snap(bench: &mut Bench, name: Name) -> Result<Answer, NoMemory> {
    bench.apply(
        C1,
        Op::Header {
            image: IMAGE,
            op: HeaderOp::SnapAdd { name },
        },
    )
}

/// The context of a change while there are the snapshots from 1 up to a number, of which there is
/// one at most.
pub fn context(alloc: Global, number: u32) -> Result<SnapContext, NoMemory> {
    let mut snaps = Vec::new(alloc);
    if number > 0 {
        snaps.push(SnapId(number))?;
    }
    Ok(SnapContext {
        seq: SnapId(number),
        snaps: SnapIds::from_vec(snaps),
    })
}

/// Does an operation on an object of the image, for client 1.
pub fn on_object(bench: &mut Bench, object: u64, op: DataOp) -> Result<Answer, NoMemory> {
    let op = Op::on_object(bench.alloc, IMAGE, object, op)?;
    bench.apply(C1, op)
}

/// Writes one byte at the front of an object, while there are snapshots up to a number.
fn write_to(
    bench: &mut Bench,
    alloc: Global,
    object: u64,
    number: u32,
    byte: u8,
) -> Result<Answer, NoMemory> {
    let op = DataOp::Write {
        context: context(alloc, number)?,
        must: false,
        parts: front(alloc, 1)?,
        bytes: Bytes::from_slice(alloc, &[byte])?,
    };
    on_object(bench, object, op)
}

/// The same at object 0.
fn write(bench: &mut Bench, alloc: Global, number: u32, byte: u8) -> Result<Answer, NoMemory> {
    write_to(bench, alloc, 0, number, byte)
}

/// Reads the first bytes of an object.
fn read(
    bench: &mut Bench,
    alloc: Global,
    object: u64,
    snap: Option<SnapId>,
    len: u64,
) -> Result<Answer, NoMemory> {
    let parts = front(alloc, len)?;
    on_object(bench, object, DataOp::Read { snap, parts })
}

// Each of these lets the answer go that it looks at, so that no caller does.

/// Whether an answer is `Done`.
pub fn is_done(answer: Answer) -> bool {
    let same = matches!(&answer, Answer::Done);
    drop(answer);
    same
}

fn is_absent(answer: Answer) -> bool {
    let same = matches!(&answer, Answer::Absent);
    drop(answer);
    same
}

fn are_bytes(answer: Answer, wanted: &[u8]) -> bool {
    let same = match &answer {
        Answer::Bytes(bytes) => bytes.as_slice() == wanted,
        _ => false,
    };
    drop(answer);
    same
}

fn is_snap(answer: Answer, number: u32) -> bool {
    let same = match &answer {
        Answer::Snap(snap) => snap.0 == number,
        _ => false,
    };
    drop(answer);
    same
}

fn is_id(answer: Answer, id: u32) -> bool {
    let same = match &answer {
        Answer::Id(image) => image.0 == id,
        _ => false,
    };
    drop(answer);
    same
}

fn are_told_ids(answer: Answer, wanted: &[u32]) -> bool {
    let same = match &answer {
        Answer::Ids(ids) => are_ids(ids.as_slice(), wanted),
        _ => false,
    };
    drop(answer);
    same
}

fn are_ids(ids: &[ImageId], wanted: &[u32]) -> bool {
    if ids.len() != wanted.len() {
        return false;
    }
    ids.iter()
        .zip(wanted.iter())
        .all(|(id, number)| id.0 == *number)
}

/// Whether the image is made, and its object 0 begins with 17.
fn is_begun(rt: &impl Abort, alloc: Global, bench: &mut Bench) -> Result<bool, NoMemory> {
    let drawn = draws(rt, alloc, bench, 1)?;
    Ok(drawn && is_created(bench, alloc)? && is_written(bench, alloc, 0, 17))
}

fn is_created(bench: &mut Bench, alloc: Global) -> Result<bool, NoMemory> {
    Ok(is_done(create(bench, C1, alloc)?))
}

/// A site with one image, whose object 0 begins with 17.
fn with_image(rt: &impl Abort, alloc: Global) -> Result<Bench, NoMemory> {
    let mut bench = Bench::new(alloc)?;
    assert!(rt; holds(is_begun(rt, alloc, &mut bench)));
    Ok(bench)
}

/// Whether the snapshot is taken that gets this number.
fn takes(bench: &mut Bench, name: Name, number: u32) -> bool {
    match take_snap(bench, name) {
        Ok(answer) => is_snap(answer, number),
        Err(_) => false,
    }
}

/// Whether snapshot 1 is taken, and the byte becomes 34 after it.
fn is_taken(rt: &impl Abort, alloc: Global, bench: &mut Bench) -> Result<bool, NoMemory> {
    let taken = takes(bench, name(rt, alloc, b"s")?, 1);
    let written = is_done(write(bench, alloc, 1, 34)?);
    Ok(taken && written)
}

/// The same with snapshot 1, after which the byte became 34.
fn with_snapshot(rt: &impl Abort, alloc: Global) -> Result<Bench, NoMemory> {
    let mut bench = with_image(rt, alloc)?;
    assert!(rt; holds(is_taken(rt, alloc, &mut bench)));
    Ok(bench)
}

fn find(site: &Site, name: Name) -> Result<Answer, NoMemory> {
    let op = Op::Directory(DirectoryOp::Find { name });
    let found = site.answer(C1, &op);
    drop(op);
    found
}

/// Whether `disk` leads to no image, and the look isn't logged.
fn is_unknown(rt: &impl Abort, alloc: Global, site: &Site) -> Result<bool, NoMemory> {
    let name = name(rt, alloc, b"disk")?;
    let absent = is_absent(find(site, name)?);
    Ok(absent && site.log().is_empty())
}

#[test]
fn an_unknown_name_is_absent(rt: HostRuntime) -> Result<(), Fail> {
    let site = Site::new(rt.alloc(), SiteId::A)?;
    assert!(rt; holds(is_unknown(&rt, rt.alloc(), &site)));
    Ok(())
}

/// Whether the snapshot shows the byte before it, and the head the one after it.
fn shows_both(bench: &mut Bench, alloc: Global) -> bool {
    reads(bench, alloc, 0, Some(SnapId(1)), &[17, 0]) && reads(bench, alloc, 0, None, &[34, 0])
}

#[test]
fn a_snapshot_shows_what_was_written_before(rt: HostRuntime) -> Result<(), Fail> {
    let mut bench = with_snapshot(&rt, rt.alloc())?;
    assert!(rt; shows_both(&mut bench, rt.alloc()));
    Ok(())
}

/// The log behind a read of an object that isn't there: number, operation and answer.
const LINES: &str = "1|dir-add|id
2|header-create|done
3|data-write|done
4|header-snap-add|snap
5|data-write|done
6|data-read|none";

fn is_op(op: &DoneOp, kind: &str) -> bool {
    match op {
        DoneOp::Op(op) => op.kind().word() == kind,
        _ => false,
    }
}

/// Whether a line is the operation of the instance that a row wants.
fn is_line(line: &Done, row: &str) -> bool {
    let Some((number, rest)) = row.split_once('|') else {
        return false;
    };
    let Some((kind, answer)) = rest.split_once('|') else {
        return false;
    };
    if line.instance != Some(C1) || number.parse::<u64>() != Ok(line.number) {
        return false;
    }
    is_op(&line.op, kind) && line.answer.word() == answer
}

fn are_lines(rt: &impl Abort, log: &[Done]) {
    assert_eq!(rt; log.len(), 6);
    for (line, row) in log.iter().zip(LINES.split('\n')) {
        assert!(rt; is_line(line, row), "{row}");
    }
}

/// Reads an object that isn't there, and looks at the log.
fn read_and_look(rt: &impl Abort, alloc: Global, bench: &mut Bench) {
    assert!(rt; !reads(bench, alloc, 7, None, &[0, 0]));
    are_lines(rt, bench.site.log());
}

#[test]
fn each_operation_is_a_line(rt: HostRuntime) -> Result<(), Fail> {
    let mut bench = with_snapshot(&rt, rt.alloc())?;
    read_and_look(&rt, rt.alloc(), &mut bench);
    Ok(())
}

/// Whether object 0 is trimmed, and object 7, which isn't there, is not.
fn trims_what_is_there(site: &mut Site) -> Result<bool, NoMemory> {
    let there = site.trim(IMAGE, 0)?;
    let missing = site.trim(IMAGE, 7)?;
    Ok(there && !missing && site.log().len() == 6)
}

#[test]
fn an_object_is_there_once_it_was_changed(rt: HostRuntime) -> Result<(), Fail> {
    let mut bench = with_snapshot(&rt, rt.alloc())?;
    assert!(rt; holds(trims_what_is_there(&mut bench.site)));
    Ok(())
}

/// Whether a write is done.
fn is_written(bench: &mut Bench, alloc: Global, object: u64, byte: u8) -> bool {
    match write_to(bench, alloc, object, 0, byte) {
        Ok(answer) => is_done(answer),
        Err(_) => false,
    }
}

/// Whether an object's first two bytes are these, in the head or in a snapshot.
fn reads(
    bench: &mut Bench,
    alloc: Global,
    object: u64,
    snap: Option<SnapId>,
    wanted: &[u8],
) -> bool {
    match read(bench, alloc, object, snap, 2) {
        Ok(answer) => are_bytes(answer, wanted),
        Err(_) => false,
    }
}

/// Whether object 7 gets a byte of its own.
fn gets_its_own(bench: &mut Bench, alloc: Global) -> bool {
    let written = is_written(bench, alloc, 7, 51);
    let there = reads(bench, alloc, 7, None, &[51, 0]);
    written && there && reads(bench, alloc, 0, None, &[17, 0])
}

#[test]
fn a_write_to_object_7_is_read_there_alone(rt: HostRuntime) -> Result<(), Fail> {
    let mut bench = with_image(&rt, rt.alloc())?;
    assert!(rt; gets_its_own(&mut bench, rt.alloc()));
    Ok(())
}

/// Whether the object is trimmed, and the snapshot shows its byte.
fn is_kept(bench: &mut Bench, alloc: Global) -> Result<bool, NoMemory> {
    let trimmed = bench.site.trim(IMAGE, 0)?;
    Ok(trimmed && reads(bench, alloc, 0, Some(SnapId(1)), &[17, 0]))
}

#[test]
fn a_listed_snapshot_reads_the_same_after_a_trim(rt: HostRuntime) -> Result<(), Fail> {
    let mut bench = with_snapshot(&rt, rt.alloc())?;
    assert!(rt; holds(is_kept(&mut bench, rt.alloc())));
    Ok(())
}

/// Whether the name of the image is taken away: done the first time, and missing after it.
fn is_freed_once(bench: &mut Bench) -> bool {
    let first = is_freed(bench);
    let second = is_freed(bench);
    first && !second
}

fn is_freed(bench: &mut Bench) -> bool {
    match bench.apply(C1, Op::Directory(DirectoryOp::Remove { image: IMAGE })) {
        Ok(answer) => is_done(answer),
        Err(_) => false,
    }
}

/// Whether the name of the image gets this id.
fn draws(rt: &impl Abort, alloc: Global, bench: &mut Bench, id: u32) -> Result<bool, NoMemory> {
    let name = name(rt, alloc, b"d")?;
    Ok(is_id(add_name(bench, name)?, id))
}

fn add_name(bench: &mut Bench, name: Name) -> Result<Answer, NoMemory> {
    bench.apply(C1, Op::Directory(DirectoryOp::Add { name }))
}

/// Whether the name is freed, and gets another id when it is added again.
fn draws_another(rt: &impl Abort, alloc: Global, bench: &mut Bench) -> Result<bool, NoMemory> {
    let freed = is_freed_once(bench);
    let drawn = draws(rt, alloc, bench, 2)?;
    Ok(freed && drawn)
}

#[test]
fn a_freed_name_is_absent_and_its_id_is_not_drawn_again(rt: HostRuntime) -> Result<(), Fail> {
    let mut bench = with_image(&rt, rt.alloc())?;
    assert!(rt; holds(draws_another(&rt, rt.alloc(), &mut bench)));
    Ok(())
}

/// Whether a child is added.
fn adds_child(bench: &mut Bench, snap: u32, child: u32) -> bool {
    let add = ChildrenOp::Add {
        parent: IMAGE,
        snap: SnapId(snap),
        child: ImageId(child),
    };
    on_children(bench, add)
}

/// Whether a child is removed, which it is where it was there.
fn removes_child(bench: &mut Bench, snap: u32, child: u32) -> bool {
    let remove = ChildrenOp::Remove {
        parent: IMAGE,
        snap: SnapId(snap),
        child: ImageId(child),
    };
    on_children(bench, remove)
}

fn on_children(bench: &mut Bench, op: ChildrenOp) -> bool {
    match bench.apply(C1, Op::Children(op)) {
        Ok(answer) => is_done(answer),
        Err(_) => false,
    }
}

/// Whether these are the children of a snapshot.
fn are_children(bench: &mut Bench, snap: u32, wanted: &[u32]) -> bool {
    let list = ChildrenOp::List {
        parent: IMAGE,
        snap: SnapId(snap),
    };
    match bench.apply(C1, Op::Children(list)) {
        Ok(answer) => are_told_ids(answer, wanted),
        Err(_) => false,
    }
}

/// Whether children of two snapshots are listed by snapshot, ascending.
fn lists_children(bench: &mut Bench) -> bool {
    let one = adds_child(bench, 1, 3);
    let two = adds_child(bench, 1, 2);
    let other = adds_child(bench, 2, 4);
    let listed = are_children(bench, 1, &[2, 3]);
    one && two && other && listed
}

/// Whether a child that is removed isn't listed any more, and the others are.
fn lists_what_is_left(bench: &mut Bench) -> bool {
    let removed = removes_child(bench, 1, 2);
    let again = removes_child(bench, 1, 2);
    let left = are_children(bench, 1, &[3]);
    let other = are_children(bench, 2, &[4]);
    removed && !again && left && other
}

#[test]
fn children_are_listed_by_snapshot(rt: HostRuntime) -> Result<(), Fail> {
    let mut bench = Bench::new(rt.alloc())?;
    assert!(rt; lists_children(&mut bench) && lists_what_is_left(&mut bench));
    Ok(())
}
