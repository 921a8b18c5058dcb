//! A snapshot is taken, and one removed, by the parts of a request that come behind its event: each
//! as a request of its own, to its end. What it has to want was worked out from its diagram.
use crate::fixtures::{Alone, IMAGE, header, holds, plays};
use rbd_header::is_full;
use rbd_kinds::{Bytes, HeaderView, Name, NoMemory, SiteId, SnapView};
use rbd_snap::{RemoveSnap, TakeSnap};
use std::alloc::Global;

// ---- a snapshot is taken

/// The taking of a snapshot of a name, by a header that has room for one.
fn take_first(alloc: Global, header: &HeaderView) -> Result<Option<Alone<TakeSnap>>, NoMemory> {
    if is_full(header) {
        return Ok(None);
    }
    let Some(name) = Name::parse(Bytes::from_slice(alloc, b"first")?) else {
        return Ok(None);
    };
    let part = TakeSnap::new(SiteId::A, IMAGE, header, name);
    Ok(Some(Alone { part }))
}

/// Whether it wants these rows.
fn takes(alloc: Global, header: &HeaderView, rows: &str) -> Result<bool, NoMemory> {
    let Some(mut take) = take_first(alloc, header)? else {
        return Ok(false);
    };
    let played = plays(alloc, &mut take, rows);
    drop(take);
    played
}

/// The image's last snapshot was the fourth.
const TAKEN: &str = "map-get => bits 1
map-put snap 5 1000 => done
header-snap-add first => snap 5
done";

fn is_taken(alloc: Global) -> Result<bool, NoMemory> {
    let Some(header) = header(alloc, "size 4096 seq 4")? else {
        return Ok(false);
    };
    let taken = takes(alloc, &header, TAKEN);
    drop(header);
    taken
}

#[test]
fn a_snapshot_is_taken_behind_its_map(rt: HostRuntime) {
    assert!(rt; holds(is_taken(rt.alloc())));
}

// ---- a snapshot is removed

/// Whether the removal of a snapshot that a header lists wants these rows.
fn goes(
    alloc: Global,
    header: &HeaderView,
    listed: &SnapView,
    rows: &str,
) -> Result<bool, NoMemory> {
    let part = RemoveSnap::new(SiteId::A, IMAGE, header, listed);
    let mut removing = Alone { part };
    let played = plays(alloc, &mut removing, rows);
    drop(removing);
    played
}

/// The same of the snapshot that it lists under a name.
fn named_goes(
    alloc: Global,
    header: &HeaderView,
    name: &Name,
    rows: &str,
) -> Result<bool, NoMemory> {
    match header.named(name) {
        Some(listed) => goes(alloc, header, listed, rows),
        None => Ok(false),
    }
}

fn first_goes(alloc: Global, header: &HeaderView, rows: &str) -> Result<bool, NoMemory> {
    let Some(name) = Name::parse(Bytes::from_slice(alloc, b"first")?) else {
        return Ok(false);
    };
    named_goes(alloc, header, &name, rows)
}

/// Its map isn't there.
const REMOVED: &str = "header-snap-remove snap 3 => done
map-remove snap 3 => none
done";

fn is_removed(alloc: Global) -> Result<bool, NoMemory> {
    let words = "size 4096 snap 4096 called first id 3 seq 4";
    let Some(header) = header(alloc, words)? else {
        return Ok(false);
    };
    let removed = first_goes(alloc, &header, REMOVED);
    drop(header);
    removed
}

#[test]
fn a_snapshot_is_removed_and_its_map_may_be_gone(rt: HostRuntime) {
    assert!(rt; holds(is_removed(rt.alloc())));
}
