//! Each call once, with answers worked out by hand.
use crate::holds;
use rbd_header::{Header, Held, SnapAddFault, View, context_of, snapshot, view_of};
use rbd_kinds::{
    Bytes, GlobalName, HeaderView, ImageId, Instance, Layout, Name, NoMemory, ParentLink, Role,
    SessionNo, SiteId, SnapContext, SnapId, SnapStatus, SnapView, Snaps,
};
use std::alloc::Global;
use std::process::Abort;
use std::test::Fail;

fn name(rt: &impl Abort, alloc: Global, text: &[u8]) -> Result<Name, NoMemory> {
    Ok(Name::parse(Bytes::from_slice(alloc, text)?).expect(rt, "a name"))
}

fn instance(session: u8) -> Instance {
    Instance {
        session: SessionNo(session),
        life: 0,
    }
}

fn parent(overlap: u64) -> Option<ParentLink> {
    Some(ParentLink {
        image: ImageId(3),
        snap: SnapId(4),
        overlap,
    })
}

/// A clone of 10,000 bytes of image 3's snapshot 4, which draws snapshot 6 next.
fn cloned(alloc: Global) -> Result<Header, NoMemory> {
    Header::make(HeaderView {
        layout: Layout {
            object: 4096,
            unit: 512,
            count: 2,
        },
        size: 10000,
        generation: 70,
        snap_seq: 5,
        snaps: Snaps::new(alloc),
        parent: parent(10000),
        depth: 1,
        born: 10000,
        born_clone: true,
        journal: false,
        syncing: true,
        owner: None,
        global: None,
        role: Role::Plain,
    })
}

/// A change that may be done at any header.
#[derive(Drop)]
enum Change {
    Size(u64),
    Status(SnapId, SnapStatus),
    Remove(SnapId),
    Detach,
    Role(Role),
    Global(GlobalName),
    Synced,
}

/// Does a change, of a header that has seen few, and answers whether it was done.
fn does(rt: &impl Abort, header: &mut Header, change: Change) -> bool {
    assert!(rt; header.generation() < 1000);
    match change {
        Change::Size(size) => header.set_size(size),
        Change::Status(snap, status) => return header.snap_status(snap, status),
        Change::Remove(snap) => return header.snap_remove(snap),
        Change::Detach => header.detach(),
        Change::Role(role) => header.set_role(role),
        Change::Global(global) => header.set_global(global),
        Change::Synced => header.synced(),
    }
    true
}

/// Takes a snapshot, of a header that has seen few changes.
fn add(rt: &impl Abort, header: &mut Header, name: &Name) -> Result<SnapId, SnapAddFault> {
    assert!(rt; header.generation() < 1000);
    header.snap_add(name)
}

fn is_id(added: Result<SnapId, SnapAddFault>, id: u32) -> bool {
    match added {
        Ok(snap) => snap == SnapId(id),
        Err(_fault) => false,
    }
}

fn is_fault(added: Result<SnapId, SnapAddFault>, why: SnapAddFault) -> bool {
    match added {
        Ok(_snap) => false,
        Err(fault) => fault == why,
    }
}

/// Whether a snapshot of a name is taken, with this id.
fn adds(
    rt: &impl Abort,
    alloc: Global,
    header: &mut Header,
    text: &[u8],
    id: u32,
) -> Result<bool, NoMemory> {
    let name = name(rt, alloc, text)?;
    Ok(is_id(add(rt, header, &name), id))
}

/// Whether none is taken, for this reason.
fn adds_none(
    rt: &impl Abort,
    alloc: Global,
    header: &mut Header,
    text: &[u8],
    why: SnapAddFault,
) -> Result<bool, NoMemory> {
    let name = name(rt, alloc, text)?;
    Ok(is_fault(add(rt, header, &name), why))
}

/// Whether a view has this size, generation, last id and number of snapshots, and this parent.
fn header_is(alloc: Global, view: &HeaderView, want: &str) -> bool {
    let numbers = (view.size, view.generation, view.snap_seq, view.snaps.len());
    match format!(in alloc; "{numbers:?} {:?}", view.parent) {
        Ok(text) => text.as_str() == want,
        Err(_) => false,
    }
}

/// Whether a snapshot has this id, size, status and parent.
fn snap_is(alloc: Global, snap: Option<&SnapView>, want: &str) -> bool {
    let Some(snap) = snap else {
        return false;
    };
    match format!(in alloc;
        "{:?} {} {:?} {:?}",
        snap.id, snap.size, snap.status, snap.parent
    ) {
        Ok(text) => text.as_str() == want,
        Err(_) => false,
    }
}

fn named_is(
    rt: &impl Abort,
    alloc: Global,
    view: &HeaderView,
    text: &[u8],
    want: &str,
) -> Result<bool, NoMemory> {
    let name = name(rt, alloc, text)?;
    Ok(snap_is(alloc, view.named(&name), want))
}

fn is_listed(
    rt: &impl Abort,
    alloc: Global,
    view: &HeaderView,
    text: &[u8],
) -> Result<bool, NoMemory> {
    let name = name(rt, alloc, text)?;
    Ok(view.named(&name).is_some())
}

/// The head has 8,000 bytes and its overlap 6,000, as after a cut, and the snapshot has what it was
/// taken with.
fn keeps_first(rt: &impl Abort, alloc: Global, header: &Header) -> Result<bool, NoMemory> {
    let head =
        "(8000, 73, 6, 1) Some(ParentLink { image: ImageId(3), snap: SnapId(4), overlap: 6000 })";
    let snap =
        "SnapId(6) 10000 Unprotected Some(ParentLink { image: ImageId(3), snap: SnapId(4), overlap: 10000 })";
    let view = header.view()?;
    if !header_is(alloc, &view, head) {
        return Ok(false);
    }
    named_is(rt, alloc, &view, b"first", snap)
}

/// Takes a snapshot, and changes the size twice.
fn snap_and_resize(rt: &impl Abort, alloc: Global, header: &mut Header) {
    assert!(rt; holds(adds(rt, alloc, header, b"first", 6)));
    does(rt, header, Change::Size(6000));
    does(rt, header, Change::Size(8000));
    assert!(rt; holds(adds_none(rt, alloc, header, b"first", SnapAddFault::Exists)));
}

#[test]
fn a_snapshot_keeps_size_and_overlap(rt: HostRuntime) -> Result<(), Fail> {
    let mut header = cloned(rt.alloc())?;
    snap_and_resize(&rt, rt.alloc(), &mut header);
    assert!(rt; holds(keeps_first(&rt, rt.alloc(), &header)));
    Ok(())
}

/// Only `second` is left, protected.
fn keeps_second(rt: &impl Abort, alloc: Global, header: &Header) -> Result<bool, NoMemory> {
    let head =
        "(10000, 74, 7, 1) Some(ParentLink { image: ImageId(3), snap: SnapId(4), overlap: 10000 })";
    let snap =
        "SnapId(7) 10000 Protected Some(ParentLink { image: ImageId(3), snap: SnapId(4), overlap: 10000 })";
    let view = header.view()?;
    if !header_is(alloc, &view, head) || !snap_is(alloc, snapshot(&view, SnapId(7)), snap) {
        return Ok(false);
    }
    named_is(rt, alloc, &view, b"second", snap)
}

/// Neither by its name nor by its id.
fn lists_no_first(rt: &impl Abort, alloc: Global, header: &Header) -> Result<bool, NoMemory> {
    let view = header.view()?;
    let by_name = is_listed(rt, alloc, &view, b"first")?;
    Ok(!by_name && snapshot(&view, SnapId(6)).is_none())
}

/// A header of 10,000 bytes with the snapshots 6, `first`, and 7, `second`.
fn snapped_twice(rt: &impl Abort, alloc: Global) -> Result<Header, NoMemory> {
    let mut header = cloned(alloc)?;
    assert!(rt; holds(adds(rt, alloc, &mut header, b"first", 6)));
    assert!(rt; holds(adds(rt, alloc, &mut header, b"second", 7)));
    Ok(header)
}

/// Protects the snapshot 7 and removes the snapshot 6, which is then not there.
fn protect_and_remove(rt: &impl Abort, header: &mut Header) {
    let protected = SnapStatus::Protected;
    assert!(rt; does(rt, header, Change::Status(SnapId(7), protected)));
    assert!(rt; does(rt, header, Change::Remove(SnapId(6))));
    assert!(rt; !does(rt, header, Change::Remove(SnapId(6))));
    assert!(rt; !does(rt, header, Change::Status(SnapId(6), protected)));
}

#[test]
fn a_snapshot_is_protected_and_removed(rt: HostRuntime) -> Result<(), Fail> {
    let alloc = rt.alloc();
    let mut header = snapped_twice(&rt, alloc)?;
    protect_and_remove(&rt, &mut header);
    assert!(rt; holds(keeps_second(&rt, alloc, &header)));
    assert!(rt; holds(lists_no_first(&rt, alloc, &header)));
    Ok(())
}

/// A header of 8,000 bytes with the snapshots 6, `first`, of 10,000 bytes, and 7, `second`, of
/// 8,000.
fn snapped(rt: &impl Abort, alloc: Global) -> Result<Header, NoMemory> {
    let mut header = cloned(alloc)?;
    assert!(rt; holds(adds(rt, alloc, &mut header, b"first", 6)));
    does(rt, &mut header, Change::Size(8000));
    assert!(rt; holds(adds(rt, alloc, &mut header, b"second", 7)));
    Ok(header)
}

fn lists_newest_first(context: &SnapContext) -> bool {
    context.seq == SnapId(7) && context.snaps.as_slice() == [SnapId(7), SnapId(6)].as_slice()
}

fn context_is_in_order(alloc: Global, header: &Header) -> Result<bool, NoMemory> {
    let view = header.view()?;
    let context = context_of(alloc, &view)?;
    Ok(lists_newest_first(&context))
}

#[test]
fn a_context_lists_the_newest_first(rt: HostRuntime) -> Result<(), Fail> {
    let header = snapped(&rt, rt.alloc())?;
    assert!(rt; holds(context_is_in_order(rt.alloc(), &header)));
    Ok(())
}

fn view_is(alloc: Global, view: Option<View>, want: &str) -> bool {
    match format!(in alloc; "{view:?}") {
        Ok(text) => text.as_str() == want,
        Err(_) => false,
    }
}

/// Whether the view of a name is this one.
fn view_of_name_is(
    rt: &impl Abort,
    alloc: Global,
    header: &HeaderView,
    text: &[u8],
    want: &str,
) -> Result<bool, NoMemory> {
    let name = name(rt, alloc, text)?;
    Ok(view_is(alloc, view_of(header, Some(&name)), want))
}

/// Whether there are views of the head and of a snapshot, and none of another name.
fn has_its_views(rt: &impl Abort, alloc: Global, header: &Header) -> Result<bool, NoMemory> {
    let view = header.view()?;
    let head = "Some(View { snap: None, size: 8000 })";
    let old = "Some(View { snap: Some(SnapId(6)), size: 10000 })";
    let named = holds(view_of_name_is(rt, alloc, &view, b"first", old))
        && holds(view_of_name_is(rt, alloc, &view, b"third", "None"));
    Ok(named && view_is(alloc, view_of(&view, None), head))
}

#[test]
fn views_of_names(rt: HostRuntime) -> Result<(), Fail> {
    let header = snapped(&rt, rt.alloc())?;
    assert!(rt; holds(has_its_views(&rt, rt.alloc(), &header)));
    Ok(())
}

/// Takes 256 snapshots.
fn fill(rt: &impl Abort, alloc: Global, header: &mut Header) {
    for number in 0..256u16 {
        let text = [letter(number / 16), letter(number)];
        assert!(rt; holds(adds(rt, alloc, header, &text, 6 + number as u32)));
    }
}

#[test]
fn the_257th_snapshot_is_refused(rt: HostRuntime) -> Result<(), Fail> {
    let mut header = cloned(rt.alloc())?;
    fill(&rt, rt.alloc(), &mut header);
    assert!(rt; holds(adds_none(&rt, rt.alloc(), &mut header, b"more", SnapAddFault::Full)));
    Ok(())
}

/// A letter for the last hexadecimal digit of a number.
fn letter(number: u16) -> u8 {
    b'a' + (number % 16) as u8
}

fn locks(header: &mut Header, session: u8) -> bool {
    header.lock(instance(session)).is_ok()
}

/// Whether another session has the lock.
fn is_held_by(header: &mut Header, session: u8, owner: u8) -> bool {
    match header.lock(instance(session)) {
        Ok(()) => false,
        Err(Held(holder)) => holder == instance(owner),
    }
}

/// Whether session 1 has the lock, and session 2 only gets it when it was broken.
fn has_one_owner(header: &mut Header) -> bool {
    let taken = locks(header, 1) && locks(header, 1) && is_held_by(header, 2, 1);
    let kept = !header.unlock(instance(2)) && !header.break_lock(instance(2));
    let freed = header.break_lock(instance(1)) && locks(header, 2) && header.unlock(instance(2));
    taken && kept && freed && header.owner().is_none() && header.generation() == 70
}

#[test]
fn the_lock_has_one_owner(rt: HostRuntime) -> Result<(), Fail> {
    let mut header = cloned(rt.alloc())?;
    assert!(rt; has_one_owner(&mut header));
    Ok(())
}

fn remote_name() -> GlobalName {
    GlobalName {
        site: SiteId::B,
        image: ImageId(9),
    }
}

fn tells_mirroring(view: &HeaderView) -> bool {
    view.role == Role::Primary
        && view.global == Some(remote_name())
        && view.parent.is_none()
        && !view.syncing
        && view.generation == 74
}

fn is_mirrored(header: &Header) -> Result<bool, NoMemory> {
    let view = header.view()?;
    Ok(tells_mirroring(&view))
}

#[test]
fn mirroring_begins_as_the_primary(rt: HostRuntime) -> Result<(), Fail> {
    let mut header = cloned(rt.alloc())?;
    does(&rt, &mut header, Change::Role(Role::Secondary));
    does(&rt, &mut header, Change::Global(remote_name()));
    does(&rt, &mut header, Change::Synced);
    does(&rt, &mut header, Change::Detach);
    assert!(rt; holds(is_mirrored(&header)));
    Ok(())
}

fn tells_second(view: &HeaderView, status: SnapStatus) -> bool {
    match snapshot(view, SnapId(7)) {
        Some(snap) => snap.status == status,
        None => false,
    }
}

/// Whether the snapshot 7 is told with this status.
fn second_is(header: &Header, status: SnapStatus) -> Result<bool, NoMemory> {
    let view = header.view()?;
    Ok(tells_second(&view, status))
}

fn has_no_second(header: &Header) -> Result<bool, NoMemory> {
    let view = header.view()?;
    Ok(snapshot(&view, SnapId(7)).is_none())
}

/// Shares the list, as often as it is asked for.
fn is_shared(header: &mut Header) -> Result<bool, NoMemory> {
    header.share()?;
    Ok(header.snaps().len() == 2)
}

/// The snapshot 7 is protected, and then removed: the list that is shared anew tells it.
fn changes_are_told(rt: &impl Abort, header: &mut Header) -> Result<bool, NoMemory> {
    if !is_shared(header)? || !second_is(header, SnapStatus::Unprotected)? {
        return Ok(false);
    }
    let protect = Change::Status(SnapId(7), SnapStatus::Protected);
    does(rt, header, protect);
    if !second_is(header, SnapStatus::Protected)? || !is_shared(header)? {
        return Ok(false);
    }
    does(rt, header, Change::Remove(SnapId(7)));
    has_no_second(header)
}

/// Whether the list is shared, told as it is after each change, and a view of before keeps its own.
fn is_told(rt: &impl Abort, header: &mut Header) -> Result<bool, NoMemory> {
    let shared = is_shared(header)?;
    let before = header.view()?;
    let told = holds(changes_are_told(rt, header));
    Ok(shared && told && before.snaps.len() == 2 && header.snaps().len() == 1)
}

#[test]
fn a_shared_list_is_told_until_it_changes(rt: HostRuntime) -> Result<(), Fail> {
    let mut header = snapped(&rt, rt.alloc())?;
    assert!(rt; holds(is_told(&rt, &mut header)));
    Ok(())
}
