//! Operations on the header of an image.
ghost use Rattle.std.specs.Prelude.{◌≡◌, ℕ, ◌+◌, ◌^◌, ◌<◌, if◌then◌else◌, List, Some, None, is_some, option_map, unwrap_or, IfSome, IfOk, OnOk, OnErr};
ghost use Rattle.rbd_site.specs.Records.{put};
ghost use Rattle.rbd_site.specs.Maps.{header_in};
ghost use Rattle.rbd_site.specs.Log.{live_in};
ghost use Rattle.rbd_kinds.specs.Header.{snap_named};
ghost use Rattle.rbd_kinds.specs.declared.id.Instance.{Instance};
ghost use Rattle.rbd_header.specs.Header.{snap_in, is_full, with_snap};
ghost use Rattle.rbd_site.specs.HeaderStep.{IsToldAlone, MayDoOnHeader, is_owner, lock_taken, lock_left, snap_added, where_made, there_answer, missing_answer, header_answer, header_then, header_after};

use crate::found::done_where;
use rbd_header::{Header, SnapAddFault, ids_of};
use rbd_kinds::{
    Answer, HeaderOp, HeaderView, ImageId, Instance, Name, NoMemory, Shared, SnapId, TryClone,
};
use std::alloc::Global;
use std::collections::BTreeMap;

/// What an operation is answered now, whoever watches.
pub fn answer(
    alloc: Global,
    headers: &BTreeMap<ImageId, Header>,
    image: ImageId,
    instance: Instance,
    op: &HeaderOp,
) -> Result<Answer, NoMemory>
    requires may { MayDoOnHeader (header_in headers.now image) op.now }
    requires alone { IsToldAlone op.now }
    ensures { (watchers : List Instance)
        → IfOk result (λ answer. answer ≡ header_answer instance (header_in headers.now image) watchers op.now) }
{
    match headers.get(&image) {
        Some(header) => answer_there(alloc, header, instance, op),
        None => Ok(answer_missing(op)),
    }
}

/// The header of an image, if it is there, as a look at it tells.
pub fn view(
    headers: &BTreeMap<ImageId, Header>,
    image: ImageId,
) -> Result<Option<HeaderView>, NoMemory>
    ensures { IfOk result (λ header. header ≡ header_in headers.now image) }
{
    match headers.get(&image) {
        Some(header) => Ok(Some(header.view()?)),
        None => Ok(None),
    }
}

/// Before a look at a header, if it is there: views of it share one list of its snapshots from now
/// on.
pub fn share(
    headers: &mut BTreeMap<ImageId, Header>,
    image: ImageId,
    op: &HeaderOp,
) -> Result<(), NoMemory>
    ensures { (i : ℕ) → header_in headers.new i ≡ header_in headers.old i }
{
    match op {
        HeaderOp::Get => share_list(headers, image),
        _ => Ok(()),
    }
}

fn share_list(headers: &mut BTreeMap<ImageId, Header>, image: ImageId) -> Result<(), NoMemory>
    ensures { (i : ℕ) → header_in headers.new i ≡ header_in headers.old i }
{
    let Some(header) = headers.get_mut(&image) else {
        return Ok(());
    };
    header.share()
}

/// Does an operation, or nothing at all.
pub fn change(
    headers: &mut BTreeMap<ImageId, Header>,
    image: ImageId,
    instance: Instance,
    op: &HeaderOp,
) -> Result<(), NoMemory>
    requires may { MayDoOnHeader (header_in headers.old image) op.now }
    requires generation { IfSome (header_in headers.old image) (λ h. h.generation + 1 < 2 ^ 64) }
    ensures ok { OnOk result ((i : ℕ) → header_in headers.new i ≡ put (header_in headers.old) image
        (header_after instance (header_in headers.old image) op.now) i) }
    ensures err { OnErr result ((i : ℕ) → header_in headers.new i ≡ header_in headers.old i) }
{
    match op {
        HeaderOp::Remove => {
            headers.remove(&image);
            Ok(())
        }
        HeaderOp::Create { view } => create(headers, image, view),
        _ => change_kept(headers, image, instance, op),
    }
}

/// The ids of the snapshots that a header lists: none where it is gone.
pub fn live_snaps(
    alloc: Global,
    headers: &BTreeMap<ImageId, Header>,
    image: ImageId,
) -> Result<Vec<SnapId>, NoMemory>
    ensures { IfOk result (λ live. live.items ≡ live_in (header_in headers.now image)) }
{
    match headers.get(&image) {
        Some(header) => ids_of(alloc, header.snaps()),
        None => Ok(Vec::new(alloc)),
    }
}

/// Makes a header where there is none.
fn create(
    headers: &mut BTreeMap<ImageId, Header>,
    image: ImageId,
    view: &HeaderView,
) -> Result<(), NoMemory>
    ensures ok { OnOk result ((i : ℕ) → header_in headers.new i ≡ put (header_in headers.old) image
        (Some (unwrap_or (header_in headers.old image) view.now)) i) }
    ensures err { OnErr result ((i : ℕ) → header_in headers.new i ≡ header_in headers.old i) }
{
    if headers.contains_key(&image) {
        return Ok(());
    }
    headers.insert(image, Header::make(view.try_clone()?)?)?;
    Ok(())
}

/// Changes a header that stays, if it is there.
fn change_kept(
    headers: &mut BTreeMap<ImageId, Header>,
    image: ImageId,
    instance: Instance,
    op: &HeaderOp,
) -> Result<(), NoMemory>
    requires may { MayDoOnHeader (header_in headers.old image) op.now }
    requires generation { IfSome (header_in headers.old image) (λ h. h.generation + 1 < 2 ^ 64) }
    ensures ok { OnOk result ((i : ℕ) → header_in headers.new i ≡ put (header_in headers.old) image
        (option_map (λ h. header_then instance h op.now) (header_in headers.old image)) i) }
    ensures err { OnErr result ((i : ℕ) → header_in headers.new i ≡ header_in headers.old i) }
{
    let Some(header) = headers.get_mut(&image) else {
        return Ok(());
    };
    change_and_share(header, instance, op)?;
    Ok(())
}

/// Changes a header. Where its list of snapshots changed, views of it share the new one at once if
/// there is memory for it; else from a later look on. That it is shared is no part of what the
/// header tells, so this refuses nothing.
fn change_and_share(header: &mut Header, instance: Instance, op: &HeaderOp) -> Result<(), NoMemory>
    requires may { MayDoOnHeader (Some header.old) op.now }
    requires generation { header.old.generation + 1 < 2 ^ 64 }
    ensures ok { OnOk result (header.new ≡ header_then instance header.old op.now) }
    ensures err { OnErr result (header.new ≡ header.old) }
{
    change_header(header, instance, op)?;
    let _shared = header.share();
    Ok(())
}

fn change_header(header: &mut Header, instance: Instance, op: &HeaderOp) -> Result<(), NoMemory>
    requires may { MayDoOnHeader (Some header.old) op.now }
    requires generation { header.old.generation + 1 < 2 ^ 64 }
    ensures ok { OnOk result (header.new ≡ header_then instance header.old op.now) }
    ensures err { OnErr result (header.new ≡ header.old) }
{
    match op {
        HeaderOp::SnapAdd { name } => add_snap(header, name)?,
        HeaderOp::SnapRemove { snap } => {
            let _found = header.snap_remove(*snap);
        }
        HeaderOp::SnapStatus { snap, status } => {
            let _found = header.snap_status(*snap, *status);
        }
        HeaderOp::SetSize { size } => header.set_size(*size),
        HeaderOp::Detach => header.detach(),
        HeaderOp::Role { role } => header.set_role(*role),
        HeaderOp::Synced => header.synced(),
        HeaderOp::LockTake => take_lock(header, instance),
        HeaderOp::LockDrop => leave_lock(header, instance),
        HeaderOp::LockBreak { owner } => leave_lock(header, *owner),
        HeaderOp::Create { view: _ } => {}
        HeaderOp::Get => {}
        HeaderOp::Remove => {}
        HeaderOp::Watch => {}
        HeaderOp::Unwatch => {}
        HeaderOp::WatchersGet => {}
        HeaderOp::Notify { kind: _ } => {}
        HeaderOp::Mirror => unreachable!(),
    }
    Ok(())
}

fn add_snap(header: &mut Header, name: &Name) -> Result<(), NoMemory>
    requires { header.old.generation + 1 < 2 ^ 64 }
    ensures ok { OnOk result (header.new ≡ where_made (is_some (snap_named header.old.snaps name.now))
        (is_full header.old) (with_snap name.now header.old) header.old) }
    ensures err { OnErr result (header.new ≡ header.old) }
{
    match header.snap_add(name) {
        Ok(_) => Ok(()),
        Err(fault) => match fault {
            SnapAddFault::Exists => Ok(()),
            SnapAddFault::Full => Ok(()),
            SnapAddFault::NoMemory => Err(NoMemory),
        },
    }
}

fn take_lock(header: &mut Header, instance: Instance)
    ensures { header.new
        ≡ record header.old { owner = if is_some header.old.owner then header.old.owner else Some instance } }
{
    let _taken = header.lock(instance);
}

fn leave_lock(header: &mut Header, owner: Instance)
    ensures { header.new ≡ (if is_owner owner header.old.owner then record header.old { owner = None }
        else header.old) }
{
    let _left = header.unlock(owner);
}

/// What an operation on a header that is there is answered.
fn answer_there(
    alloc: Global,
    header: &Header,
    instance: Instance,
    op: &HeaderOp,
) -> Result<Answer, NoMemory>
    requires may { MayDoOnHeader (Some header.now) op.now }
    requires alone { IsToldAlone op.now }
    ensures { (watchers : List Instance)
        → IfOk result (λ answer. answer ≡ there_answer instance header.now watchers op.now) }
{
    match op {
        HeaderOp::Create { view: _ } => Ok(Answer::Exists),
        HeaderOp::Get => Ok(Answer::Header(Shared::new(alloc, header.view()?)?)),
        HeaderOp::SnapAdd { name } => Ok(snap_added(header, name)),
        HeaderOp::SnapRemove { snap } => Ok(done_where(lists(header, *snap))),
        HeaderOp::SnapStatus { snap, status: _ } => Ok(done_where(lists(header, *snap))),
        HeaderOp::LockTake => Ok(lock_taken(instance, header.owner())),
        HeaderOp::LockDrop => Ok(lock_left(instance, header.owner())),
        HeaderOp::LockBreak { owner } => Ok(lock_left(*owner, header.owner())),
        HeaderOp::SetSize { size: _ } => Ok(Answer::Done),
        HeaderOp::Detach => Ok(Answer::Done),
        HeaderOp::Role { role: _ } => Ok(Answer::Done),
        HeaderOp::Synced => Ok(Answer::Done),
        HeaderOp::Remove => Ok(Answer::Done),
        HeaderOp::Watch => Ok(Answer::Done),
        HeaderOp::Unwatch => Ok(Answer::Done),
        HeaderOp::Notify { kind: _ } => Ok(Answer::Done),
        HeaderOp::Mirror => unreachable!(),
        HeaderOp::WatchersGet => unreachable!(),
    }
}

/// What an operation on a header that isn't there is answered.
fn answer_missing(op: &HeaderOp) -> Answer
    ensures { result ≡ missing_answer op.now }
{
    match op {
        HeaderOp::Create { view: _ } => Answer::Done,
        _ => Answer::Absent,
    }
}

fn snap_added(header: &Header, name: &Name) -> Answer
    ensures { result ≡ snap_added (is_some (snap_named header.now.snaps name.now)) (is_full header.now)
        (header.now.snap_seq + 1) }
{
    if header.named(name).is_some() {
        return Answer::Exists;
    }
    if header.is_full() {
        return Answer::Full;
    }
    Answer::Snap(SnapId(header.snap_seq() + 1))
}

fn lists(header: &Header, snap: SnapId) -> bool
    ensures { result ≡ is_some (snap_in header.now.snaps snap) }
{
    header.snapshot(snap).is_some()
}

fn lock_taken(instance: Instance, owner: Option<Instance>) -> Answer
    ensures { result ≡ lock_taken instance owner }
{
    match owner {
        None => Answer::Done,
        Some(owner) => {
            if owner == instance {
                return Answer::Done;
            }
            Answer::Held(owner)
        }
    }
}

fn lock_left(instance: Instance, owner: Option<Instance>) -> Answer
    ensures { result ≡ lock_left instance owner }
{
    if is_owner(instance, owner) {
        return Answer::Done;
    }
    Answer::Changed
}

fn is_owner(instance: Instance, owner: Option<Instance>) -> bool
    ensures { result ≡ is_owner instance owner }
{
    match owner {
        None => false,
        Some(owner) => owner == instance,
    }
}
