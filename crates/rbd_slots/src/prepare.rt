//! What a request needs before it is fed: all memory, and the objects that it is due where it is at
//! its look under the lock.
ghost use Rattle.std.specs.Prelude.{◌≡◌, ℕ, ◌≤◌, length, IfOk, OnOk};
ghost use Rattle.rbd_machine.specs.Course.{looks_under_lock_at, due_of, objects_asked as asked};
ghost use Rattle.rbd_kinds.specs.Form.{IsHeaderInForm};
ghost use Rattle.rbd_machine.specs.Answers.{CanBeFed};
ghost use Rattle.rbd_machine.specs.Plan.{IsAsking};
ghost use Rattle.rbd_machine.specs.Ready.{IsReadyFor};
ghost use Rattle.rbd_slots.specs.Advance.{objects_or_none, track_of, looked_for, look_of, IsSameStand};
ghost use Rattle.rbd_slots.specs.Lines.{AreUsed, members_at, room_of, CanOpen};
ghost use Rattle.rbd_slots.specs.OnTrack.{IsSomewhere};
ghost use Rattle.rbd_slots.specs.Track.{course_of};
ghost use Rattle.rbd_slots.specs.Waits.{waits_at};

use crate::lines::Lines;
use crate::look_under_lock::{image_of_look, objects_asked};
use crate::running::Running;
use rbd_kinds::{
    Answer, Fed, HeaderView, ImageAt, ImageId, NoMemory, OpKind, Sequence, SiteId, Slot, Want,
};
use rbd_machine::{Request, Stage};
use std::alloc::Global;

/// Whether the look at an image's header is the request's look under the lock.
fn is_look_under_lock<R>(
    running: &Running<R>,
    lines: &Lines,
    slot: Slot,
    site: SiteId,
    image: ImageId,
) -> bool
    ensures { result ≡ looks_under_lock_at site image (course_of slot (track_of running.now lines.now)).place }
{
    let Some(place) = running.place else {
        return false;
    };
    if place.site != site || place.image != image {
        return false;
    }
    awaits_look(lines.stage(running.place, slot))
}

/// Whether a stage is that of waiting for the look under the lock.
pub fn awaits_look(stage: Option<Stage>) -> bool
    ensures { result ≡ waits_at stage }
{
    match stage {
        Some(Stage::Waiting) => true,
        _ => false,
    }
}

/// The image whose header a request looks at next.
fn header_looked_at<R: Request>(
    alloc: Global,
    request: &R,
) -> Result<Option<(SiteId, ImageId)>, NoMemory>
    requires { IsAsking (R.stands request.now).plan }
    ensures { IfOk result (λ at. at ≡ look_of (R.stands request.now).plan) }
{
    let Want::Op { site, .. } = request.wants() else {
        unreachable!()
    };
    match image_of_look(request.next(alloc)?) {
        Some(image) => Ok(Some((site, image))),
        None => Ok(None),
    }
}

/// The objects that a request is due to take tickets for, by the header that its look under the
/// lock told: none where it is alone.
fn due<R>(
    alloc: Global,
    header: &HeaderView,
    running: &Running<R>,
    lines: &Lines,
    slot: Slot,
) -> Result<Sequence<u64>, NoMemory>
    requires { IsHeaderInForm header.now }
    ensures { IfOk result (λ objects. objects ≡ due_of (course_of slot (track_of running.now lines.now)).place
        (asked header.now running.now.extent)) }
{
    match lines.alone(running.place, slot) {
        Some(false) => objects_asked(alloc, header, running.extent),
        _ => Ok(Sequence::new(alloc)),
    }
}

/// The same, where the request is fed the answer to its look under the lock.
fn due_behind<R: Request>(
    alloc: Global,
    running: &Running<R>,
    lines: &Lines,
    slot: Slot,
    fed: &Fed,
) -> Result<Option<Sequence<u64>>, NoMemory>
    requires asks { IsAsking (R.stands running.now.request).plan }
    requires can { CanBeFed (R.stands running.now.request).plan fed.now }
    ensures { IfOk result (λ looked. looked ≡ looked_for slot running.now.extent (track_of running.now lines.now)
        (R.stands running.now.request).plan fed.now) }
{
    let Fed::Answer(Answer::Header(header)) = fed else {
        return Ok(None);
    };
    let Some((site, image)) = header_looked_at(alloc, &running.request)? else {
        return Ok(None);
    };
    if !is_look_under_lock(running, lines, slot, site, image) {
        return Ok(None);
    }
    Ok(Some(due(alloc, header, running, lines, slot)?))
}

/// How many tickets a request is due. As many as 2^32 can't be had.
fn tickets(looked: &Option<Sequence<u64>>) -> Result<u32, NoMemory>
    ensures { IfOk result (λ n. n ≡ length (objects_or_none looked.now)) }
{
    let Some(objects) = looked else {
        return Ok(0);
    };
    match u32::try_from(objects.len()) {
        Ok(n) => Ok(n),
        Err(_) => Err(NoMemory),
    }
}

/// Takes all memory that the feeding needs, and changes nothing else. NoMemory where memory is
/// refused.
pub fn prepare<R: Request>(
    alloc: Global,
    running: &mut Running<R>,
    lines: &mut Lines,
    slot: Slot,
    fed: &Fed,
) -> Result<(), NoMemory>
    requires asks { IsAsking (R.stands running.old.request).plan }
    requires can { CanBeFed (R.stands running.old.request).plan fed.now }
    requires somewhere { IsSomewhere slot (track_of running.old lines.old) }
    ensures running { IsSameStand R.stands running.old running.new }
    ensures lines { (key : ℕ) → members_at key lines.new ≡ members_at key lines.old }
    ensures ready { OnOk result (IsReadyFor (R.is_ready running.new.request) fed.now) }
    ensures looked { OnOk result (running.new.looked ≡ looked_for slot running.old.extent
        (track_of running.old lines.old) (R.stands running.old.request).plan fed.now) }
    ensures open { OnOk result (CanOpen lines.new) }
    ensures room { OnOk result (length (objects_or_none running.new.looked) ≤ room_of running.new.place lines.new) }
    ensures used { AreUsed lines.old.entries → AreUsed lines.new.entries }
{
    let looked = due_behind(alloc, running, lines, slot, fed)?;
    lines.reserve(alloc, running.place, tickets(&looked)?)?;
    running.request.ready(alloc, fed)?;
    running.looked = looked;
    Ok(())
}
