//! What the request in a slot wants, where it may go on.
ghost use Rattle.std.specs.Prelude.{◌≡◌, Some, IfOk, IfSome};
ghost use Rattle.std.specs.Option.{option_map};
ghost use Rattle.rbd_machine.specs.Plan.{IsAsking};
ghost use Rattle.rbd_slots.specs.Advance.{track_of};
ghost use Rattle.rbd_slots.specs.OnTrack.{HasNext};
ghost use Rattle.rbd_slots.specs.Session.{held_in, running_in, going_in, of_going, kind_asked, op_asked, is_look_at, look_under_lock_in, look_under_lock_of};

use crate::lines::Lines;
use crate::prepare::awaits_look;
use crate::running::{Occupant, Running};
use crate::slots::held_at;
use crate::waits::is_waiting;
use rbd_kinds::{ImageAt, NoMemory, Op, OpKind, SiteId, Slot, Want};
use rbd_machine::Request;
use std::alloc::Global;

/// The request that runs in a slot.
pub fn running_in<R>(slots: &[Option<Occupant<R>>], slot: Slot) -> Option<&Running<R>>
    ensures { option_map (λ r. r.now) result ≡ running_in (held_in slot slots.now) }
{
    match held_at(slots, slot) {
        Some(Occupant::Running(running)) => Some(running),
        _ => None,
    }
}

/// The request that runs in a slot, where it doesn't wait.
fn going<'a, R: Request>(
    slots: &'a [Option<Occupant<R>>],
    lines: &Lines,
    slot: Slot,
) -> Option<&'a Running<R>>
    requires next { (r : _) → running_in (held_in slot slots.now) ≡ Some r → HasNext slot (track_of r lines.now) }
    requires asks { (r : _) → running_in (held_in slot slots.now) ≡ Some r → IsAsking (R.stands r.request).plan }
    ensures going { option_map (λ r. r.now) result ≡ going_in slot (held_in slot slots.now) lines.now }
    ensures asks { IfSome result (λ r. IsAsking (R.stands r.now.request).plan) }
{
    match held_at(slots, slot) {
        Some(Occupant::Running(running)) => {
            if is_waiting(running, lines, slot) {
                return None;
            }
            Some(running)
        }
        _ => None,
    }
}

/// The site and the kind of the operation that a request wants.
fn wanted_kind<R: Request>(request: &R) -> Option<(SiteId, OpKind)>
    requires { IsAsking (R.stands request.now).plan }
    ensures { result ≡ kind_asked (R.stands request.now).plan }
{
    match request.wants() {
        Want::Op { site, kind } => Some((site, kind)),
        _ => None,
    }
}

/// The operation that a request wants, and its site. (By a match, and not by `?`, which would move
/// the operation four times more.)
fn wanted_op<R: Request>(alloc: Global, request: &R) -> Result<Option<(SiteId, Op)>, NoMemory>
    requires { IsAsking (R.stands request.now).plan }
    ensures { IfOk result (λ told. told ≡ op_asked (R.stands request.now).plan) }
{
    let Want::Op { site, .. } = request.wants() else {
        return Ok(None);
    };
    match request.next(alloc) {
        Ok(op) => Ok(Some((site, op))),
        Err(fault) => Err(fault),
    }
}

/// The site and the kind of the operation that the request in a slot wants, where it doesn't wait.
pub fn kind_in<R: Request>(
    slots: &[Option<Occupant<R>>],
    lines: &Lines,
    slot: Slot,
) -> Option<(SiteId, OpKind)>
    requires next { (r : _) → running_in (held_in slot slots.now) ≡ Some r → HasNext slot (track_of r lines.now) }
    requires asks { (r : _) → running_in (held_in slot slots.now) ≡ Some r → IsAsking (R.stands r.request).plan }
    ensures { result ≡ of_going R.stands kind_asked (going_in slot (held_in slot slots.now) lines.now) }
{
    match going(slots, lines, slot) {
        Some(running) => wanted_kind(&running.request),
        None => None,
    }
}

/// The operation that the request in a slot wants, and its site, where it doesn't wait. NoMemory
/// where the memory for the operation is refused.
pub fn op_in<R: Request>(
    alloc: Global,
    slots: &[Option<Occupant<R>>],
    lines: &Lines,
    slot: Slot,
) -> Result<Option<(SiteId, Op)>, NoMemory>
    requires next { (r : _) → running_in (held_in slot slots.now) ≡ Some r → HasNext slot (track_of r lines.now) }
    requires asks { (r : _) → running_in (held_in slot slots.now) ≡ Some r → IsAsking (R.stands r.request).plan }
    ensures { IfOk result (λ told. told ≡ of_going R.stands op_asked
        (going_in slot (held_in slot slots.now) lines.now)) }
{
    match going(slots, lines, slot) {
        Some(running) => wanted_op(alloc, &running.request),
        None => Ok(None),
    }
}

/// Whether a wanted operation is a look at a header of a site.
fn is_look_at(site: SiteId, wanted: Option<(SiteId, OpKind)>) -> bool
    ensures { result ≡ is_look_at site wanted }
{
    match wanted {
        Some((at, OpKind::HeaderGet)) => site == at,
        _ => false,
    }
}

/// The image at whose look under the lock a request stands. Only one that wants a look at a header
/// is looked up in a line.
fn look_under_lock_of<R: Request>(
    running: &Running<R>,
    lines: &Lines,
    slot: Slot,
) -> Option<ImageAt>
    requires { IsAsking (R.stands running.now.request).plan }
    ensures { result ≡ look_under_lock_of slot
        (kind_asked (R.stands running.now.request).plan) running.now.place lines.now }
{
    let place = running.place?;
    if !is_look_at(place.site, wanted_kind(&running.request)) {
        return None;
    }
    if !awaits_look(lines.stage(running.place, slot)) {
        return None;
    }
    Some(place)
}

/// The image at whose look under the lock the request in a slot stands, where it doesn't wait.
pub fn look_under_lock<R: Request>(
    slots: &[Option<Occupant<R>>],
    lines: &Lines,
    slot: Slot,
) -> Option<ImageAt>
    requires next { (r : _) → running_in (held_in slot slots.now) ≡ Some r → HasNext slot (track_of r lines.now) }
    requires asks { (r : _) → running_in (held_in slot slots.now) ≡ Some r → IsAsking (R.stands r.request).plan }
    ensures { result ≡ look_under_lock_in R.stands slot lines.now (going_in slot (held_in slot slots.now) lines.now) }
{
    let Some(running) = running_in(slots, slot) else {
        return None;
    };
    let Some(place) = look_under_lock_of(running, lines, slot) else {
        return None;
    };
    if is_waiting(running, lines, slot) {
        return None;
    }
    Some(place)
}
