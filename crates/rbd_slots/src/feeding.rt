//! The request in a slot is made ready for an answer, and fed it.
ghost use Rattle.std.specs.Prelude.{◌≡◌, ℕ, None, OnOk};
ghost use Rattle.rbd_machine.specs.Answers.{CanBeFed};
ghost use Rattle.rbd_machine.specs.Plan.{IsAsking};
ghost use Rattle.rbd_slots.specs.Advance.{track_of, IsFedWell, IsSameStand};
ghost use Rattle.rbd_slots.specs.Lines.{AreUsed, lines_of, members_at};
ghost use Rattle.rbd_slots.specs.OnTrack.{IsSomewhere, AreFair, LeavesOthers};
ghost use Rattle.rbd_slots.specs.Session.{ComesToIn, OfRunning, IsPrepared, KeepsToItsLine};

use crate::advance::advance;
use crate::lines::Lines;
use crate::prepare::prepare;
use crate::running::Occupant;
use rbd_kinds::{Fed, NoMemory, Reply, Slot};
use rbd_machine::Request;
use std::alloc::Global;

/// Takes all memory that the feeding of the request in a slot needs, and changes nothing else.
/// NoMemory where memory is refused.
pub fn prepare_in<R: Request>(
    alloc: Global,
    occupant: &mut Option<Occupant<R>>,
    lines: &mut Lines,
    slot: Slot,
    fed: &Fed,
) -> Result<(), NoMemory>
    requires { OfRunning (λ r. IsAsking (R.stands r.request).plan × CanBeFed (R.stands r.request).plan fed.now
        × IsSomewhere slot (track_of r lines.old)) occupant.old }
    ensures lines { (key : ℕ) → members_at key lines.new ≡ members_at key lines.old }
    ensures ready { OfRunning (λ r. OfRunning
        (λ q. IsSameStand R.stands r q
        × OnOk result (IsPrepared R.stands R.is_ready slot r lines.old fed.now q lines.new)) occupant.new)
        occupant.old }
    ensures used { AreUsed lines.old.entries → AreUsed lines.new.entries }
{
    match occupant {
        Some(Occupant::Running(running)) => prepare(alloc, running, lines, slot, fed),
        _ => unreachable!(),
    }
}

/// Feeds the request in a slot, which is free from then on where the request ends.
pub fn feed_in<R: Request>(
    occupant: &mut Option<Occupant<R>>,
    lines: &mut Lines,
    slot: Slot,
    fed: &Fed,
) -> Option<Reply>
    requires { OfRunning (λ r. IsFedWell R.stands R.is_ready slot r lines.old fed.now) occupant.old }
    ensures comes { OfRunning (λ r. ComesToIn R.stands slot lines.old fed.now result r occupant.new lines.new)
        occupant.old }
    ensures keeps { KeepsToItsLine R.stands slot occupant.new lines.new }
    ensures others { LeavesOthers slot (lines_of lines.old) (lines_of lines.new) }
    ensures fair { AreFair (lines_of lines.new) }
    ensures used { AreUsed lines.old.entries → AreUsed lines.new.entries }
{
    let reply = match occupant {
        Some(Occupant::Running(running)) => advance(running, lines, slot, fed),
        _ => unreachable!(),
    };
    if reply.is_some() {
        clear(occupant);
    }
    reply
}

/// The slot is free. (By itself, since only a request that ends has its parts let go.)
fn clear<R: Drop>(occupant: &mut Option<Occupant<R>>)
    ensures { occupant.new ≡ None }
{
    *occupant = None;
}
