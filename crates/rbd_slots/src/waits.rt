//! Whether a request waits.
ghost use Rattle.std.specs.Prelude.{◌≡◌};
ghost use Rattle.rbd_slots.specs.Advance.{track_of};
ghost use Rattle.rbd_slots.specs.OnTrack.{HasNext};
ghost use Rattle.rbd_slots.specs.Waits.{awaits_line, awaits_turn, waits as is_held_up};

use crate::lines::Lines;
use crate::running::Running;
use rbd_kinds::Slot;

/// Whether the line holds a request back from its look under the lock.
fn is_held_back<R>(running: &Running<R>, lines: &Lines, slot: Slot) -> bool
    ensures { result ≡ awaits_line slot (track_of running.now lines.now) }
{
    lines.holds_back(running.place, slot)
}

/// Whether another request's ticket is first at the object of its piece.
fn lacks_turn<R>(running: &Running<R>, lines: &Lines, slot: Slot) -> bool
    requires { HasNext slot (track_of running.now lines.now) }
    ensures { result ≡ awaits_turn slot (track_of running.now lines.now) }
{
    match running.turn {
        Some(object) => !lines.has_turn(running.place, slot, object),
        None => false,
    }
}

/// Whether a request waits: for its look under the lock or for a turn.
pub fn is_waiting<R>(running: &Running<R>, lines: &Lines, slot: Slot) -> bool
    requires { HasNext slot (track_of running.now lines.now) }
    ensures { result ≡ is_held_up slot (track_of running.now lines.now) }
{
    is_held_back(running, lines, slot) || lacks_turn(running, lines, slot)
}
