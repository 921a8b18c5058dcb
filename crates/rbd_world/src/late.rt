//! An operation comes that a slot of a session wanted when the session was stopped.
ghost use Rattle.std.specs.Prelude.{◌≡◌, ◌+◌, ◌≤◌, ℕ, Some, IfOk, OnOk, OnErr};
ghost use Rattle.std.specs.Vec.{vec_capacity, vec_len};
ghost use Rattle.rbd_world.specs.Noted.{history_with};
ghost use Rattle.rbd_world.specs.Run.{outcome_of, sent_of};
ghost use Rattle.rbd_slots.specs.Session.{held_in};
ghost use Rattle.rbd_world.specs.Step.{AreSameSites, DoesAtSites, DoesToLives, IsSoundIf, MayCome, come, late_behind};
ghost use Rattle.rbd_world.specs.World.{client_in, late_at};
ghost use Rattle.rbd_world.specs.declared.event.Event.TheVariants as of_event;

use crate::event::Outcome;
use crate::foresee::Due;
use crate::lives::{Late, Lives};
use crate::operate::send;
use crate::sender::Sender;
use crate::sites::Sites;
use rbd_flat::Entry;
use rbd_kinds::{NoMemory, Op, SessionNo, SiteId, Slot, TryClone};
use rbd_machine::Request;
use std::alloc::Global;

/// What a slot of a session wanted when it was stopped last comes, and doesn't again: nothing where
/// it wanted nothing, or that has come. NoMemory where memory is refused; then nothing was done,
/// and it may still come.
pub fn come<R: Request>(
    alloc: Global,
    sites: &mut Sites,
    lives: &mut Vec<Lives<R>>,
    history: &mut Vec<Entry>,
    session: SessionNo,
    slot: Slot,
) -> Result<Outcome, NoMemory>
    requires room { vec_len history.old + 2 ≤ vec_capacity history.old }
    requires may { MayCome sites.old (late_at session slot lives.old.items) }
    requires sound { IsSoundIf R.stands (client_in session lives.old.items) }
    ensures outcome { IfOk result (λ o. o ≡ outcome_of (come sites.old slot (late_at session slot lives.old.items))) }
    ensures history { OnOk result (history.new.items ≡ history_with history.old.items
        (come sites.old slot (late_at session slot lives.old.items))) }
    ensures sites { OnOk result (DoesAtSites
        (come sites.old slot (late_at session slot lives.old.items)) sites.old sites.new) }
    ensures lives { OnOk result (DoesToLives R.stands (of_event.Late session slot)
        (come sites.old slot (late_at session slot lives.old.items)) lives.old.items lives.new.items) }
    ensures err { OnErr result (AreSameSites sites.old sites.new) }
    ensures left { OnErr result (lives.new.items ≡ lives.old.items) }
    ensures unnoted { OnErr result (history.new.items ≡ history.old.items) }
{
    let Some(life) = lives.get_mut(session.0 as usize) else {
        return Ok(Outcome::Nothing);
    };
    let Some(late) = &mut life.late else {
        return Ok(Outcome::Nothing);
    };
    come_from(alloc, sites, late, history, slot)
}

/// What a slot of the life that was stopped last wanted comes.
fn come_from(
    alloc: Global,
    sites: &mut Sites,
    late: &mut Late,
    history: &mut Vec<Entry>,
    slot: Slot,
) -> Result<Outcome, NoMemory>
    requires room { vec_len history.old + 2 ≤ vec_capacity history.old }
    requires may { MayCome sites.old (sent_of late.old.instance (held_in slot late.old.wanted)) }
    ensures outcome { IfOk result (λ o. o
        ≡ outcome_of (come sites.old slot (sent_of late.old.instance (held_in slot late.old.wanted)))) }
    ensures history { OnOk result (history.new.items ≡ history_with history.old.items
        (come sites.old slot (sent_of late.old.instance (held_in slot late.old.wanted)))) }
    ensures sites { OnOk result (DoesAtSites
        (come sites.old slot (sent_of late.old.instance (held_in slot late.old.wanted))) sites.old sites.new) }
    ensures late { OnOk result ((session : ℕ) → Some late.new ≡ late_behind (of_event.Late session slot)
        (come sites.old slot (sent_of late.old.instance (held_in slot late.old.wanted))) (Some late.old)) }
    ensures err { OnErr result (AreSameSites sites.old sites.new) }
    ensures left { OnErr result (late.new ≡ late.old) }
    ensures unnoted { OnErr result (history.new.items ≡ history.old.items) }
{
    let Some((site, op)) = wanted_at(late.wanted.as_slice(), slot)? else {
        return Ok(Outcome::Nothing);
    };
    let due = Due {
        who: late.instance,
        by: Sender::AfterStop(slot),
        site,
        op,
    };
    let outcome = send(alloc, sites, history, due)?;
    drop(late.wanted[slot.0 as usize].take());
    Ok(outcome)
}

/// What a slot wanted, as a copy.
fn wanted_at(wanted: &[Option<(SiteId, Op)>], slot: Slot) -> Result<Option<(SiteId, Op)>, NoMemory>
    ensures { IfOk result (λ told. told ≡ held_in slot wanted.now) }
{
    match wanted.get(slot.0 as usize) {
        Some(Some((site, op))) => Ok(Some((*site, op.try_clone()?))),
        _ => Ok(None),
    }
}
