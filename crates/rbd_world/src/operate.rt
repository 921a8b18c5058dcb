//! An operation is done at its site, and who acts there goes on.
//!
//! ```text
//! next ── foresee ── ready ── apply ── feed
//!  │        │          │        │        └ who acts goes on, or ends; takes no memory
//!  │        │          │        └ one operation, logged with that answer, or nothing at all
//!  │        │          └ all memory that the answer needs
//!  │        └ what the site would answer
//!  └ the operation that is wanted
//! ```
//!
//! What is foreseen is large, so it is moved no further than it must: no `?` hands it on, and each
//! way out lets it go by a call. The log takes the operation over before anybody is fed, since it
//! may be refused memory: so who is fed is told of it by the last line of the log.
ghost use Rattle.std.specs.Prelude.{◌≡◌, ◌+◌, ◌≤◌, IfOk, OnErr};
ghost use Rattle.std.specs.Vec.{vec_capacity, vec_len};
ghost use Rattle.rbd_client.specs.Actor.{actor_at, op_wanted};
ghost use Rattle.rbd_client.specs.Feeding.{IsClientAlike};
ghost use Rattle.rbd_client.specs.Sound.{IsSoundClient};
ghost use Rattle.rbd_world.specs.Operate.{HasComeAt};
ghost use Rattle.rbd_world.specs.Sending.{ActsAt, doer_of};
ghost use Rattle.rbd_world.specs.Step.{AreSameSites, DropsWhatItMay, IsPermitted, WantsWhatItMay};

use crate::event::Outcome;
use crate::foresee::{Due, foresee};
use crate::noting::note;
use crate::sender::Sender;
use crate::sites::{Sites, apply, latest};
use rbd_client::{Actor, Client};
use rbd_flat::Entry;
use rbd_kinds::{NoMemory, Slot};
use rbd_machine::Request;
use std::alloc::Global;

/// Who acts where a slot is polled, and which slot that is.
#[derive(Clone, Copy)]
pub struct Acting {
    pub slot: Slot,
    pub actor: Actor,
}

/// Does the operation that is wanted where somebody acts, at its site, feeds who acts there, and
/// notes it in the history: nothing where none is wanted. NoMemory where memory is refused; then
/// nothing was done, and the client is where it was.
pub fn operate<R: Request>(
    alloc: Global,
    sites: &mut Sites,
    client: &mut Client<R>,
    history: &mut Vec<Entry>,
    acting: &Acting,
    by: Sender,
) -> Result<Outcome, NoMemory>
    requires room { vec_len history.old + 2 ≤ vec_capacity history.old }
    requires wants { WantsWhatItMay R.stands sites.old acting.now.slot client.old }
    requires rest { DropsWhatItMay R.stands acting.now.slot client.old }
    requires actor { acting.now.actor ≡ actor_at R.stands acting.now.slot client.old }
    ensures acts { IfOk result (ActsAt R.stands acting.now.slot (doer_of by)
        (op_wanted R.stands acting.now.slot client.old) sites.old sites.new client.old client.new history.old.items
        history.new.items) }
    ensures err { OnErr result (AreSameSites sites.old sites.new) }
    ensures alike { OnErr result (IsClientAlike R.stands client.old client.new) }
    ensures unnoted { OnErr result (history.new.items ≡ history.old.items) }
    ensures sound { IsSoundClient R.stands client.new }
{
    let Ok(wanted) = client.next(alloc, acting.slot, &acting.actor) else {
        return Err(NoMemory);
    };
    let Some((site, op)) = wanted else {
        return Ok(Outcome::Waits);
    };
    let who = client.instance();
    let due = Due { who, by, site, op };
    let Ok(foreseen) = foresee(alloc, sites, &due) else {
        drop(due);
        return Err(NoMemory);
    };
    let Ok(()) = client.ready(alloc, acting.slot, &acting.actor, &foreseen.fed) else {
        drop(due);
        drop(foreseen);
        return Err(NoMemory);
    };
    let Ok(()) = apply(sites, due, &foreseen.fed) else {
        drop(foreseen);
        return Err(NoMemory);
    };
    let Some(done) = latest(sites.at(site).log()) else {
        unreachable!()
    };
    let reply = client.feed(acting.slot, &acting.actor, site, done, &foreseen.fed);
    let outcome = foreseen.outcome(site, reply.is_some());
    drop(foreseen.fed);
    note(history, &by, foreseen.entry, reply);
    Ok(outcome)
}

/// Does an operation of an instance that was stopped, which nobody is fed, and notes it in the
/// history. NoMemory where memory is refused; then nothing was done.
pub fn send(
    alloc: Global,
    sites: &mut Sites,
    history: &mut Vec<Entry>,
    due: Due,
) -> Result<Outcome, NoMemory>
    requires room { vec_len history.old + 2 ≤ vec_capacity history.old }
    requires permitted { IsPermitted sites.old due.who due.site due.op }
    ensures done { IfOk result (HasComeAt due.who
        (doer_of due.by) due.site due.op sites.old sites.new history.old.items history.new.items) }
    ensures err { OnErr result (AreSameSites sites.old sites.new) }
    ensures unnoted { OnErr result (history.new.items ≡ history.old.items) }
{
    let Ok(foreseen) = foresee(alloc, sites, &due) else {
        drop(due);
        return Err(NoMemory);
    };
    let by = due.by;
    let site = due.site;
    let Ok(()) = apply(sites, due, &foreseen.fed) else {
        drop(foreseen);
        return Err(NoMemory);
    };
    let outcome = foreseen.outcome(site, false);
    drop(foreseen.fed);
    note(history, &by, foreseen.entry, None);
    Ok(outcome)
}
