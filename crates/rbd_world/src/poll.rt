//! A slot is polled: who acts there does the operation that is wanted.
ghost use Rattle.std.specs.Prelude.{◌≡◌, ◌+◌, ◌≤◌, ℕ, Some, IfOk, OnOk, OnErr};
ghost use Rattle.std.specs.Vec.{vec_capacity, vec_len};
ghost use Rattle.rbd_client.specs.Client.{ClientView};
ghost use Rattle.rbd_client.specs.Feeding.{IsClientAlike};
ghost use Rattle.rbd_client.specs.Sound.{IsSoundClient};
ghost use Rattle.rbd_slots.specs.Session.{held_in};
ghost use Rattle.rbd_world.specs.Noted.{history_with};
ghost use Rattle.rbd_world.specs.Run.{Refused, outcome_of};
ghost use Rattle.rbd_world.specs.Sending.{doer_at, doer_of};
ghost use Rattle.rbd_world.specs.Step.{AreSameSites, Becomes, DoesAtSites, DoesToLives, DropsWhatItMay, LeavesLives, WantsWhatItMay, polled, polled_in};
ghost use Rattle.rbd_world.specs.World.{client_in};
ghost use Rattle.rbd_world.specs.declared.event.Event.TheVariants as of_event;

use crate::event::Outcome;
use crate::lives::Lives;
use crate::noting::Book;
use crate::operate::{Acting, operate};
use crate::sender::Sender;
use crate::sites::Sites;
use rbd_client::{Actor, Client};
use rbd_flat::Entry;
use rbd_kinds::{NoMemory, Reply, SessionNo, SiteId, Slot};
use rbd_machine::Request;
use std::alloc::Global;

/// The client of a session that runs is polled at a slot: nothing where none does. The history has
/// room for what comes of it. NoMemory where memory is refused; then nothing was done, and the
/// client is where it was.
pub fn poll_session<R: Request>(
    alloc: Global,
    sites: &mut Sites,
    lives: &mut Vec<Lives<R>>,
    book: &mut Book,
    session: SessionNo,
    slot: Slot,
) -> Result<Outcome, NoMemory>
    requires room { vec_len book.old.history + 2 ≤ vec_capacity book.old.history }
    requires wants { (c : ClientView R) → client_in session lives.old.items ≡ Some c
        → WantsWhatItMay R.stands sites.old slot c }
    requires rest { (c : ClientView R) → client_in session lives.old.items ≡ Some c → DropsWhatItMay R.stands slot c }
    ensures outcome { IfOk result (λ o. o
        ≡ outcome_of (polled R.stands sites.old slot (client_in session lives.old.items))) }
    ensures history { OnOk result (book.new.history.items ≡ history_with book.old.history.items
        (polled R.stands sites.old slot (client_in session lives.old.items))) }
    ensures sites { OnOk result (DoesAtSites
        (polled R.stands sites.old slot (client_in session lives.old.items)) sites.old sites.new) }
    ensures lives { OnOk result (DoesToLives R.stands (of_event.Poll session slot)
        (polled R.stands sites.old slot (client_in session lives.old.items)) lives.old.items lives.new.items) }
    ensures err { OnErr result (AreSameSites sites.old sites.new) }
    ensures alike { OnErr result (LeavesLives R.stands lives.old.items lives.new.items) }
    ensures unnoted { OnErr result (book.new.history.items ≡ book.old.history.items) }
    ensures calls { book.new.calls ≡ book.old.calls }
{
    let Some(life) = lives.get_mut(session.0 as usize) else {
        return Ok(Outcome::Nothing);
    };
    let Some(client) = &mut life.running else {
        return Ok(Outcome::Nothing);
    };
    poll_slot(alloc, sites, client, &mut book.history, slot)
}

/// Who acts at a slot of a client does what is wanted there: its house at slot 0, and else the
/// request in it or that one's way to a lock. A request that is refused has its reply. (Each second
/// poll finds nobody at slot 0: it ends here, before the room that an operation needs.)
fn poll_slot<R: Request>(
    alloc: Global,
    sites: &mut Sites,
    client: &mut Client<R>,
    history: &mut Vec<Entry>,
    slot: Slot,
) -> Result<Outcome, NoMemory>
    requires room { vec_len history.old + 2 ≤ vec_capacity history.old }
    requires wants { WantsWhatItMay R.stands sites.old slot client.old }
    requires rest { DropsWhatItMay R.stands slot client.old }
    ensures outcome { IfOk result (λ o. o
        ≡ outcome_of (polled_in R.stands sites.old client.old slot (held_in slot client.old.session.slots))) }
    ensures history { OnOk result (history.new.items ≡ history_with history.old.items
        (polled_in R.stands sites.old client.old slot (held_in slot client.old.session.slots))) }
    ensures sites { OnOk result (DoesAtSites
        (polled_in R.stands sites.old client.old slot (held_in slot client.old.session.slots)) sites.old sites.new) }
    ensures becomes { OnOk result ((session : ℕ)
        → Becomes R.stands (of_event.Poll session slot)
        (polled_in R.stands sites.old client.old slot (held_in slot client.old.session.slots)) client.old client.new) }
    ensures sound { IsSoundClient R.stands client.new }
    ensures err { OnErr result (AreSameSites sites.old sites.new) }
    ensures alike { OnErr result (IsClientAlike R.stands client.old client.new) }
    ensures unnoted { OnErr result (history.new.items ≡ history.old.items) }
{
    if slot.0 == 0 {
        let actor = client.actor(slot);
        let acting = Acting { slot, actor };
        if let Actor::Nobody = &acting.actor {
            return Ok(Outcome::Waits);
        }
        return operate(alloc, sites, client, history, &acting, Sender::House);
    }
    let Some(line) = client.line(slot) else {
        return Ok(Outcome::Nothing);
    };
    let home = client.home();
    if let Some(reply) = client.refuse(slot) {
        return Ok(refused(history, home, line, reply));
    }
    let actor = client.actor(slot);
    let by = sender_of(&actor, line);
    let acting = Acting { slot, actor };
    operate(alloc, sites, client, history, &acting, by)
}

/// Notes the reply of a request that was refused before any operation. It takes no memory.
fn refused(history: &mut Vec<Entry>, home: SiteId, line: u32, reply: Reply) -> Outcome
    requires { vec_len history.old + 1 ≤ vec_capacity history.old }
    ensures history { history.new.items ≡ history_with history.old.items (Refused home line reply) }
    ensures outcome { result ≡ outcome_of (Refused home line reply) }
{
    history.push_reserved(Entry::Reply { line, reply });
    Outcome::Step {
        site: home,
        number: 0,
        waiting: false,
        replied: true,
    }
}

/// Who acts for the command of a line, in its slot.
fn sender_of(actor: &Actor, line: u32) -> Sender
    ensures { doer_of result ≡ doer_at line actor.now }
{
    if actor.is_acquiring() {
        return Sender::OnWay(line);
    }
    Sender::Itself(line)
}
