//! A session begins a command.
ghost use Rattle.std.specs.Prelude.{◌≡◌, ◌+◌, ◌≤◌, ℕ, true, Some, IfOk, OnOk, OnErr};
ghost use Rattle.std.specs.Vec.{vec_capacity, vec_len};
ghost use Rattle.rbd_client.specs.Sound.{IsSoundClient};
ghost use Rattle.rbd_catalog.specs.Plans.{is_built};
ghost use Rattle.rbd_catalog.specs.Session.{stands_of};
ghost use Rattle.rbd_world.specs.Begun.{has_line};
ghost use Rattle.rbd_world.specs.Noted.{is_start, history_with};
ghost use Rattle.rbd_world.specs.Run.{outcome_of};
ghost use Rattle.rbd_world.specs.Step.{Becomes, DoesToLives, begun_behind, submitted};
ghost use Rattle.rbd_world.specs.World.{client_in};
ghost use Rattle.rbd_world.specs.declared.event.Event.TheVariants as of_event;

use crate::begun::BegunLines;
use crate::event::Outcome;
use crate::lives::Lives;
use rbd_catalog::SessionRequest;
use rbd_client::Client;
use rbd_flat::Entry;
use rbd_kinds::{Command, NoMemory, SessionNo, TryClone};
use rbd_machine::Machine;
use std::alloc::Global;

/// A line of a script, with the session whose command it is.
#[derive(Clone, Copy)]
pub struct SessionLine {
    pub session: SessionNo,
    pub line: u32,
}

/// A session begins the command of a line, in its lowest free slot: nothing where it doesn't run,
/// has no free slot, or the line was begun before. NoMemory where memory is refused; then nothing
/// changes.
pub fn submit(
    alloc: Global,
    lives: &mut Vec<Lives<SessionRequest>>,
    begun: &mut BegunLines,
    history: &mut Vec<Entry>,
    at: &SessionLine,
    command: &Command,
) -> Result<Outcome, NoMemory>
    requires built { is_built command.now ≡ true }
    requires room { vec_len history.old + 2 ≤ vec_capacity history.old }
    ensures outcome { IfOk result (λ o. o
        ≡ outcome_of (submitted (has_line at.now.line begun.old) at.now.line command.now
        (client_in at.now.session lives.old.items))) }
    ensures history { OnOk result (history.new.items ≡ history_with history.old.items
        (submitted (has_line at.now.line begun.old) at.now.line command.now
        (client_in at.now.session lives.old.items))) }
    ensures lives { let h = submitted (has_line at.now.line begun.old) at.now.line command.now
        (client_in at.now.session lives.old.items) in
        OnOk result (DoesToLives stands_of
        (of_event.Submit at.now.session at.now.line command.now) h lives.old.items lives.new.items) }
    ensures begun { let h = submitted (has_line at.now.line begun.old) at.now.line command.now
        (client_in at.now.session lives.old.items) in
        OnOk result ((l : ℕ) → has_line l begun.new ≡ begun_behind (λ l. has_line l begun.old) h l) }
    ensures err { OnErr result (lives.new.items ≡ lives.old.items) }
    ensures same { OnErr result ((l : ℕ) → has_line l begun.new ≡ has_line l begun.old) }
    ensures unnoted { OnErr result (history.new.items ≡ history.old.items) }
{
    begun.reserve(at.line)?;
    let is_begun = begun.has(at.line);
    let outcome = submit_to(alloc, lives, history, at, command, is_begun)?;
    if has_begun(&outcome) {
        begun.add(at.line);
    }
    Ok(outcome)
}

/// The client that runs in the session begins it, if one does.
fn submit_to(
    alloc: Global,
    lives: &mut Vec<Lives<SessionRequest>>,
    history: &mut Vec<Entry>,
    at: &SessionLine,
    command: &Command,
    is_begun: bool,
) -> Result<Outcome, NoMemory>
    requires built { is_built command.now ≡ true }
    requires room { vec_len history.old + 2 ≤ vec_capacity history.old }
    ensures outcome { IfOk result (λ o. o
        ≡ outcome_of (submitted is_begun at.now.line command.now (client_in at.now.session lives.old.items))) }
    ensures history { OnOk result (history.new.items ≡ history_with history.old.items
        (submitted is_begun at.now.line command.now (client_in at.now.session lives.old.items))) }
    ensures lives { OnOk result (DoesToLives stands_of (of_event.Submit at.now.session at.now.line command.now)
        (submitted is_begun at.now.line command.now (client_in at.now.session lives.old.items)) lives.old.items
        lives.new.items) }
    ensures err { OnErr result (lives.new.items ≡ lives.old.items) }
    ensures unnoted { OnErr result (history.new.items ≡ history.old.items) }
{
    let session = at.session;
    let Some(life) = lives.get_mut(session.0 as usize) else {
        return Ok(Outcome::Nothing);
    };
    let Some(client) = &mut life.running else {
        return Ok(Outcome::Nothing);
    };
    begin(alloc, client, history, at.line, command, is_begun)
}

/// The command of a line takes the lowest free slot of a client.
fn begin(
    alloc: Global,
    client: &mut Client<SessionRequest>,
    history: &mut Vec<Entry>,
    line: u32,
    command: &Command,
    is_begun: bool,
) -> Result<Outcome, NoMemory>
    requires built { is_built command.now ≡ true }
    requires room { vec_len history.old + 2 ≤ vec_capacity history.old }
    ensures outcome { IfOk result (λ o. o ≡ outcome_of (submitted is_begun line command.now (Some client.old))) }
    ensures history { OnOk result (history.new.items ≡ history_with history.old.items
        (submitted is_begun line command.now (Some client.old))) }
    ensures becomes { OnOk result ((session : ℕ) → Becomes stands_of (of_event.Submit session line command.now)
        (submitted is_begun line command.now (Some client.old)) client.old client.new) }
    ensures sound { IsSoundClient stands_of client.new }
    ensures err { OnErr result (client.new ≡ client.old) }
    ensures unnoted { OnErr result (history.new.items ≡ history.old.items) }
{
    let free = client.free();
    if is_begun {
        return Ok(Outcome::Nothing);
    }
    if free.is_none() {
        return Ok(Outcome::Nothing);
    }
    let instance = client.instance();
    let work = command.try_clone()?;
    let slot = client.submit(alloc, line, work, command.quiescing())?;
    history.push_reserved(Entry::Start { line, instance });
    Ok(Outcome::Submitted(slot))
}

/// Whether a command was begun.
fn has_begun(outcome: &Outcome) -> bool
    ensures { result ≡ is_start outcome.now }
{
    match outcome {
        Outcome::Submitted(_) => true,
        _ => false,
    }
}
