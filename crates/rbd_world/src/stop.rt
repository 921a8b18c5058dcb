//! A session stops, and begins its next life.
ghost use Rattle.std.specs.Prelude.{◌≡◌, ◌<◌, ◌≤◌, ℕ, Some, length, IfOk, OnOk, OnErr};
ghost use Rattle.std.specs.List.{insert};
ghost use Rattle.rbd_world.specs.Noted.{history_with};
ghost use Rattle.rbd_world.specs.Run.{outcome_of};
ghost use Rattle.rbd_world.specs.Step.{DoesToLives, IsSoundIf, LivesOn, insert_line, last_life, lost_by, next_life, restarted, restarted_of, stopped, wanted_in_slots};
ghost use Rattle.rbd_world.specs.World.{client_in, lives_in};
ghost use Rattle.rbd_world.specs.declared.event.Event.TheVariants as of_event;

use crate::event::Outcome;
use crate::lives::{Late, Lives};
use crate::noting::note_stop;
use rbd_client::Client;
use rbd_flat::Entry;
use rbd_kinds::{Instance, NoMemory, Op, SessionNo, SiteId, Slot};
use rbd_machine::Request;
use std::alloc::Global;

/// The client of a session is gone, with its lines that have no reply: nothing where none runs.
/// What each of its slots wants may still come. NoMemory where memory is refused; then nothing
/// changes.
pub fn stop<R: Request>(
    alloc: Global,
    lives: &mut Vec<Lives<R>>,
    history: &mut Vec<Entry>,
    session: SessionNo,
) -> Result<Outcome, NoMemory>
    ensures outcome { IfOk result (λ o. o ≡ outcome_of (stopped R.stands (client_in session lives.old.items))) }
    ensures history { OnOk result (history.new.items ≡ history_with history.old.items
        (stopped R.stands (client_in session lives.old.items))) }
    ensures lives { OnOk result (DoesToLives R.stands (of_event.Stop session)
        (stopped R.stands (client_in session lives.old.items)) lives.old.items lives.new.items) }
    ensures err { OnErr result (lives.new.items ≡ lives.old.items) }
    ensures unnoted { OnErr result (history.new.items ≡ history.old.items) }
{
    match lives.get_mut(session.0 as usize) {
        Some(life) => stop_life(alloc, life, history),
        None => Ok(Outcome::Nothing),
    }
}

/// The life that runs ends, if one does.
fn stop_life<R: Request>(
    alloc: Global,
    life: &mut Lives<R>,
    history: &mut Vec<Entry>,
) -> Result<Outcome, NoMemory>
    ensures outcome { IfOk result (λ o. o ≡ outcome_of (stopped R.stands life.old.running)) }
    ensures history { OnOk result (history.new.items ≡ history_with history.old.items
        (stopped R.stands life.old.running)) }
    ensures life { OnOk result ((session : ℕ)
        → LivesOn R.stands (of_event.Stop session) (stopped R.stands life.old.running) life.old life.new) }
    ensures sound { OnOk result (IsSoundIf R.stands life.new.running) }
    ensures err { OnErr result (life.new ≡ life.old) }
    ensures unnoted { OnErr result (history.new.items ≡ history.old.items) }
{
    let Some(client) = &life.running else {
        return Ok(Outcome::Nothing);
    };
    let left = leave(alloc, client, history)?;
    drop(life.running.take());
    drop(life.late.replace(left));
    Ok(Outcome::Stopped)
}

/// What a client leaves behind, and what is noted of its stop. NoMemory where memory is refused;
/// then nothing is noted.
fn leave<R: Request>(
    alloc: Global,
    client: &Client<R>,
    history: &mut Vec<Entry>,
) -> Result<Late, NoMemory>
    ensures left { IfOk result (λ l. l
        ≡ record { instance = client.now.session.instance; wanted = wanted_in_slots R.stands client.now }) }
    ensures history { OnOk result (history.new.items ≡ history_with history.old.items
        (stopped R.stands (Some client.now))) }
    ensures unnoted { OnErr result (history.new.items ≡ history.old.items) }
{
    let lost = lost_by(alloc, client)?;
    let wanted = wanted_by(alloc, client)?;
    note_stop(history, &client.instance(), lost.as_slice())?;
    Ok(Late {
        instance: client.instance(),
        wanted,
    })
}

/// What each slot of a client wants, slot 0 too.
fn wanted_by<R: Request>(
    alloc: Global,
    client: &Client<R>,
) -> Result<Vec<Option<(SiteId, Op)>>, NoMemory>
    ensures { IfOk result (λ wanted. wanted.items ≡ wanted_in_slots R.stands client.now) }
{
    let mut wanted = Vec::with_capacity(alloc, 65)?;
    for slot in 0..65 {
        let slot = Slot(slot);
        wanted.push(client.next(alloc, slot, &client.actor(slot))?)?;
    }
    Ok(wanted)
}

/// The lines of a client that have no reply yet, in their order.
fn lost_by<R: Request>(alloc: Global, client: &Client<R>) -> Result<Vec<u32>, NoMemory>
    ensures { IfOk result (λ lost. lost.items ≡ lost_by R.stands client.now) }
{
    let mut lost = Vec::with_capacity(alloc, 65)?;
    let mut slot = 65;
    while slot > 0 {
        slot -= 1;
        if let Some(line) = client.line(Slot(slot)) {
            let place = place_of(lost.as_slice(), line);
            lost.insert(place, line)?;
        }
    }
    Ok(lost)
}

/// The place of a line among others that ascend.
fn place_of(lines: &[u32], line: u32) -> usize
    ensures within { result ≤ length lines.now }
    ensures place { insert lines.now result line ≡ insert_line line lines.now }
{
    for place in 0..lines.len() {
        if lines[place] >= line {
            return place;
        }
    }
    lines.len()
}

/// A session that doesn't run begins its next life, whose client knows nothing: nothing where there
/// is no such session, where it runs, or where there is no number for the life. NoMemory where
/// memory is refused; then nothing changes.
pub fn restart<R: Request>(
    alloc: Global,
    lives: &mut Vec<Lives<R>>,
    session: SessionNo,
) -> Result<Outcome, NoMemory>
    requires { IsSoundIf R.stands (client_in session lives.old.items) }
    ensures outcome { IfOk result (λ o. o ≡ outcome_of (restarted (lives_in session lives.old.items))) }
    ensures lives { OnOk result (DoesToLives R.stands (of_event.Restart session)
        (restarted (lives_in session lives.old.items)) lives.old.items lives.new.items) }
    ensures err { OnErr result (lives.new.items ≡ lives.old.items) }
{
    match lives.get_mut(session.0 as usize) {
        Some(life) => restart_life(alloc, life),
        None => Ok(Outcome::Nothing),
    }
}

/// The next life begins, if none runs.
fn restart_life<R: Request>(alloc: Global, life: &mut Lives<R>) -> Result<Outcome, NoMemory>
    requires { IsSoundIf R.stands life.old.running }
    ensures outcome { IfOk result (λ o. o ≡ outcome_of (restarted_of life.old.latest life.old.running)) }
    ensures life { OnOk result ((session : ℕ)
        → LivesOn R.stands (of_event.Restart session)
        (restarted_of life.old.latest life.old.running) life.old life.new) }
    ensures sound { OnOk result (IsSoundIf R.stands life.new.running) }
    ensures err { OnErr result (life.new ≡ life.old) }
{
    if life.running.is_some() {
        return Ok(Outcome::Nothing);
    }
    if life.latest.life == u32::MAX {
        return Ok(Outcome::Nothing);
    }
    let client = Client::new(alloc, next_life(&life.latest), life.home)?;
    life.latest = client.instance();
    drop(life.running.replace(client));
    Ok(Outcome::Restarted)
}

/// The life behind one that isn't the last.
fn next_life(latest: &Instance) -> Instance
    requires { latest.now.life < last_life }
    ensures next { result ≡ next_life latest.now }
    ensures below { latest.now.life < last_life }
{
    Instance {
        session: latest.session,
        life: latest.life + 1,
    }
}
