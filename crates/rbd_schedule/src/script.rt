//! Plays a script.
ghost use Rattle.std.specs.Prelude.{◌≡◌, ◌↔◌, ℕ, ◌<◌, ◌^◌, [], false, length, IsTrue, IfOk, OnOk};
ghost use Rattle.rbd_client.specs.Seen.{as_is};
ghost use Rattle.rbd_world.specs.Sound.{IsSoundWorld};
ghost use Rattle.rbd_world.specs.Seen.{seen};
ghost use Rattle.rbd_schedule.specs.Deeds.{Deeds};
ghost use Rattle.rbd_schedule.specs.Ends.{HasCalmed};
ghost use Rattle.rbd_schedule.specs.Given.{commands_of, given_by};
ghost use Rattle.rbd_schedule.specs.Playing.{RunnerGoesOn, IsPlay, IsPlayable, KeepsUp, given_to, lost_in};
ghost use Rattle.rbd_schedule.specs.Schedule.{IsOneEvent, IsOneEventAt, Plays, PlaysScript, Polls, PollsUntil, WantsKind, closing_rounds as rounds_for};

use crate::runner::Runner;
use rbd_kinds::{NoMemory, OpKind, SessionNo, Slot};
use rbd_machine::Machine;
use rbd_script::{Line, Said, Script};
use rbd_world::{Event, World};
use std::alloc::Global;

/// How many polls an `@until` makes at most.
const MOST_POLLS: u32 = 4096;

/// How many rounds close a script for each of its commands, and once more: more than any machine
/// makes.
const CLOSING_ROUNDS: u128 = 1 << 60;

/// Plays a script by its schedule, from a new world on to the end, where nothing goes on any more.
/// It takes memory for the script's commands once more, and for what happens in the world. NoMemory
/// where that is refused.
pub fn play(alloc: Global, script: &Script) -> Result<World, NoMemory>
    requires { IsPlayable script.now }
    ensures play { IfOk result (λ w. IsPlay as_is script.now (seen w)) }
    ensures calmed { IfOk result (λ w. HasCalmed as_is script.now (seen w)) }
    ensures few { IfOk result (λ w. length (seen w).calls < 2 ^ 59) }
{
    let mut runner = Runner::new(alloc, script.sessions.as_slice())?;
    match runner.play_script(alloc, script) {
        Ok(()) => Ok(runner.into_world()),
        Err(NoMemory) => {
            runner.close();
            Err(NoMemory)
        }
    }
}

impl Runner {
    /// Plays the lines of a script, and the rounds that close it, where nothing was played so far.
    fn play_script(&mut self, alloc: Global, script: &Script) -> Result<(), NoMemory>
        requires playable { IsPlayable script.now }
        requires keeps { KeepsUp self.old }
        requires given { (session : ℕ) → given_to self.old session ≡ [] }
        requires lost { (number : ℕ) → lost_in self.old number ≡ false }
        requires queues { length self.old.queues.items ≡ length script.now.sessions }
        ensures plays { OnOk result (PlaysScript as_is script.now (seen self.old.world) (seen self.new.world)) }
        ensures sound { OnOk result (IsSoundWorld as_is (seen self.new.world)) }
        ensures few { OnOk result (length (seen self.new.world).calls < 2 ^ 59) }
    {
        for line in script.lines.as_slice() {
            self.give(line)?;
            self.play_line(alloc, &line.said)?;
        }
        self.settle(alloc, closing_rounds(script.lines.as_slice()))?;
        self.few_events();
        Ok(())
    }

    /// That no world has had as many events: it takes no more.
    fn few_events(&self)
        ensures { length (seen self.now.world).calls < 2 ^ 59 }
    {
        prove!(self.world.events() < 1 << 59);
    }

    /// What a line does when it is reached.
    fn play_line(&mut self, alloc: Global, said: &Said) -> Result<(), NoMemory>
        requires { KeepsUp self.old }
        ensures plays { OnOk result (Plays as_is (given_to self.old) (lost_in self.old)
            (length self.old.queues.items) said.now (seen self.old.world) (seen self.new.world)) }
        ensures goes { OnOk result (RunnerGoesOn self.old self.new) }
    {
        match said {
            Said::Command {
                session: _,
                beside: _,
                command: _,
            } => self.start_all(alloc),
            Said::Poll {
                session,
                slot,
                times,
            } => self.poll_times(alloc, *session, *slot, *times),
            Said::Until {
                session,
                slot,
                kind,
            } => self.poll_until(alloc, *session, *slot, *kind),
            Said::Settle(rounds) => self.settle(alloc, rounds.get() as u128),
            Said::Lose(_) => Ok(()),
            _ => self.play_event(alloc, said),
        }
    }

    /// A line that is one event.
    fn play_event(&mut self, alloc: Global, said: &Said) -> Result<(), NoMemory>
        requires keeps { KeepsUp self.old }
        requires one { IsOneEvent said.now }
        ensures plays { OnOk result (Plays as_is (given_to self.old) (lost_in self.old)
            (length self.old.queues.items) said.now (seen self.old.world) (seen self.new.world)) }
        ensures goes { OnOk result (RunnerGoesOn self.old self.new) }
    {
        match said {
            Said::Deliver(number) => self.happen(
                alloc,
                Event::Deliver {
                    number: number.get(),
                },
            ),
            Said::Stop(session) => self.happen(alloc, Event::Stop { session: *session }),
            Said::Restart(session) => self.happen(alloc, Event::Restart { session: *session }),
            _ => self.play_event_at(alloc, said),
        }
    }

    /// A line that is one event at a slot, an image or an object.
    fn play_event_at(&mut self, alloc: Global, said: &Said) -> Result<(), NoMemory>
        requires keeps { KeepsUp self.old }
        requires one { IsOneEventAt said.now }
        ensures plays { OnOk result (Plays as_is (given_to self.old) (lost_in self.old)
            (length self.old.queues.items) said.now (seen self.old.world) (seen self.new.world)) }
        ensures goes { OnOk result (RunnerGoesOn self.old self.new) }
    {
        match said {
            Said::Expire {
                session,
                site,
                image,
            } => self.expire(alloc, *session, *site, *image),
            Said::Late { session, slot } => self.late(alloc, *session, *slot),
            Said::Trim {
                site,
                image,
                object,
            } => self.trim(alloc, *site, *image, object.get()),
            _ => unreachable!(),
        }
    }

    /// So many polls of a slot.
    fn poll_times(
        &mut self,
        alloc: Global,
        session: SessionNo,
        slot: Slot,
        times: u32,
    ) -> Result<(), NoMemory>
        requires { KeepsUp self.old }
        ensures polls { OnOk result (Deeds (λ k. Polls as_is (given_to self.old) session slot) times
            (seen self.old.world) (seen self.new.world)) }
        ensures goes { OnOk result (RunnerGoesOn self.old self.new) }
    {
        for _ in 0..times {
            self.poll_and_start(alloc, session, slot)?;
        }
        Ok(())
    }

    /// Polls of a slot until it wants an operation of the kind, 4,096 at most.
    fn poll_until(
        &mut self,
        alloc: Global,
        session: SessionNo,
        slot: Slot,
        kind: OpKind,
    ) -> Result<(), NoMemory>
        requires { KeepsUp self.old }
        ensures polls { OnOk result (PollsUntil as_is (given_to self.old) session slot kind (seen self.old.world)
            (seen self.new.world)) }
        ensures goes { OnOk result (RunnerGoesOn self.old self.new) }
    {
        for _ in 0..MOST_POLLS {
            if self.wants(session, slot, kind) {
                return Ok(());
            }
            self.poll_and_start(alloc, session, slot)?;
        }
        Ok(())
    }

    /// Whether a slot wants an operation of the kind.
    fn wants(&self, session: SessionNo, slot: Slot, kind: OpKind) -> bool
        ensures { IsTrue result ↔ WantsKind as_is session slot kind (seen self.now.world) }
    {
        match self.world.kind(session, slot) {
            Some((_, wanted)) => wanted == kind,
            None => false,
        }
    }
}

/// The rounds that close a script.
fn closing_rounds(lines: &[Line]) -> u128
    ensures { result ≡ rounds_for (length (commands_of lines.now)) }
{
    let mut commands = 0u64;
    for line in lines {
        commands += given(&line.said);
    }
    CLOSING_ROUNDS * (commands as u128 + 1)
}

/// How many commands a line gives: one, or none.
fn given(said: &Said) -> u64
    ensures { result ≡ length (given_by 0 said.now) }
{
    match said {
        Said::Command {
            session: _,
            beside: _,
            command: _,
        } => 1,
        _ => 0,
    }
}
