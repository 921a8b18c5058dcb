//! Rounds, in which all that can go on does.
//!
//! ```text
//! settle    round, round, .. ── as many as asked, or until eight in a row were idle
//! round     turn of session 0, turn of session 1, ..
//! turn      of a session that runs: its notices, slot 0, and then each slot that is held then
//! ```
ghost use Rattle.std.specs.Prelude.{◌≡◌, ℕ, ◌+◌, ◌<◌, ◌≤◌, ◌||◌, if◌then◌else◌, length, slice_get, Some, IfOk, OnOk};
ghost use Rattle.rbd_client.specs.Seen.{as_is};
ghost use Rattle.rbd_world.specs.Seen.{seen};
ghost use Rattle.rbd_schedule.specs.Playing.{RunnerGoesOn, KeepsUp, given_to, lost_in};
ghost use Rattle.rbd_schedule.specs.Schedule.{PollsAll, Round, Settles, SessionTurn, TurnOf, goes_on as goes_on_by, is_held};

use crate::runner::Runner;
use rbd_kinds::{NoMemory, SessionNo, Slot};
use rbd_machine::Machine;
use rbd_world::Outcome;
use std::alloc::Global;

/// So many rounds that are idle in a row end a settle.
const MOST_IDLE: u8 = 8;

impl Runner {
    /// So many rounds, or as many as it takes until eight are idle in a row. NoMemory where memory
    /// is refused.
    pub fn settle(&mut self, alloc: Global, rounds: u128) -> Result<(), NoMemory>
        requires { KeepsUp self.old }
        ensures settles { OnOk result (Settles as_is (given_to self.old) (lost_in self.old)
            (length self.old.queues.items) rounds (seen self.old.world) (seen self.new.world)) }
        ensures goes { OnOk result (RunnerGoesOn self.old self.new) }
    {
        let mut left = rounds;
        let mut idle = 0;
        while left > 0 && idle < MOST_IDLE {
            let went_on = self.round(alloc)?;
            idle = idle_after(went_on, idle);
            left -= 1;
        }
        Ok(())
    }

    /// A round: whether a request went on in it.
    fn round(&mut self, alloc: Global) -> Result<bool, NoMemory>
        requires { KeepsUp self.old }
        ensures round { IfOk result (λ went_on. Round as_is (given_to self.old) (lost_in self.old)
            (length self.old.queues.items) went_on (seen self.old.world) (seen self.new.world)) }
        ensures goes { OnOk result (RunnerGoesOn self.old self.new) }
    {
        let mut went_on = false;
        for session in 0..self.sessions() {
            went_on = self.turn_of(alloc, SessionNo(session as u8), went_on)?;
        }
        Ok(went_on)
    }

    /// The turn of a session, where it runs.
    fn turn_of(
        &mut self,
        alloc: Global,
        session: SessionNo,
        went_on: bool,
    ) -> Result<bool, NoMemory>
        requires { KeepsUp self.old }
        ensures turn { IfOk result (λ went_on'. TurnOf as_is (given_to self.old) (lost_in self.old) session
            (record { world = seen self.old.world; went_on = went_on })
            (record { world = seen self.new.world; went_on = went_on' })) }
        ensures goes { OnOk result (RunnerGoesOn self.old self.new) }
    {
        if !self.world.runs(session) {
            return Ok(went_on);
        }
        self.turn(alloc, session, went_on)
    }

    /// The turn of a session: the notices that are due to it, slot 0, and then each slot that is
    /// held at this point.
    fn turn(&mut self, alloc: Global, session: SessionNo, went_on: bool) -> Result<bool, NoMemory>
        requires { KeepsUp self.old }
        ensures turn { IfOk result (λ went_on'. SessionTurn as_is (given_to self.old) (lost_in self.old) session
            (record { world = seen self.old.world; went_on = went_on })
            (record { world = seen self.new.world; went_on = went_on' })) }
        ensures goes { OnOk result (RunnerGoesOn self.old self.new) }
    {
        self.deliver_due(alloc, session)?;
        self.poll_slots(alloc, session, went_on)
    }

    /// The polls of a session's turn: slot 0, and then each slot that is held at this point.
    fn poll_slots(
        &mut self,
        alloc: Global,
        session: SessionNo,
        went_on: bool,
    ) -> Result<bool, NoMemory>
        requires { KeepsUp self.old }
        ensures polls { IfOk result (λ went_on'. PollsAll as_is (given_to self.old) session
            (record { world = seen self.old.world; went_on = went_on })
            (record { world = seen self.new.world; went_on = went_on' })) }
        ensures goes { OnOk result (RunnerGoesOn self.old self.new) }
    {
        let outcome = self.poll_and_start(alloc, session, Slot(0))?;
        let mut went_on = went_on_by(went_on, outcome);
        let held = self.held(session);
        for k in 0..self.highest() as usize {
            if !held[k] {
                continue;
            }
            let outcome = self.poll_and_start(alloc, session, Slot(k as u8 + 1))?;
            went_on = went_on_by(went_on, outcome);
        }
        Ok(went_on)
    }

    /// Which slots of a session are held: those from 1 on.
    fn held(&self, session: SessionNo) -> [bool; 64]
        requires { KeepsUp self.now }
        ensures { (k : ℕ) → k < 64 → slice_get result k ≡ Some (is_held session (k + 1) (seen self.now.world)) }
    {
        let mut held = [false; 64];
        for k in 0..self.highest() as usize {
            held[k] = self.world.line(session, Slot(k as u8 + 1)).is_some();
        }
        held
    }
}

/// How many rounds were idle in a row, behind one more.
fn idle_after(went_on: bool, idle: u8) -> u8
    requires { idle < 8 }
    ensures idle { result ≡ (if went_on then 0 else idle + 1) }
    ensures few { result ≤ 8 }
{
    if went_on { 0 } else { idle + 1 }
}

/// Whether a request went on in a round so far, behind one more poll.
fn went_on_by(so_far: bool, outcome: Outcome) -> bool
    ensures { result ≡ (so_far || goes_on_by outcome) }
{
    so_far || goes_on(outcome)
}

/// Whether a request went on: a step, and none that only asks again for a lock.
fn goes_on(outcome: Outcome) -> bool
    ensures { result ≡ goes_on_by outcome }
{
    match outcome {
        Outcome::Step {
            site: _,
            number: _,
            waiting,
            replied: _,
        } => !waiting,
        _ => false,
    }
}
