//! The notices that sessions have yet to hear.
//!
//! ```text
//! notices   1 2 3 4 5 6 7 8 9
//!                        │
//!                        sorted: each up to here is in its session's inbox, or was passed by there
//! inboxes   of session 0: 5, 8      of session 1: none      of session 2: 7
//! ```
//!
//! A notice comes into one inbox, once, and leaves it once it is settled: it was heard or is lost,
//! or its instance was stopped. So a turn costs what its session was told, and nothing of what
//! others were.
ghost use Rattle.std.specs.Prelude.{◌≡◌, ◌≢◌, ℕ, ◌+◌, ◌<◌, ◌≤◌, [], ◌∷◌, ◌++◌, false, true, length, option_map, slice_get, IfSome, None, OnOk};
ghost use Rattle.rbd_client.specs.Seen.{as_is};
ghost use Rattle.rbd_kinds.specs.declared.notice.Notice.{Notice as Told};
ghost use Rattle.rbd_watch.specs.Posting.{notice_numbered};
ghost use Rattle.rbd_world.specs.Seen.{seen};
ghost use Rattle.rbd_schedule.specs.Deeds.{Deeds};
ghost use Rattle.rbd_schedule.specs.Notices.{is_notice_due as due_to};
ghost use Rattle.rbd_schedule.specs.Playing.{RunnerGoesOn, IsWithout, KeepsUp, given_to, has_mark, has_number, is_past_life as past_by, is_dealt_with as settled_by, lost_in, numbers_in, passed_by};
ghost use Rattle.rbd_schedule.specs.Schedule.{DeliversWhere};

use crate::heard::Heard;
use crate::runner::Runner;
use rbd_kinds::{Instance, NoMemory, Notice, SessionNo};
use rbd_machine::Machine;
use rbd_world::World;
use std::alloc::Global;
use std::collections::{HashSet, VecDeque};

impl Runner {
    /// Delivers each notice that is due to a session, in ascending order.
    pub fn deliver_due(&mut self, alloc: Global, session: SessionNo) -> Result<(), NoMemory>
        requires { KeepsUp self.old }
        ensures notices { OnOk result (Deeds
            (λ k. DeliversWhere as_is (given_to self.old)
            (due_to (lost_in self.old) session (k + 1) (seen self.old.world)) (k + 1))
            (length (seen self.old.world).sites.mail) (seen self.old.world) (seen self.new.world)) }
        ensures goes { OnOk result (RunnerGoesOn self.old self.new) }
    {
        self.sort()?;
        let all = self.world.notices();
        let mut told = 0;
        while let Some(number) = self.next_due(session, told, all) {
            self.deliver_and_start(alloc, number)?;
            told = number;
        }
        Ok(())
    }

    /// The notices so far come into the inboxes of their sessions.
    fn sort(&mut self) -> Result<(), NoMemory>
        requires { KeepsUp self.old }
        ensures goes { OnOk result (RunnerGoesOn self.old self.new) }
        ensures world { OnOk result (seen self.new.world ≡ seen self.old.world) }
    {
        for _ in self.sorted..self.world.notices() {
            self.sort_one()?;
        }
        Ok(())
    }

    /// The next notice comes into the inbox of its session, where there is one.
    fn sort_one(&mut self) -> Result<(), NoMemory>
        requires { KeepsUp self.old }
        ensures goes { OnOk result (RunnerGoesOn self.old self.new) }
        ensures world { OnOk result (seen self.new.world ≡ seen self.old.world) }
    {
        if self.sorted == u64::MAX {
            return Err(NoMemory);
        }
        let number = self.sorted + 1;
        let Some(to) = receiver(&self.world, number) else {
            return Ok(());
        };
        put(&mut self.inboxes, to.session, number)?;
        self.sorted = number;
        Ok(())
    }

    /// The next one of all notices that is due to a session, behind those up to one.
    fn next_due(&mut self, session: SessionNo, told: u64, all: u64) -> Option<u64>
        requires { KeepsUp self.old }
        ensures some { IfSome result (λ number. (told < number) × (number ≤ all)
            × (due_to (lost_in self.old) session number (seen self.old.world) ≡ true)) }
        ensures before { IfSome result
            (λ number. (k : ℕ) → told ≤ k → k + 1 < number
            → due_to (lost_in self.old) session (k + 1) (seen self.old.world) ≡ false) }
        ensures none { result ≡ None → (k : ℕ) → told ≤ k → k < all
            → due_to (lost_in self.old) session (k + 1) (seen self.old.world) ≡ false }
        ensures goes { RunnerGoesOn self.old self.new }
        ensures world { seen self.new.world ≡ seen self.old.world }
    {
        let passed = self.pass(session);
        for k in behind(told, passed)..all {
            if self.is_due(session, k + 1) {
                return Some(k + 1);
            }
        }
        None
    }

    /// Whether a notice is due to a session.
    fn is_due(&self, session: SessionNo, number: u64) -> bool
        requires { KeepsUp self.now }
        ensures { result ≡ due_to (lost_in self.now) session number (seen self.now.world) }
    {
        let Some(who) = self.world.running(session) else {
            return false;
        };
        let Some(notice) = self.world.notice(number) else {
            return false;
        };
        if notice.to != who {
            return false;
        }
        if self.heard.has(number) {
            return false;
        }
        !is_lost(&self.lost, number)
    }

    /// Passes by the notices with which a session has no more to do: how many of the first it is
    /// past now, of which none is due to it.
    fn pass(&mut self, session: SessionNo) -> u64
        requires { KeepsUp self.old }
        ensures none { (k : ℕ) → k < result → due_to (lost_in self.old) session (k + 1) (seen self.old.world) ≡ false }
        ensures goes { RunnerGoesOn self.old self.new }
        ensures world { seen self.new.world ≡ seen self.old.world }
    {
        let Some(who) = self.world.running(session) else {
            return 0;
        };
        let Some(inbox) = self.inboxes.get_mut(session.0 as usize) else {
            return 0;
        };
        pass_settled(inbox, &self.world, &self.heard, &self.lost, &who);
        passed_by(inbox, self.sorted)
    }
}

/// The instance that a notice is to, where there is one.
fn receiver(world: &World, number: u64) -> Option<Instance>
    ensures { result ≡ option_map (λ (n : Told). n.to) (notice_numbered number (seen world.now).sites.mail) }
{
    Some(world.notice(number)?.to)
}

/// A notice comes into the inbox of a session, behind the others.
fn put(inboxes: &mut Vec<VecDeque<u64>>, session: SessionNo, number: u64) -> Result<(), NoMemory>
    ensures count { OnOk result (length inboxes.new.items ≡ length inboxes.old.items) }
    ensures here { OnOk result (session < length inboxes.old.items → numbers_in (slice_get inboxes.new.items session)
        ≡ numbers_in (slice_get inboxes.old.items session) ++ number ∷ []) }
    ensures others { OnOk result ((other : ℕ) → other ≢ session → numbers_in (slice_get inboxes.new.items other)
        ≡ numbers_in (slice_get inboxes.old.items other)) }
{
    let Some(inbox) = inboxes.get_mut(session.0 as usize) else {
        return Ok(());
    };
    inbox.push_back(number)?;
    Ok(())
}

/// The first notice of an inbox.
fn first_of(inbox: &VecDeque<u64>) -> Option<u64>
    ensures { result ≡ slice_get inbox.now.items 0 }
{
    match inbox.front() {
        Some(number) => Some(*number),
        None => None,
    }
}

/// How many of the first notices a session is past by its inbox, of those that are sorted.
fn passed_by(inbox: &VecDeque<u64>, sorted: u64) -> u64
    ensures { result ≡ passed_by inbox.now.items sorted }
{
    match first_of(inbox) {
        Some(number) => number.saturating_sub(1),
        None => sorted,
    }
}

/// The greater one of two counts of notices.
fn behind(told: u64, passed: u64) -> u64
    ensures least { told ≤ result }
    ensures between { (k : ℕ) → told ≤ k → k < result → k < passed }
{
    if told < passed { passed } else { told }
}

/// Takes the notices with which an instance has no more to do out of the front of an inbox.
fn pass_settled(
    inbox: &mut VecDeque<u64>,
    world: &World,
    heard: &Heard,
    lost: &HashSet<u64>,
    who: &Instance,
)
    ensures { IsWithout (λ number. settled_by (λ n. has_mark n heard.now) (λ n. has_number n lost.now) who.now number
        (notice_numbered number (seen world.now).sites.mail) ≡ true) inbox.old.items inbox.new.items }
{
    while let Some(number) = first_of(inbox) {
        if !is_settled(world, heard, lost, who, number) {
            return;
        }
        inbox.pop_front();
    }
}

/// Whether an instance has no more to do with a notice.
fn is_settled(
    world: &World,
    heard: &Heard,
    lost: &HashSet<u64>,
    who: &Instance,
    number: u64,
) -> bool
    ensures { result ≡ settled_by (λ n. has_mark n heard.now) (λ n. has_number n lost.now) who.now number
        (notice_numbered number (seen world.now).sites.mail) }
{
    let Some(notice) = world.notice(number) else {
        return false;
    };
    if is_past(&notice.to, who) {
        return true;
    }
    if heard.has(number) {
        return true;
    }
    is_lost(lost, number)
}

/// Whether a notice is lost. (Mostly none is, and then its number isn't hashed.)
fn is_lost(lost: &HashSet<u64>, number: u64) -> bool
    ensures { result ≡ has_number number lost.now }
{
    if lost.is_empty() {
        return false;
    }
    lost.contains(&number)
}

/// Whether a notice to an instance is to another session than this one's, or to an earlier life.
fn is_past(to: &Instance, latest: &Instance) -> bool
    ensures { result ≡ past_by to.now latest.now }
{
    if to.session != latest.session {
        return true;
    }
    to.life < latest.life
}
