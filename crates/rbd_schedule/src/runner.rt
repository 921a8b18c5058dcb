//! A world with the commands that wait to be started, and one event of it after another.
//!
//! ```text
//! an event ── step ── is there a reply? ── start ── start ── .. ── nothing may start
//! ```
ghost use Rattle.std.specs.Prelude.{◌≡◌, ℕ, ◌<◌, ◌≤◌, ◌&&◌, ◌||◌, ◌++◌, [], true, false, drop, length, not, All, slice_get, IfOk, IfSome, OnOk};
ghost use Rattle.rbd_client.specs.Seen.{as_is};
ghost use Rattle.rbd_world.specs.Sound.{AreAtHome, IsNewWorld, IsSoundWorld};
ghost use Rattle.rbd_world.specs.Step.{IsBuiltEvent, IsWorldStep};
ghost use Rattle.rbd_world.specs.declared.event.Event.TheVariants as of_event;
ghost use Rattle.rbd_world.specs.Seen.{seen};
ghost use Rattle.rbd_schedule.specs.Given.{given_by as told_by_line, loses_notice, of_session};
ghost use Rattle.rbd_schedule.specs.Notices.{is_heard as heard_by};
ghost use Rattle.rbd_schedule.specs.Starts.{IsIdle, is_ended, to_start};
ghost use Rattle.rbd_schedule.specs.Playing.{at_place, RunnerGoesOn, IsEmptyQueue, IsNoStart, IsPlayedLine, KeepsUp, StartsEach, StartsIf, line_ended_by as end_of, given_to, has_line, has_mark, highest_after, homes_of, is_one_of, lets_start as may_start_by, lost_in, delivered_by, numbers_in};
ghost use Rattle.rbd_schedule.specs.Schedule.{Comes, Happens, StartsAll};

use crate::given::given_by;
use crate::heard::Heard;
use crate::queue::Queue;
use rbd_flat::Entry;
use rbd_kinds::{ImageId, NoMemory, Number, SessionNo, SiteId, Slot};
use rbd_line_table::LineMap;
use rbd_machine::Machine;
use rbd_script::{Declared, Line, Said};
use rbd_world::{Event, Outcome, World};
use std::alloc::Global;
use std::collections::{HashSet, VecDeque};

/// A world, and the commands of the script for each of its sessions. As a world it isn't `Drop`.
pub struct Runner {
    pub world: World,
    /// The commands that each session was given so far.
    pub queues: Vec<Queue>,
    /// The lines that have their reply, or are lost.
    over: LineMap<()>,
    /// Whether a command may have come to start: where it is false, none may.
    is_due: bool,
    /// No session holds a slot above it.
    highest: u8,
    /// The notices that were delivered.
    pub heard: Heard,
    /// The notices that no settle delivers.
    pub lost: HashSet<u64>,
    /// How many of the first notices are sorted by their sessions.
    pub sorted: u64,
    /// Of those the ones that a turn of each session may still deliver, in ascending order.
    pub inboxes: Vec<VecDeque<u64>>,
}

impl Runner {
    /// A new world of a script's sessions, which were given nothing so far.
    pub fn new(alloc: Global, sessions: &[Declared]) -> Result<Self, NoMemory>
        requires { length sessions.now ≤ 32 }
        ensures new { IfOk result (λ r. IsNewWorld (seen r.world)) }
        ensures homes { IfOk result (λ r. AreAtHome (homes_of sessions.now) (seen r.world).lives) }
        ensures keeps { IfOk result KeepsUp }
        ensures given { IfOk result (λ r. (session : ℕ) → given_to r session ≡ []) }
        ensures lost { IfOk result (λ r. (number : ℕ) → lost_in r number ≡ false) }
        ensures queues { IfOk result (λ r. length r.queues.items ≡ length sessions.now) }
    {
        let homes = homes(alloc, sessions)?;
        let queues = no_commands(alloc, sessions.len())?;
        let inboxes = empty_inboxes(alloc, sessions.len())?;
        let world = World::new(alloc, homes.as_slice())?;
        Ok(Runner {
            world,
            queues,
            over: LineMap::new(alloc),
            is_due: false,
            highest: 0,
            heard: Heard::new(alloc),
            lost: HashSet::new(alloc),
            sorted: 0,
            inboxes,
        })
    }

    /// How many sessions there are.
    pub fn sessions(&self) -> usize
        ensures { result ≡ length self.now.queues.items }
    {
        self.queues.len()
    }

    /// The world alone.
    pub fn into_world(self) -> World
        ensures { result ≡ self.world }
    {
        let Runner {
            world,
            queues: _,
            over: _,
            is_due: _,
            highest: _,
            heard: _,
            lost: _,
            sorted: _,
            inboxes: _,
        } = self;
        world
    }

    /// Lets the runner go, and its world.
    pub fn close(self) {
        self.into_world().close();
    }

    /// A line is reached: the command that it gives, where it gives one, waits behind the others of
    /// its session, and the notice that it loses is one of those.
    pub fn give(&mut self, line: &Line) -> Result<(), NoMemory>
        ensures keeps { OnOk result (IsPlayedLine line.now.said → KeepsUp self.old → KeepsUp self.new) }
        ensures given { OnOk result ((session : ℕ) → session < length self.old.queues.items
            → given_to self.new session ≡ given_to self.old session ++ of_session session
            (told_by_line line.now.number line.now.said)) }
        ensures lost { OnOk result ((number : ℕ)
            → lost_in self.new number ≡ (lost_in self.old number || loses_notice number line.now.said)) }
        ensures queues { OnOk result (length self.new.queues.items ≡ length self.old.queues.items) }
        ensures world { OnOk result (seen self.new.world ≡ seen self.old.world) }
    {
        self.lose_by(&line.said)?;
        self.queue(line)
    }

    /// The notice that a line loses, where it loses one, is one of those that no settle delivers.
    fn lose_by(&mut self, said: &Said) -> Result<(), NoMemory>
        ensures lost { OnOk result ((number : ℕ)
            → lost_in self.new number ≡ (lost_in self.old number || loses_notice number said.now)) }
        ensures rest { self.new ≡ record self.old { lost = self.new.lost } }
    {
        if let Said::Lose(number) = said {
            self.lost.insert(number.get())?;
        }
        Ok(())
    }

    /// The command of a line, where it gives one, waits behind the others of its session.
    fn queue(&mut self, line: &Line) -> Result<(), NoMemory>
        ensures keeps { OnOk result (IsPlayedLine line.now.said → KeepsUp self.old → KeepsUp self.new) }
        ensures given { OnOk result ((session : ℕ) → session < length self.old.queues.items
            → given_to self.new session ≡ given_to self.old session ++ of_session session
            (told_by_line line.now.number line.now.said)) }
        ensures lost { lost_in self.new ≡ lost_in self.old }
        ensures queues { OnOk result (length self.new.queues.items ≡ length self.old.queues.items) }
        ensures world { OnOk result (seen self.new.world ≡ seen self.old.world) }
    {
        let Some(given) = given_by(line)? else {
            return Ok(());
        };
        match self.queues.get_mut(given.session.0 as usize) {
            Some(queue) => {
                let is_held = queue.holds_back(&given, &self.over);
                self.is_due = is_due_behind(self.is_due, is_held);
                queue.push(given)
            }
            None => {
                drop(given);
                Ok(())
            }
        }
    }

    /// A poll, and then all that may start.
    pub fn poll_and_start(
        &mut self,
        alloc: Global,
        session: SessionNo,
        slot: Slot,
    ) -> Result<Outcome, NoMemory>
        requires { KeepsUp self.old }
        ensures comes { IfOk result (λ outcome. Comes as_is (given_to self.old) (of_event.Poll session slot) outcome
            (seen self.old.world) (seen self.new.world)) }
        ensures goes { OnOk result (RunnerGoesOn self.old self.new) }
    {
        let from = self.world.history().len();
        let outcome = self.world.poll(alloc, session, slot)?;
        self.note(from, None, &outcome)?;
        self.start_all(alloc)?;
        Ok(outcome)
    }

    /// A notice is delivered, and then all that may start does.
    pub fn deliver_and_start(&mut self, alloc: Global, number: u64) -> Result<(), NoMemory>
        requires { KeepsUp self.old }
        ensures happens { OnOk result (Happens as_is (given_to self.old) (of_event.Deliver number)
            (seen self.old.world) (seen self.new.world)) }
        ensures goes { OnOk result (RunnerGoesOn self.old self.new) }
    {
        let from = self.world.history().len();
        let outcome = self.world.deliver(number)?;
        self.note(from, Some(number), &outcome)?;
        self.start_all(alloc)
    }

    /// An event that begins no command, and then all that may start.
    pub fn happen(&mut self, alloc: Global, event: Event) -> Result<(), NoMemory>
        requires keeps { KeepsUp self.old }
        requires none { IsNoStart event }
        ensures happens { OnOk result (Happens as_is (given_to self.old) event (seen self.old.world)
            (seen self.new.world)) }
        ensures goes { OnOk result (RunnerGoesOn self.old self.new) }
    {
        let from = self.world.history().len();
        let told = notice_of(&event);
        let outcome = self.step(alloc, event)?;
        self.note(from, told, &outcome)?;
        self.start_all(alloc)
    }

    /// A session's watch of an image ends, and then all that may start does.
    pub fn expire(
        &mut self,
        alloc: Global,
        session: SessionNo,
        site: SiteId,
        image: ImageId,
    ) -> Result<(), NoMemory>
        requires { KeepsUp self.old }
        ensures happens { OnOk result (Happens as_is (given_to self.old) (of_event.Expire session site image)
            (seen self.old.world) (seen self.new.world)) }
        ensures goes { OnOk result (RunnerGoesOn self.old self.new) }
    {
        let event = Event::Expire {
            session,
            site,
            image,
        };
        self.happen(alloc, event)
    }

    /// What a slot wanted comes, and then all that may start does.
    pub fn late(&mut self, alloc: Global, session: SessionNo, slot: Slot) -> Result<(), NoMemory>
        requires { KeepsUp self.old }
        ensures happens { OnOk result (Happens as_is (given_to self.old) (of_event.Late session slot)
            (seen self.old.world) (seen self.new.world)) }
        ensures goes { OnOk result (RunnerGoesOn self.old self.new) }
    {
        self.happen(alloc, Event::Late { session, slot })
    }

    /// A step of the store, and then all that may start does.
    pub fn trim(
        &mut self,
        alloc: Global,
        site: SiteId,
        image: ImageId,
        object: u64,
    ) -> Result<(), NoMemory>
        requires { KeepsUp self.old }
        ensures happens { OnOk result (Happens as_is (given_to self.old) (of_event.Trim site image object)
            (seen self.old.world) (seen self.new.world)) }
        ensures goes { OnOk result (RunnerGoesOn self.old self.new) }
    {
        let event = Event::Trim {
            site,
            image,
            object,
        };
        self.happen(alloc, event)
    }

    /// One event, and nothing else.
    fn step(&mut self, alloc: Global, event: Event) -> Result<Outcome, NoMemory>
        requires { IsBuiltEvent event }
        ensures step { IfOk result (λ outcome. IsWorldStep as_is event (seen self.old.world) outcome
            (seen self.new.world)) }
        ensures sound { IsSoundWorld as_is (seen self.new.world) }
        ensures rest { self.new ≡ record self.old { world = self.new.world } }
    {
        let outcome = self.world.step(alloc, &event);
        drop(event);
        outcome
    }

    // Inline: it is a part of each event, and small where none ends a line.
    /// What came of an event is noted: the lines that have ended by it, from this place of the
    /// history on; the notice that it told, where one heard it; and whether another command may
    /// start.
    #[inline]
    fn note(&mut self, from: usize, told: Option<u64>, outcome: &Outcome) -> Result<(), NoMemory>
        requires { from ≤ length (seen self.old.world).history }
        ensures over { OnOk result ((line : ℕ)
            → has_line line self.new.over ≡
            (has_line line self.old.over || is_ended line (drop from (seen self.old.world).history))) }
        ensures heard { OnOk result ((number : ℕ)
            → has_mark number self.new.heard
            ≡ (has_mark number self.old.heard || (is_one_of number told && heard_by outcome.now))) }
        ensures due { OnOk result (self.new.is_due ≡ (self.old.is_due || may_start_by outcome.now)) }
        ensures rest { self.new ≡ record self.old {
          over = self.new.over;
          heard = self.new.heard;
          is_due = self.new.is_due;
        } }
    {
        note_ends(&mut self.over, &self.world.history()[from..])?;
        note_hearing(&mut self.heard, told, outcome)?;
        self.is_due = self.is_due || lets_start(outcome);
        Ok(())
    }

    // Inline: behind most events it is one test.
    /// Starts one command after another, until none may start. None is looked for where none may.
    #[inline]
    pub fn start_all(&mut self, alloc: Global) -> Result<(), NoMemory>
        requires { KeepsUp self.old }
        ensures starts { OnOk result (StartsAll as_is (given_to self.old) (seen self.old.world) (seen self.new.world)) }
        ensures goes { OnOk result (RunnerGoesOn self.old self.new) }
    {
        if !self.is_due {
            return Ok(());
        }
        self.start_due(alloc)
    }

    // Not inline: behind most events none may start, and then its frame would be made for nothing.
    /// The same where one may.
    #[inline(never)]
    fn start_due(&mut self, alloc: Global) -> Result<(), NoMemory>
        requires { KeepsUp self.old }
        ensures starts { OnOk result (StartsAll as_is (given_to self.old) (seen self.old.world) (seen self.new.world)) }
        ensures goes { OnOk result (RunnerGoesOn self.old self.new) }
    {
        for session in 0..self.queues.len() {
            self.start_each(alloc, SessionNo(session as u8))?;
        }
        self.is_due = false;
        Ok(())
    }

    /// Starts each command of a session that may start, one after another, where none of the
    /// sessions before it has one.
    fn start_each(&mut self, alloc: Global, session: SessionNo) -> Result<(), NoMemory>
        requires keeps { KeepsUp self.old }
        requires before { (other : ℕ) → other < session → IsIdle (given_to self.old) (seen self.old.world) other }
        ensures starts { OnOk result (StartsEach as_is (given_to self.old) session (seen self.old.world)
            (seen self.new.world)) }
        ensures goes { OnOk result (RunnerGoesOn self.old self.new) }
    {
        while self.start_of(alloc, session)? {}
        Ok(())
    }

    /// Starts the earliest command of a session that may start: `false` exactly where there is
    /// none.
    fn start_of(&mut self, alloc: Global, session: SessionNo) -> Result<bool, NoMemory>
        requires { KeepsUp self.old }
        ensures starts { IfOk result (λ started. StartsIf as_is (given_to self.old) session started
            (seen self.old.world) (seen self.new.world)) }
        ensures goes { OnOk result (RunnerGoesOn self.old self.new) }
    {
        match self.place_of(session) {
            Some(place) => self.start_at(alloc, session, place),
            None => Ok(false),
        }
    }

    /// The place of a session's earliest command that may start.
    fn place_of(&mut self, session: SessionNo) -> Option<usize>
        requires { KeepsUp self.old }
        ensures place { at_place (given_to self.old session) result ≡ to_start (given_to self.old session)
            (seen self.old.world) session }
        ensures within { IfSome result (λ place. place < length (given_to self.old session)) }
        ensures goes { RunnerGoesOn self.old self.new }
        ensures world { seen self.new.world ≡ seen self.old.world }
    {
        self.world.free(session)?;
        let queue = self.queues.get_mut(session.0 as usize)?;
        queue.earliest(&self.world, &self.over)
    }

    /// Starts a session's command at a place, which may start. It answers `true`.
    fn start_at(
        &mut self,
        alloc: Global,
        session: SessionNo,
        place: usize,
    ) -> Result<bool, NoMemory>
        requires keeps { KeepsUp self.old }
        requires within { place < length (given_to self.old session) }
        requires may { to_start (given_to self.old session) (seen self.old.world) session
            ≡ slice_get (given_to self.old session) place }
        ensures starts { IfOk result (λ started. StartsIf as_is (given_to self.old) session started
            (seen self.old.world) (seen self.new.world)) }
        ensures started { IfOk result (λ started. started ≡ true) }
        ensures goes { OnOk result (RunnerGoesOn self.old self.new) }
    {
        let command = &self.queues[session.0 as usize].commands[place];
        let outcome = self.world.step(alloc, &command.submission)?;
        self.highest = highest_behind(self.highest, &outcome);
        Ok(true)
    }

    /// A slot above which no session holds one.
    pub fn highest(&self) -> u8
        ensures { result ≡ self.now.highest }
    {
        self.highest
    }
}

/// Whether a command may have come to start, behind one that was given.
fn is_due_behind(is_due: bool, is_held: bool) -> bool
    ensures { result ≡ (is_due || not is_held) }
{
    is_due || !is_held
}

/// The highest slot that was given so far, behind a step.
fn highest_behind(highest: u8, outcome: &Outcome) -> u8
    ensures { result ≡ highest_after highest outcome.now }
{
    match outcome {
        Outcome::Submitted(slot) => highest.max(slot.0),
        _ => highest,
    }
}

/// The lines that have ended by entries of a history.
fn note_ends(over: &mut LineMap<()>, entries: &[Entry]) -> Result<(), NoMemory>
    ensures { OnOk result ((line : ℕ)
        → has_line line over.new ≡ (has_line line over.old || is_ended line entries.now)) }
{
    for entry in entries {
        note_end(over, entry)?;
    }
    Ok(())
}

/// The line that has ended by an entry, where one has.
fn note_end(over: &mut LineMap<()>, entry: &Entry) -> Result<(), NoMemory>
    ensures { OnOk result ((line : ℕ)
        → has_line line over.new ≡ (has_line line over.old || is_one_of line (end_of entry.now))) }
{
    if let Some(line) = line_ended_by(entry) {
        over.insert(line, ())?;
    }
    Ok(())
}

/// The line that has its reply, or is lost, by an entry.
fn line_ended_by(entry: &Entry) -> Option<u32>
    ensures { result ≡ end_of entry.now }
{
    match entry {
        Entry::Reply { line, reply: _ } => Some(*line),
        Entry::Lost { line } => Some(*line),
        _ => None,
    }
}

/// The notice that an event told, where an instance heard it.
fn note_hearing(heard: &mut Heard, told: Option<u64>, outcome: &Outcome) -> Result<(), NoMemory>
    ensures { OnOk result ((number : ℕ)
        → has_mark number heard.new ≡ (has_mark number heard.old || (is_one_of number told && heard_by outcome.now))) }
{
    if !is_heard(outcome) {
        return Ok(());
    }
    if let Some(number) = told {
        heard.add(number)?;
    }
    Ok(())
}

/// Whether an instance heard a notice.
fn is_heard(outcome: &Outcome) -> bool
    ensures { result ≡ heard_by outcome.now }
{
    match outcome {
        Outcome::Heard => true,
        _ => false,
    }
}

/// The notice that an event delivers, where it delivers one.
fn notice_of(event: &Event) -> Option<u64>
    ensures { result ≡ delivered_by event.now }
{
    match event {
        Event::Deliver { number } => Some(*number),
        _ => None,
    }
}

/// Whether a command may have come to start by an event: a request has its reply, lines are lost,
/// or a session runs again.
fn lets_start(outcome: &Outcome) -> bool
    ensures { result ≡ may_start_by outcome.now }
{
    match outcome {
        Outcome::Step {
            site: _,
            number: _,
            waiting: _,
            replied,
        } => *replied,
        Outcome::Stopped => true,
        Outcome::Restarted => true,
        _ => false,
    }
}

/// The home of each session.
fn homes(alloc: Global, sessions: &[Declared]) -> Result<Vec<SiteId>, NoMemory>
    ensures { IfOk result (λ homes. homes.items ≡ homes_of sessions.now) }
{
    let mut homes = Vec::new(alloc);
    for session in sessions {
        homes.push(session.home)?;
    }
    Ok(homes)
}

/// A queue without commands for each of so many sessions.
fn no_commands(alloc: Global, sessions: usize) -> Result<Vec<Queue>, NoMemory>
    ensures count { IfOk result (λ queues. length queues.items ≡ sessions) }
    ensures empty { IfOk result (λ queues. All IsEmptyQueue queues.items) }
{
    let mut queues = Vec::new(alloc);
    for _session in 0..sessions {
        queues.push(Queue::new(alloc))?;
    }
    Ok(queues)
}

/// An empty inbox for each of so many sessions.
fn empty_inboxes(alloc: Global, sessions: usize) -> Result<Vec<VecDeque<u64>>, NoMemory>
    ensures { IfOk result (λ inboxes. (k : ℕ) → numbers_in (slice_get inboxes.items k) ≡ []) }
{
    let mut inboxes = Vec::new(alloc);
    for _session in 0..sessions {
        inboxes.push(VecDeque::new(alloc))?;
    }
    Ok(inboxes)
}
