//! A session and its slots.
ghost use Rattle.std.specs.Prelude.{◌≡◌, ◌≢◌, ℕ, ◌≤◌, not, [], None, Some, IsSome, IsNone, IfOk, OnErr, OnOk};
ghost use Rattle.rbd_kinds.specs.declared.id.SiteId.{SiteId as Site};
ghost use Rattle.rbd_queue.specs.Line.{any_past};
ghost use Rattle.rbd_slots.specs.Advance.{track_of};
ghost use Rattle.rbd_slots.specs.Lines.{lines_of};
ghost use Rattle.rbd_slots.specs.Session.{IsSoundSession, IsNewcomer, free_slot, held_in, running_at, script_line, kind_at, op_at, look_under_lock_at, refusal_in, reply_of, lowest_after, seat_of, OfRunning, IsAlike, IsAnswered, IsFed, IsReadied};
ghost use Rattle.rbd_slots.specs.OnTrack.{LeavesOthers};
ghost use Rattle.rbd_slots.specs.Track.{ended_by};
ghost use Rattle.rbd_slots.specs.declared.running.Running.{Running};

use crate::feeding::{feed_in, prepare_in};
use crate::lines::Lines;
use crate::running::{Occupant, Running};
use crate::slots::{empty_slots, free_up, held_at, hold, next_free};
use crate::wanted::{kind_in, look_under_lock, op_in, running_in};
use rbd_kinds::{Fed, ImageAt, Instance, NoMemory, Op, OpKind, Refusal, Reply, SiteId, Slot};
use rbd_machine::{Begun, Request, Seat};
use std::alloc::Global;
use std::marker::Model;

/// A session in one of its lives: the requests of that instance, each in a slot.
#[derive(Drop)]
pub struct Session<R: Request> {
    instance: Instance,
    home: SiteId,
    slots: Vec<Option<Occupant<R>>>,
    /// The lowest free slot, 65 where 64 are held.
    lowest: u8,
    lines: Lines,
}

impl<R: Request> Model for Session<R> {
    ghost use Rattle.rbd_slots.specs.Session.{SessionView, IsSoundSession};

    ghost Value = { SessionView R };

    ghost view = { λ s. record {
      instance = s.instance;
      home = s.home;
      slots = s.slots.items;
      lowest = s.lowest;
      lines = s.lines;
    } };

    ghost invariant = { λ s. IsSoundSession R.stands
        (record { instance = s.instance; home = s.home; slots = s.slots.items; lowest = s.lowest; lines = s.lines }) };
}

impl<R: Request> Session<R> {
    /// A session in one of its lives, at its home site, without requests. NoMemory where the memory
    /// for its slots is refused.
    pub fn new(alloc: Global, instance: Instance, home: SiteId) -> Result<Self, NoMemory>
        ensures who { IfOk result (λ s. (s.instance ≡ instance) × (s.home ≡ home)) }
        ensures slots { IfOk result (λ s. (slot : ℕ) → held_in slot s.slots ≡ None) }
        ensures lines { IfOk result (λ s. (site : Site) (image : ℕ) → lines_of s.lines site image ≡ []) }
        ensures sound { IfOk result (IsSoundSession R.stands) }
    {
        let slots = empty_slots(alloc)?;
        Ok(Session {
            instance,
            home,
            slots,
            lowest: 1,
            lines: Lines::new(alloc),
        })
    }

    /// Which session this is, and in which of its lives: the instance.
    pub fn instance(&self) -> Instance
        ensures { result ≡ self.now.instance }
    {
        self.instance
    }

    /// The site at which the session is at home.
    pub fn home(&self) -> SiteId
        ensures { result ≡ self.now.home }
    {
        self.home
    }

    /// The lowest free slot: `None` exactly where 64 are held. It takes no memory.
    pub fn free(&self) -> Option<Slot>
        ensures free { result ≡ free_slot self.now.lowest }
        ensures sound { IsSoundSession R.stands self.now }
    {
        if self.lowest > 64 {
            return None;
        }
        Some(Slot(self.lowest))
    }

    /// A request of some work takes the lowest free slot, with the number of its script's line.
    /// There is a free slot. NoMemory where the memory for the request is refused; then nothing
    /// changes.
    pub fn submit(&mut self, alloc: Global, line: u32, work: R::Work) -> Result<Slot, NoMemory>
        requires free { self.old.lowest ≤ 64 }
        requires serves { R.serves work }
        ensures slot { IfOk result (λ slot. slot ≡ self.old.lowest) }
        ensures held { OnOk result (IsNewcomer R.stands R.stands_for R.extent_for (seat_of self.old) line work
            (held_in self.old.lowest self.new.slots)) }
        ensures others { (slot : ℕ) → slot ≢ self.old.lowest
            → held_in slot self.new.slots ≡ held_in slot self.old.slots }
        ensures lines { self.new.lines ≡ self.old.lines }
        ensures who { (self.new.instance ≡ self.old.instance) × (self.new.home ≡ self.old.home) }
        ensures err { OnErr result (self.new ≡ self.old) }
        ensures sound { IsSoundSession R.stands self.new }
    {
        let seat = Seat {
            session: self.instance.session,
            home: self.home,
        };
        match newcomer(alloc, &seat, line, work) {
            Ok(occupant) => {
                let slot = self.lowest;
                hold(&mut self.slots, Slot(slot), occupant);
                self.lowest = next_free(self.slots.as_slice(), slot + 1);
                Ok(Slot(slot))
            }
            Err(fault) => Err(fault),
        }
    }

    /// The script's line of the request in a slot: `None` exactly where the slot is free. It takes
    /// no memory.
    pub fn line(&self, slot: Slot) -> Option<u32>
        ensures line { result ≡ script_line (held_in slot self.now.slots) }
        ensures sound { IsSoundSession R.stands self.now }
    {
        line_at(self.slots.as_slice(), slot)
    }

    /// The site and the kind of the operation that the request in a slot wants: `None` exactly
    /// where the slot is free, waits, or holds a request that is refused before any operation. It
    /// takes no memory.
    pub fn kind(&self, slot: Slot) -> Option<(SiteId, OpKind)>
        ensures kind { result ≡ kind_at R.stands slot self.now }
        ensures sound { IsSoundSession R.stands self.now }
    {
        kind_in(self.slots.as_slice(), &self.lines, slot)
    }

    /// The operation that the request in a slot wants, and its site: `None` as by
    /// [`Session::kind`]. NoMemory where the memory for the operation is refused.
    pub fn next(&self, alloc: Global, slot: Slot) -> Result<Option<(SiteId, Op)>, NoMemory>
        ensures op { IfOk result (λ told. told ≡ op_at R.stands slot self.now) }
        ensures sound { IsSoundSession R.stands self.now }
    {
        op_in(alloc, self.slots.as_slice(), &self.lines, slot)
    }

    /// The image at whose look under the lock the request in a slot stands, where it may go on: it
    /// waits for that look in the image's line, and wants a look at a header of that site. `None`
    /// exactly where the slot is free, waits, holds a request that is refused before any operation,
    /// or stands elsewhere. It takes no memory.
    pub fn look_under_lock(&self, slot: Slot) -> Option<ImageAt>
        ensures look { result ≡ look_under_lock_at R.stands slot self.now }
        ensures sound { IsSoundSession R.stands self.now }
    {
        look_under_lock(self.slots.as_slice(), &self.lines, slot)
    }

    /// Whether no request of an image is past its look under the lock (own). It takes no memory.
    pub fn is_at_rest(&self, at: &ImageAt) -> bool
        ensures rest { result ≡ not (any_past (lines_of self.now.lines at.now.site at.now.image)) }
        ensures sound { IsSoundSession R.stands self.now }
    {
        !self.lines.is_any_past(at)
    }

    /// Serves a request that is refused before any operation: its reply, and the slot is free.
    /// `None` exactly where the slot holds no such request; then nothing changes. It takes no
    /// memory.
    pub fn refuse(&mut self, slot: Slot) -> Option<Reply>
        ensures reply { result ≡ reply_of (refusal_in (held_in slot self.old.slots)) }
        ensures none { IsNone result → self.new ≡ self.old }
        ensures some { IsSome result → held_in slot self.new.slots ≡ None }
        ensures others { (other : ℕ) → other ≢ slot → held_in other self.new.slots ≡ held_in other self.old.slots }
        ensures lines { self.new.lines ≡ self.old.lines }
        ensures who { (self.new.instance ≡ self.old.instance) × (self.new.home ≡ self.old.home) }
        ensures sound { IsSoundSession R.stands self.new }
    {
        let Some(refusal) = refusal_at(self.slots.as_slice(), slot) else {
            return None;
        };
        free_up(&mut self.slots, &mut self.lowest, slot);
        Some(Reply::Refused(refusal))
    }

    /// Makes everything ready for an answer to the request in a slot, which may go on: all memory
    /// that [`Session::feed`] needs. Nothing else changes. NoMemory where memory is refused.
    pub fn ready(&mut self, alloc: Global, slot: Slot, fed: &Fed) -> Result<(), NoMemory>
        requires { OfRunning (IsAnswered R.stands slot self.old.lines fed.now) (held_in slot self.old.slots) }
        ensures alike { IsAlike R.stands self.old self.new }
        ensures others { (other : ℕ) → other ≢ slot → held_in other self.new.slots ≡ held_in other self.old.slots }
        ensures ready { OnOk result (IsReadied R.stands R.is_ready slot fed.now self.new) }
        ensures sound { IsSoundSession R.stands self.new }
    {
        prepare_in(
            alloc,
            &mut self.slots[slot.0 as usize],
            &mut self.lines,
            slot,
            fed,
        )
    }

    /// Feeds the request in a slot the answer that it was readied for. The request goes on to its
    /// next operation, past what it wants beside; or it ends, and its slot is free. `None` exactly
    /// where it hasn't ended. It takes no memory.
    pub fn feed(&mut self, slot: Slot, fed: &Fed) -> Option<Reply>
        requires { IsReadied R.stands R.is_ready slot fed.now self.old }
        ensures fed { IsFed R.stands slot fed.now result self.old self.new }
        ensures slots { (other : ℕ) → other ≢ slot → held_in other self.new.slots ≡ held_in other self.old.slots }
        ensures others { LeavesOthers slot (lines_of self.old.lines) (lines_of self.new.lines) }
        ensures who { (self.new.instance ≡ self.old.instance) × (self.new.home ≡ self.old.home) }
        ensures sound { IsSoundSession R.stands self.new }
    {
        let reply = feed_in(&mut self.slots[slot.0 as usize], &mut self.lines, slot, fed);
        self.lowest = lowest_behind(self.lowest, slot, reply.is_some());
        reply
    }

    /// Ends the request that runs in a slot, wherever it stands: it leaves the line that it is in,
    /// with its tickets, and the slot is free. Where no request runs there nothing changes. It
    /// takes no memory.
    pub fn give_up(&mut self, slot: Slot)
        ensures free { IsSome (running_at slot self.old) → held_in slot self.new.slots ≡ None }
        ensures none { running_at slot self.old ≡ None → self.new ≡ self.old }
        ensures others { (other : ℕ) → other ≢ slot → held_in other self.new.slots ≡ held_in other self.old.slots }
        ensures left { (r : Running R) → running_at slot self.old ≡ Some r
            → lines_of self.new.lines ≡ (ended_by slot (track_of r self.old.lines)).lines }
        ensures lines { LeavesOthers slot (lines_of self.old.lines) (lines_of self.new.lines) }
        ensures who { (self.new.instance ≡ self.old.instance) × (self.new.home ≡ self.old.home) }
        ensures sound { IsSoundSession R.stands self.new }
    {
        let Some(running) = running_in(self.slots.as_slice(), slot) else {
            return;
        };
        self.lines.leave(running.place, slot);
        free_up(&mut self.slots, &mut self.lowest, slot);
    }
}

/// The lowest free slot, where another one may be free now.
fn lowest_behind(lowest: u8, slot: Slot, is_free: bool) -> u8
    ensures { result ≡ lowest_after lowest slot is_free }
{
    if is_free && slot.0 < lowest {
        return slot.0;
    }
    lowest
}

/// The script's line of the request in a slot.
fn line_at<R>(slots: &[Option<Occupant<R>>], slot: Slot) -> Option<u32>
    ensures { result ≡ script_line (held_in slot slots.now) }
{
    match held_at(slots, slot) {
        Some(Occupant::Refused { line, .. }) => Some(*line),
        Some(Occupant::Running(running)) => Some(running.line),
        None => None,
    }
}

/// Why the request in a slot is refused before any operation.
fn refusal_at<R>(slots: &[Option<Occupant<R>>], slot: Slot) -> Option<Refusal>
    ensures { result ≡ refusal_in (held_in slot slots.now) }
{
    match held_at(slots, slot) {
        Some(Occupant::Refused { refusal, .. }) => Some(*refusal),
        _ => None,
    }
}

/// A request as it comes into a slot. (Here and where it is put there no `?` is used: it would move
/// the request, which is large, four times more.)
fn newcomer<R: Request>(
    alloc: Global,
    seat: &Seat,
    line: u32,
    work: R::Work,
) -> Result<Occupant<R>, NoMemory>
    requires { R.serves work }
    ensures { IfOk result (λ o. IsNewcomer R.stands R.stands_for R.extent_for seat.now line work (Some o)) }
{
    let extent = R::extent(&work);
    match R::begin(alloc, seat, work) {
        Ok(Begun::Refused(refusal)) => Ok(Occupant::Refused { line, refusal }),
        Ok(Begun::Asks(request)) => Ok(Occupant::Running(Running {
            line,
            request,
            extent,
            place: None,
            turn: None,
            looked: None,
        })),
        Err(fault) => Err(fault),
    }
}
