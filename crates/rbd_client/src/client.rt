//! A client and its calls.
ghost use Rattle.std.specs.Prelude.{◌≡◌, ◌≢◌, ℕ, ◌≤◌, [], ◌∷◌, ◌++◌, None, Some, IsSome, IsNone, IfOk, OnErr, OnOk};
ghost use Rattle.rbd_client.specs.declared.actor.Actor.TheVariants as actor;
ghost use Rattle.rbd_client.specs.Actor.{actor_at, due_release, is_at_rest, kind_wanted, may_release, op_wanted};
ghost use Rattle.rbd_client.specs.Client.{heard_with, newcomer, slot_state};
ghost use Rattle.rbd_client.specs.Feeding.{CanGet, DropsAtRest, IsClientAlike, IsFedBy, IsReadiedFor, StaysUnlessRequest};
ghost use Rattle.rbd_client.specs.Sound.{IsSoundClient};
ghost use Rattle.rbd_kinds.specs.declared.id.SiteId.{SiteId as Site};
ghost use Rattle.rbd_lock.specs.Locks.{heard as counted_heard, lock_state_at};
ghost use Rattle.rbd_lock.specs.States.{blank_state as unknown};
ghost use Rattle.rbd_slots.specs.Lines.{lines_of};
ghost use Rattle.rbd_slots.specs.OnTrack.{LeavesOthers};
ghost use Rattle.rbd_slots.specs.Session.{free_slot, held_in, op_at, refusal_in, reply_of, script_line, seat_of, IsNewcomer};

use crate::actor::{Actor, for_release, for_request, release_kind, release_op, way_kind, way_op};
use crate::counting::count;
use crate::going::{end_on_way, go_on, let_go};
use crate::slot_state::{SlotState, Way};
use crate::slots::{blank_slots, is_any_taken, set_state, state_of};
use rbd_commands::Quiescing;
use rbd_kinds::{
    Fed, ImageAt, Instance, NoMemory, Notice, NoticeKind, Op, OpKind, Reply, SiteId, Slot, TryClone,
};
use rbd_lock::{Acquire, Locks, Release};
use rbd_machine::Request;
use rbd_slots::Session;
use std::alloc::Global;
use std::marker::Model;

/// What an instance has: its requests, each in a slot, and what it counts of the locks of images.
pub struct Client<R: Request> {
    session: Session<R>,
    locks: Locks,
    slots: Vec<SlotState>,
    /// The release that it is in the middle of: its lock is dropped, and nobody is told yet.
    release: Option<Release>,
    heard: Vec<Notice>,
}

// (written out, so that it is a call where a client is let go, and not each of its parts)
impl<R: Request> Drop for Client<R> {
    fn drop(self) {
        let Client {
            session,
            locks,
            slots,
            release,
            heard,
        } = self;
        drop(session);
        drop(locks);
        drop(slots);
        drop(release);
        drop(heard);
    }
}

impl<R: Request> Model for Client<R> {
    ghost use Rattle.rbd_client.specs.Client.{ClientView};
    ghost use Rattle.rbd_client.specs.Sound.{IsSoundClient};

    ghost Value = { ClientView R };

    ghost view = { λ c. record {
      session = c.session;
      locks = c.locks;
      slots = c.slots.items;
      release = c.release;
      heard = c.heard.items;
    } };

    ghost invariant = { λ c. IsSoundClient R.stands
        (record {
          session = c.session;
          locks = c.locks;
          slots = c.slots.items;
          release = c.release;
          heard = c.heard.items;
        }) };
}

impl<R: Request> Client<R> {
    /// The client of an instance, at its session's home site, without requests. Nothing is known of
    /// any lock, and none is let go. NoMemory where the memory for its slots is refused.
    pub fn new(alloc: Global, instance: Instance, home: SiteId) -> Result<Self, NoMemory>
        ensures who { IfOk result (λ c. (c.session.instance ≡ instance) × (c.session.home ≡ home)) }
        ensures slots { IfOk result (λ c. (slot : ℕ) → held_in slot c.session.slots ≡ None) }
        ensures lines { IfOk result (λ c. (site : Site) (image : ℕ) → lines_of c.session.lines site image ≡ []) }
        ensures locks { IfOk result (λ c. (site : Site) (image : ℕ) → lock_state_at site image c.locks ≡ unknown) }
        ensures release { IfOk result (λ c. c.release ≡ None) }
        ensures heard { IfOk result (λ c. c.heard ≡ []) }
        ensures sound { IfOk result (IsSoundClient R.stands) }
    {
        let session = Session::new(alloc, instance, home)?;
        let slots = blank_slots(alloc)?;
        Ok(Client {
            session,
            locks: Locks::new(alloc),
            slots,
            release: None,
            heard: Vec::new(alloc),
        })
    }

    /// Whose client it is: one life of a session.
    pub fn instance(&self) -> Instance
        ensures { result ≡ self.now.session.instance }
    {
        self.session.instance()
    }

    /// The site at which its session is at home.
    pub fn home(&self) -> SiteId
        ensures { result ≡ self.now.session.home }
    {
        self.session.home()
    }

    /// The lowest free slot: `None` exactly where 64 are held. It takes no memory.
    pub fn free(&self) -> Option<Slot>
        ensures free { result ≡ free_slot self.now.session.lowest }
        ensures sound { IsSoundClient R.stands self.now }
    {
        self.session.free()
    }

    /// A request of some work takes the lowest free slot, with the number of its script's line, and
    /// with what it does to a quiesce. There is a free slot. NoMemory where memory for the request
    /// is refused; then nothing changes.
    pub fn submit(
        &mut self,
        alloc: Global,
        line: u32,
        work: R::Work,
        quiescing: Quiescing,
    ) -> Result<Slot, NoMemory>
        requires free { self.old.session.lowest ≤ 64 }
        requires serves { R.serves work }
        ensures slot { IfOk result (λ slot. slot ≡ self.old.session.lowest) }
        ensures held { OnOk result (IsNewcomer R.stands R.stands_for R.extent_for (seat_of self.old.session) line work
            (held_in self.old.session.lowest self.new.session.slots)) }
        ensures state { OnOk result (slot_state self.old.session.lowest self.new.slots ≡ newcomer quiescing) }
        ensures others { (slot : ℕ) → slot ≢ self.old.session.lowest
            → (held_in slot self.new.session.slots ≡ held_in slot self.old.session.slots)
            × (slot_state slot self.new.slots ≡ slot_state slot self.old.slots) }
        ensures lines { self.new.session.lines ≡ self.old.session.lines }
        ensures rest { (self.new.session.instance ≡ self.old.session.instance)
            × (self.new.session.home ≡ self.old.session.home) × (self.new.locks ≡ self.old.locks)
            × (self.new.release ≡ self.old.release) × (self.new.heard ≡ self.old.heard) }
        ensures err { OnErr result (self.new ≡ self.old) }
        ensures sound { IsSoundClient R.stands self.new }
    {
        let slot = self.session.submit(alloc, line, work)?;
        let state = SlotState {
            way: Way::Unbegun,
            quiescing,
        };
        set_state(&mut self.slots, slot, state);
        Ok(slot)
    }

    /// The script's line of the request in a slot: `None` exactly where the slot is free. It takes
    /// no memory.
    pub fn line(&self, slot: Slot) -> Option<u32>
        ensures line { result ≡ script_line (held_in slot self.now.session.slots) }
        ensures sound { IsSoundClient R.stands self.now }
    {
        self.session.line(slot)
    }

    /// Serves a request that is refused before any operation: its reply, and the slot is free.
    /// `None` exactly where the slot holds no such request; then nothing changes. It takes no
    /// memory.
    pub fn refuse(&mut self, slot: Slot) -> Option<Reply>
        ensures reply { result ≡ reply_of (refusal_in (held_in slot self.old.session.slots)) }
        ensures none { IsNone result → self.new ≡ self.old }
        ensures some { IsSome result → held_in slot self.new.session.slots ≡ None }
        ensures others { (other : ℕ) → other ≢ slot
            → (held_in other self.new.session.slots ≡ held_in other self.old.session.slots)
            × (slot_state other self.new.slots ≡ slot_state other self.old.slots) }
        ensures lines { self.new.session.lines ≡ self.old.session.lines }
        ensures rest { (self.new.session.instance ≡ self.old.session.instance)
            × (self.new.session.home ≡ self.old.session.home) × (self.new.locks ≡ self.old.locks)
            × (self.new.release ≡ self.old.release) × (self.new.heard ≡ self.old.heard) }
        ensures sound { IsSoundClient R.stands self.new }
    {
        let reply = self.session.refuse(slot);
        if reply.is_some() {
            set_state(&mut self.slots, slot, SlotState::blank());
        }
        reply
    }

    /// The site and the kind of a slot's next operation: `None` exactly where the slot is free,
    /// waits, or holds a request that is refused before any operation, and at slot 0 where no lock
    /// is to be let go. It takes no memory.
    pub fn kind(&self, slot: Slot) -> Option<(SiteId, OpKind)>
        ensures kind { result ≡ kind_wanted R.stands slot self.now }
        ensures sound { IsSoundClient R.stands self.now }
    {
        match self.actor(slot) {
            Actor::Nobody => None,
            Actor::Request => self.session.kind(slot),
            Actor::Way(way) => Some(way_kind(&way)),
            Actor::Release(release) => Some(release_kind(&release)),
        }
    }

    /// Who acts where a slot is polled: found once a poll, for the calls that it makes. It takes no
    /// memory.
    pub fn actor(&self, slot: Slot) -> Actor
        ensures actor { result ≡ actor_at R.stands slot self.now }
        ensures sound { IsSoundClient R.stands self.now }
    {
        if slot.0 == 0 {
            return for_release(self.release, self.due());
        }
        let way = state_of(self.slots.as_slice(), slot).way;
        for_request(way, &self.session, slot, &self.locks)
    }

    /// The next operation of a slot by who acts there, and its site: `None` as by [`Client::kind`].
    /// NoMemory where memory for it is refused.
    pub fn next(
        &self,
        alloc: Global,
        slot: Slot,
        actor: &Actor,
    ) -> Result<Option<(SiteId, Op)>, NoMemory>
        requires { actor.now ≡ actor_at R.stands slot self.now }
        ensures op { IfOk result (λ told. told ≡ op_wanted R.stands slot self.now) }
        ensures sound { IsSoundClient R.stands self.now }
    {
        match actor {
            Actor::Nobody => Ok(None),
            Actor::Request => self.session.next(alloc, slot),
            Actor::Way(way) => Ok(way_op(way)),
            Actor::Release(release) => Ok(release_op(release)),
        }
    }

    /// Makes everything ready for an answer to a slot's next operation: all memory that
    /// [`Client::feed`] needs. Nothing else changes. NoMemory where memory is refused.
    pub fn ready(
        &mut self,
        alloc: Global,
        slot: Slot,
        actor: &Actor,
        fed: &Fed,
    ) -> Result<(), NoMemory>
        requires actor { actor.now ≡ actor_at R.stands slot self.old }
        requires can { CanGet R.stands slot self.old.session fed.now (actor_at R.stands slot self.old) }
        ensures alike { IsClientAlike R.stands self.old self.new }
        ensures others { (other : ℕ) → other ≢ slot
            → held_in other self.new.session.slots ≡ held_in other self.old.session.slots }
        ensures ready { OnOk result (IsReadiedFor R.stands R.is_ready slot fed.now self.new) }
        ensures stays { StaysUnlessRequest (actor_at R.stands slot self.old) self.old.session self.new.session }
        ensures sound { IsSoundClient R.stands self.new }
    {
        self.locks.reserve()?;
        if let Actor::Request = actor {
            return self.session.ready(alloc, slot, fed);
        }
        Ok(())
    }

    /// Feeds the answer that the slot was readied for: to the request in it, to its way to the
    /// lock, or to the release. It goes on to its next operation, or ends. `None` exactly where no
    /// request has ended, and else the reply of the one in the slot, which is free. It takes no
    /// memory.
    pub fn feed(
        &mut self,
        slot: Slot,
        actor: &Actor,
        site: SiteId,
        op: &Op,
        fed: &Fed,
    ) -> Option<Reply>
        requires actor { actor.now ≡ actor_at R.stands slot self.old }
        requires ready { IsReadiedFor R.stands R.is_ready slot fed.now self.old }
        requires op { op_wanted R.stands slot self.old ≡ Some (site, op.now) }
        requires rest { DropsAtRest (actor_at R.stands slot self.old) site op.now self.old }
        ensures fed { IsFedBy R.stands slot site op.now fed.now result self.old self.new
            (actor_at R.stands slot self.old) }
        ensures slots { (other : ℕ) → other ≢ slot
            → (held_in other self.new.session.slots ≡ held_in other self.old.session.slots)
            × (slot_state other self.new.slots ≡ slot_state other self.old.slots) }
        ensures others { LeavesOthers slot (lines_of self.old.session.lines) (lines_of self.new.session.lines) }
        ensures who { (self.new.session.instance ≡ self.old.session.instance)
            × (self.new.session.home ≡ self.old.session.home) × (self.new.heard ≡ self.old.heard) }
        ensures sound { IsSoundClient R.stands self.new }
    {
        match actor {
            Actor::Nobody => unreachable!(),
            Actor::Request => self.feed_request(slot, site, op, fed),
            Actor::Way(way) => self.feed_way(slot, *way, site, op, fed),
            Actor::Release(release) => {
                self.feed_release(*release, site, op, fed);
                None
            }
        }
    }

    /// Hears a notice. Another client's wish for a lock that counts as this client's is noted, and
    /// what it was told is kept. NoMemory where memory for that is refused; then nothing changes.
    pub fn hear(&mut self, notice: &Notice) -> Result<(), NoMemory>
        ensures ok { OnOk result ((site : Site) (image : ℕ)
            → lock_state_at site image self.new.locks ≡ counted_heard notice.now site image
            (lock_state_at site image self.old.locks)) }
        ensures heard { OnOk result (self.new.heard ≡ heard_with notice.now self.old.heard) }
        ensures rest { (self.new.session ≡ self.old.session) × (self.new.slots ≡ self.old.slots)
            × (self.new.release ≡ self.old.release) }
        ensures err { OnErr result (self.new ≡ self.old) }
        ensures sound { IsSoundClient R.stands self.new }
    {
        if let NoticeKind::Custom(_) = &notice.kind {
            return keep(&mut self.heard, notice);
        }
        self.locks.hear(notice)
    }

    /// What other clients told this one, in the order in which it was heard: notices with bytes.
    pub fn heard(&self) -> &[Notice]
        ensures { result.now ≡ self.now.heard }
    {
        self.heard.as_slice()
    }

    /// Whether no request of an image relies on its lock: none is past its look under the lock, or
    /// has taken the lock itself. It takes no memory.
    pub fn is_at_rest(&self, at: &ImageAt) -> bool
        ensures rest { result ≡ is_at_rest at.now.site at.now.image self.now }
        ensures sound { IsSoundClient R.stands self.now }
    {
        self.session.is_at_rest(at) && !is_any_taken(self.slots.as_slice(), at)
    }

    /// Of the images that were asked for, in order, the first whose lock may be let go. (Mostly none
    /// was asked for, and then no walk over them is begun.)
    fn due(&self) -> Option<ImageAt>
        ensures { result ≡ due_release self.now }
    {
        if self.locks.asked().is_empty() {
            return None;
        }
        self.first_due()
    }

    // Not inline: each poll of slot 0 would make its frame.
    /// The same, where some were asked for.
    #[inline(never)]
    fn first_due(&self) -> Option<ImageAt>
        ensures { result ≡ due_release self.now }
    {
        self.locks
            .asked()
            .iter()
            .copied()
            .find(|at| self.may_release(at))
    }

    /// Whether the lock of an image may be let go: it isn't quiesced, and no request relies on it.
    fn may_release(&self, at: &ImageAt) -> bool
        ensures { result ≡ may_release self.now at.now }
    {
        !self.locks.state(at).quiesced && self.is_at_rest(at)
    }

    fn feed_request(&mut self, slot: Slot, site: SiteId, op: &Op, fed: &Fed) -> Option<Reply>
        requires actor { actor_at R.stands slot self.old ≡ actor.Request }
        requires ready { IsReadiedFor R.stands R.is_ready slot fed.now self.old }
        requires op { op_at R.stands slot self.old.session ≡ Some (site, op.now) }
        requires rest { DropsAtRest actor.Request site op.now self.old }
        ensures fed { IsFedBy R.stands slot site op.now fed.now result self.old self.new actor.Request }
        ensures slots { (other : ℕ) → other ≢ slot
            → (held_in other self.new.session.slots ≡ held_in other self.old.session.slots)
            × (slot_state other self.new.slots ≡ slot_state other self.old.slots) }
        ensures others { LeavesOthers slot (lines_of self.old.session.lines) (lines_of self.new.session.lines) }
        ensures who { (self.new.session.instance ≡ self.old.session.instance)
            × (self.new.session.home ≡ self.old.session.home) × (self.new.heard ≡ self.old.heard) }
        ensures sound { IsSoundClient R.stands self.new }
    {
        let look = self.session.look_under_lock(slot);
        let state = state_of(self.slots.as_slice(), slot);
        let reply = self.session.feed(slot, fed);
        count(&mut self.locks, state.quiescing, look, site, op, fed);
        let state = state.behind(reply.is_some(), look.is_some());
        set_state(&mut self.slots, slot, state);
        reply
    }

    fn feed_way(
        &mut self,
        slot: Slot,
        way: Acquire,
        site: SiteId,
        op: &Op,
        fed: &Fed,
    ) -> Option<Reply>
        requires actor { actor_at R.stands slot self.old ≡ actor.Way way }
        requires ready { IsReadiedFor R.stands R.is_ready slot fed.now self.old }
        requires op { op_wanted R.stands slot self.old ≡ Some (site, op.now) }
        ensures fed { IsFedBy R.stands slot site op.now fed.now result self.old self.new (actor.Way way) }
        ensures slots { (other : ℕ) → other ≢ slot
            → (held_in other self.new.session.slots ≡ held_in other self.old.session.slots)
            × (slot_state other self.new.slots ≡ slot_state other self.old.slots) }
        ensures others { LeavesOthers slot (lines_of self.old.session.lines) (lines_of self.new.session.lines) }
        ensures who { (self.new.session.instance ≡ self.old.session.instance)
            × (self.new.session.home ≡ self.old.session.home) × (self.new.heard ≡ self.old.heard) }
        ensures sound { IsSoundClient R.stands self.new }
    {
        count(&mut self.locks, Quiescing::Leaves, None, site, op, fed);
        let (way, reply) = go_on(way, fed);
        end_on_way(&mut self.session, slot, reply.is_some());
        let state = state_of(self.slots.as_slice(), slot);
        let state = state.on_way(way, reply.is_some());
        set_state(&mut self.slots, slot, state);
        reply
    }

    fn feed_release(&mut self, release: Release, site: SiteId, op: &Op, fed: &Fed)
        requires actor { actor_at R.stands 0 self.old ≡ actor.Release release }
        requires ready { IsReadiedFor R.stands R.is_ready 0 fed.now self.old }
        requires op { op_wanted R.stands 0 self.old ≡ Some (site, op.now) }
        ensures fed { IsFedBy R.stands 0 site op.now fed.now None self.old self.new (actor.Release release) }
        ensures who { self.new.heard ≡ self.old.heard }
        ensures sound { IsSoundClient R.stands self.new }
    {
        count(&mut self.locks, Quiescing::Leaves, None, site, op, fed);
        self.release = let_go(release, fed);
    }
}

/// Keeps a notice. NoMemory where memory for it is refused; then nothing changes.
fn keep(heard: &mut Vec<Notice>, notice: &Notice) -> Result<(), NoMemory>
    ensures ok { OnOk result (heard.new.items ≡ heard.old.items ++ notice.now ∷ []) }
    ensures err { OnErr result (heard.new.items ≡ heard.old.items) }
{
    heard.push(Notice {
        number: notice.number,
        to: notice.to,
        from: notice.from,
        site: notice.site,
        image: notice.image,
        kind: notice.kind.try_clone()?,
    })?;
    Ok(())
}
