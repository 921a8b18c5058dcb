ghost use Rattle.std.specs.Prelude.{◌≡◌, ℕ, ◌+◌, ◌<◌, ◌≤◌, ◌==◌, [], ◌∷◌, ◌++◌, None, Some, cond, nat_eq, length, slice_get, IsSome, IsOk, IfOk, IfSome, OnOk, OnErr};
ghost use Rattle.std.specs.HashMap.{get, spare};
ghost use Rattle.rbd_guard.specs.Order.{is_in, without};
ghost use Rattle.rbd_guard.specs.Tickets.{queue, list, ticket_object, ticket_request, without_all, AreSame, IsSoundGuard};
ghost use Rattle.rbd_guard.specs.Links.{link};
ghost use Rattle.rbd_guard.specs.Slab.{number_at, number_or_none, entering};

use crate::ends::ends_of;
use crate::found::{add_place, take_place};
use crate::link::{Ends, SlabPlace, TicketLink};
use crate::slab::Slab;
use crate::standing::{enter_list, enter_queue, leave_list, leave_queue};
use crate::ticket::Ticket;
use rbd_values::NoMemory;
use std::alloc::Global;
use std::collections::HashMap;
use std::marker::Model;

/// The tickets of one session's requests. Contracts see each object's `queue` and each request's
/// `list`, both earliest first, of each queued ticket its object (`ticket_object`) and its request
/// (`ticket_request`), how many tickets were `drawn`, and for how many more there is room.
#[derive(Drop)]
pub struct Guard {
    /// The places of the tickets that are in.
    slab: Slab,
    /// The place of each queued ticket, by its number.
    places: HashMap<u64, usize>,
    /// The ends of each object's queue that isn't empty.
    queues: HashMap<u64, Ends>,
    /// The ends of each request's list that isn't empty.
    lists: HashMap<u64, Ends>,
    /// The number of the next ticket.
    drawn: u64,
}

impl Model for Guard {
    ghost use Rattle.std.specs.Prelude.{◌-◌, ◌^◌, min};
    ghost use Rattle.std.specs.HashMap.{spare};
    ghost use Rattle.rbd_guard.specs.Tickets.{Tickets};
    ghost use Rattle.rbd_guard.specs.Held.{AreHeld};

    ghost Value = { Tickets };

    ghost view = { λ g. record {
      slots = g.slab.places;
      places = g.places.entries;
      queues = g.queues.entries;
      lists = g.lists.entries;
      drawn = g.drawn;
      reserved = min (min (min g.slab.room (spare g.places)) (min (spare g.queues) (spare g.lists)))
          (2 ^ 64 - 1 - g.drawn);
    } };

    ghost invariant = { λ g. AreHeld (record {
      slots = g.slab.places;
      places = g.places.entries;
      queues = g.queues.entries;
      lists = g.lists.entries;
      drawn = g.drawn;
      reserved = 0;
    }) };
}

impl Guard {
    /// No ticket is in. It takes no memory.
    pub fn new(alloc: Global) -> Self
        ensures queue { (object : ℕ) → queue object result ≡ [] }
        ensures list { (request : ℕ) → list request result ≡ [] }
        ensures object { (ticket : ℕ) → ticket_object ticket result ≡ None }
        ensures request { (ticket : ℕ) → ticket_request ticket result ≡ None }
        ensures drawn { result.drawn ≡ 0 }
        ensures sound { IsSoundGuard result }
    {
        Guard {
            slab: Slab::new(alloc),
            places: HashMap::new(alloc),
            queues: HashMap::new(alloc),
            lists: HashMap::new(alloc),
            drawn: 0,
        }
    }

    /// Makes room for `more` tickets: the next `more` calls of `enter` take no memory and are Ok,
    /// whatever tickets leave between them. No queue or list changes, also where memory is refused.
    pub fn reserve(&mut self, more: u32) -> Result<(), NoMemory>
        ensures same { AreSame self.old self.new }
        ensures ok { OnOk result (more ≤ self.new.reserved) }
        ensures succeeds { more ≤ self.old.reserved → IsOk result }
        ensures reserved { self.old.reserved ≤ self.new.reserved }
        ensures sound { IsSoundGuard self.new }
    {
        if u64::MAX - self.drawn < more as u64 {
            return Err(NoMemory);
        }
        let more = more as usize;
        self.slab.reserve(more)?;
        reserve_all(&mut self.places, &mut self.queues, &mut self.lists, more)
    }

    /// Gives a request a ticket for an object: the last in the object's queue, and the last in the
    /// request's list. Its number is drawn once. Where room is reserved it is Ok and takes no
    /// memory. Refused memory, no queue or list changes.
    pub fn enter(&mut self, request: u32, object: u64) -> Result<Ticket, NoMemory>
        ensures queue { IfOk result (λ ticket. (o : ℕ)
            → queue o self.new ≡ cond (object == o) (queue o self.old ++ ticket ∷ []) (queue o self.old)) }
        ensures list { IfOk result (λ ticket. (r : ℕ)
            → list r self.new ≡ cond (request == r) (list r self.old ++ ticket ∷ []) (list r self.old)) }
        ensures object { IfOk result (λ ticket. (t : ℕ)
            → ticket_object t self.new ≡ cond (ticket == t) (Some object) (ticket_object t self.old)) }
        ensures request { IfOk result (λ ticket. (t : ℕ)
            → ticket_request t self.new ≡ cond (ticket == t) (Some request) (ticket_request t self.old)) }
        ensures number { IfOk result (λ ticket. ticket ≡ self.old.drawn) }
        ensures drawn { OnOk result (self.new.drawn ≡ self.old.drawn + 1) }
        ensures fresh { IfOk result (λ ticket. ticket_object ticket self.old ≡ None) }
        ensures err { OnErr result (AreSame self.old self.new) }

        ensures room { 0 < self.old.reserved → IsOk result }
        ensures reserved { self.old.reserved ≤ self.new.reserved + 1 }
        ensures sound { IsSoundGuard self.new }
    {
        self.reserve(1)?;
        Ok(self.enter_place(request as u64, object))
    }

    /// The same where room is reserved. A place that is free is taken again.
    fn enter_place(&mut self, request: u64, object: u64) -> Ticket
        requires { 0 < self.old.reserved }
        ensures queue { (o : ℕ) → queue o self.new ≡ cond (object == o) (queue o self.old ++ result ∷ [])
            (queue o self.old) }
        ensures list { (r : ℕ) → list r self.new ≡ cond (request == r) (list r self.old ++ result ∷ [])
            (list r self.old) }
        ensures object { (t : ℕ) → ticket_object t self.new ≡ cond (result == t) (Some object)
            (ticket_object t self.old) }
        ensures request { (t : ℕ) → ticket_request t self.new ≡ cond (result == t) (Some request)
            (ticket_request t self.old) }
        ensures number { result ≡ self.old.drawn }
        ensures drawn { self.new.drawn ≡ self.old.drawn + 1 }
        ensures fresh { ticket_object result self.old ≡ None }
        ensures reserved { self.old.reserved ≤ self.new.reserved + 1 }
        ensures sound { IsSoundGuard self.new }
    {
        let number = self.drawn;
        let at = self.slab.enter(entering(number, object, request));
        enter_queue(&mut self.slab, &mut self.queues, object, at);
        enter_list(&mut self.slab, &mut self.lists, request, at);
        add_place(&mut self.places, number, at);
        self.drawn = number + 1;
        Ticket { number }
    }

    /// The ticket that entered an object's queue earliest and hasn't left. `None` exactly where the
    /// queue is empty. It takes no memory.
    pub fn first(&self, object: u64) -> Option<Ticket>
        ensures first { result ≡ slice_get (queue object self.now) 0 }
        ensures object { IfSome result (λ ticket. ticket_object ticket self.now ≡ Some object) }
        ensures sound { IsSoundGuard self.now }
    {
        ticket_at(&self.slab, ends_of(&self.queues, object).first)
    }

    /// The ticket of a request that entered earliest and hasn't left. `None` exactly where its list
    /// is empty. It takes no memory.
    pub fn next_of(&self, request: u32) -> Option<Ticket>
        ensures first { result ≡ slice_get (list request self.now) 0 }
        ensures request { IfSome result (λ ticket. ticket_request ticket self.now ≡ Some request) }
        ensures sound { IsSoundGuard self.now }
    {
        ticket_at(&self.slab, ends_of(&self.lists, request as u64).first)
    }

    /// Takes a queued ticket away. Every other order stays. It takes no memory.
    pub fn leave(&mut self, ticket: Ticket)
        requires { IsSome (ticket_object ticket self.old) }
        ensures queue { (o : ℕ) → queue o self.new ≡ without ticket (queue o self.old) }
        ensures list { (r : ℕ) → list r self.new ≡ without ticket (list r self.old) }
        ensures object { (t : ℕ) → ticket_object t self.new ≡ cond (ticket == t) None (ticket_object t self.old) }
        ensures request { (t : ℕ) → ticket_request t self.new ≡ cond (ticket == t) None (ticket_request t self.old) }
        ensures drawn { self.new.drawn ≡ self.old.drawn }
        ensures reserved { self.old.reserved ≤ self.new.reserved }
        ensures sound { IsSoundGuard self.new }
    {
        let at = take_place(&mut self.places, ticket.number);
        let left = self.slab.leave(at);
        leave_queue(&mut self.slab, &mut self.queues, left.queue);
        leave_list(&mut self.slab, &mut self.lists, left.list);
    }

    /// Takes away all tickets of a request, and answers how many. Every other order stays. It takes
    /// no memory.
    pub fn leave_all(&mut self, request: u32) -> u64
        ensures count { result ≡ length (list request self.old) }
        ensures queue { (o : ℕ) → queue o self.new ≡ without_all (list request self.old) (queue o self.old) }
        ensures list { (r : ℕ) → list r self.new ≡ cond (request == r) [] (list r self.old) }
        ensures object { (t : ℕ)
            → ticket_object t self.new ≡ cond (is_in t (list request self.old)) None (ticket_object t self.old) }
        ensures request { (t : ℕ)
            → ticket_request t self.new ≡ cond (is_in t (list request self.old)) None (ticket_request t self.old) }
        ensures drawn { self.new.drawn ≡ self.old.drawn }
        ensures reserved { self.old.reserved ≤ self.new.reserved }
        ensures sound { IsSoundGuard self.new }
    {
        let count = ends_of(&self.lists, request as u64).count;
        while let Some(ticket) = self.next_of(request) {
            self.leave(ticket);
        }
        count
    }
}

fn reserve_all(
    places: &mut HashMap<u64, usize>,
    queues: &mut HashMap<u64, Ends>,
    lists: &mut HashMap<u64, Ends>,
    more: usize,
) -> Result<(), NoMemory>
    ensures places { (n : ℕ) → get nat_eq places.new n ≡ get nat_eq places.old n }
    ensures queues { (k : ℕ) → get nat_eq queues.new k ≡ get nat_eq queues.old k }
    ensures lists { (k : ℕ) → get nat_eq lists.new k ≡ get nat_eq lists.old k }
    ensures ok { OnOk result ((more ≤ spare places.new) × ((more ≤ spare queues.new) × (more ≤ spare lists.new))) }
    ensures succeeds { more ≤ spare places.old → more ≤ spare queues.old → more ≤ spare lists.old → IsOk result }
    ensures room_of_places { spare places.old ≤ spare places.new }
    ensures room_of_queues { spare queues.old ≤ spare queues.new }
    ensures room_of_lists { spare lists.old ≤ spare lists.new }
{
    places.reserve(more)?;
    queues.reserve(more)?;
    lists.reserve(more)?;
    Ok(())
}

/// What stands at the place of a ticket that isn't linked with others yet.
fn entering(number: u64, object: u64, request: u64) -> SlabPlace
    ensures { result ≡ entering number object request }
{
    SlabPlace {
        used: true,
        number,
        queue: alone(object),
        list: alone(request),
        free: None,
    }
}

fn alone(key: u64) -> TicketLink
    ensures { result ≡ link key None None }
{
    TicketLink {
        key,
        before: None,
        after: None,
    }
}

/// The ticket at a place.
fn ticket_at(slab: &Slab, at: Option<usize>) -> Option<Ticket>
    ensures { result ≡ number_or_none (number_at slab.now.places) at }
{
    let number = slab.number(at?)?;
    Some(Ticket { number })
}
