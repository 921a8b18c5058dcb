//! The places of tickets, as one slab.
ghost use Rattle.std.specs.Prelude.{◌≡◌, ℕ, ◌+◌, ◌<◌, ◌≤◌, ◌==◌, [], cond, true, length, None, Some, IsSome, IsOk, OnOk};
ghost use Rattle.rbd_guard.specs.Links.{with_after, with_before};
ghost use Rattle.rbd_guard.specs.Slab.{used_at, free_at, number_at, queue_link, list_link};

use crate::link::SlabPlace;
use crate::places::{
    link_list_after, link_list_before, link_queue_after, link_queue_before, next_free, place_at,
    put, set_free,
};
use rbd_values::NoMemory;
use std::alloc::Global;
use std::marker::Model;

/// Places by index. Each is used, or is one of the free ones, which are linked by index: so a place
/// whose ticket left is taken again before the slab grows. Contracts see the places, and for how
/// many more tickets there is room.
#[derive(Drop)]
pub struct Slab {
    places: Vec<SlabPlace>,
    /// The first free place.
    free: Option<usize>,
    /// How many places are free.
    count: usize,
}

impl Model for Slab {
    ghost use Rattle.std.specs.Prelude.{◌+◌, ◌-◌, length, vec_len, vec_capacity};
    ghost use Rattle.rbd_guard.specs.Slab.{Slots, AreFree};

    ghost Value = { Slots };

    ghost view = { λ s. record {
      places = s.places.items;
      room = s.count + (vec_capacity s.places - vec_len s.places);
    } };

    ghost invariant = { λ s. AreFree s.places.items s.free s.count };
}

impl Slab {
    /// No places. It takes no memory.
    pub fn new(alloc: Global) -> Self
        ensures { result.places ≡ [] }
    {
        Slab {
            places: Vec::new(alloc),
            free: None,
            count: 0,
        }
    }

    /// Makes room for `more` tickets. No place changes, also where memory is refused.
    pub fn reserve(&mut self, more: usize) -> Result<(), NoMemory>
        ensures places { self.new.places ≡ self.old.places }
        ensures ok { OnOk result (more ≤ self.new.room) }
        ensures succeeds { more ≤ self.old.room → IsOk result }
        ensures room { self.old.room ≤ self.new.room }
    {
        self.places.reserve(more.saturating_sub(self.count))?;
        Ok(())
    }

    /// The number of the ticket at a place, where one stands there.
    pub fn number(&self, at: usize) -> Option<u64>
        ensures { result ≡ number_at self.now.places at }
    {
        match place_at(&self.places, at) {
            Some(place) => Some(place.number),
            None => None,
        }
    }

    /// Takes a place for a ticket: a free one, if there is one, and else one more. It takes no
    /// memory.
    pub fn enter(&mut self, ticket: SlabPlace) -> usize
        requires room { 0 < self.old.room }
        requires used { ticket.used ≡ true }
        ensures free { used_at self.old.places result ≡ None }
        ensures places { (p : ℕ) → used_at self.new.places p ≡ cond (result == p) (Some ticket)
            (used_at self.old.places p) }
        ensures reused { (p : ℕ) → IsSome (free_at self.old.places p)
            → length self.new.places ≡ length self.old.places }
        ensures room { self.old.room ≤ self.new.room + 1 }
    {
        let Some(at) = self.free else {
            let end = self.places.len();
            self.places.push_reserved(ticket);
            return end;
        };
        self.free = next_free(&self.places, at);
        self.count -= 1;
        put(&mut self.places, at, ticket);
        at
    }

    /// Makes the place of a ticket free, and answers what stood there. It takes no memory.
    pub fn leave(&mut self, at: usize) -> SlabPlace
        requires { IsSome (used_at self.old.places at) }
        ensures was { used_at self.old.places at ≡ Some result }
        ensures places { (p : ℕ) → used_at self.new.places p ≡ cond (at == p) None (used_at self.old.places p) }
        ensures room { self.old.room ≤ self.new.room }
    {
        let place = place_at(&self.places, at).unwrap();
        set_free(&mut self.places, at, self.free);
        self.free = Some(at);
        self.count += 1;
        place
    }

    /// Links a place with the one after it in its object's queue.
    pub fn link_queue_after(&mut self, at: Option<usize>, after: Option<usize>)
        ensures queue { (p : ℕ) → queue_link self.new.places p ≡ with_after (queue_link self.old.places) at after p }
        ensures list { (p : ℕ) → list_link self.new.places p ≡ list_link self.old.places p }
        ensures number { (p : ℕ) → number_at self.new.places p ≡ number_at self.old.places p }
        ensures room { self.new.room ≡ self.old.room }
    {
        link_queue_after(&mut self.places, at, after);
    }

    /// Links a place with the one before it in its object's queue.
    pub fn link_queue_before(&mut self, at: Option<usize>, before: Option<usize>)
        ensures queue { (p : ℕ) → queue_link self.new.places p ≡ with_before (queue_link self.old.places) at before p }
        ensures list { (p : ℕ) → list_link self.new.places p ≡ list_link self.old.places p }
        ensures number { (p : ℕ) → number_at self.new.places p ≡ number_at self.old.places p }
        ensures room { self.new.room ≡ self.old.room }
    {
        link_queue_before(&mut self.places, at, before);
    }

    /// Links a place with the one after it in its request's list.
    pub fn link_list_after(&mut self, at: Option<usize>, after: Option<usize>)
        ensures list { (p : ℕ) → list_link self.new.places p ≡ with_after (list_link self.old.places) at after p }
        ensures queue { (p : ℕ) → queue_link self.new.places p ≡ queue_link self.old.places p }
        ensures number { (p : ℕ) → number_at self.new.places p ≡ number_at self.old.places p }
        ensures room { self.new.room ≡ self.old.room }
    {
        link_list_after(&mut self.places, at, after);
    }

    /// Links a place with the one before it in its request's list.
    pub fn link_list_before(&mut self, at: Option<usize>, before: Option<usize>)
        ensures list { (p : ℕ) → list_link self.new.places p ≡ with_before (list_link self.old.places) at before p }
        ensures queue { (p : ℕ) → queue_link self.new.places p ≡ queue_link self.old.places p }
        ensures number { (p : ℕ) → number_at self.new.places p ≡ number_at self.old.places p }
        ensures room { self.new.room ≡ self.old.room }
    {
        link_list_before(&mut self.places, at, before);
    }
}
