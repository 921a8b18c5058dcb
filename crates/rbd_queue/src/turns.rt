//! The turns of slots at objects, as a guard without its tickets.
ghost use Rattle.std.specs.Prelude.{◌≡◌, ℕ, ◌+◌, ◌<◌, ◌≤◌, ◌==◌, ◌&&◌, cond, [], ◌∷◌, ◌++◌, drop, IsOk, OnOk};
ghost use Rattle.rbd_guard.specs.Order.{without, AreApart};
ghost use Rattle.rbd_queue.specs.Turns.{holders, held_by, begins_with};

use rbd_guard::Guard;
use rbd_kinds::{NoMemory, Slot};
use std::alloc::Global;
use std::marker::Model;

/// The turns of slots at objects. Contracts see by `holders` which slots hold an object, and by
/// `held_by` which objects a slot holds, each in the order in which they were taken.
#[derive(Drop)]
pub struct Turns {
    guard: Guard,
}

impl Model for Turns {
    ghost use Rattle.rbd_guard.specs.Tickets.{Tickets, IsSoundGuard};

    ghost Value = { Tickets };

    ghost view = { λ t. t.guard };

    ghost invariant = { λ t. IsSoundGuard t.guard };
}

impl Turns {
    /// No object is held. It takes no memory.
    pub fn new(alloc: Global) -> Self
        ensures holders { (object : ℕ) → holders object result ≡ [] }
        ensures held { (slot : ℕ) → held_by slot result ≡ [] }
    {
        Turns {
            guard: Guard::new(alloc),
        }
    }

    /// Makes room for `more` calls of `enter`. NoMemory where that room is refused.
    pub fn reserve(&mut self, more: u32) -> Result<(), NoMemory>
        ensures holders { (object : ℕ) → holders object self.new ≡ holders object self.old }
        ensures held { (slot : ℕ) → held_by slot self.new ≡ held_by slot self.old }
        ensures ok { OnOk result (more ≤ self.new.reserved) }
        ensures succeeds { more ≤ self.old.reserved → IsOk result }
        ensures reserved { self.old.reserved ≤ self.new.reserved }
    {
        self.guard.reserve(more)
    }

    /// The slot holds one more object, behind its others and behind the others that hold it. It
    /// takes no memory.
    pub fn enter(&mut self, slot: Slot, object: u64)
        requires { 0 < self.old.reserved }
        ensures holders { (o : ℕ) → holders o self.new ≡ cond (object == o) (holders o self.old ++ slot ∷ [])
            (holders o self.old) }
        ensures held { (s : ℕ) → held_by s self.new ≡ cond (slot == s) (held_by s self.old ++ object ∷ [])
            (held_by s self.old) }
        ensures reserved { self.old.reserved ≤ self.new.reserved + 1 }
    {
        let ticket: Result<_, _> = self.guard.enter(slot.0 as u32, object);
        let _ticket = ticket.unwrap();
    }

    /// Whether an object is the first that a slot holds, and the slot the first that holds it.
    pub fn has_turn(&self, slot: Slot, object: u64) -> bool
        requires { AreApart (held_by slot self.now) }
        ensures { result ≡ (begins_with object (held_by slot self.now) && begins_with slot (holders object self.now)) }
    {
        let Some(next) = self.guard.next_of(slot.0 as u32) else {
            return false;
        };
        let Some(first) = self.guard.first(object) else {
            return false;
        };
        first == next
    }

    /// The slot holds the first of its objects no more. It takes no memory.
    pub fn end_piece(&mut self, slot: Slot)
        requires { AreApart (held_by slot self.old) }
        ensures holders { (o : ℕ) → holders o self.new ≡ cond (begins_with o (held_by slot self.old))
            (without slot (holders o self.old)) (holders o self.old) }
        ensures held { (s : ℕ) → held_by s self.new ≡ cond (slot == s) (drop 1 (held_by s self.old))
            (held_by s self.old) }
        ensures reserved { self.old.reserved ≤ self.new.reserved }
    {
        let Some(ticket) = self.guard.next_of(slot.0 as u32) else {
            return;
        };
        self.guard.leave(ticket);
    }

    /// The slot holds no object any more. It takes no memory.
    pub fn leave(&mut self, slot: Slot)
        ensures holders { (o : ℕ) → holders o self.new ≡ without slot (holders o self.old) }
        ensures held { (s : ℕ) → held_by s self.new ≡ cond (slot == s) [] (held_by s self.old) }
        ensures reserved { self.old.reserved ≤ self.new.reserved }
    {
        self.guard.leave_all(slot.0 as u32);
    }
}
