ghost use Rattle.std.specs.Prelude.{◌≡◌, ◌+◌, ◌<◌, ◌≤◌, ◌==◌, ◌&&◌, [], ◌∷◌, ◌++◌, length, IsTrue, IsFalse, IsOk, IfOk, OnOk};
ghost use Rattle.std.specs.Option.{option_map};
ghost use Rattle.rbd_guard.specs.Order.{is_in};
ghost use Rattle.rbd_queue.specs.Line.{member_of, is_member, any_past, may_pass, has_turn, comes_next, objects_of_slot, may_enter, none_past_behind, new_member, held, passed, entered, next_piece, changed_member, without, IsFairLine};

use crate::standing::{
    LineMember, are_letting_pass, hold_at, is_any_past, join_at, leave_at, pass_at, sharing_of,
    stage_of,
};
use crate::turns::Turns;
use rbd_kinds::{NoMemory, Sharing, Slot};
use rbd_machine::Stage;
use std::alloc::Global;
use std::marker::Model;

/// The line of one image. Contracts see its `members` in line order, each with its slot, beside
/// which others it goes, its stage and its objects, and for how many more tickets there is room.
#[derive(Drop)]
pub struct Line {
    /// The members in the order in which they joined.
    standings: Vec<LineMember>,
    /// The turns of the members at objects.
    turns: Turns,
}

impl Model for Line {
    ghost use Rattle.std.specs.Prelude.{◌≤◌, map};
    ghost use Rattle.std.specs.Vec.{vec_capacity};
    ghost use Rattle.rbd_queue.specs.Turns.{holders, held_by};
    ghost use Rattle.rbd_queue.specs.Line.{LineView};
    ghost use Rattle.rbd_queue.specs.Kept.{member, IsKept};

    ghost Value = { LineView };

    ghost view = { λ l. record {
      members = map (member (λ slot. held_by slot l.turns)) l.standings.items;
      reserved = l.turns.reserved;
    } };

    ghost invariant = { λ l. (64 ≤ vec_capacity l.standings)
        × IsKept (λ slot. held_by slot l.turns) (λ object. holders object l.turns)
        (map (member (λ slot. held_by slot l.turns)) l.standings.items) };
}

impl Line {
    /// A line without members. It takes the memory for 64, so that `join` takes none. NoMemory
    /// where that is refused.
    pub fn new(alloc: Global) -> Result<Self, NoMemory>
        ensures members { IfOk result (λ line. line.members ≡ []) }
        ensures sound { IfOk result (λ line. IsFairLine line.members) }
    {
        Ok(Line {
            standings: Vec::with_capacity(alloc, 64)?,
            turns: Turns::new(alloc),
        })
    }

    /// A request that isn't in the line joins behind the others, alone on the image or beside some.
    /// Slots are 1 to 64. It takes no memory.
    pub fn join(&mut self, slot: Slot, sharing: Sharing)
        requires from { 1 ≤ slot }
        requires to { slot ≤ 64 }
        requires other { IsFalse (is_member slot self.old.members) }
        ensures members { self.new.members ≡ self.old.members ++ new_member slot sharing ∷ [] }
        ensures reserved { self.new.reserved ≡ self.old.reserved }
        ensures sound { IsFairLine self.new.members }
    {
        join_at(&mut self.standings, slot, sharing);
    }

    /// The request in a slot waits for its look under the lock: one that is past it stays so. A
    /// slot that isn't in the line changes nothing. It takes no memory.
    pub fn hold(&mut self, slot: Slot)
        ensures members { self.new.members ≡ changed_member slot held self.old.members }
        ensures reserved { self.new.reserved ≡ self.old.reserved }
        ensures sound { IsFairLine self.new.members }
    {
        hold_at(&mut self.standings, slot);
    }

    /// Whether the request in a slot may go past its look under the lock: each one ahead of it is
    /// past its own, and they go together. So nobody is ahead of one that is alone. A slot that
    /// isn't in the line may not. It takes no memory.
    pub fn may_pass(&self, slot: Slot) -> bool
        ensures may { result ≡ may_pass slot self.now.members }
        ensures sound { IsFairLine self.now.members }
    {
        let members = self.standings.as_slice();
        match sharing_of(members, slot) {
            Some(sharing) => are_letting_pass(members, slot, sharing),
            None => false,
        }
    }

    /// The request in a slot goes past its look under the lock, which was answered. It takes no
    /// memory.
    pub fn pass(&mut self, slot: Slot)
        requires { IsTrue (may_pass slot self.old.members) }
        ensures members { self.new.members ≡ changed_member slot passed self.old.members }
        ensures reserved { self.new.reserved ≡ self.old.reserved }
        ensures sound { IsFairLine self.new.members }
    {
        pass_at(&mut self.standings, slot);
    }

    /// How far the request in a slot has come: `None` exactly where the slot isn't in the line.
    pub fn stage(&self, slot: Slot) -> Option<Stage>
        ensures stage { result ≡ option_map (λ m. m.stage) (member_of slot self.now.members) }
        ensures sound { IsFairLine self.now.members }
    {
        stage_of(self.standings.as_slice(), slot)
    }

    /// Beside which others the request in a slot goes: `None` exactly where the slot isn't in the
    /// line.
    pub fn sharing(&self, slot: Slot) -> Option<Sharing>
        ensures sharing { result ≡ option_map (λ m. m.sharing) (member_of slot self.now.members) }
        ensures sound { IsFairLine self.now.members }
    {
        sharing_of(self.standings.as_slice(), slot)
    }

    /// Whether anybody in the line is past its look under the lock. It takes no memory.
    pub fn is_any_past(&self) -> bool
        ensures past { result ≡ any_past self.now.members }
        ensures sound { IsFairLine self.now.members }
    {
        is_any_past(self.standings.as_slice())
    }

    /// Makes room for `more` tickets: the next `more` calls of `enter` are allowed, whoever leaves
    /// between them. No member changes. NoMemory where that room is refused.
    pub fn reserve(&mut self, more: u32) -> Result<(), NoMemory>
        ensures members { self.new.members ≡ self.old.members }
        ensures ok { OnOk result (more ≤ self.new.reserved) }
        ensures succeeds { more ≤ self.old.reserved → IsOk result }
        ensures reserved { self.old.reserved ≤ self.new.reserved }
        ensures sound { IsFairLine self.new.members }
    {
        self.turns.reserve(more)
    }

    /// The request in a slot takes a ticket for an object, behind those that it has. It isn't
    /// alone, is past its look under the lock, and nobody behind it is past its own yet: so tickets
    /// are taken in the step in which it passes. It takes no memory.
    pub fn enter(&mut self, slot: Slot, object: u64)
        requires member { IsTrue (may_enter slot self.old.members) }
        requires last { IsTrue (none_past_behind slot self.old.members) }
        requires once { IsFalse (is_in object (objects_of_slot slot self.old.members)) }
        requires room { 0 < self.old.reserved }
        ensures members { self.new.members ≡ changed_member slot (entered object) self.old.members }
        ensures reserved { self.old.reserved ≤ self.new.reserved + 1 }
        ensures sound { IsFairLine self.new.members }
    {
        self.turns.enter(slot, object);
    }

    /// Whether the request in a slot may do its piece at an object: the object is the first of
    /// those that it holds, and the request is the first in line order of those that hold it. It
    /// takes no memory.
    pub fn has_turn(&self, slot: Slot, object: u64) -> bool
        ensures turn { result ≡ (comes_next slot object self.now.members && has_turn slot object self.now.members) }
        ensures sound { IsFairLine self.now.members }
    {
        self.turns.has_turn(slot, object)
    }

    /// The request in a slot has done a piece: its first ticket goes. Without a ticket nothing
    /// changes. It takes no memory.
    pub fn end_piece(&mut self, slot: Slot)
        ensures members { self.new.members ≡ changed_member slot next_piece self.old.members }
        ensures reserved { self.old.reserved ≤ self.new.reserved }
        ensures sound { IsFairLine self.new.members }
    {
        self.turns.end_piece(slot);
    }

    /// The request in a slot leaves the line, and all its tickets go. A slot that isn't in the line
    /// changes nothing. It takes no memory.
    pub fn leave(&mut self, slot: Slot)
        ensures members { self.new.members ≡ without slot self.old.members }
        ensures reserved { self.old.reserved ≤ self.new.reserved }
        ensures sound { IsFairLine self.new.members }
    {
        self.turns.leave(slot);
        leave_at(&mut self.standings, slot);
    }

    /// Whether nobody is in the line.
    pub fn is_empty(&self) -> bool
        ensures empty { result ≡ (length self.now.members == 0) }
        ensures sound { IsFairLine self.now.members }
    {
        self.standings.is_empty()
    }
}
