//! The lines of the images that a session's requests change.
ghost use Rattle.std.specs.Prelude.{◌≡◌, ◌≢◌, ℕ, ◌<◌, ◌≤◌, ◌==◌, ◌&&◌, not, nat_eq, cond, [], ◌∷◌, ◌++◌, length, IsTrue, IsFalse, IsSome, OnOk, None, Some};
ghost use Rattle.std.specs.HashMap.{get, spare};
ghost use Rattle.std.specs.Option.{option_map};
ghost use Rattle.rbd_queue.specs.Line.{member_of, is_member, any_past, may_pass, has_turn, comes_next, new_member, held, passed, next_piece, changed_member, without};
ghost use Rattle.rbd_slots.specs.Lines.{AreUsed, AreUsedBut, members_in, room_in, members_at, room_at, room_of, lines_of, members_of, is_key, CanOpen, IsEmptyLine, HasMembers, MayEnterAll};
ghost use Rattle.rbd_kinds.specs.Sharing.{is_alone};
ghost use Rattle.rbd_kinds.specs.declared.id.SiteId.{SiteId};
ghost use Rattle.rbd_slots.specs.Track.{given_tickets};
ghost use Rattle.rbd_slots.specs.Waits.{waits_at};

use crate::prepare::awaits_look;
use rbd_kinds::{ImageAt, NoMemory, Sharing, Slot};
use rbd_machine::Stage;
use rbd_queue::Line;
use std::alloc::Global;
use std::collections::HashMap;
use std::marker::Model;

// ---- one table of lines by key

/// The request in a slot takes a ticket for each object.
fn enter_all(line: &mut Line, slot: Slot, objects: &[u64])
    requires { MayEnterAll slot objects.now line.old.members line.old.reserved }
    ensures members { line.new.members ≡ changed_member slot (given_tickets objects.now) line.old.members }
{
    for object in objects {
        line.enter(slot, *object);
    }
}

/// The request in a slot leaves the line.
fn leave_in(lines: &mut HashMap<u64, Line>, key: u64, slot: Slot)
    ensures members { (k : ℕ) → members_in lines.new k ≡ cond (nat_eq key k) (without slot (members_in lines.old k))
        (members_in lines.old k) }
    ensures used { AreUsed lines.old.entries → AreUsedBut key lines.new.entries }
    ensures spare { spare lines.new ≡ spare lines.old }
{
    let Some(line) = lines.get_mut(&key) else {
        return;
    };
    line.leave(slot);
}

/// A line that is held is joined. False where none is.
fn join_in(lines: &mut HashMap<u64, Line>, key: u64, slot: Slot, sharing: Sharing) -> bool
    requires from { 1 ≤ slot }
    requires to { slot ≤ 64 }
    requires other { IsFalse (is_member slot (members_in lines.old key)) }
    ensures held { IsTrue result → (k : ℕ)
        → members_in lines.new k ≡ cond (nat_eq key k) (members_in lines.old k ++ new_member slot sharing ∷ [])
        (members_in lines.old k) }
    ensures none { IsFalse result → (k : ℕ) → get nat_eq lines.new k ≡ get nat_eq lines.old k }
    ensures absent { IsFalse result → get nat_eq lines.old key ≡ None }
    ensures room { (k : ℕ) → room_in lines.new k ≡ room_in lines.old k }
    ensures used { AreUsed lines.old.entries → AreUsed lines.new.entries }
    ensures spare { spare lines.new ≡ spare lines.old }
{
    let Some(line) = lines.get_mut(&key) else {
        return false;
    };
    line.join(slot, sharing);
    true
}

/// Room for tickets, in a line that is held.
fn reserve_in(lines: &mut HashMap<u64, Line>, key: u64, tickets: u32) -> Result<(), NoMemory>
    ensures members { (k : ℕ) → members_in lines.new k ≡ members_in lines.old k }
    ensures room { (k : ℕ) → room_in lines.old k ≤ room_in lines.new k }
    ensures ok { OnOk result (IsSome (get nat_eq lines.old key) → tickets ≤ room_in lines.new key) }
    ensures used { AreUsed lines.old.entries → AreUsed lines.new.entries }
    ensures spare { spare lines.new ≡ spare lines.old }
{
    let Some(line) = lines.get_mut(&key) else {
        return Ok(());
    };
    line.reserve(tickets)
}

/// A line is held from now on.
fn add(lines: &mut HashMap<u64, Line>, key: u64, line: Line)
    requires { 0 < spare lines.old }
    ensures { (k : ℕ) → get nat_eq lines.new k ≡ cond (nat_eq key k) (Some line) (get nat_eq lines.old k) }
{
    let added: Result<_, _> = lines.insert(key, line);
    added.unwrap();
}

/// A line that nobody is in is held no more: it is for the next image, with the memory that it has.
fn forget_empty(lines: &mut HashMap<u64, Line>, unused: &mut Option<Line>, key: u64)
    ensures members { (k : ℕ) → members_in lines.new k ≡ members_in lines.old k }
    ensures gone { members_in lines.new key ≡ [] → get nat_eq lines.new key ≡ None }
    ensures used { AreUsedBut key lines.old.entries → AreUsed lines.new.entries }
    ensures spare { spare lines.old ≤ spare lines.new }
    ensures unused { IsEmptyLine unused.old → IsEmptyLine unused.new }
{
    if is_empty_in(lines, key) {
        forget(lines, unused, key);
    }
}

/// The line under a key is held no more, but kept for the next image, if it is there.
fn forget(lines: &mut HashMap<u64, Line>, unused: &mut Option<Line>, key: u64)
    requires { members_in lines.old key ≡ [] }
    ensures lines { (k : ℕ) → get nat_eq lines.new k ≡ cond (nat_eq key k) None (get nat_eq lines.old k) }
    ensures spare { spare lines.old ≤ spare lines.new }
    ensures unused { IsEmptyLine unused.old → IsEmptyLine unused.new }
{
    if let Some(line) = lines.remove(&key) {
        *unused = Some(line);
    }
}

fn is_empty_in(lines: &HashMap<u64, Line>, key: u64) -> bool
    ensures { result ≡ (length (members_in lines.now key) == 0) }
{
    match lines.get(&key) {
        Some(line) => line.is_empty(),
        None => true,
    }
}

/// The lines of images, each under a key. A line is held while somebody is in it.
#[derive(Drop)]
pub struct Lines {
    lines: HashMap<u64, Line>,
    /// A line for the next image whose line is joined.
    unused: Option<Line>,
}

impl Model for Lines {
    ghost use Rattle.std.specs.HashMap.{spare};
    ghost use Rattle.rbd_slots.specs.Lines.{LinesView};

    ghost Value = { LinesView };

    ghost view = { λ l. record { entries = l.lines.entries; unused = l.unused; room = spare l.lines } };
}

impl Lines {
    /// Nobody is in any line. It takes no memory.
    pub fn new(alloc: Global) -> Self
        ensures lines { (site : SiteId) (image : ℕ) → lines_of result site image ≡ [] }
        ensures used { AreUsed result.entries }
    {
        Lines {
            lines: HashMap::new(alloc),
            unused: None,
        }
    }

    /// Makes room for one more line, and for tickets in the line that a request is in. No line
    /// changes. NoMemory where that room is refused.
    pub fn reserve(
        &mut self,
        alloc: Global,
        place: Option<ImageAt>,
        tickets: u32,
    ) -> Result<(), NoMemory>
        ensures lines { (key : ℕ) → members_at key self.new ≡ members_at key self.old }
        ensures used { AreUsed self.old.entries → AreUsed self.new.entries }
        ensures open { OnOk result (CanOpen self.new) }
        ensures room { OnOk result (HasMembers place self.old → tickets ≤ room_of place self.new) }
    {
        make_unused(alloc, &mut self.unused)?;
        make_room(&mut self.lines)?;
        match place {
            Some(place) => reserve_in(&mut self.lines, place.key(), tickets),
            None => Ok(()),
        }
    }

    /// A request joins the line of an image.
    pub fn join(&mut self, place: &ImageAt, slot: Slot, sharing: Sharing)
        requires from { 1 ≤ slot }
        requires to { slot ≤ 64 }
        requires other { IsFalse (is_member slot (lines_of self.old place.now.site place.now.image)) }
        requires open { CanOpen self.old }
        ensures lines { (key : ℕ) → members_at key self.new ≡ cond (is_key (Some place.now) key)
            (members_at key self.old ++ new_member slot sharing ∷ []) (members_at key self.old) }
        ensures used { AreUsed self.old.entries → AreUsed self.new.entries }
    {
        let key = place.key();
        if join_in(&mut self.lines, key, slot, sharing) {
            return;
        }
        let mut line = self.unused.take().unwrap();
        line.join(slot, sharing);
        add(&mut self.lines, key, line);
    }

    /// A request waits for its look under the lock, in the line that it is in.
    pub fn hold(&mut self, place: Option<ImageAt>, slot: Slot)
        ensures lines { (key : ℕ) → members_at key self.new ≡ cond (is_key place key)
            (changed_member slot held (members_at key self.old)) (members_at key self.old) }
        ensures used { AreUsed self.old.entries → AreUsed self.new.entries }
        ensures room { (key : ℕ) → room_at key self.old ≤ room_at key self.new }
        ensures open { CanOpen self.old → CanOpen self.new }
    {
        let Some(place) = place else {
            return;
        };
        let Some(line) = self.lines.get_mut(&place.key()) else {
            return;
        };
        line.hold(slot);
    }

    /// A request goes past its look under the lock.
    pub fn pass(&mut self, place: Option<ImageAt>, slot: Slot)
        requires { IsTrue (may_pass slot (members_of place self.old)) }
        ensures lines { (key : ℕ) → members_at key self.new ≡ cond (is_key place key)
            (changed_member slot passed (members_at key self.old)) (members_at key self.old) }
        ensures used { AreUsed self.old.entries → AreUsed self.new.entries }
        ensures room { (key : ℕ) → room_at key self.old ≤ room_at key self.new }
        ensures open { CanOpen self.old → CanOpen self.new }
    {
        let Some(place) = place else {
            return;
        };
        let Some(line) = self.lines.get_mut(&place.key()) else {
            return;
        };
        line.pass(slot);
    }

    /// A request takes a ticket for each object.
    pub fn enter(&mut self, place: Option<ImageAt>, slot: Slot, objects: &[u64])
        requires { MayEnterAll slot objects.now (members_of place self.old) (room_of place self.old) }
        ensures lines { (key : ℕ) → members_at key self.new ≡ cond (is_key place key)
            (changed_member slot (given_tickets objects.now) (members_at key self.old)) (members_at key self.old) }
        ensures used { AreUsed self.old.entries → AreUsed self.new.entries }
        ensures open { CanOpen self.old → CanOpen self.new }
    {
        let Some(place) = place else {
            return;
        };
        let Some(line) = self.lines.get_mut(&place.key()) else {
            return;
        };
        enter_all(line, slot, objects);
    }

    /// A request has done a piece.
    pub fn end_piece(&mut self, place: Option<ImageAt>, slot: Slot)
        ensures lines { (key : ℕ) → members_at key self.new ≡ cond (is_key place key)
            (changed_member slot next_piece (members_at key self.old)) (members_at key self.old) }
        ensures used { AreUsed self.old.entries → AreUsed self.new.entries }
        ensures room { (key : ℕ) → room_at key self.old ≤ room_at key self.new }
        ensures open { CanOpen self.old → CanOpen self.new }
    {
        let Some(place) = place else {
            return;
        };
        let Some(line) = self.lines.get_mut(&place.key()) else {
            return;
        };
        line.end_piece(slot);
    }

    /// A request leaves the line that it is in. The line goes with the last one.
    pub fn leave(&mut self, place: Option<ImageAt>, slot: Slot)
        ensures lines { (key : ℕ) → members_at key self.new ≡ cond (is_key place key)
            (without slot (members_at key self.old)) (members_at key self.old) }
        ensures used { AreUsed self.old.entries → AreUsed self.new.entries }
        ensures gone { HasMembers place self.new → members_of place self.new ≢ [] }
        ensures open { CanOpen self.old → CanOpen self.new }
    {
        let Some(place) = place else {
            return;
        };
        let key = place.key();
        leave_in(&mut self.lines, key, slot);
        forget_empty(&mut self.lines, &mut self.unused, key);
    }

    /// Whether the line of a request holds it back from its look under the lock.
    pub fn holds_back(&self, place: Option<ImageAt>, slot: Slot) -> bool
        ensures { result ≡ (waits_at (option_map (λ m. m.stage) (member_of slot (members_of place self.now)))
            && not (may_pass slot (members_of place self.now))) }
    {
        let Some(place) = place else {
            return false;
        };
        match self.lines.get(&place.key()) {
            Some(line) => awaits_look(line.stage(slot)) && !line.may_pass(slot),
            None => false,
        }
    }

    /// Whether a request of an image is past its look under the lock.
    pub fn is_any_past(&self, place: &ImageAt) -> bool
        ensures { result ≡ any_past (lines_of self.now place.now.site place.now.image) }
    {
        match self.lines.get(&place.key()) {
            Some(line) => line.is_any_past(),
            None => false,
        }
    }

    /// Whether an object is the next one of a request, and the request has its turn there.
    pub fn has_turn(&self, place: Option<ImageAt>, slot: Slot, object: u64) -> bool
        ensures { result ≡ (comes_next slot object (members_of place self.now) && has_turn slot object
            (members_of place self.now)) }
    {
        let Some(place) = place else {
            return false;
        };
        match self.lines.get(&place.key()) {
            Some(line) => line.has_turn(slot, object),
            None => false,
        }
    }

    /// How far a request has come in its line: `None` where it is in none.
    pub fn stage(&self, place: Option<ImageAt>, slot: Slot) -> Option<Stage>
        ensures { result ≡ option_map (λ m. m.stage) (member_of slot (members_of place self.now)) }
    {
        let Some(place) = place else {
            return None;
        };
        match self.lines.get(&place.key()) {
            Some(line) => line.stage(slot),
            None => None,
        }
    }

    /// Whether a request is alone in its line: `None` where it is in none.
    pub fn alone(&self, place: Option<ImageAt>, slot: Slot) -> Option<bool>
        ensures { result ≡ option_map (λ m. is_alone m.sharing) (member_of slot (members_of place self.now)) }
    {
        let Some(place) = place else {
            return None;
        };
        match self.lines.get(&place.key()) {
            Some(line) => line.sharing(slot).map(|sharing| sharing.is_alone()),
            None => None,
        }
    }
}

/// A line that nobody is in.
fn make_unused(alloc: Global, unused: &mut Option<Line>) -> Result<(), NoMemory>
    ensures { OnOk result (IsEmptyLine unused.new) }
{
    if is_empty_line(unused) {
        return Ok(());
    }
    renew(alloc, unused)
}

/// A new line. (By itself, since a line is rarely made, and takes room wherever it is.)
fn renew(alloc: Global, unused: &mut Option<Line>) -> Result<(), NoMemory>
    ensures { OnOk result (IsEmptyLine unused.new) }
{
    *unused = Some(Line::new(alloc)?);
    Ok(())
}

/// Room for one more line.
fn make_room(lines: &mut HashMap<u64, Line>) -> Result<(), NoMemory>
    ensures lines { (k : ℕ) → get nat_eq lines.new k ≡ get nat_eq lines.old k }
    ensures room { OnOk result (0 < spare lines.new) }
{
    lines.reserve(1)?;
    Ok(())
}

fn is_empty_line(line: &Option<Line>) -> bool
    ensures { IsTrue result → IsEmptyLine line.now }
{
    match line {
        Some(line) => line.is_empty(),
        None => false,
    }
}
