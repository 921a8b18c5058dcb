//! What follows for every session: each law is the contract of a function that does nothing.
ghost use Rattle.std.specs.Prelude.{◌≡◌, ◌≢◌, ◌⊎◌, ℕ, Option, false, ◌∷◌, Some, None, IsTrue, IsFalse, List};
ghost use Rattle.rbd_kinds.specs.declared.id.SiteId.{SiteId as Site};
ghost use Rattle.rbd_machine.specs.declared.stage.Stage.TheVariants.{Waiting};
ghost use Rattle.rbd_kinds.specs.Sharing.{go_together, is_alone};
ghost use Rattle.rbd_queue.specs.Line.{Member, member_of, is_member, is_past, is_past_in, ahead, holds_ticket};
ghost use Rattle.rbd_kinds.specs.declared.machine.Fed.{Fed};
ghost use Rattle.rbd_kinds.specs.declared.reply.Reply.{Reply};
ghost use Rattle.rbd_slots.specs.Advance.{track_of};
ghost use Rattle.rbd_slots.specs.Lines.{lines_of};
ghost use Rattle.rbd_slots.specs.Session.{SessionView, IsSoundSession, IsAtLookUnderLock, IsAlike, IsReadied, IsFed, held_in, running_at, kind_at, look_under_lock_in, look_under_lock_at};
ghost use Rattle.rbd_slots.specs.OnTrack.{LeavesOthers};
ghost use Rattle.rbd_slots.specs.Track.{ended_by};
ghost use Rattle.rbd_slots.specs.Waits.{waits};
ghost use Rattle.rbd_kinds.specs.declared.image_at.ImageAt.{ImageAt};
ghost use Rattle.rbd_slots.specs.declared.running.Running.{Running};

use rbd_machine::Request;

/// While a request that is alone is past its look under the lock, no other request of the image is
/// past its own: nothing else of this client changes the image meanwhile.
pub fn alone_is_alone<R: Request>()
    ensures { (s : SessionView R) (site : Site) (image : ℕ) (one other : Member)
        → IsSoundSession R.stands s
        → member_of one.slot (lines_of s.lines site image) ≡ Some one
        → member_of other.slot (lines_of s.lines site image) ≡ Some other
        → one.slot ≢ other.slot → IsTrue (is_alone one.sharing) → IsTrue (is_past one.stage)
        → IsFalse (is_past other.stage) }
{}

/// Two requests of an image that don't go together are never past their looks under the lock at
/// once: the later one waits at its own for the end of the earlier, and nobody asks for its
/// operation. A flatten waits for each discard and flatten ahead of it, and a discard for each
/// flatten.
pub fn who_doesnt_go_together_waits<R: Request>()
    ensures past { (s : SessionView R) (site : Site) (image : ℕ) (one other : Member)
        → IsSoundSession R.stands s
        → member_of one.slot (lines_of s.lines site image) ≡ Some one
        → member_of other.slot (lines_of s.lines site image) ≡ Some other
        → one.slot ≢ other.slot → IsFalse (go_together one.sharing other.sharing)
        → IsTrue (is_past one.stage) → IsFalse (is_past other.stage) }

    ensures waits { (s : SessionView R) (slot : ℕ) (r : Running R) (p : ImageAt) (one own : Member)
        → running_at slot s ≡ Some r → r.place ≡ Some p
        → member_of slot (lines_of s.lines p.site p.image) ≡ Some own → own.stage ≡ Waiting
        → member_of one.slot (lines_of s.lines p.site p.image) ≡ Some one
        → IsTrue (is_member one.slot (ahead slot (lines_of s.lines p.site p.image)))
        → IsFalse (go_together one.sharing own.sharing)
        → kind_at R.stands slot s ≡ None }
{}

/// A request whose next piece changes an object waits while a request ahead of it in its line has a
/// ticket for that object: nobody asks for its operation. So writes change each object in the order
/// in which they joined.
pub fn pieces_go_in_line<R: Request>()
    ensures { (s : SessionView R) (slot object : ℕ) (r : Running R) (p : ImageAt) (one : Member)
        → running_at slot s ≡ Some r → r.place ≡ Some p → r.turn ≡ Some object
        → member_of one.slot (lines_of s.lines p.site p.image) ≡ Some one
        → IsTrue (is_member one.slot (ahead slot (lines_of s.lines p.site p.image)))
        → IsTrue (holds_ticket object one)
        → kind_at R.stands slot s ≡ None }
{}

/// The first request of a line never waits: so each line goes on.
pub fn first_goes_on<R: Request>()
    ensures { (s : SessionView R) (site : Site) (image : ℕ) (m : Member) (members : List Member) (r : Running R)
        → IsSoundSession R.stands s → lines_of s.lines site image ≡ m ∷ members → running_at m.slot s ≡ Some r
        → waits m.slot (track_of r s.lines) ≡ false }
{}

/// Each member of a line is a request that runs, and is in no other line.
pub fn members_run<R: Request>()
    ensures { (s : SessionView R) (slot : ℕ) (site : Site) (image : ℕ) (m : Member)
        → IsSoundSession R.stands s → member_of slot (lines_of s.lines site image) ≡ Some m
        → (r : Running R) × (running_at slot s ≡ Some r) × (r.place ≡ Some (record { site = site; image = image })) }
{}

/// A request that stands at its look under the lock is in the line of that image, waits there for
/// this look, and may go past it.
pub fn looks_under_lock_are_in_line<R: Request>()
    ensures { (s : SessionView R) (slot : ℕ) (p : ImageAt) → look_under_lock_at R.stands slot s ≡ Some p
        → IsAtLookUnderLock slot p s }
{}

/// A feeding takes only the request that is fed past its look under the lock, and only from that
/// look on. Each other request that is past its look afterwards was so before.
pub fn passing_comes_by_looks_under_lock<R: Request>()
    ensures { (s new : SessionView R) (slot : ℕ) (f : Fed) (reply : Option Reply)
        → IsReadied R.stands R.is_ready slot f s → IsFed R.stands slot f reply s new
        → LeavesOthers slot (lines_of s.lines) (lines_of new.lines)
        → (k : ℕ) (site : Site) (image : ℕ) → IsTrue (is_past_in (member_of k (lines_of new.lines site image)))
        → IsTrue (is_past_in (member_of k (lines_of s.lines site image)))
        ⊎ ((k ≡ slot) × (look_under_lock_at R.stands slot s ≡ Some (record { site = site; image = image }))) }
{}

/// A request that stands at its look under the lock stays there, waiting or not, whatever other
/// slots do. Where another request is fed or given up, it may still go on there if it could before.
/// Making a request ready changes nothing of this.
pub fn looks_under_lock_stay<R: Request>()
    ensures stands { (s new : SessionView R) (slot other : ℕ) → slot ≢ other
        → held_in slot new.slots ≡ held_in slot s.slots → LeavesOthers other (lines_of s.lines) (lines_of new.lines)
        → look_under_lock_in R.stands slot new.lines (running_at slot new) ≡ look_under_lock_in R.stands slot s.lines
        (running_at slot s) }

    ensures fed { (s new : SessionView R) (slot other : ℕ) (p : ImageAt) (f : Fed) (reply : Option Reply)
        → IsSoundSession R.stands s → slot ≢ other → held_in slot new.slots ≡ held_in slot s.slots
        → IsFed R.stands other f reply s new → LeavesOthers other (lines_of s.lines) (lines_of new.lines)
        → look_under_lock_at R.stands slot s ≡ Some p → look_under_lock_at R.stands slot new ≡ Some p }

    ensures given_up { (s new : SessionView R) (slot other : ℕ) (p : ImageAt) (r : Running R)
        → IsSoundSession R.stands s → slot ≢ other → held_in slot new.slots ≡ held_in slot s.slots
        → lines_of new.lines ≡ (ended_by other (track_of r s.lines)).lines
        → look_under_lock_at R.stands slot s ≡ Some p → look_under_lock_at R.stands slot new ≡ Some p }

    ensures readied { (s new : SessionView R) (slot : ℕ) → IsAlike R.stands s new
        → look_under_lock_at R.stands slot new ≡ look_under_lock_at R.stands slot s }
{}
