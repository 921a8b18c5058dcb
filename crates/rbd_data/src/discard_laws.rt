//! What a discard does to its end, and by how many operations: laws, each the contract of a
//! function that does nothing.
ghost use Rattle.std.specs.Prelude.{ℕ, ◌+◌, ◌*◌, ◌≤◌, List, length};
ghost use Rattle.rbd_commands.specs.declared.command.Command.{Command};
ghost use Rattle.rbd_kinds.specs.declared.header.HeaderView.{HeaderView};
ghost use Rattle.rbd_kinds.specs.declared.id.SiteId.{SiteId};
ghost use Rattle.rbd_kinds.specs.declared.layout.Extent.{Extent};
ghost use Rattle.rbd_kinds.specs.declared.machine.Fed.{Fed};
ghost use Rattle.rbd_kinds.specs.declared.reply.Reply.{Reply};
ghost use Rattle.rbd_kinds.specs.declared.reply.Reply.TheVariants.{Done};
ghost use Rattle.rbd_layout.specs.Pieces.{pieces_of};
ghost use Rattle.rbd_machine.specs.Lawful.{IsLawfulRequest};
ghost use Rattle.rbd_machine.specs.Path.{Answered, IsBounded, IsWalk};
ghost use Rattle.rbd_machine.specs.Label.{Label};
ghost use Rattle.rbd_machine.specs.Plan.{Goto, Return, IsClosed, without_labels};
ghost use Rattle.rbd_machine.specs.Refused.{AreGiven};
ghost use Rattle.rbd_machine.specs.Turns.{AreTurns};
ghost use Rattle.rbd_meaning.specs.Discards.{DiscardMeans, DiscardsWhole};
ghost use Rattle.rbd_meaning.specs.Parentless.{AreParentless};
ghost use Rattle.rbd_data.specs.Write.{objects_of};
ghost use Rattle.rbd_data.specs.Discard.{discard, discard_plan, zero};

/// A discard has at most three operations up to its look under the lock, and then at most three for
/// each piece.
pub fn discards_are_bounded()
    ensures pieces { (site : SiteId) (e : Extent) (image : ℕ) (h : HeaderView)
        → IsBounded (zero site e image h) (3 * length (pieces_of h.layout e)) }
    ensures all { (site : SiteId) (name : List ℕ) (e : Extent) (most : ℕ)
        → ((h : HeaderView) → length (pieces_of h.layout e) ≤ most) → IsBounded (discard site name e) (3 * most + 3) }
{}

/// A discard waits for its turn at the object of each of its pieces, one after another by ascending
/// number, and at no other object. Its pieces are those of its extent, by the layout that its look
/// under the lock told.
pub fn turns_are_those_of_the_pieces()
    ensures { (left : Label → List ℕ) (site : SiteId) (e : Extent) (image : ℕ) (h : HeaderView)
        → AreTurns left (zero site e image h) (objects_of (pieces_of h.layout e)) }
{}

/// A discard begins no part again.
pub fn labels_stand_at_operations()
    ensures { (home : SiteId) (command : Command) → IsClosed Goto (discard_plan home command) }
{}

/// A discard begins with no knowledge and asks only for what it may: each piece becomes zeros at
/// its turn, under the snapshot context and within the size that the look under the lock told. An
/// object's state is raised before the object may come to be there, and set to 0 only once it is
/// gone.
pub fn discards_are_lawful()
    ensures { (home : SiteId) (command : Command) → IsLawfulRequest (without_labels (discard_plan home command)) }
{}

/// A discard is done only where each of its pieces became zeros by its look under the lock, one
/// after another. It did nothing else but look up its image and look at its header.
pub fn discards_are_whole()
    ensures { (site : SiteId) (name : List ℕ) (e : Extent) (feds : List Fed) (steps : List Answered)
        → IsWalk Goto (discard site name e) feds steps (Return Done) → DiscardsWhole site name e steps }
{}

/// Each reply is one that a discard means after the operations that were done (`DiscardMeans` of
/// `rbd_meaning`). A refused discard was refused by its last answer and by none before; what it had
/// done is the front of a whole one, or looks alone. It holds where each answer is one that its
/// operation can give to the owner of what it changes, and no header that is told has a parent.
pub fn replies_are_meant()
    ensures { (site : SiteId) (image : List ℕ) (at len : ℕ) (feds : List Fed) (steps : List Answered) (reply : Reply)
        → AreGiven steps → AreParentless steps
        → IsWalk Goto (discard site image (record { at = at; len = len })) feds steps (Return reply)
        → DiscardMeans site image at len steps reply }
{}
