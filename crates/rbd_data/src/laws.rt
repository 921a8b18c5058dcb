//! What requests do to their end, and by how many operations: laws, each the contract of a function
//! that does nothing.
ghost use Rattle.std.specs.Prelude.{◌≡◌, ℕ, ◌+◌, ◌*◌, ◌<◌, ◌≤◌, List, AllPairs, length, Option, true};
ghost use Rattle.rbd_kinds.specs.declared.header.HeaderView.{HeaderView};
ghost use Rattle.rbd_kinds.specs.declared.id.SiteId.{SiteId};
ghost use Rattle.rbd_commands.specs.declared.command.Command.{Command};
ghost use Rattle.rbd_kinds.specs.declared.layout.Extent.{Extent};
ghost use Rattle.rbd_kinds.specs.declared.layout.Layout.{Layout};
ghost use Rattle.rbd_kinds.specs.Striping.{IsLayout};
ghost use Rattle.rbd_layout.specs.Pieces.{pieces_of};
ghost use Rattle.rbd_kinds.specs.declared.machine.Fed.{Fed};
ghost use Rattle.rbd_kinds.specs.declared.reply.Reply.{Reply};
ghost use Rattle.rbd_kinds.specs.declared.reply.Reply.TheVariants.{Bytes, Done};
ghost use Rattle.rbd_machine.specs.Path.{Answered, IsBounded, IsWalk};
ghost use Rattle.rbd_machine.specs.Passes.{jumps};
ghost use Rattle.rbd_machine.specs.Lawful.{IsLawfulRequest};
ghost use Rattle.rbd_machine.specs.Label.{Label};
ghost use Rattle.rbd_machine.specs.Plan.{Plan, Goto, Return, Standing, IsClosed, without_labels};
ghost use Rattle.rbd_machine.specs.Refused.{AreGiven};
ghost use Rattle.rbd_machine.specs.Turns.{AreTurns};
ghost use Rattle.rbd_machine.specs.declared.seat.Seat.{Seat};
ghost use Rattle.rbd_meaning.specs.Meant.{IsMeantBy};
ghost use Rattle.rbd_meaning.specs.Range.{extent_at};
ghost use Rattle.rbd_meaning.specs.Reads.{ShowsAtLast};
ghost use Rattle.rbd_meaning.specs.Writes.{WritesWhole};
ghost use Rattle.rbd_data.specs.Read.{IsReadOf, pass, read_labels};
ghost use Rattle.rbd_data.specs.Write.{is_write, objects_of, put_plan, write, write_plan};

/// A write has at most three operations up to its look under the lock, and then two for each piece.
pub fn writes_are_bounded()
    ensures pieces { (site : SiteId) (at : ℕ) (bytes : List ℕ) (image : ℕ) (h : HeaderView)
        → IsBounded (put_plan site at bytes image h) (2 * length (pieces_of h.layout (extent_at at bytes))) }
    ensures all { (site : SiteId) (name : List ℕ) (at : ℕ) (bytes : List ℕ) (most : ℕ)
        → ((h : HeaderView) → length (pieces_of h.layout (extent_at at bytes)) ≤ most)
        → IsBounded (write site name at bytes) (2 * most + 3) }
{}

/// A pass of a read has at most one operation for each piece, and three beside: it finds its image,
/// and looks at the header before and after. A read that begins again has those of one more pass.
pub fn reads_are_bounded()
    ensures pass { (site : SiteId) (name : List ℕ) (snap : Option (List ℕ)) (e : Extent) (most : ℕ)
        → ((h : HeaderView) → length (pieces_of h.layout e) ≤ most)
        → IsBounded (pass site name snap e) (most + 3) }
    ensures all { (site : SiteId) (name : List ℕ) (snap : Option (List ℕ)) (e : Extent) (most : ℕ) (feds : List Fed)
        (steps : List Answered) (last : Plan)
        → ((h : HeaderView) → length (pieces_of h.layout e) ≤ most)
        → IsWalk (read_labels site name snap e) (pass site name snap e) feds steps last
        → length steps ≤ (1 + jumps (read_labels site name snap e) (pass site name snap e) feds) * (most + 3) }
{}

/// A write waits for its turn at the object of each of its pieces, one after another by ascending
/// number, and at no other object. Its pieces are those of its extent, by the layout that its look
/// under the lock told.
pub fn turns_are_those_of_the_pieces()
    ensures turns { (left : Label → List ℕ) (site : SiteId) (at : ℕ) (bytes : List ℕ) (image : ℕ) (h : HeaderView)
        → AreTurns left (put_plan site at bytes image h) (objects_of (pieces_of h.layout (extent_at at bytes))) }
    ensures ascending { (l : Layout) (e : Extent) → IsLayout l → AllPairs (λ p q. p.object < q.object) (pieces_of l e) }
{}

/// A write begins no part again, and a read begins again at an operation.
pub fn labels_stand_at_operations()
    ensures write { (home : SiteId) (command : Command) → IsClosed Goto (write_plan home command) }
    ensures read { (site : SiteId) (name : List ℕ) (snap : Option (List ℕ)) (e : Extent)
        → IsClosed (read_labels site name snap e) (pass site name snap e) }
{}

/// A read, however often it begins again, shows bytes only at the end of a pass between two looks
/// at a header that didn't change. The bytes are what that pass read of each piece by its first
/// look, in the order of the image. In each earlier pass the closing look saw another header, or
/// none.
pub fn bytes_are_shown_between_looks()
    ensures { (site : SiteId) (name : List ℕ) (snap : Option (List ℕ)) (e : Extent) (feds : List Fed)
        (steps : List Answered) (bytes : List ℕ)
        → IsWalk (read_labels site name snap e) (pass site name snap e) feds steps (Return (Bytes bytes))
        → ShowsAtLast site name snap e steps bytes }
{}

/// A write is done only where each of its pieces was written by its look under the lock, under the
/// snapshot context of that look and behind its object's state. It did nothing else but look up its
/// image and look at its header.
pub fn writes_are_whole()
    ensures { (site : SiteId) (name : List ℕ) (at : ℕ) (bytes : List ℕ) (feds : List Fed) (steps : List Answered)
        → IsWalk Goto (write site name at bytes) feds steps (Return Done) → WritesWhole site name at bytes steps }
{}

/// A write and a fill begin with no knowledge and ask only for what they may: each piece is written
/// at its turn and behind its object's state, under the snapshot context and within the size that
/// the look under the lock told.
pub fn writes_are_lawful()
    ensures { (home : SiteId) (command : Command) → IsLawfulRequest (without_labels (write_plan home command)) }
{}

/// A read begins with no knowledge, also where it begins again, and asks only for what it may.
pub fn reads_are_lawful()
    ensures { (home : SiteId) (command : Command) (standing : Standing)
        → IsReadOf home command standing → IsLawfulRequest standing }
{}

/// Each reply is one that the command means after the operations that were done (`IsMeantBy` of
/// `rbd_meaning`): a request that isn't refused has written or shows what its reply says, and a
/// refused one was refused by its last answer and by none before. It holds where each answer is one
/// that its operation can give to the owner of what it changes.
pub fn replies_are_meant()
    ensures write { (seat : Seat) (command : Command) (feds : List Fed) (steps : List Answered) (reply : Reply)
        → is_write command ≡ true → AreGiven steps
        → IsWalk Goto (write_plan seat.home command) feds steps (Return reply) → IsMeantBy seat command steps reply }
    ensures read { (seat : Seat) (command : Command) (standing : Standing) (feds : List Fed) (steps : List Answered)
        (reply : Reply)
        → IsReadOf seat.home command standing → AreGiven steps
        → IsWalk standing.labels standing.plan feds steps (Return reply) → IsMeantBy seat command steps reply }
{}
