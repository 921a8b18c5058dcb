//! What a rollback does to its end, and by how many operations: laws, each the contract of a
//! function that does nothing.
ghost use Rattle.std.specs.Prelude.{ℕ, ◌+◌, ◌*◌, ◌<◌, ◌≤◌, List, length};
ghost use Rattle.rbd_commands.specs.declared.command.Command.{Command};
ghost use Rattle.rbd_kinds.specs.declared.header.HeaderView.{HeaderView};
ghost use Rattle.rbd_kinds.specs.declared.header.SnapView.{SnapView};
ghost use Rattle.rbd_kinds.specs.declared.id.SiteId.{SiteId};
ghost use Rattle.rbd_kinds.specs.declared.machine.Fed.{Fed};
ghost use Rattle.rbd_kinds.specs.declared.reply.Reply.{Reply};
ghost use Rattle.rbd_kinds.specs.declared.reply.Reply.TheVariants.{Done};
ghost use Rattle.rbd_layout.specs.Pieces.{pieces_of};
ghost use Rattle.rbd_machine.specs.Label.{Label};
ghost use Rattle.rbd_machine.specs.Lawful.{IsLawfulRequest};
ghost use Rattle.rbd_machine.specs.Path.{Answered, IsBounded, IsWalk};
ghost use Rattle.rbd_machine.specs.Plan.{Plan, Goto, Return, IsClosed, without_labels};
ghost use Rattle.rbd_machine.specs.Refused.{AreGiven};
ghost use Rattle.rbd_meaning.specs.Parentless.{AreParentless};
ghost use Rattle.rbd_meaning.specs.Rollbacks.{RollbackMeans, RollsBack, at_size};
ghost use Rattle.rbd_pieces.specs.Shrink.{head_from};
ghost use Rattle.rbd_pieces.specs.Zero.{head_of};
ghost use Rattle.rbd_snap.specs.Rollback.{roll_back, rollback, rollback_plan};
ghost use Rattle.rbd_snap.specs.RollbackTold.{HasFewToRestore};
ghost use Rattle.rbd_image.specs.HeadersTold.{HoldsOfTold};

/// Behind its look under the lock a rollback has the operations of its size, and four for each
/// object of the snapshot. Up to its look under the lock it has three. That of a whole request is
/// said of walks, since its look under the lock decides how many objects there are.
pub fn requests_are_bounded()
    ensures back_grow { (site : SiteId) (image : ℕ) (h : HeaderView) (listed : SnapView) (next : Plan) (n : ℕ)
        → IsBounded next n → h.size ≤ listed.size
        → IsBounded (roll_back site image h listed next)
        (n + 2 + 4 * length (pieces_of h.layout (head_of (at_size listed.size h)))) }
    ensures back_shrink { (site : SiteId) (image : ℕ) (h : HeaderView) (listed : SnapView) (next : Plan) (n : ℕ)
        → IsBounded next n → listed.size < h.size
        → IsBounded (roll_back site image h listed next)
        (n + 2 + 3 * length (pieces_of h.layout (head_from h listed.size))
        + 4 * length (pieces_of h.layout (head_of (at_size listed.size h)))) }
    ensures rollback { (site : SiteId) (name snap : List ℕ) (most : ℕ) (feds : List Fed) (steps : List Answered)
        (reply : Reply)
        → HoldsOfTold (HasFewToRestore snap most) steps
        → IsWalk Goto (rollback site name snap) feds steps (Return reply) → length steps ≤ 5 + most }
{}

/// A rollback is lawful from nothing known: all is done alone on the image, by the header that the
/// look under the lock told. Behind its size, by the header at that size, each object becomes what
/// it was behind its state, and under the snapshot context.
pub fn rollbacks_are_lawful()
    ensures { (home : SiteId) (command : Command) → IsLawfulRequest (without_labels (rollback_plan home command)) }
{}

/// A rollback doesn't begin a part again, nor does it as a part, unless what comes next does.
pub fn plans_go_to_no_label()
    ensures rollback { (home : SiteId) (command : Command) → IsClosed Goto (rollback_plan home command) }
    ensures part { (labels : Label → Plan) (site : SiteId) (image : ℕ) (h : HeaderView)
        (listed : SnapView) (next : Plan)
        → IsClosed labels next → IsClosed labels (roll_back site image h listed next) }
{}

/// A rollback is done only where the size was set to that of the snapshot which its look under the
/// lock lists, and each object of the head at this size was replaced by what was read of it at the
/// snapshot, by ascending number. It did nothing else but look up its image and look at its header.
pub fn rollbacks_are_whole()
    ensures { (site : SiteId) (name snap : List ℕ) (feds : List Fed) (steps : List Answered) → AreGiven steps
        → IsWalk Goto (rollback site name snap) feds steps (Return Done) → RollsBack site name snap steps }
{}

/// A reply is meant by its command, behind the operations that were done, where each answer is one
/// that its operation can give to who owns what it changes, and images have no parent: it was done,
/// or the last answer refused it, and none before, and what was done until then was looks, or the
/// front of a whole one. No other reply comes. (Of an image with a parent `data-zero` may be
/// answered `none`, where copy-up will join.)
pub fn replies_are_meant()
    ensures { (site : SiteId) (name snap : List ℕ) (feds : List Fed) (steps : List Answered) (reply : Reply)
        → AreGiven steps → AreParentless steps
        → IsWalk Goto (rollback site name snap) feds steps (Return reply) → RollbackMeans site name snap steps reply }
{}
