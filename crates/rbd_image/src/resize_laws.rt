//! What a resize does to its end, and by how many operations: laws, each the contract of a function
//! that does nothing.
ghost use Rattle.std.specs.Prelude.{ℕ, ◌+◌, ◌*◌, ◌<◌, ◌≤◌, List, length};
ghost use Rattle.rbd_commands.specs.declared.command.Command.{Command};
ghost use Rattle.rbd_kinds.specs.declared.header.HeaderView.{HeaderView};
ghost use Rattle.rbd_kinds.specs.declared.id.SiteId.{SiteId};
ghost use Rattle.rbd_kinds.specs.declared.machine.Fed.{Fed};
ghost use Rattle.rbd_kinds.specs.declared.reply.Reply.{Reply};
ghost use Rattle.rbd_kinds.specs.declared.reply.Reply.TheVariants.{Done};
ghost use Rattle.rbd_layout.specs.Pieces.{pieces_of};
ghost use Rattle.rbd_machine.specs.Lawful.{IsLawfulRequest};
ghost use Rattle.rbd_machine.specs.Path.{Answered, IsBounded, IsWalk};
ghost use Rattle.rbd_machine.specs.Plan.{Goto, Return, IsClosed, without_labels};
ghost use Rattle.rbd_machine.specs.Refused.{AreGiven};
ghost use Rattle.rbd_meaning.specs.Parentless.{AreParentless};
ghost use Rattle.rbd_meaning.specs.Resizes.{ResizeMeans, ResizesWhole};
ghost use Rattle.rbd_pieces.specs.Shrink.{head_from};
ghost use Rattle.rbd_image.specs.Resize.{resize_plan, set_size, size_change};
ghost use Rattle.rbd_image.specs.HeadersTold.{HasFewToCut, HoldsOfTold};

/// Behind its look under the lock a resize has two operations, and where the size is less than
/// before, three more for each object with a byte from the new size on. Up to its look under the
/// lock it has three. That of a whole request is said of walks, since its look under the lock
/// decides how many objects there are.
pub fn requests_are_bounded()
    ensures grow { (site : SiteId) (to image : ℕ) (h : HeaderView)
        → h.size ≤ to → IsBounded (set_size site to image h) 2 }
    ensures shrink { (site : SiteId) (to image : ℕ) (h : HeaderView) → to < h.size
        → IsBounded (set_size site to image h) (2 + 3 * length (pieces_of h.layout (head_from h to))) }
    ensures resize { (site : SiteId) (name : List ℕ) (to most : ℕ) (feds : List Fed) (steps : List Answered)
        (reply : Reply)
        → HoldsOfTold (HasFewToCut to most) steps
        → IsWalk Goto (size_change site name to) feds steps (Return reply) → length steps ≤ 5 + 3 * most }
{}

/// A resize begins with no knowledge and asks only for what it may: it does all of it alone on the
/// image, by the header that its look under the lock told. A greater size is set once the head's
/// map has the new objects, and a smaller one once each byte that goes is zero.
pub fn resizes_are_lawful()
    ensures { (home : SiteId) (command : Command) → IsLawfulRequest (without_labels (resize_plan home command)) }
{}

/// A resize doesn't begin a part again.
pub fn plans_go_to_no_label()
    ensures { (home : SiteId) (command : Command) → IsClosed Goto (resize_plan home command) }
{}

/// A resize is done only where the size was set by its look under the lock. It did nothing else but
/// look up its image and look at its header. Headers that are told are in form.
pub fn resizes_are_whole()
    ensures { (site : SiteId) (name : List ℕ) (to : ℕ) (feds : List Fed) (steps : List Answered) → AreGiven steps
        → IsWalk Goto (size_change site name to) feds steps (Return Done) → ResizesWhole site name to steps }
{}

/// A reply is meant by its command, behind the operations that were done, where each answer is one
/// that its operation can give to who owns what it changes, and images have no parent: it was done,
/// or the last answer refused it, and none before, and what was done until then was looks, or the
/// front of a whole one. No other reply comes. (Of an image with a parent `data-zero` may be
/// answered `none`, where copy-up will join.)
pub fn replies_are_meant()
    ensures { (site : SiteId) (name : List ℕ) (to : ℕ) (feds : List Fed) (steps : List Answered) (reply : Reply)
        → AreGiven steps → AreParentless steps
        → IsWalk Goto (size_change site name to) feds steps (Return reply) → ResizeMeans site name to steps reply }
{}
