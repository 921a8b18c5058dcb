//! What the plans that take and remove snapshots keep to: laws, each the contract of a function
//! that does nothing.
ghost use Rattle.std.specs.Prelude.{◌≡◌, ℕ, ◌+◌, List, true};
ghost use Rattle.rbd_commands.specs.declared.command.Command.{Command};
ghost use Rattle.rbd_kinds.specs.declared.id.SiteId.{SiteId};
ghost use Rattle.rbd_machine.specs.Label.{Label};
ghost use Rattle.rbd_machine.specs.Lawful.{IsLawfulRequest};
ghost use Rattle.rbd_machine.specs.Plan.{Plan, Return, Goto, IsClosed, without_labels};
ghost use Rattle.rbd_commands.specs.declared.command.Command.TheVariants.{SnapCreate, SnapRemove};
ghost use Rattle.rbd_kinds.specs.declared.machine.Fed.{Fed};
ghost use Rattle.rbd_kinds.specs.declared.reply.Reply.{Reply};
ghost use Rattle.rbd_kinds.specs.declared.reply.Reply.TheVariants.{Done};
ghost use Rattle.rbd_machine.specs.Path.{Answered, IsBounded, IsWalk};
ghost use Rattle.rbd_machine.specs.declared.seat.Seat.{Seat};
ghost use Rattle.rbd_snap.specs.Snap.{copying, is_snap, removing, snap_plan};
ghost use Rattle.rbd_machine.specs.Refused.{AreGiven};
ghost use Rattle.rbd_meaning.specs.Meant.{IsMeantBy};
ghost use Rattle.rbd_meaning.specs.Snaps.{TakesOne, RemovesOne};

/// A `snap create` has at most six operations and a `snap rm` five: three up to the look under the
/// lock, one that changes the header, and two or one on the snapshot's map. So the part that takes
/// a snapshot has three more than what comes next, and the part that removes one has two.
pub fn snapshots_change_once()
    ensures either { (home : SiteId) (command : Command) → IsBounded (snap_plan home command) 6 }
    ensures removal { (home : SiteId) (image snap : List ℕ) → IsBounded (snap_plan home (SnapRemove image snap)) 5 }
    ensures take { (site : SiteId) (snap : List ℕ) (image id : ℕ) (next : Plan) (n : ℕ)
        → IsBounded next n → IsBounded (copying site snap image id next) (n + 3) }
    ensures remove { (site : SiteId) (image snap : ℕ) (next : Plan) (n : ℕ)
        → IsBounded next n → IsBounded (removing site image snap next) (n + 2) }
{}

/// Neither begins a part again, nor do the parts, unless what comes next does.
pub fn plans_go_to_no_label()
    ensures snap { (home : SiteId) (command : Command) → IsClosed Goto (snap_plan home command) }
    ensures take { (labels : Label → Plan) (site : SiteId) (snap : List ℕ) (image id : ℕ) (next : Plan)
        → IsClosed labels next → IsClosed labels (copying site snap image id next) }
    ensures remove { (labels : Label → Plan) (site : SiteId) (image snap : ℕ) (next : Plan)
        → IsClosed labels next → IsClosed labels (removing site image snap next) }
{}

/// A `snap create` and a `snap rm` begin with no knowledge and ask only for what they may. Alone on
/// the image, and by the header of its look under the lock, the one takes a snapshot under a name
/// that isn't listed, behind a map with the head's states. The other removes a snapshot that is
/// listed and isn't protected, and then its map.
pub fn snapshots_are_lawful()
    ensures { (home : SiteId) (command : Command) → IsLawfulRequest (without_labels (snap_plan home command)) }
{}

/// A `snap create` is done only where one snapshot was taken, behind two looks and behind its map.
/// A `snap rm` is done only where the one snapshot was removed that its look under the lock listed
/// under the name, and then its map. Neither look refused the command.
pub fn snapshots_change_behind_two_looks()
    ensures taken { (site : SiteId) (image snap : List ℕ) (feds : List Fed) (steps : List Answered)
        → IsWalk Goto (snap_plan site (SnapCreate image snap)) feds steps (Return Done)
        → TakesOne site image snap steps }
    ensures removed { (site : SiteId) (image snap : List ℕ) (feds : List Fed) (steps : List Answered)
        → IsWalk Goto (snap_plan site (SnapRemove image snap)) feds steps (Return Done)
        → RemovesOne site image snap steps }
{}

/// A reply is meant by its command, behind the operations that were done (`IsMeantBy` of
/// `rbd_meaning`), where each answer is one that its operation can give to who owns what it
/// changes: it was done when a request isn't refused, and when it is, the last answer refused it,
/// and none before. No other reply comes.
pub fn replies_are_meant()
    ensures { (seat : Seat) (command : Command) (feds : List Fed) (steps : List Answered) (reply : Reply)
        → is_snap command ≡ true → AreGiven steps
        → IsWalk Goto (snap_plan seat.home command) feds steps (Return reply) → IsMeantBy seat command steps reply }
{}
