//! What the plans of requests keep to, and what a close does: laws, each the contract of a function
//! that does nothing.
ghost use Rattle.std.specs.Prelude.{◌≡◌, ℕ, Bool, true, false, List, [], ◌∷◌, ◌++◌, None};
ghost use Rattle.rbd_kinds.specs.declared.answer.Answer.{Answer};
ghost use Rattle.rbd_kinds.specs.declared.answer.Answer.TheVariants.{Done as DoneSo};
ghost use Rattle.rbd_commands.specs.declared.command.Command.{Command};
ghost use Rattle.rbd_kinds.specs.declared.id.SiteId.{SiteId};
ghost use Rattle.rbd_kinds.specs.declared.machine.Fed.{Fed};
ghost use Rattle.rbd_kinds.specs.declared.notice.NoticeKind.{NoticeKind};
ghost use Rattle.rbd_kinds.specs.declared.notice.NoticeKind.TheVariants.{ReleasedLock};
ghost use Rattle.rbd_kinds.specs.declared.reply.Reply.{Reply};
ghost use Rattle.rbd_machine.specs.Course.{beginning};
ghost use Rattle.rbd_machine.specs.Orderly.{IsOrderlyFrom};
ghost use Rattle.rbd_machine.specs.Lawful.{IsLawfulRequest};
ghost use Rattle.rbd_machine.specs.Path.{Answered, IsBounded, IsWalk};
ghost use Rattle.rbd_machine.specs.Plan.{Plan, Return, Goto, IsClosed, without_labels};
ghost use Rattle.rbd_machine.specs.Refused.{AreGiven};
ghost use Rattle.rbd_machine.specs.declared.seat.Seat.{Seat};
ghost use Rattle.rbd_meaning.specs.Meant.{IsMeantBy};
ghost use Rattle.rbd_meaning.specs.Straight.{operations_of, Straight};
ghost use Rattle.rbd_lock.specs.Order.{EndsWith};
ghost use Rattle.rbd_lock.specs.Steps.{lock_drop};
ghost use Rattle.rbd_lock.specs.Waiting.{owned_by};
ghost use Rattle.rbd_session.specs.Close.{is_close, close_plan, close, notify, quiesce, straight, unwatch};
ghost use Rattle.rbd_session.specs.Meaning.{answered_with, Ends, IsBehindLettingGo, IsDropBehind};

/// No plan of these commands begins a part again.
pub fn plans_go_to_no_label()
    ensures { (home : SiteId) (command : Command) → IsClosed Goto (close_plan home command) }
{}

/// A `close` has four operations at most, a `quiesce` three, and a straight command two where it
/// tells something, and one where it tells nothing.
pub fn plans_are_short()
    ensures close { (site : SiteId) (image : List ℕ) → IsBounded (close site image) 4 }
    ensures quiesce { (site : SiteId) (image : List ℕ) → IsBounded (quiesce site image) 3 }
    ensures straight { (site : SiteId) (s : Straight) → IsBounded (straight site s) (operations_of s) }
{}

/// The requests keep to their line. A `close` and a `quiesce` join it as the first thing after
/// their look-up was answered, and wait there; a straight command waits for nothing. None takes
/// turns at objects.
pub fn requests_are_orderly()
    ensures { (home : SiteId) (command : Command)
        → IsOrderlyFrom None true beginning (without_labels (close_plan home command)) }
{}

/// The requests begin with no knowledge and ask only for what they may. So a `close` drops a lock
/// only where it waited for it, alone, and looked at no header since.
pub fn requests_are_lawful()
    ensures { (home : SiteId) (command : Command) → IsLawfulRequest (without_labels (close_plan home command)) }
{}

/// A `close` that found its image drops the lock. It tells the watchers exactly where the drop was
/// done. It ends its watch where the drop was done and told of, or was answered `changed`.
pub fn closes_let_go()
    ensures { (site : SiteId) (image : List ℕ) (feds : List Fed) (steps : List Answered) (reply : Reply)
        → IsWalk Goto (close site image) feds steps (Return reply) → Ends site image steps }
{}

/// From its drop on the client counts the lock as let go, whatever the drop was answered, and
/// wherever the `close` stands or ends. Before the drop the lock counts as it did.
pub fn closes_count_as_released()
    ensures dropped { (site : SiteId) (name : List ℕ) (owned : Bool) (feds : List Fed) (before after : List Answered)
        (image : ℕ) (a : Answer) (last : Plan)
        → IsWalk Goto (close site name) feds (before ++ answered_with site (lock_drop image) a ∷ after) last
        → owned_by owned (before ++ answered_with site (lock_drop image) a ∷ after) ≡ false }
    ensures found { (site : SiteId) (name : List ℕ) (owned : Bool) (feds : List Fed) (first : Answered) (last : Plan)
        → IsWalk Goto (close site name) feds (first ∷ []) last → owned_by owned (first ∷ []) ≡ owned }
    ensures second { (site : SiteId) (name : List ℕ) (feds : List Fed) (first second : Answered)
        (more : List Answered) (last : Plan)
        → IsWalk Goto (close site name) feds (first ∷ second ∷ more) last → IsDropBehind site name first second }
{}

/// Wherever a `close` stands or ends, the only notice that it sent is that the lock was let go, and
/// it sent that directly behind a drop that was done. It ended its watch only directly behind that
/// notice, once this was done, or behind a drop that was answered `changed`.
pub fn closes_are_in_order()
    ensures told { (site : SiteId) (name : List ℕ) (feds : List Fed) (before after : List Answered) (image : ℕ)
        (kind : NoticeKind) (a : Answer) (last : Plan)
        → IsWalk Goto (close site name) feds (before ++ answered_with site (notify image kind) a ∷ after) last
        → (kind ≡ ReleasedLock) × EndsWith (answered_with site (lock_drop image) DoneSo) before }
    ensures unwatched { (site : SiteId) (name : List ℕ) (feds : List Fed) (before after : List Answered) (image : ℕ)
        (a : Answer) (last : Plan)
        → IsWalk Goto (close site name) feds (before ++ answered_with site (unwatch image) a ∷ after) last
        → IsBehindLettingGo site image before }
{}

/// A `quiesce` and a straight command neither take a lock nor drop one by an operation of their
/// own: wherever one stands or ends, the lock counts as before.
pub fn others_leave_the_lock()
    ensures quiesce { (site : SiteId) (name : List ℕ) (owned : Bool) (feds : List Fed)
        (steps : List Answered) (last : Plan)
        → IsWalk Goto (quiesce site name) feds steps last → owned_by owned steps ≡ owned }
    ensures straight { (site : SiteId) (s : Straight) (owned : Bool) (feds : List Fed)
        (steps : List Answered) (last : Plan)
        → IsWalk Goto (straight site s) feds steps last → owned_by owned steps ≡ owned }
{}

/// Each reply is one that the command means after the operations that were done (`IsMeantBy` of
/// `rbd_meaning`): a request that isn't refused was done, and a refused one was refused by its last
/// answer and by none before. Only a `close` may be refused after its drop; the others have changed
/// nothing then. It holds where each answer is one that its operation can give.
pub fn replies_are_meant()
    ensures { (seat : Seat) (command : Command) (feds : List Fed) (steps : List Answered) (reply : Reply)
        → is_close command ≡ true → AreGiven steps
        → IsWalk Goto (close_plan seat.home command) feds steps (Return reply) → IsMeantBy seat command steps reply }
{}
