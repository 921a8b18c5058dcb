//! What the log of a site says of locks and of the fence: laws, each the contract of a function
//! that does nothing. They know no request. A log is *owned* where each change of an image is by
//! the owner of its header, and each broken lock that of a listed instance; whoever does operations
//! sees to that, one by one.
ghost use Rattle.std.specs.Prelude.{◌≡◌, ◌≢◌, ℕ, ◌⊎◌, List, [], ◌∷◌, ◌++◌, Some, None, IsTrue, IsFalse};
ghost use Rattle.rbd_kinds.specs.declared.answer.Answer.{Answer};
ghost use Rattle.rbd_kinds.specs.declared.header.HeaderView.{HeaderView};
ghost use Rattle.rbd_kinds.specs.declared.header_op.HeaderOp.TheVariants as header_op;
ghost use Rattle.rbd_kinds.specs.declared.id.Instance.{Instance};
ghost use Rattle.rbd_kinds.specs.declared.operation.Op.{Op};
ghost use Rattle.rbd_kinds.specs.declared.operation.Op.TheVariants as op_on;
ghost use Rattle.rbd_site.specs.Laws.{is_look};
ghost use Rattle.rbd_site.specs.Log.{AreAnswered, after_all};
ghost use Rattle.rbd_site.specs.Records.{Records, no_records};
ghost use Rattle.rbd_site.specs.Step.{is_fenced, answer_to};
ghost use Rattle.rbd_site.specs.declared.done.Done.{Done};
ghost use Rattle.rbd_site.specs.declared.done.DoneOp.{DoneOp};
ghost use Rattle.rbd_stands.specs.Owned.{AreOwned, DoesNothing, HasLock, IsDoneBySome, IsLetGo, IsOwnedLine, IsOwnedStep, IsTakenAway, SomeLine, was_done};

/// A log to which one line is added is owned where it was and the line is. So it is enough to look
/// at each operation when it is done.
pub fn logs_stay_owned()
    ensures { (r : Records) (log : List Done) (d : Done) → AreOwned r log
        → IsOwnedLine (after_all r log) d.instance d.op d.answer
        → AreOwned r (log ++ d ∷ []) }
{}

/// Each line of an owned log is owned by the records that the lines before it left.
pub fn each_line_is_owned()
    ensures { (r : Records) (before rest : List Done) (d : Done) → AreOwned r (before ++ d ∷ rest)
        → IsOwnedLine (after_all r before) d.instance d.op d.answer }
{}

/// Looks are owned, what wasn't done is, whatever a fenced instance does is, and each step of the
/// store is.
pub fn what_is_owned_anyway()
    ensures look { (r : Records) (me : Instance) (op : Op) (a : Answer) → IsTrue (is_look op) → IsOwnedStep r me op a }
    ensures refused { (r : Records) (me : Instance) (op : Op) (a : Answer) → IsFalse (was_done a)
        → IsOwnedStep r me op a }
    ensures fenced { (r : Records) (me : Instance) (op : Op) → IsTrue (is_fenced r me)
        → IsOwnedStep r me op (answer_to r me op) }
    ensures store { (r : Records) (op : DoneOp) (a : Answer) → IsOwnedLine r None op a }
{}

/// Who is listed is listed for good, by each operation, each trim and each end of a watch. From
/// then on each of its operations is answered `fenced`, changes no record and has no effect, and a
/// lock that it has stays its own, until another one breaks it or removes the header.
pub fn who_is_listed_does_nothing()
    ensures listed { (r : Records) (log : List Done) (me : Instance) → IsTrue (is_fenced r me)
        → IsTrue (is_fenced (after_all r log) me) }
    ensures nothing { (r : Records) (log : List Done) (me : Instance) → AreAnswered r log → IsTrue (is_fenced r me)
        → DoesNothing me r log }
    ensures lock { (r : Records) (log : List Done) (image : ℕ) (me : Instance) → AreAnswered r log
        → IsTrue (is_fenced r me) → HasLock image me r
        → HasLock image me (after_all r log) ⊎ SomeLine (IsTakenAway image me) log }
{}

/// Only a `block-add` that was done lists an instance.
pub fn who_is_listed_was_added()
    ensures { (log : List Done) (me : Instance) → AreAnswered no_records log
        → IsTrue (is_fenced (after_all no_records log) me)
        → SomeLine (λ d. IsDoneBySome d (op_on.BlockAdd me)) log }
{}

/// In an owned log a lock is broken behind a `block-add` of its owner.
pub fn who_is_broken_was_listed_before()
    ensures { (before rest : List Done) (d : Done) (image : ℕ) (owner : Instance)
        → AreAnswered no_records (before ++ d ∷ rest) → AreOwned no_records (before ++ d ∷ rest)
        → IsDoneBySome d (op_on.Header image (header_op.LockBreak owner))
        → SomeLine (λ e. IsDoneBySome e (op_on.BlockAdd owner)) before }
{}

/// Who has a lock keeps it, in a log that is owned, until it lets go of it itself or is listed. So
/// where another one has the lock, and it didn't let go of it, it does nothing any more.
pub fn who_loses_a_lock_is_listed()
    ensures keeps { (r : Records) (log : List Done) (image : ℕ) (me : Instance) → AreAnswered r log → AreOwned r log
        → HasLock image me r
        → HasLock image me (after_all r log)
        ⊎ (SomeLine (IsLetGo image me) log ⊎ IsTrue (is_fenced (after_all r log) me)) }
    ensures another { (r : Records) (log : List Done) (image : ℕ) (me : Instance) (h : HeaderView) → AreAnswered r log
        → AreOwned r log → HasLock image me r
        → (after_all r log).headers image ≡ Some h → h.owner ≢ Some me → SomeLine (IsLetGo image me) log
        ⊎ IsTrue (is_fenced (after_all r log) me) }
{}
