//! What the ways to a lock keep to, and what a release does: laws, each the contract of a function
//! that does nothing.
//!
//! A *way* is a walk of [`Acquire`](crate::Acquire) as a request of its own: the operations that it
//! asks for, with the answers that it is fed, to its end or to where it stands.
ghost use Rattle.std.specs.Prelude.{◌≡◌, ℕ, ◌+◌, ◌*◌, ◌≤◌, Bool, true, false, List, [], ◌∷◌, ◌++◌, count_by};
ghost use Rattle.rbd_kinds.specs.declared.answer.Answer.{Answer};
ghost use Rattle.rbd_kinds.specs.declared.answer.Answer.TheVariants.{Done as DoneSo};
ghost use Rattle.rbd_kinds.specs.declared.id.Instance.{Instance};
ghost use Rattle.rbd_kinds.specs.declared.id.SiteId.{SiteId};
ghost use Rattle.rbd_kinds.specs.declared.machine.Fed.{Fed};
ghost use Rattle.rbd_kinds.specs.declared.reply.Reply.{Reply};
ghost use Rattle.rbd_kinds.specs.declared.reply.Reply.TheVariants.{Done};
ghost use Rattle.rbd_machine.specs.AtLeast.{KnowsAtLeast};
ghost use Rattle.rbd_machine.specs.Knowledge.{Knowledge, learned};
ghost use Rattle.rbd_machine.specs.Label.{Label, Lock};
ghost use Rattle.rbd_machine.specs.Lawful.{IsLawful, IsLawfulRequest};
ghost use Rattle.rbd_machine.specs.Path.{Answered, IsBounded, IsWalk};
ghost use Rattle.rbd_machine.specs.Permits.{HoldsUnlooked};
ghost use Rattle.rbd_machine.specs.Plan.{Plan, Goto, Return, IsAsking, IsClosed};
ghost use Rattle.rbd_lock.specs.Acquire.{acquire, lock_labels, taking, IsWay};
ghost use Rattle.rbd_lock.specs.Counts.{first_watch, is_break, is_counted, is_fence, is_round, is_take_step, is_taken, is_watch};
ghost use Rattle.rbd_lock.specs.Order.{AreStepsInOrder, EndsBy, EndsWith, EndsWithLook, EndsWithWatching};
ghost use Rattle.rbd_lock.specs.Past.{IsToldApart};
ghost use Rattle.rbd_lock.specs.Release.{release, LetsGo};
ghost use Rattle.rbd_lock.specs.Steps.{block_add, fenced, lock_held, is_instance_among, lock_break, lock_take, request_lock, watched_by};
ghost use Rattle.rbd_lock.specs.Waiting.{owned_by};

/// A way that ends well ends with the lock: its last operation is a `lock-take` of the image at the
/// site, answered `done`, and the client counts the lock as its own. Any other end is a refusal by
/// the last answer, NoImage by `none` and Fenced by `fenced`.
pub fn ways_end_with_the_lock()
    ensures ends { (site : SiteId) (image : ℕ) (watched : Bool) (feds : List Fed) (steps : List Answered)
        (reply : Reply)
        → IsWay site image watched feds steps (Return reply) → EndsBy site image reply steps }
    ensures owned { (site : SiteId) (image : ℕ) (watched owned : Bool) (feds : List Fed) (steps : List Answered)
        → IsWay site image watched feds steps (Return Done) → owned_by owned steps ≡ true }
{}

/// Each step of a way stands where it may, however the way ends: an image is watched first of all,
/// the watchers are looked up where the lock is held, and nothing but such steps is done.
pub fn ways_are_in_order()
    ensures { (site : SiteId) (image : ℕ) (watched : Bool) (feds : List Fed) (steps : List Answered) (last : Plan)
        → IsWay site image watched feds steps last → AreStepsInOrder site image [] steps }
{}

/// A lock is broken only directly behind the fence of its owner. Only an owner is fenced that was
/// just told to have the lock and wasn't among the watchers then. One that was among them is asked
/// next, and only such a one is asked.
pub fn owners_are_fenced_before_they_lose_the_lock()
    ensures broken { (site : SiteId) (image : ℕ) (watched : Bool) (feds : List Fed) (last : Plan)
        (before after : List Answered) (owner : Instance) (a : Answer)
        → IsWay site image watched feds
        (before ++ record { site = site; op = lock_break image owner; answer = a } ∷ after) last
        → EndsWith (fenced site owner) before }
    ensures fenced { (site : SiteId) (image : ℕ) (watched : Bool) (feds : List Fed) (last : Plan)
        (before after : List Answered) (owner : Instance) (a : Answer)
        → IsWay site image watched feds
        (before ++ record { site = site; op = block_add owner; answer = a } ∷ after) last
        → EndsWithLook site image owner false before }
    ensures asked { (site : SiteId) (image : ℕ) (watched : Bool) (feds : List Fed) (last : Plan)
        (before after : List Answered) (a : Answer)
        → IsWay site image watched feds
        (before ++ record { site = site; op = request_lock image; answer = a } ∷ after) last
        → EndsWithWatching site image before }
    ensures watching { (site : SiteId) (image : ℕ) (watched : Bool) (feds : List Fed) (last : Plan)
        (before after : List Answered) (owner : Instance) (watchers : List Instance) (s : Answered)
        → is_instance_among watchers owner ≡ true
        → IsWay site image watched feds
        (before ++ lock_held site image owner ∷ watched_by site image watchers ∷ s ∷ after) last
        → s.op ≡ request_lock image }
{}

/// Beside the steps that ask again, which have no bound, a way has at most one `watch`, two
/// operations for each owner that it fences, and one that ends it: the `lock-take` that is done, or
/// the operation whose answer refuses it. The lock is asked for once, and once more for each round
/// in which an owner was asked or fenced.
pub fn ways_keep_bounds()
    ensures all { (site : SiteId) (image : ℕ) (watched : Bool) (feds : List Fed) (steps : List Answered) (last : Plan)
        → IsWay site image watched feds steps last
        → count_by is_counted steps ≤ first_watch watched + 1 + 2 * count_by is_fence steps }
    ensures watch { (site : SiteId) (image : ℕ) (watched : Bool) (feds : List Fed) (steps : List Answered) (last : Plan)
        → IsWay site image watched feds steps last
        → count_by is_watch steps ≤ first_watch watched }
    ensures broken { (site : SiteId) (image : ℕ) (watched : Bool) (feds : List Fed) (steps : List Answered)
        (last : Plan)
        → IsWay site image watched feds steps last
        → count_by is_break steps ≤ count_by is_fence steps }
    ensures taken { (site : SiteId) (image : ℕ) (watched : Bool) (feds : List Fed) (steps : List Answered) (last : Plan)
        → IsWay site image watched feds steps last
        → count_by is_taken steps ≤ 1 }
    ensures takes { (site : SiteId) (image : ℕ) (watched : Bool) (feds : List Fed) (steps : List Answered) (last : Plan)
        → IsWay site image watched feds steps last
        → count_by is_take_step steps ≤ 1 + count_by is_round steps }
{}

/// A round, from one `lock-take` up to the next, has at most four operations, and a way up to the
/// end of its first round at most five, beside those of what comes next.
pub fn rounds_are_short()
    ensures round { (site : SiteId) (image : ℕ) (next : Plan) (n : ℕ)
        → IsBounded next n → IsBounded (taking site image next) (n + 4) }
    ensures way { (site : SiteId) (image : ℕ) (watched : Bool) (next : Plan) (n : ℕ)
        → IsBounded next n → IsBounded (acquire site image watched next) (n + 5) }
{}

/// A way goes to the label of the lock and to no other, unless what comes next does.
pub fn ways_go_to_the_lock_alone()
    ensures { (labels : Label → Plan) (site : SiteId) (image : ℕ) (watched : Bool) (next : Plan)
        → IsAsking (labels Lock) → IsClosed labels next → IsClosed labels (acquire site image watched next) }
{}

/// The steps of a request that takes the lock on its way are of two kinds, whatever comes next:
/// those up to the lock are a way that ends well, and those behind it are a walk of what comes
/// next. Where the request hasn't come to the lock yet, all its steps are of the way, and a refusal
/// is the way's. So what holds of ways holds of the steps of such a request.
pub fn ways_are_told_apart()
    ensures { (labels : Label → Plan) (site : SiteId) (image : ℕ) (watched : Bool) (next : Plan) (feds : List Fed)
        (steps : List Answered) (last : Plan)
        → labels Lock ≡ taking site image next → IsWalk labels (acquire site image watched next) feds steps last
        → IsToldApart labels site image (acquire site image watched) next steps last }
{}

/// The way to a lock does only what it may, whatever was known before it, where what comes next
/// does so by what is known once the lock is taken. At the label `Lock` no less is known in each
/// round, since a fence is forgotten with the break that it was for.
pub fn ways_are_lawful()
    ensures way { (known_at : Label → Knowledge) (k : Knowledge) (site : SiteId) (image : ℕ)
        (watched : Bool) (next : Plan)
        → KnowsAtLeast k (known_at Lock) → IsLawful known_at (learned k site (lock_take image) DoneSo) next
        → IsLawful known_at k (acquire site image watched next) }
    ensures alone { (site : SiteId) (image : ℕ) (watched : Bool)
        → IsLawfulRequest (record {
          labels = lock_labels site image;
          plan = acquire site image watched (Return Done);
        }) }
{}

/// A release does only what it may, where it waited for the lock, alone, and nobody looked at the
/// header since.
pub fn releases_are_lawful()
    ensures { (known_at : Label → Knowledge) (k : Knowledge) (site : SiteId) (image : ℕ)
        → HoldsUnlooked k site image → IsLawful known_at k (release site image) }
{}

/// A release drops the lock, and from then on the client counts the lock as let go, whatever the
/// drop was answered. The watchers are told exactly where the drop was done. A release is never
/// refused.
pub fn releases_let_go()
    ensures ends { (site : SiteId) (image : ℕ) (feds : List Fed) (steps : List Answered) (reply : Reply)
        → IsWalk Goto (release site image) feds steps (Return reply) → (reply ≡ Done) × LetsGo site image steps }
    ensures owned { (site : SiteId) (image : ℕ) (owned : Bool) (feds : List Fed) (first : Answered)
        (more : List Answered) (last : Plan)
        → IsWalk Goto (release site image) feds (first ∷ more) last → owned_by owned (first ∷ more) ≡ false }
    ensures bounded { (site : SiteId) (image : ℕ) → IsBounded (release site image) 2 }
    ensures closed { (site : SiteId) (image : ℕ) → IsClosed Goto (release site image) }
{}
