//! What holds of what a client counts, whatever comes: laws, each the contract of a function that
//! does nothing.
ghost use Rattle.std.specs.Prelude.{◌≡◌, ℕ, List, ◌∷◌, Option, None, Some, IsTrue, IsFalse};
ghost use Rattle.std.specs.List.{list_any};
ghost use Rattle.std.specs.Ordering.{is_lt};
ghost use Rattle.rbd_kinds.specs.declared.answer.Answer.{Answer};
ghost use Rattle.rbd_kinds.specs.declared.answer.Answer.TheVariants as answer;
ghost use Rattle.rbd_kinds.specs.declared.header_op.HeaderOp.TheVariants as header;
ghost use Rattle.rbd_kinds.specs.declared.id.SiteId.{SiteId};
ghost use Rattle.rbd_kinds.specs.declared.notice.Notice.{Notice};
ghost use Rattle.rbd_kinds.specs.declared.notice.NoticeKind.TheVariants as notice;
ghost use Rattle.rbd_kinds.specs.declared.operation.Op.TheVariants as op;
ghost use Rattle.rbd_kinds.specs.declared.image_at.ImageAt.{ImageAt};
ghost use Rattle.rbd_lock.specs.declared.lock_state.LockState.{LockState};
ghost use Rattle.rbd_lock.specs.Comings.{Coming, ByAnswer, ByNotice, after_all, after_one, is_end, is_of, is_take, owned_since};
ghost use Rattle.rbd_lock.specs.Locks.{AreImagesInOrder};
ghost use Rattle.rbd_kinds.specs.Images.{image_cmp};
ghost use Rattle.rbd_lock.specs.Places.{is_among, is_behind, next_behind};

/// A lock counts as owned by the operations of the client on that image alone: from a `lock-take`
/// that is done up to the next answer of a `lock-drop`, or the next `header-remove` that is done,
/// whatever else comes in between, and from there on it doesn't count as owned until the next
/// `lock-take` that is done.
pub fn locks_are_owned_from_take_to_end()
    ensures by_operations { (site : SiteId) (image : ℕ) (s : LockState) (comings : List Coming)
        → (after_all comings site image s).owned ≡ owned_since site image s.owned comings }
    ensures taken { (site : SiteId) (image : ℕ) (s : LockState) (between : List Coming)
        → IsFalse (list_any (is_end site image) between)
        → IsTrue (after_all (ByAnswer site (op.Header image header.LockTake) answer.Done ∷ between) site image
        s).owned }
    ensures dropped { (site : SiteId) (image : ℕ) (s : LockState) (a : Answer) (between : List Coming)
        → IsFalse (list_any (is_take site image) between)
        → IsFalse (after_all (ByAnswer site (op.Header image header.LockDrop) a ∷ between) site image s).owned }
    ensures removed { (site : SiteId) (image : ℕ) (s : LockState) (between : List Coming)
        → IsFalse (list_any (is_take site image) between)
        → IsFalse (after_all (ByAnswer site (op.Header image header.Remove) answer.Done ∷ between) site image s).owned }
{}

/// A lock that doesn't count as owned never counts as asked for, whatever comes.
pub fn asked_locks_are_owned()
    ensures { (site : SiteId) (image : ℕ) (s : LockState) (comings : List Coming)
        → (IsTrue s.asked → IsTrue s.owned)
        → IsTrue (after_all comings site image s).asked → IsTrue (after_all comings site image s).owned }
{}

/// A request by another client for a lock that counts as owned is remembered until the lock ends,
/// unless the lock is taken anew before. A request for a lock that doesn't count as owned is passed
/// over for good.
pub fn askings_stay_until_the_end()
    ensures heard { (n : Notice) (s : LockState) (between : List Coming)
        → n.kind ≡ notice.RequestLock → IsTrue s.owned
        → IsFalse (list_any (is_take n.site n.image) between) → IsFalse (list_any (is_end n.site n.image) between)
        → IsTrue (after_all (ByNotice n ∷ between) n.site n.image s).asked }
    ensures missed { (n : Notice) (s : LockState) (site : SiteId) (image : ℕ)
        → IsFalse s.owned → after_one (ByNotice n) site image s ≡ s }
{}

/// What comes of other images changes nothing of what is counted of one.
pub fn other_images_stay()
    ensures { (site : SiteId) (image : ℕ) (s : LockState) (comings : List Coming)
        → IsFalse (list_any (is_of site image) comings) → after_all comings site image s ≡ s }
{}

/// The next image behind a place, of those that were asked for, is the first of them that stands
/// behind it. There is none exactly where none of them stands behind it.
pub fn the_next_is_the_least()
    ensures found { (behind : Option ImageAt) (places : List ImageAt) (next : ImageAt)
        → next_behind behind places ≡ Some next
        → IsTrue (is_among next.site next.image places) × IsTrue (is_behind behind next) }
    ensures least { (behind : Option ImageAt) (places : List ImageAt) (next other : ImageAt)
        → AreImagesInOrder places → next_behind behind places ≡ Some next
        → IsTrue (is_among other.site other.image places) → IsTrue (is_behind behind other)
        → IsFalse (is_lt (image_cmp other next)) }
    ensures none { (behind : Option ImageAt) (places : List ImageAt) (other : ImageAt)
        → next_behind behind places ≡ None
        → IsTrue (is_among other.site other.image places) → IsFalse (is_behind behind other) }
{}

/// Two lists in order that have the same images are equal. So what a client counts of all images
/// says which were asked for, and in which order: when each was asked for doesn't matter.
pub fn asked_lists_are_one()
    ensures { (asked other : List ImageAt) → AreImagesInOrder asked → AreImagesInOrder other
        → ((site : SiteId) (image : ℕ) → is_among site image asked ≡ is_among site image other) → asked ≡ other }
{}
