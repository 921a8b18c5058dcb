//! What a blocklist shows after an addition: each law is the contract of a function that does
//! nothing.
ghost use Rattle.std.specs.Prelude.{◌≡◌, ◌≢◌, IsTrue, IsFalse};
ghost use Rattle.std.specs.FinSet.{FinSet, empty, contains, insert};
ghost use Rattle.rbd_kinds.specs.declared.id.Instance.{Instance};
ghost use Rattle.rbd_fence.specs.Instances.{instance_cmp};

/// Nobody is listed at first. After an addition the added instance is listed, and each one that
/// was, and no other. To list a listed instance again changes nothing.
pub fn additions_are_kept()
    ensures first { (i : Instance) → IsFalse (contains (empty {R = instance_cmp}) i) }

    ensures added { (s : FinSet instance_cmp) (i : Instance) → IsTrue (contains (insert s i) i) }

    ensures others { (s : FinSet instance_cmp) (i other : Instance)
        → other ≢ i → contains (insert s i) other ≡ contains s other }

    ensures again { (s : FinSet instance_cmp) (i : Instance) → IsTrue (contains s i) → insert s i ≡ s }
{}
