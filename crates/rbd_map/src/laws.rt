//! What the definitions of a map mean: each law is the contract of a function that does nothing.
ghost use Rattle.std.specs.Prelude.{◌≡◌, ◌≢◌, ℕ, ◌+◌, ◌/◌, ◌<◌, Bool, false, IsFalse, List, [], ◌++◌, length, replicate, slice_index, slice_set};
ghost use Rattle.rbd_kinds.specs.States.{HoldStates, state_at};
ghost use Rattle.rbd_map.specs.States.{AreStates, bits_of, states_of};
ghost use Rattle.rbd_map.specs.Covers.{Covers};

/// The states are read back from their bytes, all together and each object's alone. There are as
/// many bytes as four objects in each need, and no two bits of them say state 3, not even past the
/// last object.
pub fn bits_and_states()
    ensures back { (states : List ℕ) → AreStates states → states_of (bits_of states) (length states) ≡ states }

    ensures each { (states : List ℕ) (object : ℕ) → AreStates states
        → state_at (bits_of states) object ≡ slice_index states object }

    ensures bytes { (states : List ℕ) → length (bits_of states) ≡ (length states + 3) / 4 }

    ensures form { (states : List ℕ) → AreStates states → HoldStates (bits_of states) }
{}

/// A map that covers the objects goes on to do so where it grows, where the state of an object is
/// raised, whatever happens to that object, and where the state of an object that isn't there
/// becomes 0.
pub fn covering_is_kept()
    ensures first { Covers [] (λ object. false) }

    ensures grown { (states : List ℕ) (exists : ℕ → Bool) (count : ℕ)
        → Covers states exists → Covers (states ++ replicate count 0) exists }

    ensures raised { (states : List ℕ) (exists later : ℕ → Bool) (object state : ℕ)
        → Covers states exists → object < length states → state ≢ 0
        → ((other : ℕ) → other ≢ object → later other ≡ exists other)
        → Covers (slice_set states object state) later }

    ensures lowered { (states : List ℕ) (exists : ℕ → Bool) (object : ℕ)
        → Covers states exists → IsFalse (exists object)
        → Covers (slice_set states object 0) exists }
{}
