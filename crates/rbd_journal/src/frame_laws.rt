//! What the definitions of a frame mean: each law is the contract of a function that does nothing.
ghost use Rattle.std.specs.Prelude.{◌≡◌, ℕ, ◌<◌, List, [], ◌++◌, None, slice_index};
ghost use Rattle.rbd_kinds.specs.declared.journal.JournalEvent.{JournalEvent};
ghost use Rattle.rbd_journal.specs.Faults.{first_fault};
ghost use Rattle.rbd_kinds.specs.Frame.{IsInRange, frame};

/// No frame is a proper prefix of another, so the bytes alone say where a frame ends. What stands
/// at the front tells the event, and what follows it.
pub fn no_frame_begins_another()
    ensures prefix { (e f : JournalEvent) (more : List ℕ)
        → IsInRange e → IsInRange f → frame e ++ more ≡ frame f → more ≡ [] }

    ensures event { (e f : JournalEvent) (x y : List ℕ)
        → IsInRange e → IsInRange f → frame e ++ x ≡ frame f ++ y → e ≡ f }

    ensures rest { (e f : JournalEvent) (x y : List ℕ)
        → IsInRange e → IsInRange f → frame e ++ x ≡ frame f ++ y → x ≡ y }
{}

/// Events with one spelling are one.
pub fn one_spelling()
    ensures { (e f : JournalEvent) → IsInRange e → IsInRange f → frame e ≡ frame f → e ≡ f }
{}

/// At the front of some bytes is either a frame or a fault: never both, and never neither.
pub fn frame_or_fault()
    // A frame has no fault, whatever follows it.
    ensures frame { (e : JournalEvent) (rest : List ℕ) → IsInRange e → first_fault (frame e ++ rest) ≡ None }

    // Where no fault applies, a frame stands.
    ensures fault { (bytes : List ℕ) → ((i : ℕ) → slice_index bytes i < 256) → first_fault bytes ≡ None
        → (e : JournalEvent) × (rest : List ℕ) × IsInRange e × (bytes ≡ frame e ++ rest) }
{}
