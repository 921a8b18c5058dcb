//! What the definitions of a versioned object mean: each law is the contract of a function that
//! does nothing. A view is of the head (`None`) or of a snapshot (`Some snap`).
ghost use Rattle.std.specs.Prelude.{◌≡◌, ℕ, ◌+◌, ◌-◌, ◌<◌, ◌≤◌, if◌then◌else◌, length, slice_index, List, ◌∷◌, Option, Some, None, max, unwrap_or, IsTrue, IsFalse};
ghost use Rattle.std.specs.List.{list_all};
ghost use Rattle.rbd_kinds.specs.declared.header.SnapContext.{SnapContext};
ghost use Rattle.rbd_parts.specs.Contents.{is_within, window, overwritten, zeroed};
ghost use Rattle.rbd_object.specs.Kept.{is_listed};
ghost use Rattle.rbd_object.specs.Versioned.{Versioned, IsTidy, Step, Change, blank_object, view, change, copy_up, trim, after_steps, spares};
ghost use Rattle.rbd_object.specs.Paged.{AreCalls, Call, Paged, most_pages, most_sheaves};
ghost use Rattle.rbd_object.specs.Mapped.{Mapped, versioned, mapped_blank, mapped_change, mapped_copy_up, mapped_trim};

/// The view of a snapshot whose number is at most the object's never changes, and from a change on
/// whose context lists the snapshot it doesn't either: only a trim for which the snapshot isn't
/// live takes it away.
pub fn views_of_snapshots_stay()
    ensures earlier { (snap : ℕ) (steps : List Step) (o : Versioned)
        → snap ≤ o.seq → IsTrue (list_all (spares snap) steps)
        → view (after_steps steps o) (Some snap) ≡ view o (Some snap) }

    ensures listed { (snap : ℕ) (c : SnapContext) (new : Option (List ℕ)) (steps : List Step) (o : Versioned)
        → IsTidy o → snap ≤ c.seq → IsTrue (is_listed c.snaps snap) → IsTrue (list_all (spares snap) steps)
        → view (after_steps (Change c new ∷ steps) o) (Some snap) ≡ view o (Some snap) }
{}

/// What each view is after a change: the head, the snapshots up to the object's number, those for
/// which it is the first change, and those that come later.
pub fn views_after_a_change()
    ensures head { (c : SnapContext) (new : Option (List ℕ)) (o : Versioned) → view (change c new o) None ≡ new }

    ensures earlier { (c : SnapContext) (new : Option (List ℕ)) (o : Versioned) (snap : ℕ)
        → snap ≤ o.seq → view (change c new o) (Some snap) ≡ view o (Some snap) }

    // Its view was the head, which is kept.
    ensures listed { (c : SnapContext) (new : Option (List ℕ)) (o : Versioned) (snap : ℕ)
        → IsTidy o → snap ≤ c.seq → IsTrue (is_listed c.snaps snap)
        → view (change c new o) (Some snap) ≡ view o (Some snap) }

    // There is no such snapshot, or none any more.
    ensures unlisted { (c : SnapContext) (new : Option (List ℕ)) (o : Versioned) (snap : ℕ)
        → IsTidy o → o.seq < snap → snap ≤ c.seq → IsFalse (is_listed c.snaps snap)
        → view (change c new o) (Some snap) ≡ None }

    ensures later { (c : SnapContext) (new : Option (List ℕ)) (o : Versioned) (snap : ℕ)
        → max o.seq c.seq < snap → view (change c new o) (Some snap) ≡ new }
{}

/// One context may carry several changes: only what they leave at the end is seen.
pub fn changes_join()
    ensures { (c : SnapContext) (first second : Option (List ℕ)) (o : Versioned)
        → change c second (change c first o) ≡ change c second o }
{}

/// A copy-up fills an absent head, and with it each snapshot above the object's number. Every other
/// view stays.
pub fn views_after_a_copy_up()
    ensures head { (bytes : List ℕ) (o : Versioned) → view (copy_up bytes o) None ≡ Some (unwrap_or o.head bytes) }

    ensures earlier { (bytes : List ℕ) (o : Versioned) (snap : ℕ)
        → snap ≤ o.seq → view (copy_up bytes o) (Some snap) ≡ view o (Some snap) }

    ensures later { (bytes : List ℕ) (o : Versioned) (snap : ℕ)
        → o.seq < snap → view (copy_up bytes o) (Some snap) ≡ Some (unwrap_or o.head bytes) }
{}

/// A trim leaves the views of the head, of each live snapshot, and of each one above the object's
/// number. The object is absent in every other.
pub fn views_after_a_trim()
    ensures head { (live : List ℕ) (o : Versioned) → view (trim live o) None ≡ view o None }

    ensures live { (live : List ℕ) (o : Versioned) (snap : ℕ)
        → IsTrue (is_listed live snap) → view (trim live o) (Some snap) ≡ view o (Some snap) }

    ensures later { (live : List ℕ) (o : Versioned) (snap : ℕ)
        → o.seq < snap → view (trim live o) (Some snap) ≡ view o (Some snap) }

    ensures dropped { (live : List ℕ) (o : Versioned) (snap : ℕ)
        → snap ≤ o.seq → IsFalse (is_listed live snap) → view (trim live o) (Some snap) ≡ None }
{}

/// The bytes of a read, of a write and of a zero, one by one. `slice_index` is zero past the end of
/// a list, so a gap before what is written is zeros, and so is what is read past the end.
pub fn bytes_one_by_one()
    ensures read { (bytes : List ℕ) (start count i : ℕ)
        → i < count → slice_index (window bytes start count) i ≡ slice_index bytes (start + i) }

    ensures write { (old : List ℕ) (start : ℕ) (new : List ℕ) (i : ℕ)
        → slice_index (overwritten old start new) i
        ≡ (if is_within start (length new) i then slice_index new (i - start) else slice_index old i) }

    ensures zero { (old : List ℕ) (start count i : ℕ)
        → slice_index (zeroed old start count) i ≡ (if is_within start count i then 0 else slice_index old i) }
{}

/// How many bytes a read shows, and how many there are after a write and after a zero.
pub fn lengths_of_bytes()
    ensures read { (bytes : List ℕ) (start count : ℕ) → length (window bytes start count) ≡ count }

    ensures write { (old : List ℕ) (start : ℕ) (new : List ℕ)
        → length (overwritten old start new) ≡ max (length old) (start + length new) }

    ensures zero { (old : List ℕ) (start count : ℕ) → length (zeroed old start count) ≡ length old }
{}

/// Nothing is ever kept for a snapshot above the object's number.
pub fn objects_are_tidy()
    ensures blank { IsTidy blank_object }

    ensures change { (c : SnapContext) (new : Option (List ℕ)) (o : Versioned) → IsTidy o → IsTidy (change c new o) }

    ensures copy_up { (bytes : List ℕ) (o : Versioned) → IsTidy o → IsTidy (copy_up bytes o) }
    ensures trim { (live : List ℕ) (o : Versioned) → IsTidy o → IsTidy (trim live o) }
{}

/// A value, as contracts see an `Object`, changes as the versioned object does for which it stands.
pub fn values_stand_for_objects()
    ensures blank { versioned mapped_blank ≡ blank_object }

    ensures change { (c : SnapContext) (new : Option (List ℕ)) (o : Mapped)
        → versioned (mapped_change c new o) ≡ change c new (versioned o) }

    ensures copy_up { (bytes : List ℕ) (o : Mapped) → versioned (mapped_copy_up bytes o) ≡ copy_up bytes (versioned o) }

    ensures trim { (live : List ℕ) (o : Mapped) → versioned (mapped_trim live o) ≡ trim live (versioned o) }
{}

/// Whatever was called on an object, it never has more places for pages than one of the calls may
/// have had pages in use at one time: those before it, and those that it may take. So it is of
/// sheaves.
pub fn places_were_in_use()
    ensures pages { (calls : List Call) (object : Paged)
        → AreCalls calls object → object.page_places ≤ most_pages calls }

    ensures sheaves { (calls : List Call) (object : Paged)
        → AreCalls calls object → object.sheaf_places ≤ most_sheaves calls }
{}
