//! What one step leaves and what it does not touch: laws of the definition `after`, each the
//! contract of a function that does nothing. They say no more than `after`, and say it of one byte,
//! one image or one snapshot, as the proofs that depend on this crate need it.
ghost use Rattle.std.specs.Prelude.{◌≡◌, ◌≢◌, ℕ, ◌+◌, ◌-◌, ◌<◌, ◌≤◌, ◌++◌, length, drop, slice_index, List, false, Some, ◌==◌, if◌then◌else◌};
ghost use Rattle.std.specs.Option.{option_map};
ghost use Rattle.std.specs.List.{range_with_len};
ghost use Rattle.rbd_kinds.specs.declared.layout.Extent.{Extent};
ghost use Rattle.rbd_flat.specs.declared.effect.Effect.{Effect};
ghost use Rattle.rbd_flat.specs.Flat.{Flat, FlatImage, FlatSnap, after, after_all, painted, places_of, image_at, with_image};
ghost use Rattle.rbd_flat.specs.Laws.{painted_at, painted_byte, flat_byte, byte_after, size_at, size_after, role_at, role_after, snap_at, snap_after, image_of, is_on_names, is_on_links};

/// Which byte a place has once bytes were painted over extents. `inside`, `before` and `behind` are
/// of one extent and one place. In `extents`, of several extents the last that has the place
/// decides. In `places` the places are listed one by one. Painting a front, and then the rest with
/// the bytes that are left, is painting both (`in_turn`, and `neighbours` for two extents).
pub fn painting()
    ensures len { (places new old : List ℕ) → length (painted places new old) ≡ length old }
    ensures inside { (at len : ℕ) (new old : List ℕ) (x : ℕ) → x < length old → at ≤ x → x < at + len
        → slice_index (painted (range_with_len at len) new old) x ≡ slice_index new (x - at) }
    ensures before { (at len : ℕ) (new old : List ℕ) (x : ℕ) → x < at
        → slice_index (painted (range_with_len at len) new old) x ≡ slice_index old x }
    ensures behind { (at len : ℕ) (new old : List ℕ) (x : ℕ) → at + len ≤ x
        → slice_index (painted (range_with_len at len) new old) x ≡ slice_index old x }
    ensures extents { (at : List Extent) (new old : List ℕ) (x : ℕ) → x < length old
        → slice_index (painted (places_of at) new old) x ≡ painted_at at new (slice_index old x) x }
    ensures places { (places new old : List ℕ) (x : ℕ) → x < length old
        → slice_index (painted places new old) x ≡ painted_byte places new (slice_index old x) x }
    ensures in_turn { (front rest new old : List ℕ)
        → painted (front ++ rest) new old ≡ painted rest (drop (length front) new) (painted front new old) }
    ensures neighbours { (at m n : ℕ) (new old : List ℕ) → painted (range_with_len at (m + n)) new old
        ≡ painted (range_with_len (at + m) n) (drop m new) (painted (range_with_len at m) new old) }
{}

/// What one step leaves of an image: the byte at a place, its size, its role, a snapshot, and the
/// whole image where it is changed by a function of it.
pub fn step()
    ensures bytes { (f : Flat) (e : Effect) (i x : ℕ) → flat_byte (after f e) i x ≡ byte_after e f i x }
    ensures sizes { (f : Flat) (e : Effect) (i : ℕ) → size_at (after f e) i ≡ size_after e f i }
    ensures roles { (f : Flat) (e : Effect) (i : ℕ) → role_at (after f e) i ≡ role_after e f i }
    ensures snaps { (f : Flat) (e : Effect) (i t : ℕ) → snap_at (after f e) i t ≡ snap_after e f i t }
    ensures images { (f : Flat) (image : ℕ) (change : FlatImage → FlatImage) (i : ℕ)
        → image_at (with_image f image change) i
        ≡ (if i == image then option_map change (image_at f i) else image_at f i) }
{}

/// What one step does not touch: the names and the links unless it is an effect on them, every
/// image but its own, and the bytes and the name of a snapshot that stands before and after it.
pub fn elsewhere()
    ensures names { (f : Flat) (e : Effect) → is_on_names e ≡ false → (after f e).names ≡ f.names }
    ensures links { (f : Flat) (e : Effect) → is_on_links e ≡ false → (after f e).links ≡ f.links }
    ensures images { (f : Flat) (e : Effect) (j : ℕ) → image_of e ≢ Some j → image_at (after f e) j ≡ image_at f j }
    ensures snaps { (f : Flat) (e : Effect) (i t : ℕ) (s s' : FlatSnap) → snap_at f i t ≡ Some s
        → snap_at (after f e) i t ≡ Some s' → (s'.bytes ≡ s.bytes) × (s'.name ≡ s.name) }
{}

/// Several steps are the first of them and then the others.
pub fn steps()
    ensures in_turn { (f : Flat) (front rest : List Effect)
        → after_all f (front ++ rest) ≡ after_all (after_all f front) rest }
{}
