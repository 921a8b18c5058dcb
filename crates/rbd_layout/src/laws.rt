//! What the layers above rely on, each law the contract of a function that does nothing.
ghost use Rattle.std.specs.Prelude.{◌≡◌, ℕ, ◌+◌, ◌-◌, ◌*◌, ◌<◌, ◌≤◌, ◌↔◌, nat_lt, List, length, AllPairs, Any};
ghost use Rattle.rbd_kinds.specs.declared.layout.Layout.{Layout};
ghost use Rattle.rbd_kinds.specs.declared.layout.Extent.{Extent};
ghost use Rattle.rbd_kinds.specs.declared.layout.Part.{Part};
ghost use Rattle.rbd_kinds.specs.Striping.{IsLayout, IsObjectCount, object_of, offset_of, byte_at};
ghost use Rattle.rbd_layout.specs.declared.types.Piece.{Piece};
ghost use Rattle.rbd_layout.specs.Pieces.{IsIn, IsInPiece, IsPartsOf, IsPieces, IsWithin, first_object, is_touched, parts_at, piece_in, pieces_among, pieces_of, places_in};

/// A byte's object and offset determine it, and lie within their bounds.
pub fn place_of_a_byte()
    ensures byte { (l : Layout) → IsLayout l → (x : ℕ) → byte_at l (object_of l x) (offset_of l x) ≡ x }
    ensures offset { (l : Layout) → IsLayout l → (x : ℕ) → offset_of l x < l.object }
    ensures object { (l : Layout) → IsLayout l → (x : ℕ) → object_of l x * l.unit ≤ x }
{}

/// A place determines its byte, so that no two places are one byte of the image.
pub fn byte_at_a_place()
    ensures object { (l : Layout) → IsLayout l → (object offset : ℕ) → offset < l.object
        → object_of l (byte_at l object offset) ≡ object }
    ensures offset { (l : Layout) → IsLayout l → (object offset : ℕ) → offset < l.object
        → offset_of l (byte_at l object offset) ≡ offset }
{}

/// In one object a greater offset is a greater byte of the image.
pub fn bytes_ascend()
    ensures ascend { (l : Layout) → IsLayout l → (object some other : ℕ)
        → (some < other) ↔ (byte_at l object some < byte_at l object other) }
{}

/// The bytes below a size that lie in an object are those of its offsets.
pub fn bytes_of_an_object()
    ensures bytes { (l : Layout) → IsLayout l → (size object x : ℕ)
        → ((x < size) × (object_of l x ≡ object))
        ↔ ((offset : ℕ) × (offset < l.object) × (byte_at l object offset ≡ x) × (x < size)) }
{}

/// An object is inside an overlap exactly where its byte at offset 0 is below the overlap, and it
/// is one of the objects of a size exactly where that byte is below the size.
pub fn first_byte_decides()
    ensures inside { (l : Layout) → IsLayout l → (object overlap : ℕ)
        → ((offset : ℕ) × (offset < l.object) × (byte_at l object offset < overlap))
        ↔ (byte_at l object 0 < overlap) }
    ensures counted { (l : Layout) → IsLayout l → (size count object : ℕ) → IsObjectCount l size count
        → (object < count) ↔ (byte_at l object 0 < size) }
    ensures least { (l : Layout) → IsLayout l → (x : ℕ) → byte_at l (object_of l x) 0 ≤ x }
{}

/// A size has one number of objects, and a greater size no fewer.
pub fn objects_grow()
    ensures grow { (l : Layout) (small great few many : ℕ) → small ≤ great
        → IsObjectCount l small few → IsObjectCount l great many → few ≤ many }
{}

/// A piece's parts cover exactly the extent's bytes in its object. No byte lies in two of them, and
/// a later part lies further on in the object too. There is one list of such parts.
pub fn parts_are_the_bytes()
    ensures cover { (l : Layout) (e : Extent) (object : ℕ) (parts : List Part) → IsPartsOf l e object parts → (x : ℕ)
        → Any (IsIn x) parts ↔ (IsWithin e x × (object_of l x ≡ object)) }
    ensures once { (l : Layout) (e : Extent) (object : ℕ) (parts : List Part) → IsPartsOf l e object parts → (x : ℕ)
        → AllPairs (λ p q. IsIn x p → IsIn x q → ⊥) parts }
    ensures ascend { (l : Layout) → IsLayout l → (e : Extent) (object : ℕ) (parts : List Part)
        → IsPartsOf l e object parts → AllPairs (λ p q. p.offset + p.len ≤ q.offset) parts }
    ensures one_list { (l : Layout) (e : Extent) (object : ℕ) (some others : List Part)
        → IsPartsOf l e object some → IsPartsOf l e object others → some ≡ others }
{}

/// The pieces of an extent are its bytes, no byte lies in two of them, and an extent has one list
/// of pieces.
pub fn pieces_are_the_bytes()
    ensures cover { (l : Layout) (e : Extent) (pieces : List Piece) → IsPieces l e pieces → (x : ℕ)
        → Any (IsInPiece x) pieces ↔ IsWithin e x }
    ensures once { (l : Layout) (e : Extent) (pieces : List Piece) → IsPieces l e pieces → (x : ℕ)
        → AllPairs (λ p q. IsInPiece x p → IsInPiece x q → ⊥) pieces }
    ensures one_list { (l : Layout) (e : Extent) (some others : List Piece)
        → IsPieces l e some → IsPieces l e others → some ≡ others }
{}

/// The pieces of an extent are this one list, and the parts in one object are these.
pub fn pieces_are_listed()
    ensures parts { (l : Layout) → IsLayout l → (e : Extent) (object : ℕ)
        → IsPartsOf l e object (parts_at l (places_in l e object)) }
    ensures pieces { (l : Layout) → IsLayout l → (e : Extent) (pieces : List Piece) → IsPieces l e pieces
        → pieces ≡ pieces_of l e }
    ensures are { (l : Layout) → IsLayout l → (e : Extent) → IsPieces l e (pieces_of l e) }
{}

/// The objects that an extent touches lie between the first of the set in which it begins and the
/// number of objects of its end. It touches those of which it has bytes, and an extent within a
/// size that has as many bytes of an object as the size has them all.
pub fn objects_are_told_by_sums()
    ensures between { (l : Layout) → IsLayout l → (e : Extent) (end : ℕ) → IsObjectCount l (e.at + e.len) end
        → pieces_of l e ≡ pieces_among l e (first_object l e) (end - first_object l e) }
    ensures touched { (l : Layout) → IsLayout l → (e : Extent) (object : ℕ)
        → is_touched (piece_in l e object) ≡ nat_lt 0 (length (places_in l e object)) }
    ensures all { (l : Layout) (e : Extent) (size object : ℕ) → e.at + e.len ≤ size
        → length (places_in l e object) ≡ length (places_in l (record { at = 0; len = size }) object)
        → places_in l e object ≡ places_in l (record { at = 0; len = size }) object }
{}
