//! What parts do to their end, and by how many operations, and what their definitions mean: laws,
//! each the contract of a function that does nothing.
ghost use Rattle.std.specs.Prelude.{◌≡◌, ℕ, ◌+◌, ◌*◌, ◌<◌, ◌≤◌, ◌↔◌, true, All, List, length};
ghost use Rattle.rbd_kinds.specs.declared.header.HeaderView.{HeaderView};
ghost use Rattle.rbd_kinds.specs.declared.id.SiteId.{SiteId};
ghost use Rattle.rbd_kinds.specs.declared.layout.Extent.{Extent};
ghost use Rattle.rbd_kinds.specs.declared.machine.Fed.{Fed};
ghost use Rattle.rbd_kinds.specs.declared.reply.Reply.TheVariants.{Done};
ghost use Rattle.rbd_kinds.specs.declared.sharing.Sharing.{Sharing};
ghost use Rattle.rbd_kinds.specs.declared.sharing.Sharing.TheVariants.{Alone};
ghost use Rattle.rbd_kinds.specs.Form.{HasFewObjects};
ghost use Rattle.rbd_kinds.specs.Parts.{parts_len};
ghost use Rattle.rbd_kinds.specs.Striping.{IsLayout, IsObjectCount};
ghost use Rattle.rbd_header.specs.Header.{with_size};
ghost use Rattle.rbd_layout.specs.declared.types.Piece.{Piece};
ghost use Rattle.rbd_layout.specs.Pieces.{IsPartsOf, IsPieces, pieces_of};
ghost use Rattle.rbd_machine.specs.Knowledge.{Knowledge};
ghost use Rattle.rbd_machine.specs.Label.{Label};
ghost use Rattle.rbd_machine.specs.Lawful.{IsLawful};
ghost use Rattle.rbd_machine.specs.Path.{Answered, IsBounded, IsWalk};
ghost use Rattle.rbd_machine.specs.Plan.{Plan, Goto, Return, IsClosed};
ghost use Rattle.rbd_pieces.specs.Full.{IsCut, IsReplaced, cut_bytes, full_piece, replaced};
ghost use Rattle.rbd_pieces.specs.Known.{OwnsByHeader, IsPieceOf, OwnsObject, known_behind};
ghost use Rattle.rbd_pieces.specs.Shrink.{head_from};
ghost use Rattle.rbd_pieces.specs.Size.{AreZeroed, IsResized, pieces_zeroed, resize};
ghost use Rattle.rbd_pieces.specs.Zero.{IsOfHead, IsZeroed, head_of, is_whole, zeroed_steps, zero_piece};

/// A piece that becomes zeros or replaces its object has three operations at most. A size has two,
/// and where it is less than before, three more for each piece of the bytes that go.
pub fn parts_are_bounded()
    ensures zero { (site : SiteId) (image : ℕ) (h : HeaderView) (piece : Piece) (next : Plan) (n : ℕ)
        → IsBounded next n → IsBounded (zero_piece site image h piece next) (n + 3) }
    ensures full { (site : SiteId) (image : ℕ) (h : HeaderView) (piece : Piece) (bytes : List ℕ) (next : Plan) (n : ℕ)
        → IsBounded next n → IsBounded (full_piece site image h piece bytes next) (n + 3) }
    ensures grow { (site : SiteId) (image : ℕ) (h : HeaderView) (to objects : ℕ) (next : Plan) (n : ℕ)
        → h.size ≤ to → IsBounded next n → IsBounded (resize site image h to objects next) (n + 2) }
    ensures shrink { (site : SiteId) (image : ℕ) (h : HeaderView) (to objects : ℕ) (next : Plan) (n : ℕ)
        → to < h.size → IsBounded next n
        → IsBounded (resize site image h to objects next) (n + 2 + 3 * length (pieces_of h.layout (head_from h to))) }
{}

/// None of these parts begins a part again, unless what comes next does.
pub fn parts_go_to_no_label()
    ensures zero { (labels : Label → Plan) (site : SiteId) (image : ℕ) (h : HeaderView) (piece : Piece) (next : Plan)
        → IsClosed labels next → IsClosed labels (zero_piece site image h piece next) }
    ensures full { (labels : Label → Plan) (site : SiteId) (image : ℕ) (h : HeaderView) (piece : Piece)
        (bytes : List ℕ) (next : Plan)
        → IsClosed labels next → IsClosed labels (full_piece site image h piece bytes next) }
    ensures size { (labels : Label → Plan) (site : SiteId) (image : ℕ) (h : HeaderView) (to objects : ℕ) (next : Plan)
        → IsClosed labels next → IsClosed labels (resize site image h to objects next) }
{}

/// A part that ends well has done exactly these operations, in this order, each answered done or
/// with the states of the head's map.
pub fn parts_are_done()
    ensures zero { (site : SiteId) (image : ℕ) (h : HeaderView) (piece : Piece) (feds : List Fed)
        (steps : List Answered)
        → IsWalk Goto (zero_piece site image h piece (Return Done)) feds steps (Return Done)
        → IsZeroed site image h piece steps }
    ensures full { (site : SiteId) (image : ℕ) (h : HeaderView) (piece : Piece) (bytes : List ℕ) (feds : List Fed)
        (steps : List Answered)
        → IsWalk Goto (full_piece site image h piece bytes (Return Done)) feds steps (Return Done)
        → IsReplaced site image h piece bytes steps }
    ensures size { (site : SiteId) (image : ℕ) (h : HeaderView) (to objects : ℕ) (feds : List Fed)
        (steps : List Answered)
        → IsWalk Goto (resize site image h to objects (Return Done)) feds steps (Return Done)
        → IsResized site image h to objects steps }
{}

/// One list of operations is that of a piece that has become zeros, of one whose object has been
/// replaced by bytes, and of several that have become zeros.
pub fn parts_have_their_operations()
    ensures zero { (site : SiteId) (image : ℕ) (h : HeaderView) (piece : Piece) (steps : List Answered)
        → IsZeroed site image h piece steps ↔ (steps ≡ zeroed_steps site image h piece) }
    ensures full { (site : SiteId) (image : ℕ) (h : HeaderView) (piece : Piece) (bytes : List ℕ)
        (steps : List Answered)
        → IsReplaced site image h piece bytes steps ↔ (steps ≡ replaced site image h piece bytes) }
    ensures zeros { (site : SiteId) (image : ℕ) (h : HeaderView) (pieces : List Piece) (steps : List Answered)
        → AreZeroed site image h pieces steps ↔ (steps ≡ pieces_zeroed site image h pieces) }
{}

/// The pieces of an extent that ends within the size are pieces of the head.
pub fn pieces_are_of_the_head()
    ensures { (h : HeaderView) (e : Extent) (pieces : List Piece) → IsLayout h.layout → e.at + e.len ≤ h.size
        → IsPieces h.layout e pieces → All (λ p. IsOfHead h p.object) pieces }
{}

/// A piece is whole exactly where its parts are all of the head's bytes in its object. Bytes that
/// are cut lose the zeros at their end, and nothing else.
pub fn words_are_meant()
    ensures whole { (h : HeaderView) (piece : Piece) → IsLayout h.layout
        → (is_whole h piece ≡ true) ↔ IsPartsOf h.layout (head_of h) piece.object piece.parts }
    ensures cut { (bytes : List ℕ) → IsCut bytes (cut_bytes bytes) }
{}

/// A part asks only for what it may wherever the image is its own by a header, and what comes next
/// does so by what is known behind the part. A piece is one of the head, and the image is held
/// alone or at the turn at its object, by a request that makes zeros. Bytes that replace an object
/// are no more than the piece has. A resize holds the lock alone; each byte that it cuts is zero,
/// as the map says or by its own zeroing.
pub fn parts_are_lawful()
    ensures zero { (at : Label → Knowledge) (k : Knowledge) (site : SiteId) (image : ℕ) (h : HeaderView)
        (piece : Piece) (next : Plan)
        → OwnsObject k site image h piece.object → IsPieceOf h piece
        → ((steps : List Answered) → IsZeroed site image h piece steps → IsLawful at (known_behind k steps) next)
        → IsLawful at k (zero_piece site image h piece next) }
    ensures full { (at : Label → Knowledge) (k : Knowledge) (site : SiteId) (image : ℕ) (h : HeaderView) (piece : Piece)
        (bytes : List ℕ) (next : Plan)
        → OwnsObject k site image h piece.object → IsLayout h.layout → IsPieceOf h piece → is_whole h piece ≡ true
        → length bytes ≤ parts_len piece.parts
        → ((steps : List Answered) → IsReplaced site image h piece bytes steps
        → IsLawful at (known_behind k steps) next)
        → IsLawful at k (full_piece site image h piece bytes next) }
    ensures size { (at : Label → Knowledge) (k : Knowledge) (site : SiteId) (image : ℕ) (h : HeaderView)
        (to objects : ℕ) (next : Plan)
        → OwnsByHeader k site image Alone h → IsLayout h.layout → HasFewObjects h.layout to
        → IsObjectCount h.layout to objects
        → ((steps : List Answered) → IsResized site image h to objects steps → IsLawful at (known_behind k steps) next)
        → IsLawful at k (resize site image h to objects next) }
{}

/// Behind a part the image is still the request's own; behind a size, by the header at that size.
pub fn parts_leave_the_image_its_own()
    ensures zero { (k : Knowledge) (site : SiteId) (image : ℕ) (sharing : Sharing) (h own : HeaderView) (piece : Piece)
        (steps : List Answered)
        → OwnsByHeader k site image sharing own → IsZeroed site image h piece steps
        → OwnsByHeader (known_behind k steps) site image sharing own }
    ensures full { (k : Knowledge) (site : SiteId) (image : ℕ) (sharing : Sharing) (h own : HeaderView) (piece : Piece)
        (bytes : List ℕ) (steps : List Answered)
        → OwnsByHeader k site image sharing own → IsReplaced site image h piece bytes steps
        → OwnsByHeader (known_behind k steps) site image sharing own }
    ensures size { (k : Knowledge) (site : SiteId) (image : ℕ) (h : HeaderView) (to objects : ℕ) (steps : List Answered)
        → OwnsByHeader k site image Alone h → IsResized site image h to objects steps
        → OwnsByHeader (known_behind k steps) site image Alone (with_size to h) }
{}
