//! How many operations pieces have, that they go to no label, and that they do what they may: laws,
//! each the contract of a function that does nothing.
ghost use Rattle.std.specs.Prelude.{ℕ, ◌+◌, List, length, Option};
ghost use Rattle.rbd_kinds.specs.declared.answer.Answer.TheVariants.{Done};
ghost use Rattle.rbd_kinds.specs.declared.header.HeaderView.{HeaderView};
ghost use Rattle.rbd_kinds.specs.declared.id.SiteId.{SiteId};
ghost use Rattle.rbd_layout.specs.declared.types.Piece.{Piece};
ghost use Rattle.rbd_header.specs.Header.{context_of};
ghost use Rattle.rbd_machine.specs.Knowledge.{Knowledge, learned};
ghost use Rattle.rbd_machine.specs.Label.{Label};
ghost use Rattle.rbd_machine.specs.Lawful.{IsLawful};
ghost use Rattle.rbd_machine.specs.Permits.{Permits};
ghost use Rattle.rbd_machine.specs.Objects.{data_write, map_exists};
ghost use Rattle.rbd_machine.specs.Path.{IsBounded};
ghost use Rattle.rbd_machine.specs.Plan.{Plan, IsClosed};
ghost use Rattle.rbd_pieces.specs.Gather.{gather};
ghost use Rattle.rbd_pieces.specs.Write.{write_piece};

/// A piece of a write has two operations.
pub fn pieces_raise_and_write()
    ensures { (site : SiteId) (image : ℕ) (h : HeaderView) (piece : Piece) (bytes : List ℕ) (next : Plan) (n : ℕ)
        → IsBounded next n → IsBounded (write_piece site image h piece bytes next) (n + 2) }
{}

/// A gather has one operation for each piece.
pub fn gathers_read_once()
    ensures { (site : SiteId) (image : ℕ) (snap : Option ℕ) (pieces : List Piece) (read : List ℕ)
        (next : List ℕ → Plan) (n : ℕ)
        → ((bytes : List ℕ) → IsBounded (next bytes) n)
        → IsBounded (gather site image snap pieces read next) (n + length pieces) }
{}

/// Neither a piece of a write nor a gather begins a part again, unless what comes next does.
pub fn pieces_go_to_no_label()
    ensures write { (labels : Label → Plan) (site : SiteId) (image : ℕ) (h : HeaderView) (piece : Piece)
        (bytes : List ℕ) (next : Plan)
        → IsClosed labels next → IsClosed labels (write_piece site image h piece bytes next) }
    ensures gather { (labels : Label → Plan) (site : SiteId) (image : ℕ) (snap : Option ℕ) (pieces : List Piece)
        (read : List ℕ) (next : List ℕ → Plan)
        → ((bytes : List ℕ) → IsClosed labels (next bytes))
        → IsClosed labels (gather site image snap pieces read next) }
{}

/// A piece of a write is lawful where it may raise its object's state, and write its bytes once
/// that is done, given that what comes next is lawful by what is known then: that the state was
/// raised, and that the object is there, with any bytes. A gather is lawful wherever what comes
/// next is.
pub fn pieces_are_lawful()
    ensures write { (at : Label → Knowledge) (k : Knowledge) (site : SiteId) (image : ℕ) (h : HeaderView)
        (piece : Piece) (bytes : List ℕ) (next : Plan)
        → Permits k site (map_exists image piece.object)
        → Permits (learned k site (map_exists image piece.object) Done) site
        (data_write image (context_of h) piece bytes)
        → IsLawful at (learned (learned k site (map_exists image piece.object) Done) site
        (data_write image (context_of h) piece bytes) Done) next
        → IsLawful at k (write_piece site image h piece bytes next) }
    ensures gather { (at : Label → Knowledge) (k : Knowledge) (site : SiteId) (image : ℕ) (snap : Option ℕ)
        (pieces : List Piece) (read : List ℕ) (next : List ℕ → Plan)
        → ((bytes : List ℕ) → IsLawful at k (next bytes)) → IsLawful at k (gather site image snap pieces read next) }
{}
