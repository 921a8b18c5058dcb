//! What a header may be later: laws, each the contract of a function that does nothing.
ghost use Rattle.std.specs.Prelude.{◌≡◌, ℕ, List, Option, None};
ghost use Rattle.rbd_kinds.specs.declared.header.GlobalName.{GlobalName};
ghost use Rattle.rbd_kinds.specs.declared.header.HeaderView.{HeaderView};
ghost use Rattle.rbd_kinds.specs.declared.header.Role.{Role};
ghost use Rattle.rbd_kinds.specs.declared.header.SnapStatus.{SnapStatus};
ghost use Rattle.rbd_kinds.specs.declared.id.Instance.{Instance};
ghost use Rattle.rbd_header.specs.Header.{with_size, with_snap, with_status, without_snap, detached, with_role, with_global, in_step};
ghost use Rattle.rbd_header.specs.Later.{IsLaterOf};

/// A header is one that may come after itself, and what may come after a later one may come after
/// the first.
pub fn later_headers_are_ordered()
    ensures itself { (h : HeaderView) → IsLaterOf h h }
    ensures onward { (old mid new : HeaderView) → IsLaterOf old mid → IsLaterOf mid new → IsLaterOf old new }
{}

/// Each change of a header leaves one that may come after it: it never gets another layout, depth
/// or birth, a new parent or a wider overlap, and lists no snapshot that it could have listed and
/// didn't. A global name is given only where there is none.
pub fn changes_lead_to_later_headers()
    ensures size { (size : ℕ) (h : HeaderView) → IsLaterOf h (with_size size h) }
    ensures taking { (name : List ℕ) (h : HeaderView) → IsLaterOf h (with_snap name h) }
    ensures status { (t : ℕ) (status : SnapStatus) (h : HeaderView) → IsLaterOf h (with_status t status h) }
    ensures removing { (t : ℕ) (h : HeaderView) → IsLaterOf h (without_snap t h) }
    ensures detaching { (h : HeaderView) → IsLaterOf h (detached h) }
    ensures role { (role : Role) (h : HeaderView) → IsLaterOf h (with_role role h) }
    ensures mirroring { (global : GlobalName) (h : HeaderView) → h.global ≡ None → IsLaterOf h (with_global global h) }
    ensures syncing { (h : HeaderView) → IsLaterOf h (in_step h) }
    ensures lock { (owner : Option Instance) (h : HeaderView) → IsLaterOf h (record h { owner = owner }) }
{}
