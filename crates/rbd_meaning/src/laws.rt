//! What holds of every reply that is meant: laws, each the contract of a function that does
//! nothing.
ghost use Rattle.std.specs.Prelude.{◌≡◌, ◌↔◌, ◌⊎◌, ℕ, List, [], ◌∷◌, ◌++◌, map, false, true, Option, Some, None};
ghost use Rattle.rbd_kinds.specs.declared.answer.Answer.TheVariants.{Absent};
ghost use Rattle.rbd_commands.specs.declared.command.Command.{Command};
ghost use Rattle.rbd_commands.specs.declared.command.Command.TheVariants.{Write, Fill, Discard, Resize, Remove, SnapCreate, SnapRemove, SnapRollback};
ghost use Rattle.rbd_kinds.specs.declared.header.HeaderView.{HeaderView};
ghost use Rattle.rbd_kinds.specs.declared.header.Role.TheVariants.{Secondary};
ghost use Rattle.rbd_kinds.specs.declared.header.SnapStatus.TheVariants.{Unprotected};
ghost use Rattle.rbd_kinds.specs.declared.id.SiteId.{SiteId};
ghost use Rattle.rbd_kinds.specs.declared.layout.Layout.{Layout};
ghost use Rattle.rbd_commands.specs.declared.refusal.Refusal.{Refusal};
ghost use Rattle.rbd_commands.specs.declared.refusal.Refusal.TheVariants.{BadShape, Fenced, NoImage, NonPrimary};
ghost use Rattle.rbd_kinds.specs.declared.reply.Reply.{Reply};
ghost use Rattle.rbd_kinds.specs.declared.reply.Reply.TheVariants.{Refused};
ghost use Rattle.rbd_kinds.specs.Form.{HasFewObjects};
ghost use Rattle.rbd_kinds.specs.Header.{snap_named};
ghost use Rattle.rbd_kinds.specs.Striping.{IsLayout, IsObjectCount};
ghost use Rattle.rbd_layout.specs.declared.types.Piece.{Piece};
ghost use Rattle.rbd_machine.specs.About.{look_up};
ghost use Rattle.rbd_machine.specs.Objects.{data_read};
ghost use Rattle.rbd_machine.specs.Path.{Answered, looked_at};
ghost use Rattle.rbd_machine.specs.declared.seat.Seat.{Seat};
ghost use Rattle.rbd_meaning.specs.Count.{object_count};
ghost use Rattle.rbd_meaning.specs.Meant.{IsMeantBy};
ghost use Rattle.rbd_meaning.specs.Named.{looks_up};
ghost use Rattle.rbd_meaning.specs.Reads.{AreRead};
ghost use Rattle.rbd_meaning.specs.Removals.{RemovesImage};
ghost use Rattle.rbd_meaning.specs.Replies.{may_answer};
ghost use Rattle.rbd_meaning.specs.Resizes.{has_few_objects};
ghost use Rattle.rbd_meaning.specs.Snaps.{TakesOne, RemovesOne};
ghost use Rattle.rbd_meaning.specs.Undone.{lets_go, ChangeNothing, ComesLate};
ghost use Rattle.rbd_meaning.specs.Writes.{AreWritten, IsPieceBegun, pieces_written, state_raised};

/// A size has as many pieces as objects. It has few objects exactly where its bytes lie in the
/// first 2^20 of them.
pub fn counts_are_counts()
    ensures count { (l : Layout) (size : ℕ) → IsLayout l → IsObjectCount l size (object_count l size) }
    ensures few { (l : Layout) (size : ℕ) → IsLayout l → (has_few_objects l size ≡ true) ↔ HasFewObjects l size }
{}

/// A command means only replies of its own kind.
pub fn replies_are_of_their_command()
    ensures { (seat : Seat) (command : Command) (steps : List Answered) (reply : Reply)
        → IsMeantBy seat command steps reply → may_answer command reply ≡ true }
{}

/// After the same operations a command means one reply.
pub fn one_reply_is_meant()
    ensures { (seat : Seat) (command : Command) (steps : List Answered) (one other : Reply)
        → IsMeantBy seat command steps one → IsMeantBy seat command steps other → one ≡ other }
{}

/// After no operation at all a command means nothing but BadShape: nothing is done or shown without
/// an operation.
pub fn nothing_is_granted_for_nothing()
    ensures { (seat : Seat) (command : Command) (reply : Reply) → IsMeantBy seat command [] reply
        → reply ≡ Refused BadShape }
{}

/// A refused request has changed nothing that users see, with two exceptions. Fenced may come at
/// any time, also to a command that goes on after a change. And a `close` may be told that its
/// image is gone by its notice or by the end of its watch, after its drop.
pub fn refusals_change_nothing()
    ensures early { (seat : Seat) (command : Command) (steps : List Answered) (x : Refusal)
        → IsMeantBy seat command steps (Refused x) → (ComesLate command x → ⊥) → ChangeNothing steps }
    ensures but_for_the_fence { (seat : Seat) (command : Command) (steps : List Answered) (x : Refusal)
        → lets_go command ≡ false → IsMeantBy seat command steps (Refused x) → (x ≡ Fenced → ⊥) → ChangeNothing steps }
{}

/// NoImage after a single operation says that the command's own name isn't there: the operation was
/// the look-up of its image, at its site, and was answered none.
pub fn unknown_names_are_looked_up()
    ensures { (seat : Seat) (command : Command) (name : List ℕ) (step : Answered) → looks_up command ≡ Some name
        → IsMeantBy seat command (step ∷ []) (Refused NoImage)
        → step ≡ record { site = seat.home; op = look_up name; answer = Absent } }
{}

/// A change that is refused by a look at the header of a secondary is refused with NonPrimary,
/// whatever else refuses it there.
pub fn secondaries_refuse_first()
    ensures write { (seat : Seat) (there : SiteId) (image : List ℕ) (at : ℕ) (bytes : List ℕ) (before : List Answered)
        (id : ℕ) (h : HeaderView) (x : Refusal)
        → IsMeantBy seat (Write image at bytes) (before ++ looked_at there id h ∷ []) (Refused x) → h.role ≡ Secondary
        → x ≡ NonPrimary }
    ensures fill { (seat : Seat) (there : SiteId) (image : List ℕ) (at len byte : ℕ) (before : List Answered) (id : ℕ)
        (h : HeaderView) (x : Refusal)
        → IsMeantBy seat (Fill image at len byte) (before ++ looked_at there id h ∷ []) (Refused x) → h.role ≡ Secondary
        → x ≡ NonPrimary }
    ensures discard { (seat : Seat) (there : SiteId) (image : List ℕ) (at len : ℕ) (before : List Answered) (id : ℕ)
        (h : HeaderView) (x : Refusal)
        → IsMeantBy seat (Discard image at len) (before ++ looked_at there id h ∷ []) (Refused x) → h.role ≡ Secondary
        → x ≡ NonPrimary }
    ensures resize { (seat : Seat) (there : SiteId) (image : List ℕ) (to : ℕ) (before : List Answered) (id : ℕ)
        (h : HeaderView) (x : Refusal)
        → IsMeantBy seat (Resize image to) (before ++ looked_at there id h ∷ []) (Refused x) → h.role ≡ Secondary
        → x ≡ NonPrimary }
    ensures image { (seat : Seat) (there : SiteId) (image : List ℕ) (before : List Answered) (id : ℕ) (h : HeaderView)
        (x : Refusal)
        → IsMeantBy seat (Remove image) (before ++ looked_at there id h ∷ []) (Refused x) → h.role ≡ Secondary
        → x ≡ NonPrimary }
    ensures taking { (seat : Seat) (there : SiteId) (image snap : List ℕ) (before : List Answered) (id : ℕ)
        (h : HeaderView) (x : Refusal)
        → IsMeantBy seat (SnapCreate image snap) (before ++ looked_at there id h ∷ []) (Refused x) → h.role ≡ Secondary
        → x ≡ NonPrimary }
    ensures removing { (seat : Seat) (there : SiteId) (image snap : List ℕ) (before : List Answered) (id : ℕ)
        (h : HeaderView) (x : Refusal)
        → IsMeantBy seat (SnapRemove image snap) (before ++ looked_at there id h ∷ []) (Refused x) → h.role ≡ Secondary
        → x ≡ NonPrimary }
    ensures rolling { (seat : Seat) (there : SiteId) (image snap : List ℕ) (before : List Answered) (id : ℕ)
        (h : HeaderView) (x : Refusal)
        → IsMeantBy seat (SnapRollback image snap) (before ++ looked_at there id h ∷ []) (Refused x)
        → h.role ≡ Secondary → x ≡ NonPrimary }
{}

/// What was done was allowed by the look under the lock: the name of a snapshot that was taken
/// wasn't listed there, a snapshot that was removed wasn't protected there, and an image that was
/// removed had no snapshot there.
pub fn the_look_under_lock_allowed()
    ensures taken { (site : SiteId) (image snap : List ℕ) (steps : List Answered)
        (takes : TakesOne site image snap steps) → snap_named takes.own.snaps snap ≡ None }
    ensures removed { (site : SiteId) (image snap : List ℕ) (steps : List Answered)
        (removes : RemovesOne site image snap steps) → removes.listed.status ≡ Unprotected }
    ensures image { (site : SiteId) (session : ℕ) (image : List ℕ) (steps : List Answered)
        (removes : RemovesImage site session image steps) → removes.own.snaps ≡ [] }
{}

/// One list of operations is that of pieces. A piece that was written has had its object's state
/// raised, and then its bytes written; one that was begun has had the state raised at most. One that
/// was read has had one operation, which read it.
pub fn pieces_have_their_operations()
    ensures written { (site : SiteId) (image : ℕ) (h : HeaderView) (at : ℕ) (bytes : List ℕ) (pieces : List Piece)
        (steps : List Answered) → AreWritten site image h at bytes pieces steps
        ↔ (steps ≡ pieces_written site image h at bytes pieces) }
    ensures begun { (site : SiteId) (image : ℕ) (h : HeaderView) (at : ℕ) (bytes : List ℕ) (piece : Piece)
        (left : List Piece) (steps : List Answered) → IsPieceBegun site image h at bytes (piece ∷ left) steps
        ↔ ((steps ≡ []) ⊎ (steps ≡ state_raised site image piece ∷ [])) }
    ensures read { (site : SiteId) (image : ℕ) (snap : Option ℕ) (pieces : List Piece) (steps : List Answered)
        → AreRead site image snap pieces steps
        → (map (λ (s : Answered). s.op) steps ≡ map (data_read image snap) pieces)
        × (map (λ (s : Answered). s.site) steps ≡ map (λ p. site) pieces) }
{}
