//! What each operation does to the relation `StandsFor`: laws, each the contract of a function that
//! does nothing. A law speaks of any records, and of any flat site that they stand for.
ghost use Rattle.std.specs.Prelude.{◌≡◌, ℕ, ◌≤◌, ◌↔◌, List, [], All, Option, Some, None, Bool, true, false, IsTrue, IsFalse, IsSome, ◌∷◌, slice_get};
ghost use Rattle.std.specs.FinMap as finmap;
ghost use Rattle.rbd_kinds.specs.declared.answer.Answer.{Answer};
ghost use Rattle.rbd_kinds.specs.declared.answer.Answer.TheVariants as answer;
ghost use Rattle.rbd_kinds.specs.declared.children_op.ChildrenOp.TheVariants as children_op;
ghost use Rattle.rbd_kinds.specs.declared.data_op.DataOp.{DataOp};
ghost use Rattle.rbd_kinds.specs.declared.data_op.DataOp.TheVariants as data_op;
ghost use Rattle.rbd_kinds.specs.declared.directory_op.DirectoryOp.TheVariants as directory_op;
ghost use Rattle.rbd_kinds.specs.declared.header.HeaderView.{HeaderView};
ghost use Rattle.rbd_kinds.specs.declared.header.ParentLink.{ParentLink};
ghost use Rattle.rbd_kinds.specs.declared.header.Role.{Role};
ghost use Rattle.rbd_kinds.specs.declared.header.SnapContext.{SnapContext};
ghost use Rattle.rbd_kinds.specs.declared.header.SnapStatus.{SnapStatus};
ghost use Rattle.rbd_kinds.specs.declared.header.SnapStatus.TheVariants.{Unprotected};
ghost use Rattle.rbd_kinds.specs.declared.header.SnapView.{SnapView};
ghost use Rattle.rbd_kinds.specs.declared.header_op.HeaderOp.{HeaderOp};
ghost use Rattle.rbd_kinds.specs.declared.header_op.HeaderOp.TheVariants as header_op;
ghost use Rattle.rbd_kinds.specs.declared.id.Instance.{Instance};
ghost use Rattle.rbd_kinds.specs.declared.layout.Extent.{Extent};
ghost use Rattle.rbd_kinds.specs.declared.layout.Layout.{Layout};
ghost use Rattle.rbd_kinds.specs.declared.layout.Part.{Part};
ghost use Rattle.rbd_kinds.specs.declared.operation.Op.{Op};
ghost use Rattle.rbd_kinds.specs.declared.operation.Op.TheVariants as op;
ghost use Rattle.rbd_kinds.specs.Form.{IsNewHeader};
ghost use Rattle.rbd_kinds.specs.Striping.{IsLayout};
ghost use Rattle.rbd_layout.specs.Pieces.{IsPart, IsPieces};
ghost use Rattle.rbd_header.specs.Header.{context_of, snap_in};
ghost use Rattle.rbd_header.specs.Later.{IsLaterOf};
ghost use Rattle.rbd_object.specs.Kept.{is_listed};
ghost use Rattle.rbd_object.specs.Mapped.{mapped_change};
ghost use Rattle.rbd_flat.specs.declared.effect.Effect.{Effect};
ghost use Rattle.rbd_flat.specs.declared.effect.Effect.TheVariants as effect;
ghost use Rattle.rbd_flat.specs.Laws.{snap_at};
ghost use Rattle.rbd_flat.specs.Flat.{Flat, FlatImage, FlatSnap, no_images, image_at, id_of, with_image};
ghost use Rattle.rbd_flat.specs.Flat as flat;
ghost use Rattle.rbd_layout.specs.declared.types.Piece.{Piece};
ghost use Rattle.rbd_site.specs.DataStep.{MayWriteParts};
ghost use Rattle.rbd_site.specs.DirectoryStep.{image_found};
ghost use Rattle.rbd_site.specs.Laws.{may_have_changed, is_look};
ghost use Rattle.rbd_site.specs.declared.done.DoneOp.TheVariants as done;
ghost use Rattle.rbd_site.specs.Log.{expired_by, live_in, trimmed};
ghost use Rattle.rbd_site.specs.Records.{Records, no_records, object_at, with_object};
ghost use Rattle.rbd_site.specs.Step.{MayDo, is_fenced, answer_to, after};
ghost use Rattle.rbd_stands.specs.Condition.{IsContextOf, ArePartsBelow, AreWhole, IsCopiedUp, ChangesObject, IsZeroPast, IsZeroedFrom, IsUnnamed, IsDrawn, IsFree, IsCloneHeader, MayCopyUp, extents_of};
ghost use Rattle.rbd_stands.specs.Effect.{effect_of, effect_of_data};
ghost use Rattle.rbd_stands.specs.Image.{IsInside};
ghost use Rattle.rbd_stands.specs.Reading.{TellsFlatImage, AreFlatBytes, AreInherited, AreLinkedTo};
ghost use Rattle.rbd_stands.specs.Unseen.{is_about, is_unseen};
ghost use Rattle.rbd_stands.specs.Shown.{HasParent, links_of, snapshots_of};
ghost use Rattle.rbd_stands.specs.Site.{StandsFor, IsUntouched, IsAwaited, Pending};
ghost use Rattle.rbd_stands.specs.Told.{CouldList, IsDated, IsStillTold, KeepsSnapshots};
ghost use Rattle.rbd_stands.specs.Writing.{piece_effects};
ghost use Rattle.rbd_stands.specs.View.{EachView, Shape, shape_of};

/// Empty records stand for an empty flat site.
pub fn no_records_stand()
    ensures { StandsFor [] no_records no_images }
{}

// ---- what changes nothing

/// A flat image has no lock, no watchers and no word on whether a copy is under way: so the
/// operations on these change nothing of it.
pub fn unseen_changes()
    ensures { (pending : List Pending) (r : Records) (f : Flat) (me : Instance) (image : ℕ) (o : HeaderOp)
        → StandsFor pending r f → is_unseen o ≡ true
        → StandsFor pending (after r me (op.Header image o)) f }
{}

/// A fenced instance changes nothing of the flat site, whatever it does.
pub fn fenced_operations()
    ensures { (pending : List Pending) (r : Records) (f : Flat) (me : Instance) (o : Op) → StandsFor pending r f
        → IsTrue (is_fenced r me)
        → StandsFor pending (after r me o) f }
{}

/// A flat site has no blocklist: any instance may be listed at any moment.
pub fn listing_an_instance()
    ensures { (pending : List Pending) (r : Records) (f : Flat) (me i : Instance) → StandsFor pending r f
        → StandsFor pending (after r me (op.BlockAdd i)) f }
{}

/// The store may let the watch of any instance end at any moment.
pub fn ending_a_watch()
    ensures { (pending : List Pending) (r : Records) (f : Flat) (image : ℕ) (oldest : Option Instance)
        → StandsFor pending r f → StandsFor pending (expired_by image oldest r) f }
{}

/// An operation on the objects of an image whose header is gone has no effect on the flat site.
pub fn data_of_no_image()
    ensures { (pending : List Pending) (r : Records) (f : Flat) (me : Instance) (image number : ℕ) (o : DataOp)
        → StandsFor pending r f
        → r.headers image ≡ None → IsDrawn r image → StandsFor pending (after r me (op.Data image number o)) f }
{}

/// The store may trim any object at any moment: what is dropped is no listed snapshot's.
pub fn trimming_an_object()
    ensures { (pending : List Pending) (r : Records) (f : Flat) (image number : ℕ) → StandsFor pending r f
        → StandsFor pending (trimmed image number r) f }
{}

// ---- what is told

/// The directory tells the flat site's names: where one leads, all of them, and when a name is held
/// or missing. An instance that is fenced isn't told.
pub fn telling_names()
    ensures find { (pending : List Pending) (r : Records) (f : Flat) (me : Instance) (name : List ℕ)
        → StandsFor pending r f → IsFalse (is_fenced r me)
        → answer_to r me (op.Directory (directory_op.Find name)) ≡ image_found (id_of f name) }
    ensures list { (pending : List Pending) (r : Records) (f : Flat) (me : Instance) → StandsFor pending r f
        → IsFalse (is_fenced r me)
        → answer_to r me (op.Directory directory_op.List) ≡ answer.Names (finmap.keys f.names) }
    ensures held { (pending : List Pending) (r : Records) (f : Flat) (me : Instance) (name : List ℕ)
        → StandsFor pending r f → IsFalse (is_fenced r me)
        → (answer_to r me (op.Directory (directory_op.Add name)) ≡ answer.Exists) ↔ IsSome (id_of f name) }
    ensures missing { (pending : List Pending) (r : Records) (f : Flat) (me : Instance) (from to : List ℕ)
        → StandsFor pending r f → IsFalse (is_fenced r me)
        → (answer_to r me (op.Directory (directory_op.Rename from to)) ≡ answer.Absent) ↔ (id_of f from ≡ None) }
    ensures taken { (pending : List Pending) (r : Records) (f : Flat) (me : Instance) (from to : List ℕ)
        → StandsFor pending r f → IsFalse (is_fenced r me)
        → (answer_to r me (op.Directory (directory_op.Rename from to)) ≡ answer.Exists)
        ↔ (IsSome (id_of f from) × IsSome (id_of f to)) }
{}

/// `child-list` tells the children that the flat site links to a snapshot.
pub fn telling_children()
    ensures { (pending : List Pending) (r : Records) (f : Flat) (me : Instance) (parent snap : ℕ) (ids : List ℕ)
        → StandsFor pending r f
        → answer_to r me (op.Children (children_op.List parent snap)) ≡ answer.Ids ids → AreLinkedTo f parent snap ids }
{}

/// `header-get` tells the flat image, and that there is none exactly where there is none.
pub fn telling_a_header()
    ensures told { (pending : List Pending) (r : Records) (f : Flat) (me : Instance) (image : ℕ) (h : HeaderView)
        → StandsFor pending r f
        → answer_to r me (op.Header image header_op.Get) ≡ answer.Header h → TellsFlatImage h (image_at f image) }
    ensures missing { (pending : List Pending) (r : Records) (f : Flat) (me : Instance) (image : ℕ)
        → StandsFor pending r f → IsFalse (is_fenced r me)
        → (answer_to r me (op.Header image header_op.Get) ≡ answer.Absent) ↔ (image_at f image ≡ None) }
{}

/// `data-read` of parts below the size of the view that is read: bytes are the flat image's, and
/// where the object is absent the flat image has what it inherits, or zeros.
pub fn reading_an_object()
    ensures bytes { (pending : List Pending) (r : Records) (f : Flat) (me : Instance) (image number : ℕ)
        (h : HeaderView) (view : Option ℕ) (shape : Shape) (parts : List Part) (bytes : List ℕ)
        → StandsFor pending r f → r.headers image ≡ Some h → shape_of h view ≡ Some shape
        → ArePartsBelow h shape.size number parts
        → answer_to r me (op.Data image number (data_op.Read view parts)) ≡ answer.Bytes bytes
        → AreFlatBytes f image view parts bytes }
    ensures absent { (pending : List Pending) (r : Records) (f : Flat) (me : Instance) (image number : ℕ)
        (h : HeaderView) (view : Option ℕ) (shape : Shape) (parts : List Part)
        → StandsFor pending r f → r.headers image ≡ Some h → shape_of h view ≡ Some shape
        → ArePartsBelow h shape.size number parts
        → answer_to r me (op.Data image number (data_op.Read view parts)) ≡ answer.Absent
        → AreInherited f image view shape.parent parts }
{}

/// What was read of a snapshot is so as long as the image lists the snapshot, whatever anybody does
/// meanwhile: its bytes never change, and those that it inherits are another such snapshot's. So a
/// request may read a snapshot and those that it inherits from one after another, with anything in
/// between. A snapshot that the image may list later isn't taken for one that it listed: the number
/// isn't above that of the snapshot which it took last.
pub fn what_was_read_of_snapshots_stays()
    ensures bytes { (pending : List Pending) (r : Records) (f : Flat) (me : Instance) (image snap number : ℕ)
        (parts : List Part) (bytes : List ℕ) → StandsFor pending r f
        → answer_to r me (op.Data image number (data_op.Read (Some snap) parts)) ≡ answer.Bytes bytes
        → IsStillTold r f image snap number parts (Some bytes) }
    ensures absent { (pending : List Pending) (r : Records) (f : Flat) (me : Instance) (image snap number : ℕ)
        (parts : List Part) → StandsFor pending r f
        → answer_to r me (op.Data image number (data_op.Read (Some snap) parts)) ≡ answer.Absent
        → IsStillTold r f image snap number parts None }
    ensures moments { (pending later : List Pending) (r s : Records) (f g : Flat) (image snap number : ℕ)
        (parts : List Part) (told : Option (List ℕ))
        → StandsFor pending r f → StandsFor later s g → KeepsSnapshots f g
        → ((h : HeaderView) (v : SnapView) → s.headers image ≡ Some h → snap_in h.snaps snap ≡ Some v
        → CouldList (r.headers image) snap h)
        → IsStillTold r f image snap number parts told → IsStillTold s g image snap number parts told }
    ensures operation { (pending later : List Pending) (r : Records) (f g : Flat) (me : Instance) (o : Op)
        (image snap number : ℕ) (parts : List Part) (told : Option (List ℕ))
        → StandsFor pending r f → StandsFor later (after r me o) g → KeepsSnapshots f g → MayDo r me o
        → IsDated r image snap
        → IsStillTold r f image snap number parts told → IsStillTold (after r me o) g image snap number parts told }
{}

/// A header that is there before an operation and behind it is later: so a snapshot's date lasts.
pub fn headers_become_later()
    ensures later { (r : Records) (me : Instance) (o : Op) (image : ℕ) (h k : HeaderView)
        → r.headers image ≡ Some h → (after r me o).headers image ≡ Some k → IsLaterOf h k }
    ensures dated { (r : Records) (me : Instance) (o : Op) (image snap : ℕ) (h : HeaderView)
        → r.headers image ≡ Some h → snap ≤ h.snap_seq → IsDated (after r me o) image snap }
{}

// ---- changes of the directory

/// `dir-add` that drew an id: the name is added, and the id is drawn and untouched.
pub fn adding_a_name()
    ensures stands { (pending : List Pending) (r : Records) (f : Flat) (me : Instance) (name : List ℕ) (image : ℕ)
        → StandsFor pending r f
        → answer_to r me (op.Directory (directory_op.Add name)) ≡ answer.Id image
        → StandsFor pending (after r me (op.Directory (directory_op.Add name)))
        (flat.after f (effect.Name name image)) }
    ensures untouched { (pending : List Pending) (r : Records) (f : Flat) (me : Instance) (name : List ℕ) (image : ℕ)
        → StandsFor pending r f
        → answer_to r me (op.Directory (directory_op.Add name)) ≡ answer.Id image
        → IsUntouched (after r me (op.Directory (directory_op.Add name)))
        (flat.after f (effect.Name name image)) image }
    ensures drawn { (r : Records) (me : Instance) (name : List ℕ) (image : ℕ)
        → answer_to r me (op.Directory (directory_op.Add name)) ≡ answer.Id image
        → IsDrawn (after r me (op.Directory (directory_op.Add name))) image }
{}

/// An id that was drawn stays drawn. An untouched one stays untouched under each operation that
/// isn't about it.
pub fn waiting_for_a_header()
    ensures drawn { (r : Records) (me : Instance) (o : Op) (image : ℕ) → IsDrawn r image
        → IsDrawn (after r me o) image }
    ensures untouched { (r : Records) (f g : Flat) (me : Instance) (o : Op) (image : ℕ) → IsUntouched r f image
        → is_about image o ≡ false → image_at g image ≡ image_at f image → IsUntouched (after r me o) g image }
{}

/// `dir-rename` that was done: the name is replaced.
pub fn renaming()
    ensures { (pending : List Pending) (r : Records) (f : Flat) (me : Instance) (from to : List ℕ)
        → StandsFor pending r f
        → answer_to r me (op.Directory (directory_op.Rename from to)) ≡ answer.Done
        → StandsFor pending (after r me (op.Directory (directory_op.Rename from to)))
        (flat.after f (effect.Rename from to)) }
{}

/// `dir-remove` that was done: no name leads to the image any more.
pub fn freeing_a_name()
    ensures { (pending : List Pending) (r : Records) (f : Flat) (me : Instance) (image : ℕ) → StandsFor pending r f
        → answer_to r me (op.Directory (directory_op.Remove image)) ≡ answer.Done
        → StandsFor pending (after r me (op.Directory (directory_op.Remove image)))
        (flat.after f (effect.NameFree image)) }
{}

// ---- changes of the list of children, and clones that are being made

/// `child-add`: the child is linked to the snapshot.
pub fn linking_a_child()
    ensures { (pending : List Pending) (r : Records) (f : Flat) (me : Instance) (parent snap child : ℕ)
        → StandsFor pending r f
        → answer_to r me (op.Children (children_op.Add parent snap child)) ≡ answer.Done
        → StandsFor pending (after r me (op.Children (children_op.Add parent snap child)))
        (flat.after f (effect.Link parent snap child)) }
{}

/// `child-remove` that was done, where neither a view of the child nor its making relies on the
/// snapshot: the link goes.
pub fn unlinking_a_child()
    ensures { (pending : List Pending) (r : Records) (f : Flat) (me : Instance) (parent snap child : ℕ)
        → StandsFor pending r f
        → IsFree pending r parent snap child
        → answer_to r me (op.Children (children_op.Remove parent snap child)) ≡ answer.Done
        → StandsFor pending (after r me (op.Children (children_op.Remove parent snap child)))
        (flat.after f (effect.Unlink parent snap child)) }
{}

/// A clone counts as being made from the moment on at which its link is there and the snapshot not
/// unprotected. So the snapshot stays, with its bytes, until the clone's header names it.
pub fn beginning_a_clone()
    ensures { (pending : List Pending) (r : Records) (f : Flat) (p : Pending) → StandsFor pending r f
        → IsAwaited (snapshots_of f) (links_of f p.child) p.link → StandsFor (p ∷ pending) r f }
{}

/// Clones may cease to count at any moment.
pub fn ending_clones()
    ensures { (pending fewer : List Pending) (r : Records) (f : Flat) → StandsFor pending r f
        → ((k : ℕ) (p : Pending) → slice_get fewer k ≡ Some p → (j : ℕ) × (slice_get pending j ≡ Some p))
        → StandsFor fewer r f }
{}

/// What a view of a header has as its parent is there: the snapshot isn't unprotected, is at least
/// as long as the overlap, and is linked to the child. So whoever reads behind a header that stays
/// the same finds the snapshot at each moment; and no step changes the bytes of a flat snapshot
/// that is there before and after it.
pub fn relying_on_a_snapshot()
    ensures there { (pending : List Pending) (r : Records) (f : Flat) (image : ℕ) (h : HeaderView)
        → StandsFor pending r f
        → r.headers image ≡ Some h → EachView h
        (λ v shape. HasParent (snapshots_of f) (links_of f image) shape.parent) }
    ensures same { (f : Flat) (e : Effect) (image snap : ℕ) (old new : FlatSnap) → snap_at f image snap ≡ Some old
        → snap_at (flat.after f e) image snap ≡ Some new → new.bytes ≡ old.bytes }
{}

// ---- changes of a header

/// `header-create` that was done at a drawn id that is untouched: an image of zeros.
pub fn making_a_header()
    ensures { (pending : List Pending) (r : Records) (f : Flat) (me : Instance) (image : ℕ) (view : HeaderView)
        → StandsFor pending r f
        → IsDrawn r image → IsUntouched r f image → IsNewHeader view → view.parent ≡ None
        → answer_to r me (op.Header image (header_op.Create view)) ≡ answer.Done
        → StandsFor pending (after r me (op.Header image (header_op.Create view)))
        (flat.after f (effect.Create image view.size view.role)) }
{}

/// `header-create` that was done at a drawn id that is untouched, with the parent that the clone
/// awaits: an image with a copy of the snapshot's bytes.
pub fn making_a_clone()
    ensures { (pending : List Pending) (r : Records) (f : Flat) (me : Instance) (image k : ℕ) (view : HeaderView)
        (link : ParentLink) → StandsFor pending r f
        → slice_get pending k ≡ Some (record { child = image; link = link })
        → IsDrawn r image → IsUntouched r f image → IsCloneHeader view link
        → answer_to r me (op.Header image (header_op.Create view)) ≡ answer.Done
        → StandsFor pending (after r me (op.Header image (header_op.Create view)))
        (flat.after f (effect.Clone image link.image link.snap)) }
{}

/// `header-snap-add` that was answered with a snapshot: a copy of the bytes.
pub fn taking_a_snapshot()
    ensures { (pending : List Pending) (r : Records) (f : Flat) (me : Instance) (image snap : ℕ) (name : List ℕ)
        → StandsFor pending r f
        → answer_to r me (op.Header image (header_op.SnapAdd name)) ≡ answer.Snap snap
        → StandsFor pending (after r me (op.Header image (header_op.SnapAdd name)))
        (flat.after f (effect.Snap image snap name)) }
{}

/// `header-snap-remove` that was done, of a snapshot that is no view's parent: it goes. An
/// unprotected one is no view's parent.
pub fn removing_a_snapshot()
    ensures stands { (pending : List Pending) (r : Records) (f : Flat) (me : Instance) (image snap : ℕ)
        → StandsFor pending r f → IsUnnamed pending r image snap
        → answer_to r me (op.Header image (header_op.SnapRemove snap)) ≡ answer.Done
        → StandsFor pending (after r me (op.Header image (header_op.SnapRemove snap)))
        (flat.after f (effect.Unsnap image snap)) }
    ensures unnamed { (pending : List Pending) (r : Records) (f : Flat) (image snap : ℕ) (h : HeaderView) (s : SnapView)
        → StandsFor pending r f
        → r.headers image ≡ Some h → snap_in h.snaps snap ≡ Some s → s.status ≡ Unprotected
        → IsUnnamed pending r image snap }
{}

/// `header-snap-status` that was done: the status is set. A snapshot that becomes unprotected is no
/// view's parent.
pub fn marking_a_snapshot()
    ensures { (pending : List Pending) (r : Records) (f : Flat) (me : Instance) (image snap : ℕ) (status : SnapStatus)
        → StandsFor pending r f
        → (status ≡ Unprotected → IsUnnamed pending r image snap)
        → answer_to r me (op.Header image (header_op.SnapStatus snap status)) ≡ answer.Done
        → StandsFor pending (after r me (op.Header image (header_op.SnapStatus snap status)))
        (flat.after f (effect.Status image snap status)) }
{}

/// `header-set-size` that was done, to a greater size or a smaller one: the image is lengthened by
/// zeros, or cut.
pub fn setting_the_size()
    ensures { (pending : List Pending) (r : Records) (f : Flat) (me : Instance) (image size : ℕ) (h : HeaderView)
        → StandsFor pending r f
        → r.headers image ≡ Some h → IsZeroedFrom h size (object_at r image)
        → answer_to r me (op.Header image (header_op.SetSize size)) ≡ answer.Done
        → StandsFor pending (after r me (op.Header image (header_op.SetSize size)))
        (flat.after f (effect.Size image size)) }
{}

/// `header-role` that was done: the role is set.
pub fn setting_the_role()
    ensures { (pending : List Pending) (r : Records) (f : Flat) (me : Instance) (image : ℕ) (role : Role)
        → StandsFor pending r f
        → answer_to r me (op.Header image (header_op.Role role)) ≡ answer.Done
        → StandsFor pending (after r me (op.Header image (header_op.Role role)))
        (flat.after f (effect.Role image role)) }
{}

/// `header-detach` that was done, once each object inside the overlap was copied up, has no effect.
pub fn detaching()
    ensures { (pending : List Pending) (r : Records) (f : Flat) (me : Instance) (image : ℕ) (h : HeaderView)
        → StandsFor pending r f
        → r.headers image ≡ Some h → ((number : ℕ) → IsCopiedUp h number (object_at r image number))
        → answer_to r me (op.Header image header_op.Detach) ≡ answer.Done
        → StandsFor pending (after r me (op.Header image header_op.Detach)) f }
{}

/// `header-remove` that was done of an image without snapshots: the image goes.
pub fn removing_a_header()
    ensures { (pending : List Pending) (r : Records) (f : Flat) (me : Instance) (image : ℕ) (h : HeaderView)
        → StandsFor pending r f
        → r.headers image ≡ Some h → h.snaps ≡ [] → answer_to r me (op.Header image header_op.Remove) ≡ answer.Done
        → StandsFor pending (after r me (op.Header image header_op.Remove)) (flat.after f (effect.Gone image)) }
{}

// ---- changes of an object

/// The context of a header: its number, and any list that has each snapshot that the header lists.
/// One of these is `context_of`, which has just those, newest first.
pub fn context_of_a_header()
    ensures any { (h : HeaderView) (context : SnapContext) → context.seq ≡ h.snap_seq
        → ((snap : ℕ) → IsTrue (is_listed (live_in (Some h)) snap) → IsTrue (is_listed context.snaps snap))
        → IsContextOf h context }
    ensures told { (h : HeaderView) → IsContextOf h (context_of h) }
{}

/// Any change of an object's head under the header's context: where the flat bytes change as
/// `ChangesObject` says, the records after it stand for them. Each operation below is one of these.
pub fn changing_a_head()
    ensures { (pending : List Pending) (r : Records) (f : Flat) (image number : ℕ) (h : HeaderView)
        (context : SnapContext) (new : Option (List ℕ)) (i : FlatImage) (bytes : List ℕ)
        → StandsFor pending r f → r.headers image ≡ Some h → image_at f image ≡ Some i → IsContextOf h context
        → ChangesObject (snapshots_of f) h number new i.bytes bytes
        → StandsFor pending (with_object image number (Some (mapped_change context new (object_at r image number))) r)
        (with_image f image (λ j. record j { bytes = bytes })) }
{}

/// `data-write` that was done: the bytes go to the image places of the parts.
pub fn writing_an_object()
    ensures { (pending : List Pending) (r : Records) (f : Flat) (me : Instance) (image number : ℕ) (h : HeaderView)
        (context : SnapContext) (must : Bool) (parts : List Part) (bytes : List ℕ)
        → StandsFor pending r f → r.headers image ≡ Some h → IsContextOf h context → MayWriteParts parts bytes
        → ArePartsBelow h h.size number parts → IsCopiedUp h number (object_at r image number)
        → answer_to r me (op.Data image number (data_op.Write context must parts bytes)) ≡ answer.Done
        → StandsFor pending (after r me (op.Data image number (data_op.Write context must parts bytes)))
        (flat.after f (effect.Piece image (extents_of parts) bytes)) }
{}

/// `data-zero` that was done: the image places of the parts become zeros.
pub fn zeroing_an_object()
    ensures { (pending : List Pending) (r : Records) (f : Flat) (me : Instance) (image number : ℕ) (h : HeaderView)
        (context : SnapContext) (must : Bool) (parts : List Part)
        → StandsFor pending r f → r.headers image ≡ Some h → IsContextOf h context
        → All (IsPart h.layout number) parts → IsCopiedUp h number (object_at r image number)
        → answer_to r me (op.Data image number (data_op.Zero context must parts)) ≡ answer.Done
        → StandsFor pending (after r me (op.Data image number (data_op.Zero context must parts)))
        (flat.after f (effect.Zero image (extents_of parts))) }
{}

/// `data-empty` that was done: all places of the object become zeros.
pub fn emptying_an_object()
    ensures { (pending : List Pending) (r : Records) (f : Flat) (me : Instance) (image number : ℕ) (h : HeaderView)
        (context : SnapContext) (parts : List Part)
        → StandsFor pending r f → r.headers image ≡ Some h → IsContextOf h context → AreWhole h number parts
        → answer_to r me (op.Data image number (data_op.Empty context)) ≡ answer.Done
        → StandsFor pending (after r me (op.Data image number (data_op.Empty context)))
        (flat.after f (effect.Zero image (extents_of parts))) }
{}

/// `data-remove` that was done of an object outside the overlap: all its places become zeros.
pub fn removing_an_object()
    ensures { (pending : List Pending) (r : Records) (f : Flat) (me : Instance) (image number : ℕ) (h : HeaderView)
        (context : SnapContext) (parts : List Part)
        → StandsFor pending r f → r.headers image ≡ Some h → IsContextOf h context → AreWhole h number parts
        → (IsInside h number → ⊥)
        → answer_to r me (op.Data image number (data_op.Remove context)) ≡ answer.Done
        → StandsFor pending (after r me (op.Data image number (data_op.Remove context)))
        (flat.after f (effect.Zero image (extents_of parts))) }
{}

/// `data-write-full` that was done: the bytes go to the object's places in order, and places past
/// them become zeros.
pub fn replacing_an_object()
    ensures { (pending : List Pending) (r : Records) (f : Flat) (me : Instance) (image number : ℕ) (h : HeaderView)
        (context : SnapContext) (bytes : List ℕ) (parts : List Part)
        → StandsFor pending r f → r.headers image ≡ Some h → IsContextOf h context → AreWhole h number parts
        → IsZeroPast h number bytes
        → answer_to r me (op.Data image number (data_op.WriteFull context bytes)) ≡ answer.Done
        → StandsFor pending (after r me (op.Data image number (data_op.WriteFull context bytes)))
        (flat.after f (effect.Piece image (extents_of parts) bytes)) }
{}

/// `data-copy-up` of the bytes that the image inherits has no effect.
pub fn copying_up_an_object()
    ensures { (pending : List Pending) (r : Records) (f : Flat) (me : Instance) (image number : ℕ) (h : HeaderView)
        (bytes : List ℕ)
        → StandsFor pending r f → r.headers image ≡ Some h
        → MayCopyUp (snapshots_of f) h number (object_at r image number) bytes
        → answer_to r me (op.Data image number (data_op.CopyUp bytes)) ≡ answer.Done
        → StandsFor pending (after r me (op.Data image number (data_op.CopyUp bytes))) f }
{}

/// A write of bytes to an extent is its pieces, one after another: each has the bytes of its parts.
pub fn writing_piece_by_piece()
    ensures { (l : Layout) (e : Extent) (pieces : List Piece) (f : Flat) (image : ℕ) (bytes : List ℕ)
        → IsPieces l e pieces
        → flat.after_all f (piece_effects image e.at bytes pieces) ≡ flat.after f (effect.Piece image (e ∷ []) bytes) }
{}

// ---- effects

/// The effect of a change of an object whose parts lie as parts of the image below its size is at
/// just these parts, with just these bytes, and that of a change of a whole object at all of its
/// parts: so it is the one that the change's law names.
pub fn effects_of_objects()
    ensures write { (h : HeaderView) (image number : ℕ) (context : SnapContext) (must : Bool) (parts : List Part)
        (bytes : List ℕ)
        → IsLayout h.layout → ArePartsBelow h h.size number parts → MayWriteParts parts bytes
        → effect_of_data image number h (data_op.Write context must parts bytes)
        ≡ Some (effect.Piece image (extents_of parts) bytes) }
    ensures zero { (h : HeaderView) (image number : ℕ) (context : SnapContext) (must : Bool) (parts : List Part)
        → IsLayout h.layout → ArePartsBelow h h.size number parts
        → effect_of_data image number h (data_op.Zero context must parts)
        ≡ Some (effect.Zero image (extents_of parts)) }
    ensures replace { (h : HeaderView) (image number : ℕ) (context : SnapContext) (bytes : List ℕ) (parts : List Part)
        → IsLayout h.layout → AreWhole h number parts
        → effect_of_data image number h (data_op.WriteFull context bytes)
        ≡ Some (effect.Piece image (extents_of parts) bytes) }
    ensures empty { (h : HeaderView) (image number : ℕ) (context : SnapContext) (parts : List Part)
        → IsLayout h.layout → AreWhole h number parts
        → effect_of_data image number h (data_op.Empty context) ≡ Some (effect.Zero image (extents_of parts)) }
    ensures remove { (h : HeaderView) (image number : ℕ) (context : SnapContext) (parts : List Part)
        → IsLayout h.layout → AreWhole h number parts
        → effect_of_data image number h (data_op.Remove context) ≡ Some (effect.Zero image (extents_of parts)) }
{}

/// What has no effect: a look; an operation that isn't answered done, with an id or with a
/// snapshot, and so all that a fenced instance does; what is done to parts that a flat site doesn't
/// have, or to objects of an image without a header; a copy-up; and each step of the store.
pub fn what_has_no_effect()
    ensures look { (r : Records) (o : Op) (a : Answer) → IsTrue (is_look o) → effect_of r (done.Op o) a ≡ None }
    ensures refused { (r : Records) (o : Op) (a : Answer) → IsFalse (may_have_changed a)
        → effect_of r (done.Op o) a ≡ None }
    ensures fenced { (r : Records) (o : Op) → effect_of r (done.Op o) answer.Fenced ≡ None }
    ensures unseen { (r : Records) (image : ℕ) (o : HeaderOp) (a : Answer) → is_unseen o ≡ true
        → effect_of r (done.Op (op.Header image o)) a ≡ None }
    ensures listed { (r : Records) (i : Instance) (a : Answer) → effect_of r (done.Op (op.BlockAdd i)) a ≡ None }
    ensures missing { (r : Records) (image number : ℕ) (o : DataOp) (a : Answer) → r.headers image ≡ None
        → effect_of r (done.Op (op.Data image number o)) a ≡ None }
    ensures copied { (r : Records) (image number : ℕ) (bytes : List ℕ) (a : Answer)
        → effect_of r (done.Op (op.Data image number (data_op.CopyUp bytes))) a ≡ None }
    ensures trimmed { (r : Records) (image object : ℕ) (a : Answer) → effect_of r (done.Trim image object) a ≡ None }
    ensures expired { (r : Records) (image : ℕ) (i : Instance) (a : Answer)
        → effect_of r (done.Expire image i) a ≡ None }
{}
