//! What operations on object maps do to the relation `StandsFor`, and that maps cover the objects:
//! laws, each the contract of a function that does nothing.
ghost use Rattle.std.specs.Prelude.{◌≡◌, ℕ, ◌≤◌, List, [], Option, Some, None, unwrap_or, slice_index, IsFalse};
ghost use Rattle.rbd_kinds.specs.declared.answer.Answer.{Answer};
ghost use Rattle.rbd_kinds.specs.declared.header.HeaderView.{HeaderView};
ghost use Rattle.rbd_kinds.specs.declared.id.Instance.{Instance};
ghost use Rattle.rbd_kinds.specs.declared.map_op.MapOp.{MapOp};
ghost use Rattle.rbd_kinds.specs.declared.operation.Op.{Op};
ghost use Rattle.rbd_kinds.specs.declared.operation.Op.TheVariants as op;
ghost use Rattle.rbd_kinds.specs.Striping.{object_of, offset_of};
ghost use Rattle.rbd_flat.specs.Flat.{Flat};
ghost use Rattle.rbd_site.specs.declared.done.DoneOp.TheVariants as done;
ghost use Rattle.rbd_site.specs.Log.{expired_by, trimmed};
ghost use Rattle.rbd_site.specs.Records.{Records, no_records, object_at};
ghost use Rattle.rbd_site.specs.Step.{MayDo, after, is_fenced};
ghost use Rattle.rbd_stands.specs.Covering.{KeepsCover, MapsCover};
ghost use Rattle.rbd_stands.specs.Effect.{effect_of};
ghost use Rattle.rbd_stands.specs.Site.{StandsFor, Pending};

/// A flat site has no object maps: any operation on one leaves it, and has no effect.
pub fn maps_are_unseen()
    ensures stands { (pending : List Pending) (r : Records) (f : Flat) (me : Instance) (image : ℕ) (o : MapOp)
        → StandsFor pending r f
        → StandsFor pending (after r me (op.Map image o)) f }
    ensures effect { (r : Records) (image : ℕ) (o : MapOp) (a : Answer) → effect_of r (done.Op (op.Map image o)) a
        ≡ None }
{}

/// Maps cover the objects at first, and each operation leaves them so that meets its condition
/// (`KeepsCover`): a state is raised before an object is made, and lowered after it went. Whatever
/// a fenced instance does, and each step of the store, leaves them so too. So state 0 at a view
/// means at every moment that the object is absent there.
pub fn maps_go_on_to_cover()
    ensures first { MapsCover no_records }

    ensures operation { (pending : List Pending) (r : Records) (f : Flat) (me : Instance) (o : Op)
        → StandsFor pending r f → MapsCover r
        → MayDo r me o → (IsFalse (is_fenced r me) → KeepsCover r o) → MapsCover (after r me o) }

    ensures trim { (r : Records) (image number : ℕ) → MapsCover r → MapsCover (trimmed image number r) }

    ensures expiry { (r : Records) (image : ℕ) (oldest : Option Instance) → MapsCover r
        → MapsCover (expired_by image oldest r) }
{}

/// A head has zeros at each place at and past the image's size. So a size may grow at any moment,
/// and what it gains is zeros.
pub fn past_the_size_are_zeros()
    ensures { (pending : List Pending) (r : Records) (f : Flat) (image x : ℕ) (h : HeaderView) → StandsFor pending r f
        → r.headers image ≡ Some h → h.size ≤ x
        → slice_index (unwrap_or (object_at r image (object_of h.layout x)).head []) (offset_of h.layout x) ≡ 0 }
{}
