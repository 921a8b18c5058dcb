//! What the definitions of a site's operations mean: each law is the contract of a function that
//! does nothing.
ghost use Rattle.std.specs.Prelude.{◌≡◌, ◌≢◌, ℕ, ◌+◌, ◌≤◌, List, Option, Some, IsFalse, IsTrue};
ghost use Rattle.rbd_kinds.specs.declared.answer.Answer.TheVariants as answer;
ghost use Rattle.rbd_kinds.specs.declared.header.HeaderView.{HeaderView};
ghost use Rattle.rbd_kinds.specs.declared.id.Instance.{Instance};
ghost use Rattle.rbd_kinds.specs.declared.id.SiteId.{SiteId};
ghost use Rattle.rbd_kinds.specs.declared.map_op.MapOp.TheVariants as map_op;
ghost use Rattle.rbd_kinds.specs.declared.notice.Notice.{Notice};
ghost use Rattle.rbd_kinds.specs.declared.operation.Op.{Op};
ghost use Rattle.rbd_kinds.specs.declared.operation.Op.TheVariants as op_on;
ghost use Rattle.rbd_object.specs.Mapped.{versioned};
ghost use Rattle.rbd_object.specs.Versioned.{view};
ghost use Rattle.rbd_site.specs.InForm.{AreInForm};
ghost use Rattle.rbd_site.specs.Laws.{is_block_add, may_have_changed, is_look, is_on_children, is_on_directory, is_on_header, is_on_lock, is_on_map, is_on_object};
ghost use Rattle.rbd_site.specs.Log.{expired, trimmed};
ghost use Rattle.rbd_site.specs.MapStep.{AreBits};
ghost use Rattle.rbd_site.specs.Records.{Records, no_records, object_at};
ghost use Rattle.rbd_site.specs.Step.{MayDo, is_fenced, answer_to, after, mail_after};

/// An operation changes at most the object that it is on.
pub fn operations_change_one_object()
    ensures directory { (r : Records) (me : Instance) (op : Op)
        → IsFalse (is_on_directory op) → (after r me op).directory ≡ r.directory }

    ensures children { (r : Records) (me : Instance) (op : Op)
        → IsFalse (is_on_children op) → (after r me op).children ≡ r.children }

    ensures blocklist { (r : Records) (me : Instance) (op : Op)
        → IsFalse (is_block_add op) → (after r me op).blocklist ≡ r.blocklist }

    ensures header { (r : Records) (me : Instance) (op : Op) (image : ℕ)
        → IsFalse (is_on_header image op) → (after r me op).headers image ≡ r.headers image }

    ensures watchers { (r : Records) (me : Instance) (op : Op) (image : ℕ)
        → IsFalse (is_on_header image op) → (after r me op).watchers image ≡ r.watchers image }

    ensures map { (r : Records) (me : Instance) (op : Op) (image : ℕ) (view : Option ℕ)
        → IsFalse (is_on_map image view op) → (after r me op).maps image view ≡ r.maps image view }

    ensures object { (r : Records) (me : Instance) (op : Op) (image number : ℕ)
        → IsFalse (is_on_object image number op) → (after r me op).objects image number ≡ r.objects image number }
{}

/// An operation of a listed instance is answered `fenced`, changes no record and posts no notice,
/// whatever it is. No other operation is answered so.
pub fn fenced_instances_do_nothing()
    ensures answer { (r : Records) (me : Instance) (op : Op) → IsTrue (is_fenced r me)
        → answer_to r me op ≡ answer.Fenced }

    ensures records { (r : Records) (me : Instance) (op : Op) → IsTrue (is_fenced r me) → after r me op ≡ r }

    ensures mail { (site : SiteId) (r : Records) (me : Instance) (op : Op) (mail : List Notice)
        → IsTrue (is_fenced r me) → mail_after site r me op mail ≡ mail }

    ensures others { (r : Records) (me : Instance) (op : Op) → answer_to r me op ≡ answer.Fenced
        → IsTrue (is_fenced r me) }
{}

/// An instance that is listed in the blocklist stays listed, and only an operation that lists an
/// instance lists it.
pub fn the_fence_stays()
    ensures listed { (r : Records) (me i : Instance) → IsFalse (is_fenced r me)
        → IsTrue (is_fenced (after r me (op_on.BlockAdd i)) i) }

    ensures operation { (r : Records) (me i : Instance) (op : Op) → IsTrue (is_fenced r i)
        → IsTrue (is_fenced (after r me op) i) }

    ensures others { (r : Records) (me i other : Instance)
        → other ≢ i → is_fenced (after r me (op_on.BlockAdd i)) other ≡ is_fenced r other }
{}

/// An operation changes something only if it is answered done, with an id, or with a snapshot.
pub fn other_answers_change_nothing()
    ensures { (r : Records) (me : Instance) (op : Op) → IsFalse (may_have_changed (answer_to r me op))
        → after r me op ≡ r }
{}

/// A look changes nothing.
pub fn looks_change_nothing()
    ensures { (r : Records) (me : Instance) (op : Op) → IsTrue (is_look op) → after r me op ≡ r }
{}

/// As long as an image has a header, its generation never falls, and an operation that leaves the
/// generation leaves all of the header but its lock. So between two looks with one generation the
/// header was the same all the time, but for its owner.
pub fn changes_raise_the_generation()
    ensures lasts { (r : Records) (me : Instance) (op : Op) (image : ℕ) (old new : HeaderView)
        → r.headers image ≡ Some old → (after r me op).headers image ≡ Some new → old.generation ≤ new.generation }

    ensures same { (r : Records) (me : Instance) (op : Op) (image : ℕ) (old new : HeaderView)
        → r.headers image ≡ Some old → (after r me op).headers image ≡ Some new → IsFalse (is_on_lock op)
        → new.generation ≡ old.generation → new ≡ old }

    ensures lock { (r : Records) (me : Instance) (op : Op) (image : ℕ) (old new : HeaderView)
        → r.headers image ≡ Some old → (after r me op).headers image ≡ Some new → IsTrue (is_on_lock op)
        → new ≡ record old { owner = new.owner } }
{}

/// No operation changes what an object shows at a snapshot whose number is at most the object's.
/// Only a trim for which the snapshot isn't live takes that away.
pub fn operations_leave_snapshots()
    ensures { (r : Records) (me : Instance) (op : Op) (image number snap : ℕ)
        → snap ≤ (object_at r image number).seq
        → view (versioned (object_at (after r me op) image number)) (Some snap)
        ≡ view (versioned (object_at r image number)) (Some snap) }
{}

/// Headers and maps are in form at first, and each operation that may be done, each trim and each
/// end of a watch leaves them so. Nobody watches a header that isn't there, and nobody watches one
/// twice. No operation raises a generation by more than one.
pub fn headers_stay_in_form()
    ensures first { AreInForm no_records 0 }

    ensures operation { (r : Records) (me : Instance) (op : Op) (most : ℕ)
        → AreInForm r most → MayDo r me op → AreInForm (after r me op) (most + 1) }

    ensures trim { (r : Records) (image number most : ℕ) → AreInForm r most
        → AreInForm (trimmed image number r) (most + 1) }

    ensures expiry { (r : Records) (image most : ℕ) (i : Instance) → AreInForm r most
        → AreInForm (expired image i r) (most + 1) }
{}

/// What a look at an object map tells holds no state 3 and is of at most 2^20 objects. So it may be
/// put as the map of a snapshot.
pub fn what_a_map_tells_may_be_put()
    ensures { (r : Records) (me : Instance) (image most : ℕ) (view : Option ℕ) (bits : List ℕ)
        → AreInForm r most → answer_to r me (op_on.Map image (map_op.Get view)) ≡ answer.Bits bits → AreBits bits }
{}
