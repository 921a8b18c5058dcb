//! What a request knows of single objects, and beside whom it makes zeros: laws, each the contract
//! of a function that does nothing.
ghost use Rattle.std.specs.Prelude.{◌≡◌, ℕ, List, Bool, true, false, IsFalse, Option, Some, None};
ghost use Rattle.rbd_kinds.specs.declared.answer.Answer.TheVariants.{Bytes, Done, Exists};
ghost use Rattle.rbd_kinds.specs.declared.data_op.DataOp.TheVariants.{CopyUp, Empty, Read, Remove, Write, WriteFull, Zero};
ghost use Rattle.rbd_kinds.specs.declared.header.HeaderView.{HeaderView};
ghost use Rattle.rbd_kinds.specs.declared.header.SnapContext.{SnapContext};
ghost use Rattle.rbd_kinds.specs.declared.header_op.HeaderOp.TheVariants.{Detach};
ghost use Rattle.rbd_kinds.specs.declared.id.SiteId.{SiteId};
ghost use Rattle.rbd_kinds.specs.declared.layout.Part.{Part};
ghost use Rattle.rbd_kinds.specs.declared.map_op.MapOp.TheVariants.{Set};
ghost use Rattle.rbd_kinds.specs.declared.operation.Op.TheVariants.{Data, Header, Map};
ghost use Rattle.rbd_kinds.specs.declared.sharing.Sharing.{Sharing};
ghost use Rattle.rbd_kinds.specs.declared.sharing.Sharing.TheVariants.{Alone, Flatten};
ghost use Rattle.rbd_kinds.specs.Sharing.{go_together, is_alone};
ghost use Rattle.rbd_machine.specs.Knowledge.{Knowledge, Own, is_absent, is_there, learned, objects_known_of, own_of};
ghost use Rattle.rbd_machine.specs.Permits.{Permits};

/// Who changed an object knows that it is there, and so does a copy-up that met it; who removed it
/// knows that it isn't. A read that shows bytes of its head tells that it is there where the
/// request is alone on the image, or has its turn at the object, and nothing where it isn't and
/// hasn't. A detach forgets which objects are there.
pub fn objects_are_known_by_what_was_done()
    ensures written { (k : Knowledge) (site : SiteId) (image number : ℕ) (context : SnapContext) (must : Bool)
        (parts : List Part) (bytes : List ℕ)
        → is_there number (objects_known_of
        (learned k site (Data image number (Write context must parts bytes)) Done).objects site image).there ≡ true }
    ensures replaced { (k : Knowledge) (site : SiteId) (image number : ℕ) (context : SnapContext) (bytes : List ℕ)
        → is_there number (objects_known_of
        (learned k site (Data image number (WriteFull context bytes)) Done).objects site image).there ≡ true }
    ensures emptied { (k : Knowledge) (site : SiteId) (image number : ℕ) (context : SnapContext)
        → is_there number (objects_known_of
        (learned k site (Data image number (Empty context)) Done).objects site image).there ≡ true }
    ensures zeroed { (k : Knowledge) (site : SiteId) (image number : ℕ) (context : SnapContext) (parts : List Part)
        → is_there number (objects_known_of
        (learned k site (Data image number (Zero context true parts)) Done).objects site image).there ≡ true }
    ensures copied { (k : Knowledge) (site : SiteId) (image number : ℕ) (bytes : List ℕ)
        → is_there number (objects_known_of
        (learned k site (Data image number (CopyUp bytes)) Done).objects site image).there ≡ true }
    ensures met { (k : Knowledge) (site : SiteId) (image number : ℕ) (bytes : List ℕ)
        → is_there number (objects_known_of
        (learned k site (Data image number (CopyUp bytes)) Exists).objects site image).there ≡ true }
    ensures removed { (k : Knowledge) (site : SiteId) (image number : ℕ) (context : SnapContext)
        → (is_absent number (objects_known_of
        (learned k site (Data image number (Remove context)) Done).objects site image).absent ≡ true)
        × (is_there number (objects_known_of
        (learned k site (Data image number (Remove context)) Done).objects site image).there ≡ false) }
    ensures alone { (k : Knowledge) (site : SiteId) (image number : ℕ) (parts : List Part) (bytes : List ℕ)
        (header : Option HeaderView)
        → own_of k.owns site image ≡ Some (record { site = site; image = image; sharing = Alone; header = header })
        → is_there number (objects_known_of
        (learned k site (Data image number (Read None parts)) (Bytes bytes)).objects site image).there ≡ true }
    ensures turn { (k : Knowledge) (site : SiteId) (image number : ℕ) (parts : List Part) (bytes : List ℕ) (own : Own)
        → own_of k.owns site image ≡ Some own → k.turn ≡ Some number
        → is_there number (objects_known_of
        (learned k site (Data image number (Read None parts)) (Bytes bytes)).objects site image).there ≡ true }
    ensures others { (k : Knowledge) (site : SiteId) (image number : ℕ) (parts : List Part) (bytes : List ℕ) (own : Own)
        → own_of k.owns site image ≡ Some own → IsFalse (is_alone own.sharing) → (k.turn ≡ Some number → ⊥)
        → (learned k site (Data image number (Read None parts)) (Bytes bytes)).objects ≡ k.objects }
    ensures detached { (k : Knowledge) (site : SiteId) (image number : ℕ)
        → is_there number (objects_known_of (learned k site (Header image Detach) Done).objects site image).there
        ≡ false }
{}

/// What makes zeros, removes an object or sets its state to 0 is done beside no flatten: that needs
/// each object which is there, and would fill again what became zero.
pub fn zeros_are_made_beside_no_flatten()
    ensures zeros { (k : Knowledge) (site : SiteId) (image number : ℕ) (context : SnapContext) (must : Bool)
        (parts : List Part) (sharing : Sharing) (h : HeaderView)
        → own_of k.owns site image ≡ Some (record { site = site; image = image; sharing = sharing; header = Some h })
        → Permits k site (Data image number (Zero context must parts)) → go_together sharing Flatten ≡ false }
    ensures emptying { (k : Knowledge) (site : SiteId) (image number : ℕ) (context : SnapContext) (sharing : Sharing)
        (h : HeaderView)
        → own_of k.owns site image ≡ Some (record { site = site; image = image; sharing = sharing; header = Some h })
        → Permits k site (Data image number (Empty context)) → go_together sharing Flatten ≡ false }
    ensures removing { (k : Knowledge) (site : SiteId) (image number : ℕ) (context : SnapContext) (sharing : Sharing)
        (h : HeaderView)
        → own_of k.owns site image ≡ Some (record { site = site; image = image; sharing = sharing; header = Some h })
        → Permits k site (Data image number (Remove context)) → go_together sharing Flatten ≡ false }
    ensures lowering { (k : Knowledge) (site : SiteId) (image number : ℕ) (sharing : Sharing) (h : HeaderView)
        → own_of k.owns site image ≡ Some (record { site = site; image = image; sharing = sharing; header = Some h })
        → Permits k site (Map image (Set None number 0)) → go_together sharing Flatten ≡ false }
{}
