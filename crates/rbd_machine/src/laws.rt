//! What plans mean: laws, each the contract of a function that does nothing.
ghost use Rattle.std.specs.Prelude.{◌≡◌, ◌≢◌, ◌⊎◌, ℕ, ◌<◌, ◌≤◌, ◌+◌, ◌*◌, List, [], ◌∷◌, length, Bool, true, false, IsFalse, Option, Some, None};
ghost use Rattle.rbd_kinds.specs.declared.children_op.ChildrenOp.TheVariants.{Remove as RemoveChild};
ghost use Rattle.rbd_kinds.specs.declared.data_op.DataOp.TheVariants.{Empty, Remove, Write, WriteFull, Zero};
ghost use Rattle.rbd_kinds.specs.declared.directory_op.DirectoryOp.TheVariants.{Remove as FreeName};
ghost use Rattle.rbd_kinds.specs.declared.header.ParentLink.{ParentLink};
ghost use Rattle.rbd_kinds.specs.declared.header.SnapContext.{SnapContext};
ghost use Rattle.rbd_kinds.specs.declared.header.SnapStatus.{SnapStatus as Status};
ghost use Rattle.rbd_kinds.specs.declared.header.SnapStatus.TheVariants.{Unprotected};
ghost use Rattle.rbd_kinds.specs.declared.header.SnapView.{SnapView};
ghost use Rattle.rbd_kinds.specs.declared.header_op.HeaderOp.TheVariants.{Create, Get, LockBreak, LockDrop, Remove as RemoveHeader, SetSize, SnapAdd, SnapRemove, SnapStatus};
ghost use Rattle.rbd_kinds.specs.declared.layout.Part.{Part};
ghost use Rattle.rbd_kinds.specs.declared.map_op.MapOp.TheVariants.{Remove as RemoveMap, Set};
ghost use Rattle.rbd_kinds.specs.declared.operation.Op.{Op};
ghost use Rattle.rbd_kinds.specs.declared.operation.Op.TheVariants.{BlockAdd, Children, Data, Directory, Header, Map};
ghost use Rattle.rbd_header.specs.Header.{context_of, snap_in};
ghost use Rattle.rbd_machine.specs.Knowledge.{ImagePlace, Knowledge, is_absent, is_fenced_by, is_gone, is_raised, learned, maps_of, objects_known_of, only_there, own_of, same_site, known_after_wait};
ghost use Rattle.rbd_machine.specs.Permits.{Permits};
ghost use Rattle.rbd_kinds.specs.declared.header.HeaderView.{HeaderView};
ghost use Rattle.rbd_kinds.specs.declared.id.Instance.{Instance};
ghost use Rattle.rbd_kinds.specs.declared.id.SiteId.{SiteId};
ghost use Rattle.rbd_kinds.specs.declared.sharing.Sharing.{Sharing};
ghost use Rattle.rbd_kinds.specs.declared.sharing.Sharing.TheVariants.{Shared};
ghost use Rattle.rbd_kinds.specs.Sharing.{is_alone};
ghost use Rattle.rbd_commands.specs.declared.refusal.Refusal.{Refusal};
ghost use Rattle.rbd_kinds.specs.declared.machine.Fed.{Fed};
ghost use Rattle.rbd_kinds.specs.declared.machine.Want.TheVariants.{Note, Op as WantsOp};
ghost use Rattle.rbd_kinds.specs.declared.operation_kind.OpKind.{OpKind};
ghost use Rattle.rbd_machine.specs.About.{GoByImage, IsLookAbove, IsOwnOp, NamesNoParent, image_of, look_up, owned_after, owned_behind};
ghost use Rattle.rbd_machine.specs.Ancestors.{IsAmong};
ghost use Rattle.rbd_machine.specs.AtLeast.{KnowsAtLeast};
ghost use Rattle.rbd_machine.specs.Label.{Label, IsFit};
ghost use Rattle.rbd_kinds.specs.declared.answer.Answer.{Answer};
ghost use Rattle.rbd_kinds.specs.declared.answer.Answer.TheVariants.{Changed, Done, Fenced, Header as Told};
ghost use Rattle.rbd_machine.specs.Answers.{CanBeFed};
ghost use Rattle.rbd_machine.specs.Lawful.{IsLawful, known_after};
ghost use Rattle.rbd_machine.specs.Plan.{Plan, Ask, Goto, IsAsking, IsLive, IsNoting, Wants, past_label, plan_after};
ghost use Rattle.rbd_machine.specs.declared.reason.Reason.{Reason};
ghost use Rattle.rbd_machine.specs.Path.{Answered, IsPath, IsPass, IsWalk, IsBounded};
ghost use Rattle.rbd_machine.specs.Passes.{EndsInPass, jumps};
ghost use Rattle.rbd_machine.specs.OwnSteps.{AsksOwnAtMost, own_steps};
ghost use Rattle.rbd_machine.specs.Possible.{IsFedPossible, IsPossible};
ghost use Rattle.rbd_machine.specs.Refused.{AreGiven, IsRefused, IsRefusedBy, IsRefusedWith, refusal_by};
ghost use Rattle.rbd_machine.specs.Standalone.{IsFedStandalone};
ghost use Rattle.rbd_machine.specs.Steps.{change_plan};
ghost use Rattle.rbd_machine.specs.Wait.{Wait};
ghost use Rattle.rbd_machine.specs.Wait as waits;

/// A request that wants an operation has one to ask for, and where one wants an event noted, its
/// plan says which.
pub fn what_is_wanted_is_there()
    ensures operation { (plan : Plan) (site : SiteId) (kind : OpKind)
        → IsLive plan → Wants plan (WantsOp site kind) → IsAsking plan }
    ensures event { (plan : Plan) (site : SiteId) (image : ℕ)
        → IsLive plan → Wants plan (Note site image) → IsNoting plan }
{}

/// The operations that a request asks for, with the answers that it is fed, are a path of its plan,
/// whatever else it is fed in between. Each label of the plan stands at an operation.
pub fn walks_are_paths()
    ensures { (labels : Label → Plan) → ((label : Label) → IsAsking (labels label))
        → (feds : List Fed) (plan : Plan) (steps : List Answered) (last : Plan)
        → IsWalk labels plan feds steps last → IsPath labels plan steps }
{}

/// A path has at most as many operations as its plan, up to its end or to a label.
pub fn paths_keep_bounds()
    ensures { (n : ℕ) (plan : Plan) (path : List Answered) → IsBounded plan n → IsPass plan path → length path ≤ n }
{}

/// A walk that goes to labels consists of passes: each begins where the one before it went to its
/// own label, and the last one ends where the walk does, and goes to no label. The steps of the
/// walk are those of its passes.
pub fn walks_end_in_a_pass()
    ensures { (labels : Label → Plan) (plan : Plan) (feds : List Fed) (steps : List Answered) (last : Plan)
        → IsWalk labels plan feds steps last → EndsInPass labels plan steps last }
{}

/// A walk has at most as many operations as its plan, and beside these, for each label that it goes
/// to, at most as many as the plan at a label.
pub fn walks_keep_bounds()
    ensures { (labels : Label → Plan) (plan : Plan) (feds : List Fed) (steps : List Answered) (last : Plan) (n each : ℕ)
        → IsBounded plan n → ((label : Label) → IsBounded (labels label) each) → IsWalk labels plan feds steps last
        → length steps ≤ n + jumps labels plan feds * each }
{}

/// A pass has at most as many operations as its plan, but for looks above, at headers and snapshots
/// of images that the request neither found by their names nor made. These are left out of the
/// count, and nothing else is. So what a request does for its own image has a bound that doesn't go
/// by how many images that one was cloned from.
pub fn looks_above_are_apart()
    ensures bound { (images : List ImagePlace) (plan : Plan) (n : ℕ) (feds : List Fed) (steps : List Answered)
        (last : Plan)
        → AsksOwnAtMost images plan n → AreGiven steps → IsWalk Goto plan feds steps last
        → length (own_steps images steps) ≤ n }
    ensures others { (images : List ImagePlace) (step : Answered) (steps : List Answered)
        → IsLookAbove step.op → (IsOwnOp images step.site step.op → ⊥)
        → own_steps images (step ∷ steps) ≡ own_steps images steps }
    ensures own { (images : List ImagePlace) (step : Answered) (steps : List Answered)
        → IsOwnOp images step.site step.op ⊎ (IsLookAbove step.op → ⊥)
        → own_steps images (step ∷ steps) ≡ step ∷ own_steps (owned_after images step.site step.op step.answer) steps }
{}

/// A change has three operations up to its look under the lock, and then those of what it does.
pub fn changes_look_twice()
    ensures { (site : SiteId) (name : List ℕ) (sharing : Sharing) (refuses : HeaderView → Option Refusal)
        (act : ℕ → HeaderView → Plan) (n : ℕ)
        → ((image : ℕ) (h : HeaderView) → IsBounded (act image h) n)
        → IsBounded (change_plan site name sharing refuses act) (n + 3) }
{}

/// A request is refused by the fence, by what it was told of a name, or of its own images, which it
/// found by their names or made. Others' headers, as those of what its own was cloned from, refuse
/// nothing, be it that one is gone: what refuses it behind such a look does so all the same. Where no
/// header names a parent, no answer but the last refuses.
pub fn own_images_refuse()
    ensures own { (refuses : HeaderView → Option Refusal) (late : Refusal → Bool) (steps : List Answered)
        (x : Refusal) (by : IsRefusedBy refuses (λ y. late y ≡ true) steps x) (image : ℕ)
        → by.last.answer ≢ Fenced → image_of by.last.op ≡ Some image
        → IsAmong (record { site = by.last.site; image = image }) (owned_behind [] by.before) }
    ensures others { (images : List ImagePlace) (refuses : HeaderView → Option Refusal) (late : Refusal → Bool)
        (steps : List Answered) (x : Refusal) (site : SiteId) (image : ℕ) (answer : Answer)
        → answer ≢ Fenced → (IsAmong (record { site = site; image = image }) images → ⊥)
        → IsRefusedWith images refuses (λ y. late y ≡ true) steps x
        → IsRefusedWith images refuses (λ y. late y ≡ true)
        (record { site = site; op = Header image Get; answer = answer } ∷ steps) x }
    ensures alone { (refuses : HeaderView → Option Refusal) (late : Refusal → Bool) (site : SiteId) (name : List ℕ)
        (steps : List Answered) (x : Refusal)
        (is : IsRefused site (look_up name) refuses (λ y. late y ≡ true) steps x) → NamesNoParent site steps
        → (step : Answered) → IsAmong step is.by.before → refusal_by refuses step.op step.answer ≡ None }
{}

/// Behind the operation that told its image, a request asks for operations on that image, and where
/// no header names a parent, for none on others.
pub fn who_is_told_no_parent_looks_at_none()
    ensures { (site : SiteId) (ask : Op) (first : Answered) (others : List Answered)
        (by : GoByImage site ask first others) → NamesNoParent site others → (step : Answered) → IsAmong step others
        → (step.site ≡ site) × (image_of step.op ≡ Some by.image) }
{}

/// A request changes an image only after it read the header under the lock: before, no bytes are
/// written, cleared or replaced, no size is set, no snapshot is taken or removed, no name is freed
/// and no header removed. An object is removed with its image, or by the owner of the image.
pub fn what_is_not_owned_is_left()
    ensures bytes { (k : Knowledge) (site : SiteId) (image number : ℕ) (context : SnapContext) (must : Bool)
        (parts : List Part) (bytes : List ℕ)
        → own_of k.owns site image ≡ None → Permits k site (Data image number (Write context must parts bytes)) → ⊥ }
    ensures zeros { (k : Knowledge) (site : SiteId) (image number : ℕ) (context : SnapContext) (must : Bool)
        (parts : List Part)
        → own_of k.owns site image ≡ None → Permits k site (Data image number (Zero context must parts)) → ⊥ }
    ensures emptying { (k : Knowledge) (site : SiteId) (image number : ℕ) (context : SnapContext)
        → own_of k.owns site image ≡ None → Permits k site (Data image number (Empty context)) → ⊥ }
    ensures replacing { (k : Knowledge) (site : SiteId) (image number : ℕ) (context : SnapContext) (bytes : List ℕ)
        → own_of k.owns site image ≡ None → Permits k site (Data image number (WriteFull context bytes)) → ⊥ }
    ensures object { (k : Knowledge) (site : SiteId) (image number : ℕ) (context : SnapContext)
        → own_of k.owns site image ≡ None → is_gone k.gone site image ≡ false
        → Permits k site (Data image number (Remove context)) → ⊥ }
    ensures size { (k : Knowledge) (site : SiteId) (image to : ℕ)
        → own_of k.owns site image ≡ None → Permits k site (Header image (SetSize to)) → ⊥ }
    ensures taking { (k : Knowledge) (site : SiteId) (image : ℕ) (name : List ℕ)
        → own_of k.owns site image ≡ None → Permits k site (Header image (SnapAdd name)) → ⊥ }
    ensures removing { (k : Knowledge) (site : SiteId) (image snap : ℕ)
        → own_of k.owns site image ≡ None → Permits k site (Header image (SnapRemove snap)) → ⊥ }
    ensures name { (k : Knowledge) (site : SiteId) (image : ℕ)
        → own_of k.owns site image ≡ None → Permits k site (Directory (FreeName image)) → ⊥ }
    ensures header { (k : Knowledge) (site : SiteId) (image : ℕ)
        → own_of k.owns site image ≡ None → Permits k site (Header image RemoveHeader) → ⊥ }
{}

/// A request that goes by its look under the lock may neither write under another snapshot context
/// than that look's, nor remove a snapshot that the look lists as protected.
pub fn the_look_under_lock_decides()
    ensures context { (k : Knowledge) (site : SiteId) (image number : ℕ) (sharing : Sharing) (h : HeaderView)
        (context : SnapContext) (must : Bool) (parts : List Part) (bytes : List ℕ)
        → own_of k.owns site image ≡ Some (record { site = site; image = image; sharing = sharing; header = Some h })
        → Permits k site (Data image number (Write context must parts bytes)) → context ≡ context_of h }
    ensures protected { (k : Knowledge) (site : SiteId) (image snap : ℕ) (sharing : Sharing) (h : HeaderView)
        (listed : SnapView)
        → own_of k.owns site image ≡ Some (record { site = site; image = image; sharing = sharing; header = Some h })
        → snap_in h.snaps snap ≡ Some listed → (listed.status ≡ Unprotected → ⊥)
        → Permits k site (Header image (SnapRemove snap)) → ⊥ }
{}

/// The object map is updated before the data, the snapshot, the image or the larger size that it
/// covers. A state goes down only after its object is gone.
pub fn maps_come_first()
    ensures bytes { (k : Knowledge) (site : SiteId) (image number : ℕ) (context : SnapContext) (must : Bool)
        (parts : List Part) (bytes : List ℕ)
        → is_raised None number (maps_of k.maps site image).raised ≡ false
        → Permits k site (Data image number (Write context must parts bytes)) → ⊥ }
    ensures emptying { (k : Knowledge) (site : SiteId) (image number : ℕ) (context : SnapContext)
        → is_raised None number (maps_of k.maps site image).raised ≡ false
        → Permits k site (Data image number (Empty context)) → ⊥ }
    ensures replacing { (k : Knowledge) (site : SiteId) (image number : ℕ) (context : SnapContext) (bytes : List ℕ)
        → is_raised None number (maps_of k.maps site image).raised ≡ false
        → Permits k site (Data image number (WriteFull context bytes)) → ⊥ }
    ensures lowering { (k : Knowledge) (site : SiteId) (image number : ℕ)
        → is_absent number (objects_known_of k.objects site image).absent ≡ false
        → Permits k site (Map image (Set None number 0)) → ⊥ }
    ensures taking { (k : Knowledge) (site : SiteId) (image : ℕ) (name : List ℕ)
        → (maps_of k.maps site image).put ≡ None → Permits k site (Header image (SnapAdd name)) → ⊥ }
    ensures making { (k : Knowledge) (site : SiteId) (image : ℕ) (view : HeaderView)
        → (maps_of k.maps site image).count ≡ None → Permits k site (Header image (Create view)) → ⊥ }
    ensures growing { (k : Knowledge) (site : SiteId) (image to : ℕ) (sharing : Sharing) (h : HeaderView)
        → own_of k.owns site image ≡ Some (record { site = site; image = image; sharing = sharing; header = Some h })
        → h.size < to
        → (maps_of k.maps site image).count ≡ None → Permits k site (Header image (SetSize to)) → ⊥ }
{}

/// Who removed a header knows that it is gone, owns the image no more, and knows that the head's
/// map is there until it removes that too.
pub fn a_removed_header_leaves_its_map()
    ensures gone { (k : Knowledge) (site : SiteId) (image : ℕ)
        → is_gone (learned k site (Header image RemoveHeader) Done).gone site image ≡ true }
    ensures unowned { (k : Knowledge) (site : SiteId) (image : ℕ)
        → own_of (learned k site (Header image RemoveHeader) Done).owns site image ≡ None }
    ensures map { (k : Knowledge) (site : SiteId) (image : ℕ)
        → maps_of (learned k site (Header image RemoveHeader) Done).maps site image ≡ only_there }
    ensures once { (k : Knowledge) (site : SiteId) (image : ℕ)
        → Permits (learned k site (Map image (RemoveMap None)) Done) site (Map image (RemoveMap None)) → ⊥ }
{}

/// A lock is broken only by one that has put its owner into the site's blocklist. It is given up
/// only by one that waited for it, is alone on the image, and hasn't looked at its header since.
pub fn locks_end_by_what_is_known()
    ensures broken { (k : Knowledge) (site : SiteId) (image : ℕ) (owner : Instance)
        → is_fenced_by k.fenced site owner ≡ false → Permits k site (Header image (LockBreak owner)) → ⊥ }
    ensures unheld { (k : Knowledge) (site : SiteId) (image : ℕ)
        → own_of k.owns site image ≡ None → Permits k site (Header image LockDrop) → ⊥ }
    ensures shared { (k : Knowledge) (site : SiteId) (image : ℕ) (sharing : Sharing) (header : Option HeaderView)
        → IsFalse (is_alone sharing)
        → own_of k.owns site image ≡ Some (record { site = site; image = image; sharing = sharing; header = header })
        → Permits k site (Header image LockDrop) → ⊥ }
    ensures looked { (k : Knowledge) (site : SiteId) (image : ℕ) (sharing : Sharing) (h : HeaderView)
        → own_of k.owns site image ≡ Some (record { site = site; image = image; sharing = sharing; header = Some h })
        → Permits k site (Header image LockDrop) → ⊥ }
{}

/// A fence that was put up is known of that instance at that site, and of no other. Once the lock
/// was broken, or wasn't the owner's any more, the fence is forgotten: what is known then is what
/// was known before it.
pub fn fences_serve_once()
    ensures known { (k : Knowledge) (site : SiteId) (i : Instance)
        → is_fenced_by (learned k site (BlockAdd i) Done).fenced site i ≡ true }
    ensures others { (k : Knowledge) (site there : SiteId) (i other : Instance) → other ≢ i
        → is_fenced_by (learned k site (BlockAdd i) Done).fenced there other ≡ is_fenced_by k.fenced there other }
    ensures elsewhere { (k : Knowledge) (site there : SiteId) (i other : Instance) → IsFalse (same_site site there)
        → is_fenced_by (learned k site (BlockAdd i) Done).fenced there other ≡ is_fenced_by k.fenced there other }
    ensures broken { (k : Knowledge) (site : SiteId) (image : ℕ) (i : Instance)
        → learned (learned k site (BlockAdd i) Done) site (Header image (LockBreak i)) Done ≡ k }
    ensures changed { (k : Knowledge) (site : SiteId) (image : ℕ) (i : Instance)
        → learned (learned k site (BlockAdd i) Done) site (Header image (LockBreak i)) Changed ≡ k }
{}

/// A later look at a header agrees with each earlier one: a parent that was gone doesn't come back,
/// and a snapshot that is listed still has its size. Who waited for the lock of an image, and knows
/// its header, is told that one again, but for the owner of the lock; beside a flatten the parent
/// may have gone, and where it hasn't, nothing has changed.
pub fn later_looks_agree()
    ensures parent { (k : Knowledge) (site : SiteId) (image : ℕ) (was now : HeaderView)
        → IsPossible (learned k site (Header image Get) (Told was)) site (Header image Get) (Told now)
        → was.parent ≡ None → now.parent ≡ None }
    ensures snapshot { (k : Knowledge) (site : SiteId) (image : ℕ) (was now : HeaderView)
        → IsPossible (learned k site (Header image Get) (Told was)) site (Header image Get) (Told now)
        → (snap : ℕ) (old new : SnapView) → snap ≤ was.snap_seq → snap_in was.snaps snap ≡ Some old
        → snap_in now.snaps snap ≡ Some new → new.size ≡ old.size }
    ensures own { (k : Knowledge) (site : SiteId) (image : ℕ) (sharing : Sharing) (known now : HeaderView)
        → (sharing ≢ Shared) ⊎ (now.parent ≡ known.parent)
        → own_of k.owns site image ≡ Some
        (record { site = site; image = image; sharing = sharing; header = Some known })
        → IsPossible k site (Header image Get) (Told now) → now ≡ record known { owner = now.owner } }
{}

/// What a request knows of a child goes with the child's link, and once its header is made; and that
/// a snapshot has no child is forgotten once its status is set, and once its image is given up.
pub fn what_is_known_of_children_ends()
    ensures unlinked { (k : Knowledge) (site : SiteId) (image snap child : ℕ) (link : ParentLink)
        → link.image ≡ image → link.snap ≡ snap
        → IsAmong (record { site = site; child = child; link = link })
        (learned k site (Children (RemoveChild image snap child)) Done).based → ⊥ }
    ensures made { (k : Knowledge) (site : SiteId) (image : ℕ) (view : HeaderView) (link : ParentLink)
        → IsAmong (record { site = site; child = image; link = link })
        (learned k site (Header image (Create view)) Done).based → ⊥ }
    ensures marked { (k : Knowledge) (site : SiteId) (image snap : ℕ) (status : Status)
        → IsAmong (record { site = site; image = image; snap = snap })
        (learned k site (Header image (SnapStatus snap status)) Done).childless → ⊥ }
    ensures held { (k : Knowledge) (site : SiteId) (image snap : ℕ)
        → IsAmong (record { site = site; image = image; snap = snap })
        (known_after_wait k (waits.Hold site image)).childless → ⊥ }
    ensures left { (k : Knowledge) (site : SiteId) (image snap : ℕ)
        → IsAmong (record { site = site; image = image; snap = snap })
        (known_after_wait k (waits.Leave site image)).childless → ⊥ }
{}

/// Who knows at least as much may do as much, is told nothing that the other couldn't be told, and
/// goes on to know as much, whatever both are answered. So a plan that is lawful by what is known
/// at a label is so by more.
pub fn who_knows_more_may_do_more()
    ensures permits { (more less : Knowledge) (site : SiteId) (op : Op)
        → KnowsAtLeast more less → Permits less site op → Permits more site op }
    ensures told { (more less : Knowledge) (site : SiteId) (op : Op) (answer : Answer)
        → KnowsAtLeast more less → IsPossible more site op answer → IsPossible less site op answer }
    ensures learned { (more less : Knowledge) (site : SiteId) (op : Op) (answer : Answer)
        → KnowsAtLeast more less → KnowsAtLeast (learned more site op answer) (learned less site op answer) }
    ensures waited { (more less : Knowledge) (wait : Wait)
        → KnowsAtLeast more less → KnowsAtLeast (known_after_wait more wait) (known_after_wait less wait) }
    ensures lawful { (at : Label → Knowledge) (plan : Plan) (more less : Knowledge)
        → KnowsAtLeast more less → IsLawful at less plan → IsLawful at more plan }
{}

/// A lawful request asks only for what it may by what it knows. It stays lawful by what it knows
/// then, whatever it is fed that was possible by what it knew, as long as no header that it is told
/// has a parent or a journal.
pub fn lawful_requests_stay_lawful()
    ensures asks { (at : Label → Knowledge) (k : Knowledge) (site : SiteId) (why : Reason) (op : Op)
        (next : Answer → Plan)
        → IsLawful at k (Ask site why op next) → Permits k site op }
    ensures stays { (labels : Label → Plan) (at : Label → Knowledge)
        → ((label : Label) → IsFit label → IsLawful at (at label) (labels label))
        → (k : Knowledge) (plan : Plan) (f : Fed)
        → CanBeFed plan f → IsFedStandalone f → IsFedPossible k plan f → IsLawful at k plan
        → IsLawful at (known_after k plan f) (past_label labels (plan_after plan f)) }
{}
