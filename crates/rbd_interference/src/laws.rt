//! What requests may rely on, whatever the others do: each law is the contract of a function that
//! does nothing. A law speaks of any records of a site, and of what is known there.
ghost use Rattle.std.specs.Prelude.{◌≡◌, ◌≢◌, ℕ, List, [], ◌∷◌, slice_index, IsFalse, Some, None, true, false};
ghost use Rattle.rbd_kinds.specs.declared.answer.Answer.{Answer};
ghost use Rattle.rbd_kinds.specs.declared.answer.Answer.TheVariants as answered;
ghost use Rattle.rbd_kinds.specs.declared.data_op.DataOp.TheVariants as data_op;
ghost use Rattle.rbd_kinds.specs.declared.header.HeaderView.{HeaderView};
ghost use Rattle.rbd_kinds.specs.declared.id.Instance.{Instance};
ghost use Rattle.rbd_kinds.specs.declared.id.SiteId.{SiteId as Site};
ghost use Rattle.rbd_kinds.specs.declared.header_op.HeaderOp.TheVariants as header;
ghost use Rattle.rbd_kinds.specs.declared.layout.Part.{Part};
ghost use Rattle.rbd_kinds.specs.declared.operation.Op.{Op};
ghost use Rattle.rbd_kinds.specs.declared.operation.Op.TheVariants as on;
ghost use Rattle.rbd_kinds.specs.Striping.{object_of, offset_of};
ghost use Rattle.rbd_flat.specs.Flat.{Flat, FlatSnap};
ghost use Rattle.rbd_flat.specs.Laws.{snap_at};
ghost use Rattle.rbd_machine.specs.Ancestors.{HeaderSeen, KnowsByte, KnowsInherited, ObjectTold, seen_by, told_by};
ghost use Rattle.rbd_machine.specs.Knowledge.{Knowledge, nothing_known, is_drawn, is_gone, learned, known_after_wait, same_site};
ghost use Rattle.rbd_machine.specs.Permits.{Permits};
ghost use Rattle.rbd_machine.specs.Possible.{IsPossible};
ghost use Rattle.rbd_machine.specs.Refused.{IsGiven};
ghost use Rattle.rbd_machine.specs.Standalone.{TellsStandalone};
ghost use Rattle.rbd_machine.specs.Wait.{Wait};
ghost use Rattle.rbd_machine.specs.Wait as waits;
ghost use Rattle.rbd_site.specs.InForm.{AreInForm};
ghost use Rattle.rbd_site.specs.Log.{expired, trimmed};
ghost use Rattle.rbd_site.specs.Records.{Records, no_records};
ghost use Rattle.rbd_site.specs.Step.{MayDo, is_fenced, answer_to, after};
ghost use Rattle.rbd_site.specs.declared.done.DoneOp.TheVariants as done;
ghost use Rattle.rbd_stands.specs.Condition.{IsGathered};
ghost use Rattle.rbd_stands.specs.Effect.{effect_of};
ghost use Rattle.rbd_stands.specs.Shown.{snapshots_of};
ghost use Rattle.rbd_stands.specs.Site.{StandsFor};
ghost use Rattle.rbd_interference.specs.Ancestors.{AreSeenTrue, AreToldTrue, DrewNoneOf, HasReadTruly};
ghost use Rattle.rbd_interference.specs.Beside.{AreBeside, AreUnfenced, BreaksNothing, MayAct};
ghost use Rattle.rbd_interference.specs.Locks.{HasLockWhileFree, KnowsByLock, gives_up};
ghost use Rattle.rbd_stands.specs.Owned.{HasLock};
ghost use Rattle.rbd_interference.specs.Truth.{AreBasedElsewhere, AreMapped, AreRanked, IsTrueAt, AreStandalone, changed_by, known_header};
ghost use Rattle.rbd_interference.specs.Turns.{KnowsInTurn, KnowsOf};

/// Who knows nothing knows nothing false.
pub fn nothing_is_false_at_first()
    ensures { (site : Site) (r : Records) (me : Instance) → IsTrueAt site r me nothing_known }
{}

/// What a request of an instance `me` knows stays true while another request does what its own true
/// knowledge permits, and what it may do beside the first. `you` is the instance of that other
/// request, and may be the same one.
pub fn others_keep_what_is_known()
    ensures { (site : Site) (r : Records) (k j : Knowledge) (me you : Instance) (op : Op)
        → IsTrueAt site r me k → IsTrueAt site r you j → AreBeside site r me you k j → Permits j site op
        → MayAct site r you me j k op
        → IsTrueAt site (after r you op) me k }
{}

/// A trim by the store keeps what is known.
pub fn trims_keep_what_is_known()
    ensures { (site : Site) (r : Records) (me : Instance) (k : Knowledge) (image number : ℕ) → IsTrueAt site r me k
        → IsTrueAt site (trimmed image number r) me k }
{}

/// The end of a watch keeps what is known.
pub fn expiries_keep_what_is_known()
    ensures { (site : Site) (r : Records) (me : Instance) (k : Knowledge) (image : ℕ) (i : Instance)
        → IsTrueAt site r me k → IsTrueAt site (expired image i r) me k }
{}

/// What a request learns by an operation that is permitted to it is true after that operation.
pub fn answers_teach_what_is_true()
    ensures { (site : Site) (r : Records) (f : Flat) (k : Knowledge) (me : Instance) (op : Op) (most : ℕ)
        → StandsFor [] r f → AreInForm r most → AreMapped r → IsTrueAt site r me k → Permits k site op
        → IsTrueAt site (after r me op) me (learned k site op (answer_to r me op)) }
{}

/// What a site answers is possible by what its asker truly knows, whatever the others did
/// meanwhile: a header that is told is later than each one that the asker was told of the image, and
/// of an image whose lock it waited for it is the one that it knows, but for the owner; beside a
/// flatten the parent may have gone.
pub fn answers_are_possible()
    ensures { (site : Site) (r : Records) (me : Instance) (k : Knowledge) (op : Op) → IsTrueAt site r me k
        → IsPossible k site op (answer_to r me op) }
{}

/// A request of a fenced instance learns nothing.
pub fn fences_teach_nothing()
    ensures { (site : Site) (k : Knowledge) (op : Op) → learned k site op answered.Fenced ≡ k }
{}

/// What a request may count on after a wait is true.
pub fn waits_teach_what_is_true()
    ensures { (site : Site) (r : Records) (me : Instance) (k : Knowledge) (wait : Wait) → IsTrueAt site r me k
        → IsTrueAt site r me (known_after_wait k wait) }
{}

/// What a request learns at one site changes nothing of what it knows of the other: that stays
/// true, with what it read of snapshots there, and two requests stay beside each other.
pub fn sites_are_known_apart()
    ensures truth { (site other : Site) (r : Records) (me : Instance) (k : Knowledge) (op : Op) (answer : Answer)
        → IsFalse (same_site site other) → IsTrueAt other r me k → IsTrueAt other r me (learned k site op answer) }
    ensures reads { (site other : Site) (r : Records) (f : Flat) (k : Knowledge) (op : Op) (answer : Answer)
        → IsFalse (same_site site other) → HasReadTruly other r f k → HasReadTruly other r f (learned k site op answer) }
    ensures beside { (site other : Site) (r : Records) (me you : Instance) (k j : Knowledge) (op : Op) (answer : Answer)
        → IsFalse (same_site site other) → AreBeside other r me you k j
        → AreBeside other r me you (learned k site op answer) j }
{}

/// What a request was told of other images, whose lock it doesn't have, stays true whatever anybody
/// does that is permitted to him: a header that it was told stays an earlier one, and what it read
/// of a snapshot is so as long as the snapshot is listed. Nobody makes such an image anew: nobody
/// drew its id. Trims and ends of watches leave it true too.
pub fn what_was_told_stays_true()
    ensures headers { (site : Site) (r : Records) (j : Knowledge) (you : Instance) (op : Op) (seen : List HeaderSeen)
        → Permits j site op → DrewNoneOf site seen j → AreSeenTrue site r seen
        → AreSeenTrue site (after r you op) seen }
    ensures reads { (site : Site) (r : Records) (f : Flat) (j : Knowledge) (you : Instance) (op : Op) (most : ℕ)
        (seen : List HeaderSeen) (told : List ObjectTold)
        → StandsFor [] r f → AreInForm r most → AreStandalone r → AreMapped r → IsTrueAt site r you j
        → Permits j site op → DrewNoneOf site seen j → AreToldTrue site r f seen told
        → AreToldTrue site (after r you op) (changed_by f (effect_of r (done.Op op) (answer_to r you op)))
        seen told }
    ensures trim_headers { (site : Site) (r : Records) (seen : List HeaderSeen) (image number : ℕ)
        → AreSeenTrue site r seen → AreSeenTrue site (trimmed image number r) seen }
    ensures trim_reads { (site : Site) (r : Records) (f : Flat) (seen : List HeaderSeen) (told : List ObjectTold)
        (image number : ℕ)
        → AreToldTrue site r f seen told → AreToldTrue site (trimmed image number r) f seen told }
    ensures expiry_headers { (site : Site) (r : Records) (seen : List HeaderSeen) (image : ℕ) (i : Instance)
        → AreSeenTrue site r seen → AreSeenTrue site (expired image i r) seen }
    ensures expiry_reads { (site : Site) (r : Records) (f : Flat) (seen : List HeaderSeen) (told : List ObjectTold)
        (image : ℕ) (i : Instance)
        → AreToldTrue site r f seen told → AreToldTrue site (expired image i r) f seen told }
{}

/// A header that is told is true, and so is what is read of a snapshot once it has its date: a
/// header was told that could list it. More headers leave what was read true. So all that a request
/// read of snapshots is true behind each of its own operations, as it was before.
pub fn what_is_told_is_true()
    ensures header { (site : Site) (r : Records) (f : Flat) (me : Instance) (image : ℕ) (h : HeaderView)
        (seen : List HeaderSeen) → StandsFor [] r f
        → answer_to r me (on.Header image header.Get) ≡ answered.Header h → AreSeenTrue site r seen
        → AreSeenTrue site r (seen_by seen site (on.Header image header.Get) (answered.Header h)) }
    ensures bytes { (site : Site) (r : Records) (f : Flat) (me : Instance) (image snap number : ℕ) (parts : List Part)
        (bytes : List ℕ) (seen : List HeaderSeen) (told : List ObjectTold)
        → StandsFor [] r f
        → answer_to r me (on.Data image number (data_op.Read (Some snap) parts)) ≡ answered.Bytes bytes
        → AreSeenTrue site r seen → AreToldTrue site r f seen told
        → AreToldTrue site r f seen
        (told_by seen told site (on.Data image number (data_op.Read (Some snap) parts)) (answered.Bytes bytes)) }
    ensures absence { (site : Site) (r : Records) (f : Flat) (me : Instance) (image snap number : ℕ) (parts : List Part)
        (seen : List HeaderSeen) (told : List ObjectTold)
        → StandsFor [] r f → answer_to r me (on.Data image number (data_op.Read (Some snap) parts)) ≡ answered.Absent
        → AreSeenTrue site r seen → AreToldTrue site r f seen told
        → AreToldTrue site r f seen
        (told_by seen told site (on.Data image number (data_op.Read (Some snap) parts)) answered.Absent) }
    ensures more { (site : Site) (r : Records) (f : Flat) (e : HeaderSeen) (seen : List HeaderSeen)
        (told : List ObjectTold)
        → AreToldTrue site r f seen told → AreToldTrue site r f (e ∷ seen) told }
    ensures kept { (site : Site) (r : Records) (f : Flat) (k : Knowledge) (me : Instance) (op : Op) (most : ℕ)
        → StandsFor [] r f → AreInForm r most → AreStandalone r → AreMapped r → IsTrueAt site r me k
        → Permits k site op → HasReadTruly site r f k
        → HasReadTruly site (after r me op) (changed_by f (effect_of r (done.Op op) (answer_to r me op)))
        (learned k site op (answer_to r me op)) }
{}

/// A byte that is known of a snapshot, by what was read of it and of those below it at several
/// moments, is the flat snapshot's where that is there now. So who knows each byte that an object
/// inherits has gathered what a copy-up has to put there.
pub fn known_bytes_are_those_of_snapshots()
    ensures snapshot { (site : Site) (r : Records) (f : Flat) (seen : List HeaderSeen) (told : List ObjectTold)
        (image snap x byte : ℕ) (s : FlatSnap)
        → StandsFor [] r f → AreSeenTrue site r seen → AreToldTrue site r f seen told
        → KnowsByte told seen site image snap x byte
        → snap_at f image snap ≡ Some s → slice_index s.bytes x ≡ byte }
    ensures gathered { (site : Site) (r : Records) (f : Flat) (seen : List HeaderSeen) (told : List ObjectTold)
        (image number : ℕ) (h : HeaderView) (bytes : List ℕ)
        → StandsFor [] r f → AreSeenTrue site r seen → AreToldTrue site r f seen told → r.headers image ≡ Some h
        → ((x : ℕ) → object_of h.layout x ≡ number
        → KnowsInherited told seen site h.parent x (slice_index bytes (offset_of h.layout x)))
        → IsGathered (snapshots_of f) h number bytes }
{}

/// Two requests that are beside each other stay so: whatever one of them learns by an operation
/// that is permitted to it, and that it may do beside the other; whatever it waited for; and
/// whatever anybody else or the store does. It doesn't matter which of the two is named first.
pub fn requests_stay_beside()
    ensures answered { (site : Site) (r : Records) (k j : Knowledge) (me you : Instance) (op : Op)
        → IsTrueAt site r you j → AreBeside site r me you k j → Permits k site op → MayAct site r me you k j op
        → AreBeside site (after r me op) me you (learned k site op (answer_to r me op)) j }
    ensures waited { (site : Site) (r : Records) (me you : Instance) (k j : Knowledge) (wait : Wait)
        → AreBeside site r me you k j → AreBeside site r me you (known_after_wait k wait) j }
    ensures others { (site : Site) (r : Records) (him me you : Instance) (k j : Knowledge) (op : Op)
        → AreBeside site r me you k j → AreBeside site (after r him op) me you k j }
    ensures trim { (site : Site) (r : Records) (me you : Instance) (k j : Knowledge) (image number : ℕ)
        → AreBeside site r me you k j → AreBeside site (trimmed image number r) me you k j }
    ensures expiry { (site : Site) (r : Records) (me you i : Instance) (k j : Knowledge) (image : ℕ)
        → AreBeside site r me you k j → AreBeside site (expired image i r) me you k j }
    ensures first { (site : Site) (r : Records) (me you : Instance) (j : Knowledge)
        → AreBeside site r me you nothing_known j }
    ensures mutual { (site : Site) (r : Records) (me you : Instance) (k j : Knowledge) → AreBeside site r me you k j
        → AreBeside site r you me j k }
{}

/// A request that isn't alone on an image knows of an object only in its turn there, unless it is a
/// flatten, and nothing more once it waited for another turn, or for its event to count as applied.
/// Who knows that an object isn't there, or of zeros that it made, is one that makes zeros.
pub fn objects_are_known_in_their_turn()
    ensures first { KnowsInTurn nothing_known }
    ensures answered { (site : Site) (k : Knowledge) (op : Op) (answer : Answer) → KnowsInTurn k → Permits k site op
        → KnowsInTurn (learned k site op answer) }
    ensures waited { (k : Knowledge) (wait : Wait) → KnowsInTurn k → KnowsInTurn (known_after_wait k wait) }
    ensures turned { (site there : Site) (k : Knowledge) (image object of turn : ℕ)
        → (KnowsOf (known_after_wait k (waits.Turn turn)) site image object → ⊥)
        × (KnowsOf (known_after_wait k (waits.Applied there of)) site image object → ⊥) }
{}

/// A lock is broken only where its owner is fenced, so that nothing the owner knew of the image
/// rests on the lock any more. And where a request gives up a lock that is its own, or removes the
/// header with it, no request that goes beside it relies on the image's header.
pub fn nobody_relies_on_a_lock_that_ends()
    ensures broken { (site : Site) (r : Records) (me owner : Instance) (k : Knowledge) (image : ℕ)
        → IsTrueAt site r me k → Permits k site (on.Header image (header.LockBreak owner)) → is_fenced r owner ≡ true }
    ensures dropped { (site : Site) (r : Records) (me you : Instance) (k j : Knowledge) (image : ℕ)
        → AreUnfenced r me you → HasLock image me r
        → Permits k site (on.Header image header.LockDrop) → MayAct site r me you k j (on.Header image header.LockDrop)
        → known_header j site image ≡ None }
    ensures removed { (site : Site) (r : Records) (me you : Instance) (k j : Knowledge) (image : ℕ)
        → AreUnfenced r me you → AreBeside site r me you k j → Permits k site (on.Header image header.Remove)
        → known_header j site image ≡ None }
{}

/// A lock has one owner, as long as nobody is fenced. So two instances that each know headers by
/// their locks go beside each other; and who has the lock that it waited for may look.
pub fn a_lock_has_one_owner()
    ensures one { (r : Records) (me you : Instance) (image : ℕ) → AreUnfenced r me you → HasLockWhileFree r me image
        → HasLockWhileFree r you image → me ≡ you }
    ensures beside { (site : Site) (r : Records) (me you : Instance) (k j : Knowledge)
        → me ≢ you → KnowsByLock site r me k → KnowsByLock site r you j
        → ((image : ℕ) → is_drawn k.drawn site image ≡ true → is_drawn j.drawn site image ≡ false)
        → ((image : ℕ) → is_gone k.gone site image ≡ true → is_drawn j.drawn site image ≡ false)
        → ((image : ℕ) → is_gone j.gone site image ≡ true → is_drawn k.drawn site image ≡ false)
        → ((image : ℕ) → is_gone k.gone site image ≡ true → is_gone j.gone site image ≡ false)
        → DrewNoneOf site k.seen j → DrewNoneOf site j.seen k
        → (IsFalse (is_fenced r you) → AreBasedElsewhere site k j)
        → (IsFalse (is_fenced r me) → AreBasedElsewhere site j k)
        → AreBeside site r me you k j }
    ensures looks { (site : Site) (r : Records) (me you : Instance) (k j : Knowledge) (image : ℕ)
        → me ≢ you → HasLockWhileFree r me image → KnowsByLock site r you j
        → MayAct site r me you k j (on.Header image header.Get) }
    ensures drops { (site : Site) (r : Records) (me you : Instance) (k j : Knowledge) (image : ℕ)
        → me ≢ you → KnowsByLock site r you j → MayAct site r me you k j (on.Header image header.LockDrop) }
    ensures changes { (site : Site) (r : Records) (me you : Instance) (k j : Knowledge) (image object : ℕ)
        → me ≢ you → KnowsByLock site r me k → KnowsByLock site r you j
        → BreaksNothing site image r me you k j (KnowsOf j site image object) }
{}

/// A lock that was taken is its owner's until the owner gives it up or is fenced: nobody else ends
/// it by what is permitted to an instance that knows headers by its locks.
pub fn locks_last()
    ensures taken { (r : Records) (me : Instance) (image : ℕ) → answer_to r me (on.Header image header.LockTake)
        ≡ answered.Done → HasLockWhileFree (after r me (on.Header image header.LockTake)) me image }
    ensures operation { (site : Site) (r : Records) (me you : Instance) (j : Knowledge) (image : ℕ) (op : Op)
        → IsTrueAt site r you j → KnowsByLock site r you j → Permits j site op → (you ≡ me → gives_up image op ≡ false)
        → HasLockWhileFree r me image → HasLockWhileFree (after r you op) me image }
    ensures trim { (r : Records) (me : Instance) (image other number : ℕ) → HasLockWhileFree r me image
        → HasLockWhileFree (trimmed other number r) me image }
    ensures expiry { (r : Records) (me i : Instance) (image other : ℕ) → HasLockWhileFree r me image
        → HasLockWhileFree (expired other i r) me image }
{}

/// What true knowledge permits meets the site's condition, and is answered as an operation of the
/// owner can be; the answer may be that of a fence.
pub fn what_is_permitted_may_be_done()
    ensures may { (site : Site) (r : Records) (k : Knowledge) (me : Instance) (op : Op) (most : ℕ)
        → AreInForm r most → AreMapped r → IsTrueAt site r me k → Permits k site op → MayDo r me op }
    ensures gives { (site : Site) (r : Records) (k : Knowledge) (me : Instance) (op : Op) (most : ℕ)
        → AreInForm r most → AreMapped r → IsTrueAt site r me k → Permits k site op → IsGiven op (answer_to r me op) }
{}

/// Where the records stand for a flat site, what true knowledge permits has exactly its effect
/// there. So each step of a request is a step of the flat-copy machine, or none.
pub fn what_is_permitted_has_its_effect()
    ensures { (site : Site) (r : Records) (f : Flat) (k : Knowledge) (me : Instance) (op : Op) (most : ℕ)
        → StandsFor [] r f → AreInForm r most → AreStandalone r → AreMapped r → IsTrueAt site r me k → Permits k site op
        → StandsFor [] (after r me op) (changed_by f (effect_of r (done.Op op) (answer_to r me op))) }
{}

/// Each image keeps its object maps, and state 0 goes on to mean that an object is absent: under
/// all that true knowledge permits, whoever is fenced, and whatever the store does (Ceph: an object
/// map may name an object that isn't there, and never misses one that is).
pub fn images_keep_their_maps()
    ensures first { AreMapped no_records }
    ensures operation { (site : Site) (r : Records) (f : Flat) (k : Knowledge) (you : Instance) (op : Op) (most : ℕ)
        → StandsFor [] r f → AreInForm r most → AreMapped r → IsTrueAt site r you k → Permits k site op
        → AreMapped (after r you op) }
    ensures trim { (r : Records) (image number : ℕ) → AreMapped r → AreMapped (trimmed image number r) }
    ensures expiry { (r : Records) (image : ℕ) (i : Instance) → AreMapped r → AreMapped (expired image i r) }
{}

/// A parent is less deep than its child, and goes on to be, whatever is done that is permitted. So
/// reads that go from parent to parent end.
pub fn parents_stay_lower()
    ensures first { AreRanked no_records }
    ensures operation { (site : Site) (r : Records) (f : Flat) (k : Knowledge) (you : Instance) (op : Op)
        → StandsFor [] r f → AreRanked r → Permits k site op → AreRanked (after r you op) }
    ensures trim { (r : Records) (image number : ℕ) → AreRanked r → AreRanked (trimmed image number r) }
    ensures expiry { (r : Records) (image : ℕ) (i : Instance) → AreRanked r → AreRanked (expired image i r) }
{}

/// What is permitted gives no image a parent or a journal, so no header that is told has one.
pub fn images_stay_standalone()
    ensures first { AreStandalone no_records }
    ensures told { (r : Records) (me : Instance) (op : Op) → AreStandalone r → IsGiven op (answer_to r me op)
        → TellsStandalone (answer_to r me op) }
    ensures operation { (site : Site) (r : Records) (k : Knowledge) (you : Instance) (op : Op) → AreStandalone r
        → Permits k site op → AreStandalone (after r you op) }
    ensures trim { (r : Records) (image number : ℕ) → AreStandalone r → AreStandalone (trimmed image number r) }
    ensures expiry { (r : Records) (image : ℕ) (i : Instance) → AreStandalone r → AreStandalone (expired image i r) }
{}
