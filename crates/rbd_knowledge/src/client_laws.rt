//! What clients may count on: each law is the contract of a function that does nothing.
ghost use Rattle.std.specs.Prelude.{◌≡◌, ◌≢◌, ℕ, Some, None, IsFalse, Option, []};
ghost use Rattle.rbd_client.specs.declared.actor.Actor.TheVariants as actor;
ghost use Rattle.rbd_client.specs.Actor.{actor_at, op_wanted};
ghost use Rattle.rbd_client.specs.Client.{ClientView, newcomer, slot_state};
ghost use Rattle.rbd_client.specs.Feeding.{AreStatesAlike, CanGet, DropsAtRest, IsFedBy};
ghost use Rattle.rbd_client.specs.Sound.{IsSoundClient};
ghost use Rattle.rbd_commands.specs.declared.quiescing.Quiescing.{Quiescing as Quiesces};
ghost use Rattle.rbd_flat.specs.Flat.{Flat};
ghost use Rattle.rbd_knowledge.specs.ClientsKnowing.{known_to, knows_fed, plan_in_slot};
ghost use Rattle.rbd_knowledge.specs.Truth.{IsTrueOf};
ghost use Rattle.rbd_kinds.specs.declared.id.Instance.{Instance};
ghost use Rattle.rbd_kinds.specs.declared.id.SiteId.{SiteId as Site};
ghost use Rattle.rbd_kinds.specs.declared.machine.Fed.{Fed};
ghost use Rattle.rbd_kinds.specs.declared.machine.Fed.TheVariants.{Answer as Answered};
ghost use Rattle.rbd_kinds.specs.declared.notice.Notice.{Notice};
ghost use Rattle.rbd_kinds.specs.declared.operation.Op.{Op};
ghost use Rattle.rbd_kinds.specs.declared.reply.Reply.{Reply};
ghost use Rattle.rbd_knowledge.specs.Knowing.{AllKnow};
ghost use Rattle.rbd_lock.specs.Locks.{heard, lock_state_at};
ghost use Rattle.rbd_lock.specs.States.{blank_state as unknown};
ghost use Rattle.rbd_machine.specs.Knowledge.{Knowledge, nothing_known, same_site};
ghost use Rattle.rbd_machine.specs.Permits.{Permits};
ghost use Rattle.rbd_machine.specs.Possible.{IsFedPossible};
ghost use Rattle.rbd_machine.specs.Standalone.{IsFedStandalone};
ghost use Rattle.rbd_lock.specs.Acquire.{op_of};
ghost use Rattle.rbd_lock.specs.declared.acquire.Acquire.{Acquire};
ghost use Rattle.rbd_interference.specs.Beside.{AreBeside, MayAct};
ghost use Rattle.rbd_interference.specs.Locks.{KnowsByLock};
ghost use Rattle.rbd_interference.specs.Truth.{AreMapped, IsTrueAt};
ghost use Rattle.rbd_slots.specs.Lines.{lines_of};
ghost use Rattle.rbd_slots.specs.OnTrack.{LeavesOthers};
ghost use Rattle.rbd_slots.specs.Session.{IsSoundSession, held_in, running_at};
ghost use Rattle.rbd_site.specs.InForm.{AreInForm};
ghost use Rattle.rbd_site.specs.Log.{expired, trimmed};
ghost use Rattle.rbd_site.specs.Records.{Records};
ghost use Rattle.rbd_site.specs.Step.{after, answer_to};
ghost use Rattle.rbd_stands.specs.Site.{StandsFor};

use rbd_machine::Request;

/// Whoever acts at a slot (the request, its way to the lock, or a release) asks only for what its
/// knowledge permits, and its knowledge is true.
pub fn whoever_acts_does_what_it_may<R: Request>()
    ensures permits { (c : ClientView R) (knows : ℕ → Knowledge) (slot : ℕ) (site : Site) (op : Op)
        → AllKnow R.stands knows c.session → op_wanted R.stands slot c ≡ Some (site, op)
        → Permits (known_to (knows slot) (actor_at R.stands slot c)) site op }
    ensures truth { (c : ClientView R) (knows : ℕ → Knowledge) (slot : ℕ) (site : Site) (r : Records) (me : Instance)
        → IsTrueOf site r me knows c → IsTrueAt site r me (known_to (knows slot) (actor_at R.stands slot c)) }
{}

/// A request knows a header only where the lock of the image is its client's, unless the client is
/// fenced.
pub fn headers_are_known_by_locks<R: Request>()
    ensures { (c : ClientView R) (knows : ℕ → Knowledge) (slot : ℕ) (site : Site) (r : Records) (me : Instance)
        → IsTrueOf site r me knows c → KnowsByLock site r me (knows slot) }
{}

/// Whoever acts may look at what it looks at, drop the lock that it drops, and change the object
/// that it changes. Beside another request of its own client the lines see to that, and beside one
/// of another client, which knows headers by its locks, the lock. A way looks at no header, and
/// changes no object.
pub fn whoever_acts_may_act<R: Request>()
    ensures own { (c : ClientView R) (knows : ℕ → Knowledge) (slot other : ℕ) (site : Site) (op : Op) (r : Records)
        (me you : Instance)
        → IsSoundClient R.stands c → AllKnow R.stands knows c.session → slot ≢ other
        → op_wanted R.stands slot c ≡ Some (site, op)
        → MayAct site r me you (known_to (knows slot) (actor_at R.stands slot c)) (knows other) op }
    ensures others { (c : ClientView R) (knows : ℕ → Knowledge) (slot : ℕ) (site : Site) (op : Op) (r : Records)
        (me you : Instance) (j : Knowledge)
        → IsSoundClient R.stands c → AllKnow R.stands knows c.session → op_wanted R.stands slot c ≡ Some (site, op)
        → IsTrueOf site r me knows c → me ≢ you → KnowsByLock site r you j
        → MayAct site r me you (known_to (knows slot) (actor_at R.stands slot c)) j op }
    ensures way { (site : Site) (r : Records) (me you : Instance) (k j : Knowledge) (a : Acquire)
        → MayAct site r me you k j (op_of a) }
{}

/// A request drops the lock of an image only where no other request of its client relies on it:
/// none is past its look under the lock, and none has taken the lock itself. It removes a header
/// only where none has taken the lock itself. So a client may be fed an answer to whatever it
/// wants.
pub fn locks_are_dropped_at_rest<R: Request>()
    ensures { (c : ClientView R) (knows : ℕ → Knowledge) (slot : ℕ) (site : Site) (op : Op)
        → IsSoundClient R.stands c → AllKnow R.stands knows c.session → op_wanted R.stands slot c ≡ Some (site, op)
        → DropsAtRest (actor_at R.stands slot c) site op c }
{}

/// Behind an answer at a slot, the request that acted knows what the answer taught it, one that was
/// refused on its way to the lock knows nothing, and all others know what they knew. So it is where
/// the answer tells no header with a parent or a journal and, of a request itself, was possible by
/// what it knew.
pub fn answers_are_known<R: Request>()
    ensures { (c d : ClientView R) (knows : ℕ → Knowledge) (slot : ℕ) (site : Site) (op : Op) (f : Fed)
        (result : Option Reply)
        → IsSoundClient R.stands c → IsSoundSession R.stands d.session → AllKnow R.stands knows c.session
        → ((other : ℕ) → other ≢ slot → held_in other d.session.slots ≡ held_in other c.session.slots)
        → LeavesOthers slot (lines_of c.session.lines) (lines_of d.session.lines)
        → op_wanted R.stands slot c ≡ Some (site, op) → CanGet R.stands slot c.session f (actor_at R.stands slot c)
        → IsFedStandalone f
        → (actor_at R.stands slot c ≡ actor.Request
        → IsFedPossible (knows slot) (plan_in_slot R.stands (running_at slot c.session)) f)
        → IsFedBy R.stands slot site op f result c d (actor_at R.stands slot c)
        → AllKnow R.stands (knows_fed knows slot result (plan_in_slot R.stands (running_at slot c.session)) f
        (actor_at R.stands slot c)) d.session }
{}

/// Behind the operation all of it is true, at its site and at the other one: what the requests
/// know, what the ways know, and that each lock which the client counts as its own is its own,
/// unless it is fenced.
pub fn answers_leave_clients_true<R: Request>()
    ensures here { (c d : ClientView R) (knows : ℕ → Knowledge) (slot : ℕ) (site : Site) (r : Records) (flat : Flat)
        (me : Instance) (op : Op) (result : Option Reply) (most : ℕ)
        → IsSoundClient R.stands c → AllKnow R.stands knows c.session → op_wanted R.stands slot c ≡ Some (site, op)
        → ((other : ℕ) → other ≢ slot → slot_state other d.slots ≡ slot_state other c.slots)
        → StandsFor [] r flat → AreInForm r most → AreMapped r → IsTrueOf site r me knows c
        → IsFedBy R.stands slot site op (Answered (answer_to r me op)) result c d (actor_at R.stands slot c)
        → IsTrueOf site (after r me op) me
        (knows_fed knows slot result (plan_in_slot R.stands (running_at slot c.session))
        (Answered (answer_to r me op)) (actor_at R.stands slot c)) d }
    ensures elsewhere { (c d : ClientView R) (knows : ℕ → Knowledge) (slot : ℕ) (site there : Site) (r q : Records)
        (me : Instance) (op : Op) (result : Option Reply)
        → AllKnow R.stands knows c.session → op_wanted R.stands slot c ≡ Some (site, op)
        → ((other : ℕ) → other ≢ slot → slot_state other d.slots ≡ slot_state other c.slots)
        → IsFalse (same_site site there) → IsTrueOf there q me knows c
        → IsFedBy R.stands slot site op (Answered (answer_to r me op)) result c d (actor_at R.stands slot c)
        → IsTrueOf there q me (knows_fed knows slot result (plan_in_slot R.stands (running_at slot c.session))
        (Answered (answer_to r me op)) (actor_at R.stands slot c)) d }
{}

/// A client stays true whatever another instance does that is permitted to it, where that instance
/// knows truly, knows headers by its locks, and goes beside the client's requests with what it
/// does. The store's own steps leave a client true as well.
pub fn others_leave_clients_true<R: Request>()
    ensures operation { (c : ClientView R) (knows : ℕ → Knowledge) (site : Site) (r : Records) (me you : Instance)
        (j : Knowledge) (op : Op)
        → IsTrueOf site r me knows c → you ≢ me → IsTrueAt site r you j → KnowsByLock site r you j → Permits j site op
        → ((slot : ℕ) → AreBeside site r me you (knows slot) j) → ((slot : ℕ) → MayAct site r you me j (knows slot) op)
        → IsTrueOf site (after r you op) me knows c }
    ensures trim { (c : ClientView R) (knows : ℕ → Knowledge) (site : Site) (r : Records) (me : Instance)
        (image number : ℕ)
        → IsTrueOf site r me knows c → IsTrueOf site (trimmed image number r) me knows c }
    ensures expiry { (c : ClientView R) (knows : ℕ → Knowledge) (site : Site) (r : Records) (me i : Instance)
        (image : ℕ)
        → IsTrueOf site r me knows c → IsTrueOf site (expired image i r) me knows c }
{}

/// A new client knows nothing false. A client that takes in a request, is made ready for an answer,
/// or hears a notice counts no lock more than before.
pub fn calls_leave_clients_true<R: Request>()
    ensures new { (c : ClientView R) (site : Site) (r : Records) (me : Instance)
        → IsSoundClient R.stands c → ((slot : ℕ) → held_in slot c.session.slots ≡ None)
        → ((image : ℕ) → lock_state_at site image c.locks ≡ unknown)
        → IsTrueOf site r me (λ slot. nothing_known) c }
    ensures submitted { (c d : ClientView R) (knows : ℕ → Knowledge) (site : Site) (r : Records) (me : Instance)
        (slot : ℕ) (quiescing : Quiesces)
        → IsTrueOf site r me knows c → slot_state slot d.slots ≡ newcomer quiescing
        → ((other : ℕ) → other ≢ slot → slot_state other d.slots ≡ slot_state other c.slots) → d.locks ≡ c.locks
        → IsTrueOf site r me knows d }
    ensures readied { (c d : ClientView R) (knows : ℕ → Knowledge) (site : Site) (r : Records) (me : Instance)
        → IsTrueOf site r me knows c → d.slots ≡ c.slots → AreStatesAlike c.locks d.locks → IsTrueOf site r me knows d }
    ensures heard { (c d : ClientView R) (knows : ℕ → Knowledge) (site : Site) (r : Records) (me : Instance)
        (notice : Notice)
        → IsTrueOf site r me knows c → d.slots ≡ c.slots
        → ((image : ℕ) → lock_state_at site image d.locks ≡ heard notice site image (lock_state_at site image c.locks))
        → IsTrueOf site r me knows d }
{}
