//! What the requests of a session know, and that they may count on it: each law is the contract of
//! a function that does nothing.
ghost use Rattle.std.specs.Prelude.{◌≡◌, ◌≢◌, ℕ, false, true, IsFalse, Some, Option};
ghost use Rattle.rbd_flat.specs.Flat.{Flat};
ghost use Rattle.rbd_kinds.specs.declared.answer.Answer.{Answer};
ghost use Rattle.rbd_commands.specs.declared.command.Command.{Command};
ghost use Rattle.rbd_kinds.specs.declared.id.Instance.{Instance};
ghost use Rattle.rbd_kinds.specs.declared.id.SiteId.{SiteId as Site};
ghost use Rattle.rbd_kinds.specs.declared.machine.Fed.{Fed};
ghost use Rattle.rbd_kinds.specs.declared.operation.Op.{Op};
ghost use Rattle.rbd_kinds.specs.declared.reply.Reply.{Reply};
ghost use Rattle.rbd_machine.specs.Answers.{CanBeFed};
ghost use Rattle.rbd_machine.specs.Knowledge.{Knowledge, nothing_known, is_drawn, is_gone};
ghost use Rattle.rbd_machine.specs.Label.{Label, IsFit};
ghost use Rattle.rbd_machine.specs.Lawful.{IsLawful};
ghost use Rattle.rbd_machine.specs.Path.{at_operation};
ghost use Rattle.rbd_machine.specs.Plan.{Plan, Ask, Standing, plan_after};
ghost use Rattle.rbd_machine.specs.Possible.{IsFedPossible};
ghost use Rattle.rbd_machine.specs.Standalone.{IsFedStandalone};
ghost use Rattle.rbd_machine.specs.declared.reason.Reason.{Reason};
ghost use Rattle.rbd_machine.specs.declared.seat.Seat.{Seat};
ghost use Rattle.rbd_interference.specs.Ancestors.{DrewNoneOf, HasReadTruly};
ghost use Rattle.rbd_interference.specs.Beside.{AreBeside, MayAct};
ghost use Rattle.rbd_interference.specs.Truth.{AreBasedElsewhere, IsTrueAt};
ghost use Rattle.rbd_catalog.specs.Plans.{IsPlanFor};
ghost use Rattle.rbd_catalog.specs.Profile.{joins_a_line, profile};
ghost use Rattle.rbd_slots.specs.Advance.{track_of};
ghost use Rattle.rbd_slots.specs.Lines.{LinesView, lines_of};
ghost use Rattle.rbd_slots.specs.OnTrack.{LeavesOthers};
ghost use Rattle.rbd_slots.specs.Session.{SessionView, IsSoundSession, BeginsAt, IsAlike, IsFed, held_in, running_at};
ghost use Rattle.rbd_slots.specs.Waits.{waits};
ghost use Rattle.rbd_slots.specs.declared.running.Running.{Running};
ghost use Rattle.rbd_site.specs.Records.{Records};
ghost use Rattle.rbd_site.specs.Step.{is_fenced};
ghost use Rattle.rbd_knowledge.specs.Calm.{IsCalmRequest, OwnsNothing};
ghost use Rattle.rbd_knowledge.specs.Knowing.{KnowsBy, AllKnow, knows_after, known_at_operation, known_behind};

use rbd_machine::Request;

/// A request that begins knows nothing.
pub fn newcomers_know_nothing<R: Request>()
    ensures { (seat : Seat) (line slot : ℕ) (work : R.Work) (r : Running R) (lines : LinesView)
        → R.serves work → BeginsAt R.stands R.stands_for R.extent_for seat line work r
        → KnowsBy R.stands slot r lines nothing_known }
{}

/// A request that may go on and is fed knows then what the answer taught it and what it waited for;
/// each other request of the session knows what it knew. So it is where the answer was possible by
/// what the request knew, and tells no header with a parent or a journal.
pub fn knowledge_goes_with_the_line<R: Request>()
    ensures { (s t : SessionView R) (slot : ℕ) (r : Running R) (f : Fed) (result : Option Reply) (knows : ℕ → Knowledge)
        → IsSoundSession R.stands s → IsSoundSession R.stands t → running_at slot s ≡ Some r
        → waits slot (track_of r s.lines) ≡ false
        → CanBeFed (R.stands r.request).plan f → IsFedStandalone f
        → IsFedPossible (knows slot) (R.stands r.request).plan f
        → IsFed R.stands slot f result s t
        → ((other : ℕ) → other ≢ slot → held_in other t.slots ≡ held_in other s.slots)
        → LeavesOthers slot (lines_of s.lines) (lines_of t.lines)
        → AllKnow R.stands knows s → AllKnow R.stands (knows_after knows slot result (R.stands r.request).plan f) t }
{}

/// To make a session ready for an answer changes nothing of what its requests know.
pub fn ready_requests_know_the_same<R: Request>()
    ensures { (s t : SessionView R) (knows : ℕ → Knowledge) → IsAlike R.stands s t → AllKnow R.stands knows s
        → AllKnow R.stands knows t }
{}

/// A request that may go on may do what it asks for, whatever another request of its session knows.
/// The line lets it look under the lock only where the other one knows no header of the image, or
/// the two go together; and it lets it change an object only in its turn, when the other one knows
/// nothing of that object, or is a flatten, of which the change breaks nothing that it knows.
pub fn who_may_go_on_may_act<R: Request>()
    ensures { (s : SessionView R) (slot other : ℕ) (r : Running R) (knows : ℕ → Knowledge) (site : Site) (why : Reason)
        (op : Op) (next : Answer → Plan)
        → IsSoundSession R.stands s → AllKnow R.stands knows s → slot ≢ other
        → running_at slot s ≡ Some r → waits slot (track_of r s.lines) ≡ false
        → (R.stands r.request).plan ≡ Ask site why op next
        → (r : Records) (me you : Instance) → MayAct site r me you (knows slot) (knows other) op }
{}

/// What a request knows at its next operation is lawful for it to go by, and is as true, what it
/// read of snapshots too, and as much beside what another knows, as it was before the waits.
pub fn waits_change_little()
    ensures lawful { (labels : Label → Plan) (known_at : Label → Knowledge)
        → ((label : Label) → IsFit label → IsLawful known_at (known_at label) (labels label))
        → (k : Knowledge) (plan : Plan) → IsLawful known_at k plan
        → IsLawful known_at (known_at_operation k plan) (at_operation labels plan) }
    ensures truth { (site : Site) (r : Records) (me : Instance) (k : Knowledge) (plan : Plan) → IsTrueAt site r me k
        → IsTrueAt site r me (known_at_operation k plan) }
    ensures reads { (site : Site) (r : Records) (f : Flat) (k : Knowledge) (plan : Plan) → HasReadTruly site r f k
        → HasReadTruly site r f (known_at_operation k plan) }
    ensures beside { (site : Site) (r : Records) (me you : Instance) (k j : Knowledge) (plan : Plan)
        → AreBeside site r me you k j → AreBeside site r me you (known_at_operation k plan) j }
{}

/// A request that waits for nothing owns and removes nothing. So it goes beside each other request
/// that neither drew nor removed an id which it drew, where neither was told a header of an image
/// whose id the other drew, nor has a child that is based on a snapshot of which the other knows
/// that it has none: each of the two may do whatever it does beside the other.
pub fn calm_requests_own_nothing()
    ensures first { OwnsNothing nothing_known }
    ensures fed { (labels : Label → Plan) (known_at : Label → Knowledge) (k : Knowledge) (plan : Plan) (f : Fed)
        → IsCalmRequest (record { labels = labels; plan = plan }) → IsLawful known_at k plan → CanBeFed plan f
        → OwnsNothing k
        → OwnsNothing (known_behind k plan f) }
    ensures stays { (labels : Label → Plan) (plan : Plan) (f : Fed)
        → IsCalmRequest (record { labels = labels; plan = plan }) → CanBeFed plan f
        → IsCalmRequest (record { labels = labels; plan = at_operation labels (plan_after plan f) }) }
    ensures beside { (site : Site) (r : Records) (me you : Instance) (k j : Knowledge) → OwnsNothing k
        → ((image : ℕ) → is_drawn k.drawn site image ≡ true → is_drawn j.drawn site image ≡ false)
        → ((image : ℕ) → is_gone j.gone site image ≡ true → is_drawn k.drawn site image ≡ false)
        → DrewNoneOf site k.seen j → DrewNoneOf site j.seen k
        → (IsFalse (is_fenced r you) → AreBasedElsewhere site k j)
        → (IsFalse (is_fenced r me) → AreBasedElsewhere site j k)
        → AreBeside site r me you k j }
    ensures acts { (site : Site) (r : Records) (me you : Instance) (k j : Knowledge) (op : Op) → OwnsNothing k
        → MayAct site r me you k j op }
    ensures acted_beside { (site : Site) (r : Records) (me you : Instance) (k j : Knowledge) (op : Op) → OwnsNothing j
        → MayAct site r me you k j op }
{}

/// Who joins no line, by the row of its command, waits for nothing: neither for a lock, nor for a
/// turn, nor for an event. So only a `write`, a `fill`, a `discard`, a `resize`, an `rm`, a `snap
/// create`, a `snap rm`, a `snap rollback`, a `close` and a `quiesce` wait for anything.
pub fn who_joins_no_line_waits_for_nothing()
    ensures { (seat : Seat) (command : Command) (s : Standing)
        → joins_a_line (profile command) ≡ false → IsPlanFor seat command s → IsCalmRequest s }
{}
