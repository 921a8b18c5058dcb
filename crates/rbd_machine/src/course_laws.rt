//! How requests keep to their line: laws, each the contract of a function that does nothing.
ghost use Rattle.std.specs.Prelude.{ℕ, Bool, true, false, Option};
ghost use Rattle.rbd_machine.specs.Course.{Course, answered, waited, noted};
ghost use Rattle.rbd_machine.specs.Orderly.{IsInLine, IsOrderlyFrom, MayWait};
ghost use Rattle.rbd_kinds.specs.declared.answer.Answer.{Answer};
ghost use Rattle.rbd_kinds.specs.declared.id.SiteId.{SiteId};
ghost use Rattle.rbd_kinds.specs.declared.journal.JournalEvent.{JournalEvent};
ghost use Rattle.rbd_kinds.specs.declared.layout.Extent.{Extent};
ghost use Rattle.rbd_kinds.specs.declared.operation.Op.{Op};
ghost use Rattle.rbd_machine.specs.Answers.{CanGive};
ghost use Rattle.rbd_machine.specs.Label.{Label};
ghost use Rattle.rbd_machine.specs.Plan.{Plan, Ask, Await, Note, past_label};
ghost use Rattle.rbd_machine.specs.Wait.{Wait};
ghost use Rattle.rbd_machine.specs.declared.reason.Reason.{Reason};

/// An orderly request stays orderly, whatever it is fed: it is orderly where it goes on, on the
/// course that it has there.
pub fn orderly_requests_stay_orderly()
    ensures answered { (e : Option Extent) (fresh : Bool) (c : Course) (labels : Label → Plan) (site : SiteId)
        (why : Reason) (op : Op) (next : Answer → Plan) (answer : Answer)
        → CanGive op answer → IsOrderlyFrom e fresh c (record { labels = labels; plan = Ask site why op next })
        → IsOrderlyFrom e true (answered e c site op answer)
        (record { labels = labels; plan = past_label labels (next answer) }) }
    ensures waited { (e : Option Extent) (fresh : Bool) (c : Course) (labels : Label → Plan) (wait : Wait) (next : Plan)
        → IsOrderlyFrom e fresh c (record { labels = labels; plan = Await wait next })
        → MayWait fresh c wait
        × IsOrderlyFrom e false (waited c wait) (record { labels = labels; plan = past_label labels next }) }
    ensures noted { (e : Option Extent) (fresh : Bool) (c : Course) (labels : Label → Plan) (site : SiteId) (image : ℕ)
        (event : JournalEvent) (next : Plan)
        → IsOrderlyFrom e fresh c (record { labels = labels; plan = Note site image event next })
        → IsInLine site image c.place
        × IsOrderlyFrom e fresh (noted c) (record { labels = labels; plan = past_label labels next }) }
{}
