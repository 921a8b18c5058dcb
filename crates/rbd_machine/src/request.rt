//! What a session asks of its requests.
ghost use Rattle.std.specs.Prelude.{◌≡◌, true, List, Option, IfOk};
ghost use Rattle.rbd_machine.specs.Begun.{IsBegun};
ghost use Rattle.rbd_machine.specs.Course.{beginning};
ghost use Rattle.rbd_machine.specs.Orderly.{IsOrderlyFrom};
ghost use Rattle.rbd_kinds.specs.declared.layout.Extent.{Extent};
ghost use Rattle.rbd_kinds.specs.declared.machine.Fed.{Fed};
ghost use Rattle.rbd_kinds.specs.declared.reply.Reply.{Reply};
ghost use Rattle.rbd_machine.specs.Lawful.{IsLawfulRequest};
ghost use Rattle.rbd_machine.specs.Path.{Answered, IsWalk};
ghost use Rattle.rbd_machine.specs.Plan.{Standing, IsAsking, Return};
ghost use Rattle.rbd_machine.specs.Refused.{AreGiven};
ghost use Rattle.rbd_machine.specs.Standalone.{TellAllStandalone};
ghost use Rattle.rbd_machine.specs.declared.seat.Seat.{Seat};

use crate::machine::Machine;
use crate::seat::Seat;
use rbd_kinds::{Extent, NoMemory, Refusal};
use std::alloc::Global;

/// A request that was made of its work.
#[derive(Drop)]
pub enum Begun<R> {
    /// It is refused before any operation.
    Refused(Refusal),
    /// It wants its first operation.
    Asks(R),
}

/// A request as a session holds it: a machine that is made of some work, a command or another, and
/// whose laws are those of each work.
pub trait Request: Machine + Drop {
    /// What it is made of.
    type Work: Drop;

    /// The works that it serves.
    ghost serves: { Self.Work → Type 0 };

    /// Where a request of a session stands at first, made of a work.
    ghost stands_for: { Seat → Self.Work → Standing → Type 0 };

    /// The extent that a work changes piece by piece, beside others: it takes its turn at each of
    /// its objects.
    ghost extent_for: { Self.Work → Option Extent };

    /// What its reply means, behind the operations that were done for it.
    ghost means: { Seat → Self.Work → List Answered → Reply → Type 0 };

    /// Makes the request of a work for a session. NoMemory where memory for it is refused.
    fn begin(alloc: Global, seat: &Seat, work: Self::Work) -> Result<Begun<Self>, NoMemory>
        requires { serves work }
        ensures { IfOk result (IsBegun (stands_for seat.now work) Self.stands) };

    /// The extent that a work changes piece by piece, beside others. It takes no memory.
    fn extent(work: &Self::Work) -> Option<Extent>
        ensures { result ≡ extent_for work.now };

    /// It keeps to its line, and takes its turns at the objects of its extent.
    ghost orderly: { (seat : Seat) (work : Self.Work) (s : Standing)
        → serves work → stands_for seat work s → IsAsking s.plan
        → IsOrderlyFrom (extent_for work) true beginning s };

    /// It does only what it may by what it knows.
    ghost lawful: { (seat : Seat) (work : Self.Work) (s : Standing)
        → serves work → stands_for seat work s → IsLawfulRequest s };

    /// Each reply to which a walk of it leads is meant, as long as no header that it is told has a
    /// parent or a journal.
    ghost meant: { (seat : Seat) (work : Self.Work) (s : Standing) (feds : List Fed) (steps : List Answered)
        (reply : Reply)
        → serves work → stands_for seat work s → AreGiven steps → TellAllStandalone steps
        → IsWalk s.labels s.plan feds steps (Return reply) → means seat work steps reply };
}
