//! What every request is.
ghost use Rattle.std.specs.Prelude.{◌≡◌, IfOk, OnOk};
ghost use Rattle.rbd_kinds.specs.declared.answer.Answer.{Answer};
ghost use Rattle.rbd_machine.specs.Plan.{Standing, IsLive, Wants, IsAsking, Asks, AsksBy, plan_after, GoesOn};
ghost use Rattle.rbd_machine.specs.Answers.{CanBeFed};
ghost use Rattle.rbd_machine.specs.Ready.{IsReadyFor};

use crate::reason::Reason;
use rbd_kinds::{Fed, Flow, NoMemory, Op, Want};
use std::alloc::Global;

/// A request as a machine that wants one thing at a time. It does nothing itself: whoever holds it
/// asks what it wants, does that, and feeds it what came of it, until it is done with its reply
/// (etcd's raft is a core of this kind).
///
/// ```text
///   ┌───────────────────────────────────────────────────────────────┐
///   ▼                                                               │ More
/// wants ──Op──▶ next ──▶ its answer ──▶ ready ──▶ it is done ──▶ feed ──Done──▶ its reply
///   │                                                               ▲
///   └──Note, Join, Hold, Turn, Applied, Leave──▶ it may go on ──────┘ Passed
/// ```
///
/// Contracts see where it stands: the plan that is left. What it wants stays the same until it is
/// fed. Of a request that is done nothing is said: it may be asked for nothing any more. So a
/// request that may be refused before any operation has a call of its own that tells so.
pub trait Machine {
    /// What is left of the request.
    ghost stands: { Self → Standing };

    /// It has the memory that an answer needs.
    ghost is_ready: { Self → Answer → Type 0 };

    /// What it wants, where it hasn't ended. It takes no memory.
    fn wants(&self) -> Want
        requires { IsLive (stands self.now).plan }
        ensures { Wants (stands self.now).plan result };

    /// The operation that it wants. NoMemory where the memory for its names or bytes is refused;
    /// it may be asked for again.
    fn next(&self, alloc: Global) -> Result<Op, NoMemory>
        requires { IsAsking (stands self.now).plan }
        ensures { IfOk result (Asks (stands self.now).plan) };

    /// Why it wants its operation: a request's own steps, the way to a lock and the replay of an
    /// event are told apart.
    fn reason(&self) -> Reason
        requires { IsAsking (stands self.now).plan }
        ensures { AsksBy (stands self.now).plan result };

    /// Takes the memory for a feeding. What it wants stays the same. NoMemory where that memory is
    /// refused; it may be called again.
    fn ready(&mut self, alloc: Global, fed: &Fed) -> Result<(), NoMemory>
        requires { CanBeFed (stands self.old).plan fed.now }
        ensures stands { stands self.new ≡ stands self.old }
        ensures ready { OnOk result (IsReadyFor (is_ready self.new) fed.now) };

    /// Goes on with what it is fed. Where it isn't done there is something that it wants. It takes
    /// no memory.
    fn feed(&mut self, fed: &Fed) -> Flow
        requires can { CanBeFed (stands self.old).plan fed.now }
        requires ready { IsReadyFor (is_ready self.old) fed.now }
        ensures { GoesOn (stands self.old).labels (plan_after (stands self.old).plan fed.now)
            result (stands self.new) };
}
