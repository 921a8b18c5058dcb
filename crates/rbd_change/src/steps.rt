//! What a change does behind its event.
ghost use Rattle.std.specs.Prelude.{◌≡◌, IfOk, OnOk};
ghost use Rattle.rbd_kinds.specs.declared.answer.Answer.{Answer};
ghost use Rattle.rbd_kinds.specs.declared.machine.Fed.TheVariants as fed_with;
ghost use Rattle.rbd_machine.specs.Answers.{CanBeFed};
ghost use Rattle.rbd_machine.specs.Plan.{Plan, Wants, Asks};
ghost use Rattle.rbd_machine.specs.Steps.{ProgressesBy};
ghost use Rattle.rbd_change.specs.OwnStep.{AsksByItself};

use rbd_kinds::{Answer, NoMemory, Op, Want};
use rbd_machine::Progress;
use std::alloc::Global;

/// What a change does behind its event, one operation after another. Its clauses hold for every
/// plan that comes next, so whoever holds it goes on with its own.
pub trait ChangeSteps: Drop {
    /// What is left of it, with what comes next.
    ghost rest: { Self → (next : Plan) → Plan };

    /// The answers by which it can go on.
    ghost tells: { Self → Answer → Type 0 };

    /// It has the memory that an answer needs.
    ghost is_ready: { Self → Answer → Type 0 };

    /// What it wants: an operation. It takes no memory.
    fn wants(&self) -> Want
        ensures { (next : Plan) → Wants (rest self.now next) result };

    /// The operation that it wants. NoMemory where memory for it is refused.
    fn next(&self, alloc: Global) -> Result<Op, NoMemory>
        ensures { (next : Plan) → IfOk result (Asks (rest self.now next)) };

    /// Takes the memory for an answer. What is left of the part stays the same. NoMemory where that
    /// memory is refused.
    fn ready(&mut self, alloc: Global, answer: &Answer) -> Result<(), NoMemory>
        ensures rest { (next : Plan) → rest self.new next ≡ rest self.old next }
        ensures ready { OnOk result (is_ready self.new answer.now) };

    /// Goes on with an answer that it has the memory for. It has ended where nothing is left, or is
    /// refused by the answer. It takes no memory.
    fn feed(&mut self, answer: &Answer) -> Progress<()>
        requires tells { tells self.old answer.now }
        requires ready { is_ready self.old answer.now }
        ensures { ProgressesBy rest answer.now result self.old self.new };

    /// As long as it hasn't ended it wants an operation, which is a step of the request's own.
    ghost asks: { (part : Self) (next : Plan) → AsksByItself (rest part next) };

    /// It can go on by each answer that its operation can be given.
    ghost told: { (part : Self) (next : Plan) (answer : Answer)
        → CanBeFed (rest part next) (fed_with.Answer answer) → tells part answer };
}
