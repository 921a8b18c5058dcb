//! What the breaking of a lock tells.
ghost use Rattle.std.specs.Prelude.{◌≡◌};
ghost use Rattle.rbd_machine.specs.Steps.{going};
ghost use Rattle.rbd_lock.specs.Acquire.{again, on_broken, TellsBroken};

use rbd_kinds::{Answer, Refusal};
use rbd_machine::refusal_of;

/// That the lock is its owner's no more, or why the request ends: it is fenced, or there is no such
/// image.
pub fn told_broken(answer: &Answer) -> Result<(), Refusal>
    requires { TellsBroken answer.now }
    ensures { on_broken answer.now ≡ going (λ broken. again) result }
{
    match answer {
        Answer::Done => Ok(()),
        Answer::Changed => Ok(()),
        _ => Err(refusal_of(answer)),
    }
}
