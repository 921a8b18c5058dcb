//! Who watches an image.
ghost use Rattle.std.specs.Prelude.{◌≡◌};
ghost use Rattle.rbd_kinds.specs.declared.header_op.HeaderOp.TheVariants.{WatchersGet};
ghost use Rattle.rbd_kinds.specs.declared.operation.Op.TheVariants.{Header};
ghost use Rattle.rbd_machine.specs.Plan.{Plan};
ghost use Rattle.rbd_machine.specs.Steps.{going};
ghost use Rattle.rbd_meaning.specs.Removals as of_removals;
ghost use Rattle.rbd_image.specs.Remove.{on_watchers, TellsWatchers};

use rbd_kinds::{Answer, HeaderOp, ImageId, Instance, Op, Refusal, SessionNo};
use rbd_machine::refusal_of;

/// Asks who watches an image.
pub fn watchers_get(image: ImageId) -> Op
    ensures { result ≡ Header image WatchersGet }
{
    Op::Header {
        image,
        op: HeaderOp::WatchersGet,
    }
}

/// That no instance of another session watches, or why the request ends: InUse where one does,
/// Fenced, or NoImage. Other lives of the session count as itself (own).
pub fn told_watchers(session: SessionNo, answer: &Answer) -> Result<(), Refusal>
    requires { TellsWatchers answer.now }
    ensures { (next : Plan) → on_watchers session next answer.now ≡ going (λ unused. next) result }
{
    match answer {
        Answer::Instances(watchers) => {
            if is_watched_beside(session, watchers.as_slice()) {
                return Err(Refusal::InUse);
            }
            Ok(())
        }
        _ => Err(refusal_of(answer)),
    }
}

/// Whether an instance of another session is among the watchers.
fn is_watched_beside(session: SessionNo, watchers: &[Instance]) -> bool
    ensures { result ≡ of_removals.is_watched_beside session watchers.now }
{
    for watcher in watchers {
        if watcher.session != session {
            return true;
        }
    }
    false
}
