//! Which steps ask again.
ghost use Rattle.std.specs.Prelude.{◌≡◌};
ghost use Rattle.rbd_lock.specs.Waiting.{asks_again, asks_for_lock as waits};

use rbd_kinds::{Answer, OpKind};
use rbd_machine::Reason;

/// Whether a step on the way to a lock asks again: the `lock-take` was told that the lock is held,
/// the `watchers-get` who watches, or the `notify` was posted. How often this happens has no bound.
/// An answer that ends the request isn't among these (own).
pub fn is_waiting(reason: Reason, kind: OpKind, answer: &Answer) -> bool
    ensures { result ≡ waits reason kind answer.now }
{
    match reason {
        Reason::Acquiring => asks_again(kind, answer),
        _ => false,
    }
}

fn asks_again(kind: OpKind, answer: &Answer) -> bool
    ensures { result ≡ asks_again kind answer.now }
{
    match (kind, answer) {
        (OpKind::LockTake, Answer::Held(_)) => true,
        (OpKind::WatchersGet, Answer::Instances(_)) => true,
        (OpKind::Notify, Answer::Done) => true,
        _ => false,
    }
}
