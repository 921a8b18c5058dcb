//! The operations on an image's header that give it up, or tell its watchers something.
ghost use Rattle.std.specs.Prelude.{◌≡◌, IfOk};
ghost use Rattle.rbd_lock.specs.Steps as owner;
ghost use Rattle.rbd_session.specs.Close as to_close;

use rbd_kinds::{HeaderOp, ImageId, NoMemory, NoticeKind, Op, Payload, Shared, TryClone};
use std::alloc::Global;

/// The lock is let go.
pub fn lock_drop(image: ImageId) -> Op
    ensures { result ≡ owner.lock_drop image }
{
    let op = HeaderOp::LockDrop;
    Op::Header { image, op }
}

/// The instance doesn't watch the image any more.
pub fn unwatch(image: ImageId) -> Op
    ensures { result ≡ to_close.unwatch image }
{
    let op = HeaderOp::Unwatch;
    Op::Header { image, op }
}

/// The image's other watchers are told something.
pub fn notify(image: ImageId, kind: NoticeKind) -> Op
    ensures { result ≡ to_close.notify image kind }
{
    let op = HeaderOp::Notify { kind };
    Op::Header { image, op }
}

/// They are told these bytes of a client, which are copied. NoMemory where the copy is refused.
pub fn notify_bytes(alloc: Global, image: ImageId, bytes: &Payload) -> Result<Op, NoMemory>
    ensures { IfOk result (λ op. op ≡ to_close.custom image bytes.now) }
{
    let bytes = Shared::new(alloc, bytes.as_bytes().try_clone()?)?;
    Ok(notify(image, NoticeKind::Custom(bytes)))
}
