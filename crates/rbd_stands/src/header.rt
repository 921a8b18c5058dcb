//! Effects of operations on the header of an image.
ghost use Rattle.std.specs.Prelude.{◌≡◌, Option, IfOk, option_copied};
ghost use Rattle.rbd_kinds.specs.declared.answer.Answer.TheVariants as of_answer;
ghost use Rattle.rbd_kinds.specs.declared.header.HeaderView as of_header;
ghost use Rattle.rbd_kinds.specs.declared.header_op.HeaderOp.TheVariants as of_header_op;
ghost use Rattle.rbd_kinds.specs.declared.operation.Op.TheVariants as of_op;
ghost use Rattle.rbd_stands.specs.Effect.{effect_of_making, effect_of_op};

use rbd_flat::Effect;
use rbd_kinds::{HeaderOp, HeaderView, ImageId, NoMemory, Role, SnapId, TryClone};

/// The effect of an operation that was done, on an image that had this header.
pub fn of_done(image: ImageId, op: &HeaderOp, header: Option<&HeaderView>) -> Option<Effect>
    ensures { result ≡ effect_of_op (option_copied header.entry) (of_op.Header image op.now) of_answer.Done }
{
    match op {
        HeaderOp::Create { view } => Some(of_making(image, view)),
        HeaderOp::SetSize { size } => Some(Effect::Size { image, size: *size }),
        HeaderOp::SnapRemove { snap } => Some(Effect::Unsnap { image, snap: *snap }),
        HeaderOp::SnapStatus { snap, status } => Some(Effect::Status {
            image,
            snap: *snap,
            status: *status,
        }),
        HeaderOp::Role { role } => Some(Effect::Role { image, role: *role }),
        HeaderOp::Mirror => of_mirror(image, header),
        HeaderOp::Remove => Some(Effect::Gone { image }),
        HeaderOp::Get => None,
        HeaderOp::SnapAdd { name: _ } => None,
        HeaderOp::Detach => None,
        HeaderOp::Synced => None,
        HeaderOp::LockTake => None,
        HeaderOp::LockDrop => None,
        HeaderOp::LockBreak { owner: _ } => None,
        HeaderOp::Watch => None,
        HeaderOp::Unwatch => None,
        HeaderOp::WatchersGet => None,
        HeaderOp::Notify { kind: _ } => None,
    }
}

/// The effect of an operation that was answered with a snapshot.
pub fn of_snap(image: ImageId, op: &HeaderOp, snap: SnapId) -> Result<Option<Effect>, NoMemory>
    ensures { IfOk result (λ effect. (header : Option of_header.HeaderView)
        → effect ≡ effect_of_op header (of_op.Header image op.now) (of_answer.Snap snap)) }
{
    match op {
        HeaderOp::SnapAdd { name } => Ok(Some(Effect::Snap {
            image,
            snap,
            name: name.try_clone()?,
        })),
        HeaderOp::Create { view: _ } => Ok(None),
        HeaderOp::Get => Ok(None),
        HeaderOp::SetSize { size: _ } => Ok(None),
        HeaderOp::SnapRemove { snap: _ } => Ok(None),
        HeaderOp::SnapStatus { snap: _, status: _ } => Ok(None),
        HeaderOp::Detach => Ok(None),
        HeaderOp::Role { role: _ } => Ok(None),
        HeaderOp::Mirror => Ok(None),
        HeaderOp::Synced => Ok(None),
        HeaderOp::Remove => Ok(None),
        HeaderOp::LockTake => Ok(None),
        HeaderOp::LockDrop => Ok(None),
        HeaderOp::LockBreak { owner: _ } => Ok(None),
        HeaderOp::Watch => Ok(None),
        HeaderOp::Unwatch => Ok(None),
        HeaderOp::WatchersGet => Ok(None),
        HeaderOp::Notify { kind: _ } => Ok(None),
    }
}

/// The effect of a header as it is made: one with a parent is a clone's.
fn of_making(image: ImageId, view: &HeaderView) -> Effect
    ensures { result ≡ effect_of_making image view.now.size view.now.role view.now.parent }
{
    match &view.parent {
        Some(link) => Effect::Clone {
            image,
            parent: link.image,
            snap: link.snap,
        },
        None => Effect::Create {
            image,
            size: view.size,
            role: view.role,
        },
    }
}

/// The effect of a mirror enable: an image that gets its global name becomes the primary, and one
/// that had it stays.
fn of_mirror(image: ImageId, header: Option<&HeaderView>) -> Option<Effect>
    ensures { result ≡ effect_of_op (option_copied header.entry)
        (of_op.Header image of_header_op.Mirror) of_answer.Done }
{
    let header = header?;
    match &header.global {
        Some(_) => None,
        None => Some(Effect::Role {
            image,
            role: Role::Primary,
        }),
    }
}
