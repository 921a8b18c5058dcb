//! Effects of operations on a data object.
ghost use Rattle.std.specs.Prelude.{◌≡◌, IfOk};
ghost use Rattle.rbd_kinds.specs.Form.{IsHeaderInForm};
ghost use Rattle.rbd_flat.specs.declared.effect.Effect.TheVariants as of_effect;
ghost use Rattle.rbd_stands.specs.Effect.{effect_of_data, whole_object as whole};

use crate::bytes::bytes_below;
use crate::extents::{extents_below, whole_object};
use rbd_flat::Effect;
use rbd_kinds::{DataOp, HeaderView, ImageId, NoMemory, TryClone};
use std::alloc::Global;

/// The effect of an operation that was done on an object of an image that has this header.
pub fn of_done(
    alloc: Global,
    image: ImageId,
    object: u64,
    op: &DataOp,
    header: &HeaderView,
) -> Result<Option<Effect>, NoMemory>
    requires { IsHeaderInForm header.now }
    ensures { IfOk result (λ effect. effect ≡ effect_of_data image object header.now op.now) }
{
    match op {
        DataOp::Write {
            context: _,
            must: _,
            parts,
            bytes,
        } => Ok(Some(Effect::Piece {
            image,
            at: extents_below(alloc, header, object, parts.as_slice())?,
            bytes: bytes_below(alloc, header, object, parts.as_slice(), bytes)?,
        })),
        DataOp::WriteFull { context: _, bytes } => Ok(Some(Effect::Piece {
            image,
            at: whole_object(alloc, header, object)?,
            bytes: bytes.try_clone()?,
        })),
        DataOp::Zero {
            context: _,
            must: _,
            parts,
        } => Ok(Some(Effect::Zero {
            image,
            at: extents_below(alloc, header, object, parts.as_slice())?,
        })),
        DataOp::Empty { context: _ } => Ok(Some(zeros(alloc, image, object, header)?)),
        DataOp::Remove { context: _ } => Ok(Some(zeros(alloc, image, object, header)?)),
        DataOp::Read { snap: _, parts: _ } => Ok(None),
        DataOp::CopyUp { bytes: _ } => Ok(None),
    }
}

/// Zeros at all places of an object below the size.
fn zeros(
    alloc: Global,
    image: ImageId,
    object: u64,
    header: &HeaderView,
) -> Result<Effect, NoMemory>
    requires { IsHeaderInForm header.now }
    ensures { IfOk result (λ effect. effect ≡ of_effect.Zero image (whole header.now.layout header.now.size object)) }
{
    Ok(Effect::Zero {
        image,
        at: whole_object(alloc, header, object)?,
    })
}
