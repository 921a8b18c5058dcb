//! Operations that several requests ask for.
ghost use Rattle.std.specs.Prelude.{◌≡◌, None};
ghost use Rattle.rbd_kinds.specs.declared.map_op.MapOp.TheVariants as states;
ghost use Rattle.rbd_kinds.specs.declared.operation.Op.TheVariants as on;

use rbd_kinds::{ImageId, MapOp, Op};

/// Looks at the head's object map.
pub fn map_get(image: ImageId) -> Op
    ensures { result ≡ on.Map image (states.Get None) }
{
    let op = MapOp::Get { snap: None };
    Op::Map { image, op }
}
