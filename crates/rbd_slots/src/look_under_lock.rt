//! The answer to a request's look under the lock: the objects that it then takes tickets for.
ghost use Rattle.std.specs.Prelude.{◌≡◌, true, IfOk};
ghost use Rattle.rbd_machine.specs.Course.{objects_of as objects_of_pieces, objects_asked as asked};
ghost use Rattle.rbd_kinds.specs.Extents.{fits};
ghost use Rattle.rbd_kinds.specs.Form.{IsHeaderInForm};
ghost use Rattle.rbd_layout.specs.Pieces.{pieces_of};
ghost use Rattle.rbd_slots.specs.Advance.{image_looked_at};

use rbd_kinds::{Extent, HeaderOp, HeaderView, ImageId, NoMemory, Op, Sequence};
use std::alloc::Global;

/// The objects of an extent that ends within the size.
fn objects_within(
    alloc: Global,
    header: &HeaderView,
    extent: &Extent,
) -> Result<Sequence<u64>, NoMemory>
    requires form { IsHeaderInForm header.now }
    requires fits { fits extent.now header.now.size ≡ true }
    ensures { IfOk result (λ objects. objects ≡ objects_of_pieces (pieces_of header.now.layout extent.now)) }
{
    let touched = rbd_layout::objects_within(alloc, &header.layout, extent)?;
    Ok(Sequence::from_vec(touched))
}

/// The objects that a request changes beside others, by a header: none where it has no extent, or
/// its extent doesn't end within the size. NoMemory where the memory for them is refused.
pub fn objects_asked(
    alloc: Global,
    header: &HeaderView,
    extent: Option<Extent>,
) -> Result<Sequence<u64>, NoMemory>
    requires { IsHeaderInForm header.now }
    ensures { IfOk result (λ objects. objects ≡ asked header.now extent) }
{
    let Some(extent) = extent else {
        return Ok(Sequence::new(alloc));
    };
    if !extent.fits(header.size) {
        return Ok(Sequence::new(alloc));
    }
    objects_within(alloc, header, &extent)
}

/// The image whose header an operation looks at.
pub fn image_of_look(op: Op) -> Option<ImageId>
    ensures { result ≡ image_looked_at op }
{
    let image = match &op {
        Op::Header {
            image,
            op: HeaderOp::Get,
        } => Some(*image),
        _ => None,
    };
    drop(op);
    image
}
