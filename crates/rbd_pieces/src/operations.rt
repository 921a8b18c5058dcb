//! Operations on the head's map and on the header.
ghost use Rattle.std.specs.Prelude.{◌≡◌};
ghost use Rattle.rbd_pieces.specs.Operations as operations;

use rbd_kinds::{HeaderOp, ImageId, MapOp, Op};

/// The state of an object in the head's map.
pub fn map_set(image: ImageId, object: u64, state: u8) -> Op
    ensures { result ≡ operations.map_set image object state }
{
    let op = MapOp::Set {
        snap: None,
        object,
        state,
    };
    Op::Map { image, op }
}

/// The states of the head's map.
pub fn map_get(image: ImageId) -> Op
    ensures { result ≡ operations.map_get image }
{
    Op::Map {
        image,
        op: MapOp::Get { snap: None },
    }
}

/// Room in the head's map for so many objects.
pub fn map_resize(image: ImageId, objects: u64) -> Op
    ensures { result ≡ operations.map_resize image objects }
{
    Op::Map {
        image,
        op: MapOp::Resize { count: objects },
    }
}

/// A size of the head.
pub fn header_set_size(image: ImageId, to: u64) -> Op
    ensures { result ≡ operations.header_set_size image to }
{
    Op::Header {
        image,
        op: HeaderOp::SetSize { size: to },
    }
}
