//! Which bytes of an object an extent has, and whether the object is inside the overlap.
ghost use Rattle.std.specs.Prelude.{◌≡◌, ◌+◌, ◌≤◌};
ghost use Rattle.rbd_kinds.specs.Form.{IsHeaderInForm};
ghost use Rattle.rbd_layout.specs.Pieces.{piece_in};
ghost use Rattle.rbd_pieces.specs.Zero as of_zero;

use rbd_kinds::{Extent, HeaderView};
use rbd_layout::{BytePlace, back, bytes_in};

/// Whether an extent has all bytes that an object has below the header's size. Two sums tell it, so
/// no parts are made.
pub fn is_whole(header: &HeaderView, extent: &Extent, object: u64) -> bool
    requires form { IsHeaderInForm header.now }
    requires within { extent.now.at + extent.now.len ≤ header.now.size }
    ensures { result ≡ of_zero.is_whole header.now (piece_in header.now.layout extent.now object) }
{
    let head = Extent {
        at: 0,
        len: header.size,
    };
    bytes_in(&header.layout, extent, object) == bytes_in(&header.layout, &head, object)
}

/// Whether an object of the head is inside its overlap: its first byte lies below it.
pub fn is_inside(header: &HeaderView, object: u64) -> bool
    requires form { IsHeaderInForm header.now }
    requires head { of_zero.IsOfHead header.now object }
    ensures { result ≡ of_zero.is_inside header.now object }
{
    match &header.parent {
        None => false,
        Some(link) => back(&header.layout, &BytePlace { object, offset: 0 }) < link.overlap,
    }
}
