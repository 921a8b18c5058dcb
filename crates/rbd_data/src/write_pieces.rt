//! The pieces of a write, made before the first is written.
ghost use Rattle.std.specs.Prelude.{◌≡◌, None, IfOk};
ghost use Rattle.rbd_kinds.specs.Form.{IsHeaderInForm};
ghost use Rattle.rbd_layout.specs.Pieces.{pieces_of};
ghost use Rattle.rbd_kinds.specs.declared.header.HeaderView as of_header;
ghost use Rattle.rbd_header.specs.Header.{context_of as told_context};
ghost use Rattle.rbd_parts.specs.Parts.{AreBehind, bytes_for as bytes_of_parts};
ghost use Rattle.rbd_machine.specs.Plan.{Plan};
ghost use Rattle.rbd_meaning.specs.Range.{extent_at, out_of_range};
ghost use Rattle.rbd_pieces.specs.Write.{write_piece as piece_of_write};
ghost use Rattle.rbd_data.specs.Write as of_write;

use crate::write::WriteTurn;
use rbd_header::context_of;
use rbd_kinds::{Bytes, Extent, HeaderView, ImageAt, NoMemory, SnapContext, TryClone};
use rbd_layout::{Piece, pieces};
use rbd_parts::bytes_for;
use rbd_pieces::WritePiece;
use std::alloc::Global;
use std::collections::VecDeque;

/// The pieces of a write of bytes to an image, from its byte `at` on, by ascending object. NoMemory
/// where memory for them is refused.
pub fn write_pieces(
    alloc: Global,
    target: ImageAt,
    header: &HeaderView,
    at: u64,
    bytes: &Bytes,
) -> Result<VecDeque<WriteTurn>, NoMemory>
    requires form { IsHeaderInForm header.now }
    requires fits { out_of_range (extent_at at bytes.now) header.now.size ≡ None }
    ensures { IfOk result (λ made. (next : Plan) → of_write.rest_of_pieces made.items next
        ≡ of_write.write_pieces target.site target.image header.now at bytes.now
        (pieces_of header.now.layout (extent_at at bytes.now)) next) }
{
    let extent = Extent {
        at,
        len: bytes.len() as u64,
    };
    let context = context_of(alloc, header)?;
    let listed = pieces(alloc, &header.layout, &extent)?;
    let mut made = VecDeque::new(alloc);
    for piece in listed {
        made.push_back(write_piece(alloc, target, &context, at, bytes, piece)?)?;
    }
    Ok(made)
}

/// One piece of the write, with those of the bytes that go to its object.
fn write_piece(
    alloc: Global,
    target: ImageAt,
    context: &SnapContext,
    at: u64,
    bytes: &Bytes,
    piece: Piece,
) -> Result<WriteTurn, NoMemory>
    requires { AreBehind at piece.parts }
    ensures plan { IfOk result (λ w. (header : of_header.HeaderView) (next : Plan) → context.now ≡ told_context header
        → of_write.rest_of_piece w next
        ≡ piece_of_write target.site target.image header piece (bytes_of_parts piece.parts at bytes.now) next) }
    ensures object { IfOk result (λ w. of_write.turn_object w ≡ piece.object) }
{
    let bytes = bytes_for(alloc, bytes, at, piece.parts.as_slice())?;
    let context = context.try_clone()?;
    let piece = WritePiece::new(target.site, target.image, context, piece, bytes);
    Ok(WriteTurn { piece })
}
