//! The pieces of a discard, made before the first becomes zeros.
ghost use Rattle.std.specs.Prelude.{◌≡◌, ◌+◌, ◌≤◌, None, IfOk};
ghost use Rattle.rbd_kinds.specs.Form.{IsHeaderInForm};
ghost use Rattle.rbd_layout.specs.Pieces.{piece_in, pieces_of};
ghost use Rattle.rbd_header.specs.Header as of_header;
ghost use Rattle.rbd_machine.specs.Plan.{Plan};
ghost use Rattle.rbd_meaning.specs.Range.{out_of_range};
ghost use Rattle.rbd_pieces.specs.Zero as of_zero;
ghost use Rattle.rbd_data.specs.Discard as of_discard;

use crate::discard::DiscardTurn;
use rbd_header::context_of;
use rbd_kinds::{Extent, HeaderView, ImageAt, NoMemory, SnapContext, TryClone};
use rbd_layout::objects_within;
use rbd_pieces::ZeroPiece;
use std::alloc::Global;
use std::collections::VecDeque;

/// The pieces of a range of an image's bytes that become zeros, by ascending object. They share one
/// snapshot context. NoMemory where memory for them is refused.
pub fn zero_pieces(
    alloc: Global,
    target: ImageAt,
    header: &HeaderView,
    extent: &Extent,
) -> Result<VecDeque<DiscardTurn>, NoMemory>
    requires form { IsHeaderInForm header.now }
    requires fits { out_of_range extent.now header.now.size ≡ None }
    ensures { IfOk result (λ made. (next : Plan) → of_discard.rest_of_pieces made.items next
        ≡ of_discard.zero_in_turns target.site target.image header.now (pieces_of header.now.layout extent.now) next) }
{
    let context = context_of(alloc, header)?;
    let touched = objects_within(alloc, &header.layout, extent)?;
    let mut made = VecDeque::new(alloc);
    for object in touched {
        made.push_back(zero_piece(alloc, target, header, &context, extent, object)?)?;
    }
    Ok(made)
}

/// The piece of one object.
fn zero_piece(
    alloc: Global,
    target: ImageAt,
    header: &HeaderView,
    context: &SnapContext,
    extent: &Extent,
    object: u64,
) -> Result<DiscardTurn, NoMemory>
    requires form { IsHeaderInForm header.now }
    requires head { of_zero.IsOfHead header.now object }
    requires within { extent.now.at + extent.now.len ≤ header.now.size }
    requires context { context.now ≡ of_header.context_of header.now }
    ensures plan { IfOk result (λ z. (next : Plan) → of_discard.rest_of_piece z next
        ≡ of_zero.zero_piece target.site target.image header.now (piece_in header.now.layout extent.now object) next) }
    ensures object { IfOk result (λ z. of_discard.turn_object z ≡ object) }
{
    let context = context.try_clone()?;
    let piece = ZeroPiece::new(alloc, &target, header, context, extent, object)?;
    Ok(DiscardTurn { piece })
}
