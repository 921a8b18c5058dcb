//! What a shrink zeros before it sets the size.
ghost use Rattle.std.specs.Prelude.{◌≡◌, ◌+◌, ◌<◌, ◌≤◌, ◌&&◌, IfOk};
ghost use Rattle.rbd_kinds.specs.Form.{IsHeaderInForm};
ghost use Rattle.rbd_layout.specs.declared.types.Piece as of_piece;
ghost use Rattle.rbd_layout.specs.Pieces.{is_touched, piece_in};
ghost use Rattle.rbd_machine.specs.Plan.{Plan};
ghost use Rattle.rbd_pieces.specs.Shrink as of_shrink;
ghost use Rattle.rbd_pieces.specs.Size.{rest_of_zeros, zero_pieces};
ghost use Rattle.rbd_pieces.specs.Zero.{IsOfHead};

use crate::states::state_in;
use crate::whole::is_inside;
use crate::zero_piece::ZeroPiece;
use rbd_header::context_of;
use rbd_kinds::{Extent, HeaderView, ImageAt, NoMemory, TryClone};
use rbd_layout::{bytes_in, first_object, objects};
use std::alloc::Global;
use std::collections::VecDeque;
use std::marker::Model;

/// A head, by its header, and a smaller size. Contracts see it as `Shrunk`.
#[derive(Drop)]
pub struct Shrink {
    header: HeaderView,
    to: u64,
}

impl Model for Shrink {
    ghost use Rattle.std.specs.Prelude.{◌<◌};
    ghost use Rattle.rbd_kinds.specs.Form.{IsHeaderInForm};
    ghost use Rattle.rbd_pieces.specs.Shrink.{Shrunk};

    ghost Value = { Shrunk };

    ghost view = { λ s. record { header = s.header; to = s.to } };

    ghost invariant = { λ s. IsHeaderInForm s.header × (s.to < s.header.size) };
}

impl Shrink {
    /// With a copy of the header.
    pub fn new(header: &HeaderView, to: u64) -> Result<Self, NoMemory>
        requires form { IsHeaderInForm header.now }
        requires less { to < header.now.size }
        ensures { IfOk result (λ s. s ≡ record { header = header.now; to = to }) }
    {
        Ok(Shrink {
            header: header.try_clone()?,
            to,
        })
    }

    /// The size.
    pub fn to(&self) -> u64
        ensures { result ≡ self.now.to }
    {
        self.to
    }

    /// The zeros, by the states of the head's map.
    pub fn zeros(
        &self,
        alloc: Global,
        target: &ImageAt,
        bits: &[u8],
    ) -> Result<VecDeque<ZeroPiece>, NoMemory>
        ensures { IfOk result (λ made. (next : Plan) → rest_of_zeros made.items next
            ≡ zero_pieces target.now.site target.now.image self.now.header
            (of_shrink.pieces_from self.now.header self.now.to bits.now) next) }
    {
        zeros(alloc, target, &self.header, self.to, bits)
    }
}

/// Zeros for the head's bytes from a size on, of the objects that have bytes there.
fn zeros(
    alloc: Global,
    target: &ImageAt,
    header: &HeaderView,
    to: u64,
    bits: &[u8],
) -> Result<VecDeque<ZeroPiece>, NoMemory>
    requires form { IsHeaderInForm header.now }
    requires less { to ≤ header.now.size }
    ensures { IfOk result (λ made. (next : Plan) → rest_of_zeros made.items next
        ≡ zero_pieces target.now.site target.now.image header.now (of_shrink.pieces_from header.now to bits.now) next) }
{
    let extent = head_from(header, to);
    let context = context_of(alloc, header)?;
    let first = first_object(&header.layout, &extent);
    let end = objects(&header.layout, header.size);
    let mut made = VecDeque::new(alloc);
    for object in first..end {
        if is_zeroed(header, bits, &extent, object) {
            let context = context.try_clone()?;
            let zeros = ZeroPiece::new(alloc, target, header, context, &extent, object)?;
            made.push_back(zeros)?;
        }
    }
    Ok(made)
}

/// The head's bytes from a size on.
fn head_from(header: &HeaderView, to: u64) -> Extent
    requires { to ≤ header.now.size }
    ensures { result ≡ of_shrink.head_from header.now to }
{
    Extent {
        at: to,
        len: header.size - to,
    }
}

/// Whether bytes of an object become zeros: it has bytes, and the extent has some of them. Most
/// often it has none, which costs least to find out.
fn is_zeroed(header: &HeaderView, bits: &[u8], extent: &Extent, object: u64) -> bool
    requires form { IsHeaderInForm header.now }
    requires head { IsOfHead header.now object }
    requires within { extent.now.at + extent.now.len ≤ header.now.size }
    ensures { result ≡ (of_shrink.piece_has_bytes header.now bits.now (piece_in header.now.layout extent.now object)
        && is_touched (piece_in header.now.layout extent.now object)) }
{
    if !has_bytes(header, bits, object) {
        return false;
    }
    bytes_in(&header.layout, extent, object) > 0
}

/// Whether an object has bytes: it is inside the overlap, or isn't in state 0.
fn has_bytes(header: &HeaderView, bits: &[u8], object: u64) -> bool
    requires form { IsHeaderInForm header.now }
    requires head { IsOfHead header.now object }
    ensures { (p : of_piece.Piece) → p.object ≡ object → result ≡ of_shrink.piece_has_bytes header.now bits.now p }
{
    if is_inside(header, object) {
        return true;
    }
    state_in(bits, object) != 0
}
