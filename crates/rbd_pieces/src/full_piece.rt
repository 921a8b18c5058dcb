//! One piece that replaces its object.
ghost use Rattle.std.specs.Prelude.{◌≡◌, true, IfOk};
ghost use Rattle.rbd_kinds.specs.Form.{IsHeaderInForm};
ghost use Rattle.rbd_header.specs.Header as of_header;
ghost use Rattle.rbd_machine.specs.Plan.{Plan, Wants, Asks};
ghost use Rattle.rbd_machine.specs.Steps.{ProgressesBy, TellsDone};
ghost use Rattle.rbd_pieces.specs.Full as of_full;
ghost use Rattle.rbd_pieces.specs.Full.{rest_of_full};
ghost use Rattle.rbd_pieces.specs.Zero as of_zero;

use crate::cut::cut;
use crate::replace::Replace;
use crate::whole::is_inside;
use crate::zero_piece::ZeroPiece;
use rbd_header::context_of;
use rbd_kinds::{Answer, Bytes, HeaderView, ImageId, NoMemory, Op, SiteId, SnapContext, Want};
use rbd_layout::Piece;
use rbd_machine::Progress;
use std::alloc::Global;

/// One piece of an image that has all bytes of its object, and bytes that take their place. Zeros
/// at the end of the bytes aren't written: an object reads as zeros past its last byte.
///
/// ```text
///     a byte isn't zero              all are zeros
///
/// Replacing                       Zeroing
/// map-set 1                       as a `ZeroPiece` of all bytes
///    │ done                          │
/// data-write-full                    │
///    │ done                          │
///    ▼                               ▼
///                 the end
/// ```
///
/// What is answered `none` ends the request with NoImage, and `fenced` with Fenced.
#[derive(Drop)]
pub struct FullPiece {
    way: Way,
}

/// The way that it goes, by its bytes.
#[derive(Drop)]
pub enum Way {
    Replacing(Replace),
    Zeroing(ZeroPiece),
}

impl FullPiece {
    /// Bytes for a piece of an image's head, by a header: the piece has all bytes of its object,
    /// and the bytes are the object's from its first on. NoMemory where the snapshot context or the
    /// cut bytes are refused.
    pub fn new(
        alloc: Global,
        site: SiteId,
        image: ImageId,
        header: &HeaderView,
        piece: Piece,
        bytes: &Bytes,
    ) -> Result<Self, NoMemory>
        requires form { IsHeaderInForm header.now }
        requires head { of_zero.IsOfHead header.now piece.object }
        requires whole { of_zero.is_whole header.now piece ≡ true }
        ensures { IfOk result (λ f. (next : Plan)
            → rest_of_full f next ≡ of_full.full_piece site image header.now piece bytes.now next) }
    {
        let context = context_of(alloc, header)?;
        FullPiece::under(site, image, header, context, piece, bytes)
    }

    /// The same, under a snapshot context, which is the header's. NoMemory where the cut bytes are
    /// refused.
    pub fn under(
        site: SiteId,
        image: ImageId,
        header: &HeaderView,
        context: SnapContext,
        piece: Piece,
        bytes: &Bytes,
    ) -> Result<Self, NoMemory>
        requires form { IsHeaderInForm header.now }
        requires head { of_zero.IsOfHead header.now piece.object }
        requires whole { of_zero.is_whole header.now piece ≡ true }
        requires context { context ≡ of_header.context_of header.now }
        ensures { IfOk result (λ f. (next : Plan)
            → rest_of_full f next ≡ of_full.full_piece site image header.now piece bytes.now next) }
    {
        let left = cut(bytes)?;
        if left.is_empty() {
            let inside = is_inside(header, piece.object);
            let zeros = ZeroPiece::all(site, image, context, inside, piece);
            return Ok(FullPiece {
                way: Way::Zeroing(zeros),
            });
        }
        let replace = Replace::new(site, image, context, piece.object, left);
        Ok(FullPiece {
            way: Way::Replacing(replace),
        })
    }

    /// What it wants.
    pub fn wants(&self) -> Want
        ensures { (next : Plan) → Wants (rest_of_full self.now next) result }
    {
        match &self.way {
            Way::Replacing(replace) => replace.wants(),
            Way::Zeroing(zeros) => zeros.wants(),
        }
    }

    /// The operation that it wants. NoMemory where memory for it is refused.
    pub fn next(&self, alloc: Global) -> Result<Op, NoMemory>
        ensures { (next : Plan) → IfOk result (Asks (rest_of_full self.now next)) }
    {
        match &self.way {
            Way::Replacing(replace) => replace.next(alloc),
            Way::Zeroing(zeros) => zeros.next(alloc),
        }
    }

    /// Goes on with an answer. Refused with NoImage by `none`, and with Fenced by `fenced`. It
    /// takes no memory.
    pub fn feed(&mut self, answer: &Answer) -> Progress<()>
        requires { TellsDone answer.now }
        ensures { ProgressesBy rest_of_full answer.now result self.old self.new }
    {
        match &mut self.way {
            Way::Replacing(replace) => replace.feed(answer),
            Way::Zeroing(zeros) => zeros.feed(answer),
        }
    }
}
