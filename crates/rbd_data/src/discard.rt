//! `discard`
ghost use Rattle.std.specs.Prelude.{◌≡◌, true};
ghost use Rattle.rbd_data.specs.Discard as of_discard;
ghost use Rattle.rbd_data.specs.Discard.{refuses_of, event_of, does, rest_of_piece, turn_object, TellsPiece, IsPieceReady};
ghost use Rattle.rbd_data.specs.ZeroPieceLaws.{piece_asks, piece_tells};

use crate::extent::range_refusal;
use crate::zero_pieces::zero_pieces;
use rbd_change::{ChangeSteps, ExtentChange, ExtentRequest, ObjectChange};
use rbd_kinds::{
    Answer, Command, Extent, HeaderView, ImageAt, ImageId, NoMemory, Op, Refusal, Sharing, SiteId,
    Want,
};
use rbd_machine::{Progress, Refuses};
use rbd_pieces::ZeroPiece;
use std::alloc::Global;
use std::collections::VecDeque;

/// The request of a `discard`: a range of an image's bytes becomes zeros, beside writes.
///
/// It is refused with NoImage where no image has the name, with NonPrimary where the image is a
/// secondary, with BadRange where the range is empty or ends behind the size (own: as a write of
/// that range), and with Fenced where an operation is answered so.
///
/// ```text
/// Approaching   dir-find, the line, header-get, the lock, header-get   (see `Approach`)
///    │             refused: NonPrimary, BadRange
/// Noting        the event Discard, in the image's journal
///    │
/// Acting ◀──┐   its turn at the next object, and then
///    │──────┘   one to three operations, done   (see `ZeroPiece`)
///    │ no piece is left
/// Applying      the event counts as applied
///    │
///    ▼
/// Done
/// ```
pub type DiscardRequest = ExtentRequest<DiscardChange, DiscardTurn>;

/// The range that becomes zeros.
#[derive(Drop)]
pub struct DiscardChange {
    extent: Extent,
}

/// One piece of a discard, which is done at its turn.
#[derive(Drop)]
pub struct DiscardTurn {
    pub(crate) piece: ZeroPiece,
}

/// A `discard` of `len` bytes of an image of the session's home site, from its byte `at` on. It
/// takes no memory.
pub fn discard_request(alloc: Global, home: SiteId, command: Command) -> DiscardRequest
    requires { of_discard.is_discard command ≡ true }
    ensures { of_discard.rest_of_request result ≡ of_discard.discard_plan home command }
{
    match command {
        Command::Discard { image, at, len } => {
            let extent = Extent {
                at: at.get(),
                len: len.get(),
            };
            let change = DiscardChange { extent };
            DiscardRequest::new(alloc, home, image.into_name(), Sharing::Discard, change)
        }
        _ => unreachable!(),
    }
}

impl ExtentChange for DiscardChange {
    type AtObject = DiscardTurn;

    ghost noted = { event_of };

    ghost does = { does };

    fn pieces(
        &self,
        alloc: Global,
        site: SiteId,
        image: ImageId,
        header: &HeaderView,
    ) -> Result<VecDeque<DiscardTurn>, NoMemory> {
        zero_pieces(alloc, ImageAt { site, image }, header, &self.extent)
    }
}

impl Refuses for DiscardChange {
    ghost refuses = { refuses_of };

    fn refusal(&self, header: &HeaderView) -> Option<Refusal> {
        range_refusal(&self.extent, header)
    }
}

impl ChangeSteps for DiscardTurn {
    ghost rest = { rest_of_piece };

    ghost tells = { TellsPiece };

    ghost is_ready = { IsPieceReady };

    fn wants(&self) -> Want {
        self.piece.wants()
    }

    fn next(&self, alloc: Global) -> Result<Op, NoMemory> {
        self.piece.next(alloc)
    }

    fn ready(&mut self, _alloc: Global, _answer: &Answer) -> Result<(), NoMemory> {
        Ok(())
    }

    fn feed(&mut self, answer: &Answer) -> Progress<()> {
        self.piece.feed(answer)
    }

    ghost asks = { piece_asks };

    ghost told = { piece_tells };
}

impl ObjectChange for DiscardTurn {
    ghost number = { turn_object };

    fn object(&self) -> u64 {
        self.piece.object()
    }
}
