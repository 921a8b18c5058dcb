//! `write` and `fill`
ghost use Rattle.std.specs.Prelude.{◌≡◌, true, replicate, IfOk};
ghost use Rattle.rbd_meaning.specs.Range.{extent_at};
ghost use Rattle.rbd_data.specs.WritePieceLaws.{piece_asks, piece_tells};
ghost use Rattle.rbd_data.specs.Write as of_write;
ghost use Rattle.rbd_data.specs.Write.{refuses_of, event_of, does, rest_of_piece, turn_object, TellsPiece, IsPieceReady};

use crate::extent::range_refusal;
use crate::write_pieces::write_pieces;
use rbd_change::{ChangeSteps, ExtentChange, ExtentRequest, ObjectChange};
use rbd_kinds::{
    Answer, Bytes, Command, Extent, FillLength, HeaderView, ImageAt, ImageId, Name, NoMemory, Op,
    Refusal, Sharing, SiteId, Want,
};
use rbd_machine::{Progress, Refuses};
use rbd_pieces::WritePiece;
use std::alloc::Global;
use std::collections::VecDeque;

/// The request of a `write` of bytes to an image, or of one byte many times (`fill`).
///
/// ```text
/// Approaching   dir-find, the line, header-get, the lock, header-get   (see `Approach`)
///    │             refused: NonPrimary, BadRange
/// Noting        the event Write, in the image's journal
///    │
/// Acting ◀──┐   its turn at the next object, and then
///    │──────┘   map-set, data-write, done   (see `WritePiece`)
///    │ no piece is left
/// Applying      the event counts as applied
///    │
///    ▼
/// Done
/// ```
pub type WriteRequest = ExtentRequest<WriteChange, WriteTurn>;

/// The bytes that are written, and where.
#[derive(Drop)]
pub struct WriteChange {
    at: u64,
    bytes: Bytes,
}

/// One piece of a write, which is done at its turn.
#[derive(Drop)]
pub struct WriteTurn {
    pub(crate) piece: WritePiece,
}

/// A `write` or a `fill` of an image of the session's home site. NoMemory where the memory to share
/// the bytes of a write, or for those of a fill, is refused.
pub fn write_request(
    alloc: Global,
    home: SiteId,
    command: Command,
) -> Result<WriteRequest, NoMemory>
    requires { of_write.is_write command ≡ true }
    ensures { IfOk result (λ w. of_write.rest_of_request w ≡ of_write.write_plan home command) }
{
    match command {
        Command::Write { image, at, bytes } => {
            let bytes = bytes.into_bytes().share()?;
            Ok(write_of(alloc, home, image.into_name(), at.get(), bytes))
        }
        Command::Fill {
            image,
            at,
            len,
            byte,
        } => {
            let bytes = filled(alloc, len, byte)?;
            Ok(write_of(alloc, home, image.into_name(), at.get(), bytes))
        }
        _ => unreachable!(),
    }
}

/// A write of bytes to the image of a name.
fn write_of(alloc: Global, site: SiteId, name: Name, at: u64, bytes: Bytes) -> WriteRequest
    ensures { of_write.rest_of_request result ≡ of_write.write site name at bytes }
{
    let change = WriteChange { at, bytes };
    WriteRequest::new(alloc, site, name, Sharing::Shared, change)
}

/// As many bytes as a fill puts, in memory that its pieces share.
fn filled(alloc: Global, len: FillLength, byte: u8) -> Result<Bytes, NoMemory>
    ensures { IfOk result (λ bytes. bytes ≡ replicate len byte) }
{
    let bytes = vec![in alloc; byte; len.get() as usize]?;
    Bytes::from_vec(bytes).share()
}

impl WriteChange {
    fn extent(&self) -> Extent
        ensures { result ≡ extent_at self.now.at self.now.bytes }
    {
        Extent {
            at: self.at,
            len: self.bytes.len() as u64,
        }
    }
}

impl ExtentChange for WriteChange {
    type AtObject = WriteTurn;

    ghost noted = { event_of };

    ghost does = { does };

    fn pieces(
        &self,
        alloc: Global,
        site: SiteId,
        image: ImageId,
        header: &HeaderView,
    ) -> Result<VecDeque<WriteTurn>, NoMemory> {
        write_pieces(alloc, ImageAt { site, image }, header, self.at, &self.bytes)
    }
}

impl Refuses for WriteChange {
    ghost refuses = { refuses_of };

    fn refusal(&self, header: &HeaderView) -> Option<Refusal> {
        range_refusal(&self.extent(), header)
    }
}

impl ChangeSteps for WriteTurn {
    ghost rest = { rest_of_piece };

    ghost tells = { TellsPiece };

    ghost is_ready = { IsPieceReady };

    fn wants(&self) -> Want {
        self.piece.wants()
    }

    fn next(&self, alloc: Global) -> Result<Op, NoMemory> {
        self.piece.next(alloc)
    }

    fn ready(&mut self, _alloc: Global, _answer: &Answer) -> Result<(), NoMemory> {
        Ok(())
    }

    fn feed(&mut self, answer: &Answer) -> Progress<()> {
        self.piece.feed(answer)
    }

    ghost asks = { piece_asks };

    ghost told = { piece_tells };
}

impl ObjectChange for WriteTurn {
    ghost number = { turn_object };

    fn object(&self) -> u64 {
        self.piece.object()
    }
}
