//! One piece of a write.
ghost use Rattle.std.specs.Prelude.{◌≡◌, IfOk};
ghost use Rattle.rbd_machine.specs.Objects.{data_write, map_exists};
ghost use Rattle.rbd_machine.specs.Plan.{Plan, Wants, Asks};
ghost use Rattle.rbd_machine.specs.Steps.{ProgressesBy, TellsDone};
ghost use Rattle.rbd_kinds.specs.declared.header.HeaderView.{HeaderView};
ghost use Rattle.rbd_header.specs.Header.{context_of};
ghost use Rattle.rbd_pieces.specs.Write.{write_piece, rest_of_write};

use rbd_kinds::{
    Answer, Bytes, DataOp, ImageId, MapOp, NoMemory, Op, OpKind, SiteId, SnapContext, TryClone,
    Want,
};
use rbd_layout::Piece;
use rbd_machine::{Progress, told_done};
use std::alloc::Global;

/// One piece of a write: those of its bytes that go to one object. Before they do, the object's
/// state in the head's map says that it exists.
///
/// ```text
/// Raising   map-set ─────none──▶ NoImage
///              │ done               ▲
///              ▼                    │
/// Writing   data-write ──none───────┘
///              │ done
///              ▼
///           the end
/// ```
#[derive(Drop)]
pub struct WritePiece {
    site: SiteId,
    image: ImageId,
    context: SnapContext,
    piece: Piece,
    bytes: Bytes,
    stage: Stage,
}

/// A stage of a piece: its object's state is raised, and then its bytes are written.
#[derive(Clone, Copy)]
pub enum Stage {
    Raising,
    Writing,
}

impl WritePiece {
    /// Puts bytes into a piece of an image, under a snapshot context that its header gives: as many
    /// bytes as the piece's parts have together. It takes no memory.
    pub fn new(
        site: SiteId,
        image: ImageId,
        context: SnapContext,
        piece: Piece,
        bytes: Bytes,
    ) -> Self
        ensures plan { (header : HeaderView) (next : Plan) → context ≡ context_of header
            → rest_of_write result next ≡ write_piece site image header piece bytes next }
        ensures object { result.piece.object ≡ piece.object }
    {
        WritePiece {
            site,
            image,
            context,
            piece,
            bytes,
            stage: Stage::Raising,
        }
    }

    /// The number of its object.
    pub fn object(&self) -> u64
        ensures { result ≡ self.now.piece.object }
    {
        self.piece.object
    }

    /// What it wants.
    pub fn wants(&self) -> Want
        ensures { (next : Plan) → Wants (rest_of_write self.now next) result }
    {
        let kind = match self.stage {
            Stage::Raising => OpKind::MapSet,
            Stage::Writing => OpKind::DataWrite,
        };
        Want::Op {
            site: self.site,
            kind,
        }
    }

    /// The operation that it wants. NoMemory where memory for it is refused.
    pub fn next(&self, alloc: Global) -> Result<Op, NoMemory>
        ensures { (next : Plan) → IfOk result (Asks (rest_of_write self.now next)) }
    {
        match self.stage {
            Stage::Raising => Ok(self.raise()),
            Stage::Writing => self.write(alloc),
        }
    }

    /// State 1 of its object in the head's map: it exists.
    fn raise(&self) -> Op
        ensures { result ≡ map_exists self.now.image self.now.piece.object }
    {
        let op = MapOp::Set {
            snap: None,
            object: self.piece.object,
            state: 1,
        };
        Op::Map {
            image: self.image,
            op,
        }
    }

    /// Its bytes go to its object.
    fn write(&self, alloc: Global) -> Result<Op, NoMemory>
        ensures { IfOk result (λ op. op ≡ data_write self.now.image self.now.context self.now.piece self.now.bytes) }
    {
        let op = DataOp::Write {
            context: self.context.try_clone()?,
            must: false,
            parts: self.piece.parts.try_clone()?,
            bytes: self.bytes.try_clone()?,
        };
        Op::on_object(alloc, self.image, self.piece.object, op)
    }

    /// Goes on with an answer. Refused with NoImage by `none`, and with Fenced by `fenced`. It
    /// takes no memory.
    pub fn feed(&mut self, answer: &Answer) -> Progress<()>
        requires { TellsDone answer.now }
        ensures { ProgressesBy rest_of_write answer.now result self.old self.new }
    {
        match told_done(answer) {
            Ok(()) => match self.stage {
                Stage::Raising => {
                    self.stage = Stage::Writing;
                    Progress::More
                }
                Stage::Writing => Progress::Ended(()),
            },
            Err(refusal) => Progress::Refused(refusal),
        }
    }
}
