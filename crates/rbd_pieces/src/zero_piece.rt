//! One piece that becomes zeros.
ghost use Rattle.std.specs.Prelude.{◌≡◌, ◌+◌, ◌≤◌, IfOk};
ghost use Rattle.rbd_layout.specs.Pieces.{piece_in};
ghost use Rattle.rbd_kinds.specs.declared.answer.Answer.TheVariants as of_answer;
ghost use Rattle.rbd_kinds.specs.declared.machine.Want.TheVariants as want;
ghost use Rattle.rbd_kinds.specs.declared.operation.Op.TheVariants as op_of;
ghost use Rattle.rbd_kinds.specs.Form.{IsHeaderInForm};
ghost use Rattle.rbd_header.specs.Header as of_header;
ghost use Rattle.rbd_machine.specs.Plan.{Plan, Wants, Asks};
ghost use Rattle.rbd_machine.specs.Steps.{ProgressesBy, TellsDone};
ghost use Rattle.rbd_pieces.specs.Operations as operations;
ghost use Rattle.rbd_pieces.specs.Zero as of_zero;
ghost use Rattle.rbd_pieces.specs.declared.zero_piece.ZeroPiece as of_piece;
ghost use Rattle.rbd_kinds.specs.declared.id.SiteId as of_site;
ghost use Rattle.rbd_pieces.specs.Zero.{rest_of_zero};

use crate::operations::map_set;
use crate::whole::{is_inside, is_whole};
use rbd_kinds::{
    Answer, DataOp, Extent, HeaderView, ImageAt, ImageId, NoMemory, Op, OpKind, Parts, SiteId,
    SnapContext, TryClone, Want,
};
use rbd_layout::{Piece, parts_in};
use rbd_machine::{Progress, told_done};
use std::alloc::Global;

/// One piece of an image that becomes zeros: the bytes of its parts, which lie in one object.
///
/// ```text
///      some bytes of the object                  all bytes of it
///   outside           inside               inside             outside      the overlap
///
///  Zeroing       RaisingToZero        RaisingToEmpty         Marking
///  data-zero     map-set 1            map-set 1              map-set 2
///     │             │ done               │ done                 │ done
///     │          ZeroingThere         Emptying               Removing
///     │          data-zero, must      data-empty             data-remove
///     │             │                    │                      │ done
///     │             │                    │                   Lowering
///     │             │                    │                   map-set 0
///     ▼             ▼                    ▼                      ▼
///                              the end
/// ```
///
/// What is answered `none` ends the request with NoImage, and `fenced` with Fenced. Only where a
/// clone's object inside the overlap was never copied up is `data-zero` answered `none`; there are
/// no clones yet.
#[derive(Drop)]
pub struct ZeroPiece {
    site: SiteId,
    image: ImageId,
    context: SnapContext,
    piece: Piece,
    stage: Stage,
}

/// A stage of a piece.
#[derive(Clone, Copy)]
pub enum Stage {
    Zeroing,
    RaisingToZero,
    ZeroingThere,
    RaisingToEmpty,
    Emptying,
    Marking,
    Removing,
    Lowering,
}

impl ZeroPiece {
    /// Zeros for the bytes that an extent has of an object of an image's head, by a header and
    /// under its snapshot context. Where it has all of them, their parts aren't made. NoMemory
    /// where the parts are refused.
    pub fn new(
        alloc: Global,
        target: &ImageAt,
        header: &HeaderView,
        context: SnapContext,
        extent: &Extent,
        object: u64,
    ) -> Result<Self, NoMemory>
        requires form { IsHeaderInForm header.now }
        requires head { of_zero.IsOfHead header.now object }
        requires within { extent.now.at + extent.now.len ≤ header.now.size }
        requires context { context ≡ of_header.context_of header.now }
        ensures { IfOk result (λ z. (next : Plan) → rest_of_zero z next
            ≡ of_zero.zero_piece target.now.site target.now.image header.now
            (piece_in header.now.layout extent.now object) next) }
    {
        let inside = is_inside(header, object);
        if is_whole(header, extent, object) {
            let parts = Parts::new(alloc);
            let piece = Piece { object, parts };
            return Ok(ZeroPiece::all(target.site, target.image, context, inside, piece));
        }
        let parts = parts_in(alloc, &header.layout, extent, object)?;
        Ok(ZeroPiece {
            site: target.site,
            image: target.image,
            context,
            piece: Piece { object, parts },
            stage: first_stage(false, inside),
        })
    }

    /// Zeros for all bytes of an object, under a snapshot context. It takes no memory.
    pub(crate) fn all(
        site: SiteId,
        image: ImageId,
        context: SnapContext,
        inside: bool,
        piece: Piece,
    ) -> Self
        ensures { (next : Plan) → rest_of_zero result next ≡ of_zero.zero_all site image context piece inside next }
    {
        ZeroPiece {
            site,
            image,
            context,
            piece,
            stage: first_stage(true, inside),
        }
    }

    /// The number of its object.
    pub fn object(&self) -> u64
        ensures { result ≡ self.now.piece.object }
    {
        self.piece.object
    }

    /// What it wants.
    pub fn wants(&self) -> Want
        ensures { (next : Plan) → Wants (rest_of_zero self.now next) result }
    {
        Want::Op {
            site: self.site,
            kind: kind_at(self.stage),
        }
    }

    /// The operation that it wants. NoMemory where memory for it is refused.
    pub fn next(&self, alloc: Global) -> Result<Op, NoMemory>
        ensures { (next : Plan) → IfOk result (Asks (rest_of_zero self.now next)) }
    {
        match self.stage {
            Stage::Zeroing => self.zero(alloc, false),
            Stage::RaisingToZero => Ok(self.set(1)),
            Stage::ZeroingThere => self.zero(alloc, true),
            Stage::RaisingToEmpty => Ok(self.set(1)),
            Stage::Emptying => self.empty(alloc),
            Stage::Marking => Ok(self.set(2)),
            Stage::Removing => self.remove(alloc),
            Stage::Lowering => Ok(self.set(0)),
        }
    }

    /// A state of its object in the head's map.
    fn set(&self, state: u8) -> Op
        ensures { result ≡ operations.map_set self.now.image self.now.piece.object state }
    {
        map_set(self.image, self.piece.object, state)
    }

    /// Its parts become zeros.
    fn zero(&self, alloc: Global, must: bool) -> Result<Op, NoMemory>
        ensures { IfOk result (λ op. op ≡ operations.data_zero self.now.image self.now.context must self.now.piece) }
    {
        let op = DataOp::Zero {
            context: self.context.try_clone()?,
            must,
            parts: self.piece.parts.try_clone()?,
        };
        self.of_object(alloc, op)
    }

    /// Its object loses its bytes, and stays.
    fn empty(&self, alloc: Global) -> Result<Op, NoMemory>
        ensures { IfOk result (λ op. op ≡ operations.data_empty self.now.image self.now.context self.now.piece.object) }
    {
        let op = DataOp::Empty {
            context: self.context.try_clone()?,
        };
        self.of_object(alloc, op)
    }

    /// Its object goes.
    fn remove(&self, alloc: Global) -> Result<Op, NoMemory>
        ensures { IfOk result (λ op. op
            ≡ operations.data_remove self.now.image self.now.context self.now.piece.object) }
    {
        let op = DataOp::Remove {
            context: self.context.try_clone()?,
        };
        self.of_object(alloc, op)
    }

    /// An operation on its object.
    fn of_object(&self, alloc: Global, op: DataOp) -> Result<Op, NoMemory>
        ensures { IfOk result (λ made. made ≡ op_of.Data self.now.image self.now.piece.object op) }
    {
        Op::on_object(alloc, self.image, self.piece.object, op)
    }

    /// Goes on with an answer. Refused with NoImage by `none`, and with Fenced by `fenced`. It
    /// takes no memory.
    pub fn feed(&mut self, answer: &Answer) -> Progress<()>
        requires { TellsDone answer.now }
        ensures { ProgressesBy rest_of_zero answer.now result self.old self.new }
    {
        match told_done(answer) {
            Ok(()) => self.go_on(),
            Err(refusal) => Progress::Refused(refusal),
        }
    }

    /// Goes on behind an operation that was done.
    fn go_on(&mut self) -> Progress<()>
        ensures { ProgressesBy rest_of_zero of_answer.Done result self.old self.new }
    {
        match self.stage {
            Stage::Zeroing => Progress::Ended(()),
            Stage::RaisingToZero => {
                self.stage = Stage::ZeroingThere;
                Progress::More
            }
            Stage::ZeroingThere => Progress::Ended(()),
            Stage::RaisingToEmpty => {
                self.stage = Stage::Emptying;
                Progress::More
            }
            Stage::Emptying => Progress::Ended(()),
            Stage::Marking => {
                self.stage = Stage::Removing;
                Progress::More
            }
            Stage::Removing => {
                self.stage = Stage::Lowering;
                Progress::More
            }
            Stage::Lowering => Progress::Ended(()),
        }
    }
}

/// Where the zeros of a piece begin, by how much of its object it has, and whether that is inside
/// the overlap.
fn first_stage(whole: bool, inside: bool) -> Stage
    ensures { (z : of_piece.ZeroPiece) (next : Plan)
        → of_zero.rest_from result z next ≡ of_zero.zero_by z.site z.image z.context z.piece whole inside next }
{
    match (whole, inside) {
        (false, false) => Stage::Zeroing,
        (false, true) => Stage::RaisingToZero,
        (true, true) => Stage::RaisingToEmpty,
        (true, false) => Stage::Marking,
    }
}

/// The kind of the operation at a stage.
fn kind_at(stage: Stage) -> OpKind
    ensures { (z : of_piece.ZeroPiece) (next : Plan) (site : of_site.SiteId)
        → z.site ≡ site → Wants (of_zero.rest_from stage z next) (want.Op site result) }
{
    match stage {
        Stage::Zeroing => OpKind::DataZero,
        Stage::RaisingToZero => OpKind::MapSet,
        Stage::ZeroingThere => OpKind::DataZero,
        Stage::RaisingToEmpty => OpKind::MapSet,
        Stage::Emptying => OpKind::DataEmpty,
        Stage::Marking => OpKind::MapSet,
        Stage::Removing => OpKind::DataRemove,
        Stage::Lowering => OpKind::MapSet,
    }
}
