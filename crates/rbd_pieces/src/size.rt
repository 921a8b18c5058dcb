//! The size of an image's head.
ghost use Rattle.std.specs.Prelude.{◌≡◌, ℕ, IfOk, OnOk};
ghost use Rattle.rbd_kinds.specs.Form.{HasFewObjects, IsHeaderInForm};
ghost use Rattle.rbd_kinds.specs.Striping.{IsObjectCount};
ghost use Rattle.rbd_machine.specs.Plan.{Plan, Wants, Asks};
ghost use Rattle.rbd_machine.specs.Steps.{Progresses, ProgressesBy};
ghost use Rattle.rbd_pieces.specs.Size as of_size;
ghost use Rattle.rbd_pieces.specs.Size.{rest_of_size};
ghost use Rattle.rbd_pieces.specs.declared.size.Size as of_struct;

use crate::operations::{header_set_size, map_get, map_resize};
use crate::shrink::Shrink;
use crate::zero_piece::ZeroPiece;
use rbd_kinds::{Answer, HeaderView, ImageAt, ImageId, NoMemory, Op, OpKind, SiteId, Want};
use rbd_layout::objects;
use rbd_machine::{Progress, refusal_of, told_done};
use std::alloc::Global;
use std::collections::VecDeque;

/// A new size of an image's head.
///
/// ```text
///   to the size or beyond       to less
///
/// Growing                    Looking
/// map-resize                 map-get ──none──▶ NoImage
///    │ done                     │ bits
///    │                          ▼
///    │                       Zeroing ◀──┐  as a `ZeroPiece` of the object's bytes from the new
///    │                          │       │  size on; an object outside the overlap in state 0 is
///    │                          └───────┘  passed over
///    │                          │ no piece is left
///    ▼                          ▼
/// Sizing   header-set-size ──none──▶ NoImage
///    │ done
///    ▼
/// the end
/// ```
///
/// Any operation may be answered `fenced`, which ends the request with Fenced.
#[derive(Drop)]
pub struct Size {
    site: SiteId,
    image: ImageId,
    stage: Stage,
    /// The pieces that are left, once the states of the head's map were told.
    pieces: VecDeque<ZeroPiece>,
}

/// A stage of it, with the size that is set.
#[derive(Drop)]
pub enum Stage {
    Growing { objects: u64, to: u64 },
    Looking(Shrink),
    Zeroing { piece: ZeroPiece, to: u64 },
    Sizing { to: u64 },
}

impl Size {
    /// A size in bytes for an image's head, by its header: it has at most 2^20 objects. NoMemory
    /// where a copy of the header, for a smaller size, is refused.
    pub fn new(
        alloc: Global,
        site: SiteId,
        image: ImageId,
        header: &HeaderView,
        to: u64,
    ) -> Result<Self, NoMemory>
        requires form { IsHeaderInForm header.now }
        requires few { HasFewObjects header.now.layout to }
        ensures { IfOk result (λ s. (objects : ℕ) (next : Plan) → IsObjectCount header.now.layout to objects
            → rest_of_size s next ≡ of_size.resize site image header.now to objects next) }
    {
        Ok(Size {
            site,
            image,
            stage: first_stage(header, to)?,
            pieces: VecDeque::new(alloc),
        })
    }

    /// What it wants.
    pub fn wants(&self) -> Want
        ensures { (next : Plan) → Wants (rest_of_size self.now next) result }
    {
        let site = self.site;
        match &self.stage {
            Stage::Growing { objects: _, to: _ } => Want::Op {
                site,
                kind: OpKind::MapResize,
            },
            Stage::Looking(_) => Want::Op {
                site,
                kind: OpKind::MapGet,
            },
            Stage::Zeroing { piece, to: _ } => piece.wants(),
            Stage::Sizing { to: _ } => Want::Op {
                site,
                kind: OpKind::HeaderSetSize,
            },
        }
    }

    /// The operation that it wants. NoMemory where memory for it is refused.
    pub fn next(&self, alloc: Global) -> Result<Op, NoMemory>
        ensures { (next : Plan) → IfOk result (Asks (rest_of_size self.now next)) }
    {
        match &self.stage {
            Stage::Growing { objects, to: _ } => Ok(map_resize(self.image, *objects)),
            Stage::Looking(_) => Ok(map_get(self.image)),
            Stage::Zeroing { piece, to: _ } => piece.next(alloc),
            Stage::Sizing { to } => Ok(header_set_size(self.image, *to)),
        }
    }

    /// Takes the memory for an answer: where the states of the head's map are told, that of the
    /// pieces. NoMemory where that is refused.
    pub fn ready(&mut self, alloc: Global, answer: &Answer) -> Result<(), NoMemory>
        ensures rest { (next : Plan) → rest_of_size self.new next ≡ rest_of_size self.old next }
        ensures ready { OnOk result (of_size.IsReady self.new answer.now) }
    {
        let Stage::Looking(shrink) = &self.stage else {
            return Ok(());
        };
        let Answer::Bits(bits) = answer else {
            return Ok(());
        };
        let target = ImageAt {
            site: self.site,
            image: self.image,
        };
        self.pieces = shrink.zeros(alloc, &target, bits.as_slice())?;
        Ok(())
    }

    /// Goes on with an answer that it has the memory for. Refused with NoImage by `none`, and with
    /// Fenced by `fenced`. It takes no memory.
    pub fn feed(&mut self, answer: &Answer) -> Progress<()>
        requires tells { of_size.Tells self.old.stage answer.now }
        requires ready { of_size.IsReady self.old answer.now }
        ensures { ProgressesBy rest_of_size answer.now result self.old self.new }
    {
        match &mut self.stage {
            Stage::Growing { objects: _, to } => match told_done(answer) {
                Ok(()) => {
                    self.stage = Stage::Sizing { to: *to };
                    Progress::More
                }
                Err(refusal) => Progress::Refused(refusal),
            },
            Stage::Looking(shrink) => {
                let to = shrink.to();
                match answer {
                    Answer::Bits(_) => self.begin_piece(to),
                    _ => Progress::Refused(refusal_of(answer)),
                }
            }
            Stage::Zeroing { piece, to } => match piece.feed(answer) {
                Progress::More => Progress::More,
                Progress::Ended(()) => {
                    let to = *to;
                    self.begin_piece(to)
                }
                Progress::Refused(refusal) => Progress::Refused(refusal),
            },
            Stage::Sizing { to: _ } => match told_done(answer) {
                Ok(()) => Progress::Ended(()),
                Err(refusal) => Progress::Refused(refusal),
            },
        }
    }

    /// Goes on to the next piece, or to the size where none is left.
    fn begin_piece(&mut self, to: u64) -> Progress<()>
        ensures { (next : Plan)
            → Progresses next
            (of_size.rest_of_zeros self.old.pieces.items (of_size.sizing self.old.site self.old.image to next))
            result (rest_of_size self.new next) }
    {
        match self.pieces.pop_front() {
            Some(piece) => {
                self.stage = Stage::Zeroing { piece, to };
                Progress::More
            }
            None => {
                self.stage = Stage::Sizing { to };
                Progress::More
            }
        }
    }
}

/// Where a new size begins.
fn first_stage(header: &HeaderView, to: u64) -> Result<Stage, NoMemory>
    requires form { IsHeaderInForm header.now }
    requires few { HasFewObjects header.now.layout to }
    ensures { IfOk result (λ stage. (s : of_struct.Size) (objects : ℕ) (next : Plan)
        → IsObjectCount header.now.layout to objects
        → of_size.rest_from stage s next ≡ of_size.resize s.site s.image header.now to objects next) }
{
    if header.size <= to {
        let objects = objects(&header.layout, to);
        return Ok(Stage::Growing { objects, to });
    }
    Ok(Stage::Looking(Shrink::new(header, to)?))
}
