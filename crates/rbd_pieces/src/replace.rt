//! Bytes that become all of an object.
ghost use Rattle.std.specs.Prelude.{◌≡◌, IfOk};
ghost use Rattle.rbd_machine.specs.Plan.{Plan, Wants, Asks};
ghost use Rattle.rbd_machine.specs.Steps.{ProgressesBy, TellsDone};
ghost use Rattle.rbd_pieces.specs.Full.{replacing, rest_of_replace};
ghost use Rattle.rbd_pieces.specs.Operations.{data_write_full};

use crate::operations::map_set;
use rbd_kinds::{
    Answer, Bytes, DataOp, ImageId, NoMemory, Op, OpKind, SiteId, SnapContext, TryClone, Want,
};
use rbd_machine::{Progress, told_done};
use std::alloc::Global;

/// Bytes that become all of an object.
///
/// ```text
/// Raising   map-set 1
///    │ done
/// Writing   data-write-full
///    │ done
///    ▼
/// the end
/// ```
#[derive(Drop)]
pub struct Replace {
    site: SiteId,
    image: ImageId,
    context: SnapContext,
    object: u64,
    bytes: Bytes,
    stage: Stage,
}

/// A stage of it.
#[derive(Clone, Copy)]
pub enum Stage {
    Raising,
    Writing,
}

impl Replace {
    /// Bytes for an object of an image, under a snapshot context. It takes no memory.
    pub fn new(
        site: SiteId,
        image: ImageId,
        context: SnapContext,
        object: u64,
        bytes: Bytes,
    ) -> Self
        ensures { (next : Plan) → rest_of_replace result next ≡ replacing site image context object bytes next }
    {
        Replace {
            site,
            image,
            context,
            object,
            bytes,
            stage: Stage::Raising,
        }
    }

    /// What it wants.
    pub fn wants(&self) -> Want
        ensures { (next : Plan) → Wants (rest_of_replace self.now next) result }
    {
        let kind = match self.stage {
            Stage::Raising => OpKind::MapSet,
            Stage::Writing => OpKind::DataWriteFull,
        };
        Want::Op {
            site: self.site,
            kind,
        }
    }

    /// The operation that it wants. NoMemory where memory for it is refused.
    pub fn next(&self, alloc: Global) -> Result<Op, NoMemory>
        ensures { (next : Plan) → IfOk result (Asks (rest_of_replace self.now next)) }
    {
        match self.stage {
            Stage::Raising => Ok(map_set(self.image, self.object, 1)),
            Stage::Writing => self.write(alloc),
        }
    }

    /// Its object becomes the bytes.
    fn write(&self, alloc: Global) -> Result<Op, NoMemory>
        ensures { IfOk result (λ op. op
            ≡ data_write_full self.now.image self.now.context self.now.object self.now.bytes) }
    {
        let op = DataOp::WriteFull {
            context: self.context.try_clone()?,
            bytes: self.bytes.try_clone()?,
        };
        Op::on_object(alloc, self.image, self.object, op)
    }

    /// Goes on with an answer. Refused with NoImage by `none`, and with Fenced by `fenced`. It
    /// takes no memory.
    pub fn feed(&mut self, answer: &Answer) -> Progress<()>
        requires { TellsDone answer.now }
        ensures { ProgressesBy rest_of_replace answer.now result self.old self.new }
    {
        match told_done(answer) {
            Ok(()) => match self.stage {
                Stage::Raising => {
                    self.stage = Stage::Writing;
                    Progress::More
                }
                Stage::Writing => Progress::Ended(()),
            },
            Err(refusal) => Progress::Refused(refusal),
        }
    }
}
