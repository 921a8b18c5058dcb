//! The removal of an image.
ghost use Rattle.std.specs.Prelude.{◌≡◌, ℕ, IfOk, OnOk};
ghost use Rattle.rbd_machine.specs.Plan.{Plan, Wants, Asks};
ghost use Rattle.rbd_machine.specs.Steps.{going, Progresses, ProgressesBy, TellsDone};
ghost use Rattle.rbd_image.specs.RemovalPart as of_part;
ghost use Rattle.rbd_image.specs.RemovalPart.{rest_of_removal};
ghost use Rattle.rbd_image.specs.Remnants.{removal_op, ops_of};
ghost use Rattle.rbd_image.specs.Remove as of_removal;

use crate::outline::Outline;
use crate::remnant::Remnant;
use rbd_kinds::{Answer, HeaderView, ImageId, MapOp, NoMemory, Op, OpKind, Refusal, SiteId, Want};
use rbd_machine::{Progress, refusal_of, told_done};
use std::alloc::Global;
use std::collections::VecDeque;

/// The removal of an image, with its snapshots, the link to its parent and its journal, by its
/// header and the states of its head's map (Ceph: librbd's `RemoveRequest`; the order is own).
///
/// ```text
/// Looking    map-get                 ──none──▶ NoImage
///    │ bits
/// Removing   dir-remove              done, or none
///            header-remove           ──none──▶ NoImage
///            child-remove            done, or none   where the head or a snapshot has a parent
///            data-remove             done            of each object in another state than 0
///            map-remove of the head  ──none──▶ NoImage
///            map-remove              done, or none   of each snapshot
///            journal-remove          ──none──▶ NoImage   where there is a journal
///    │ nothing is left
///    ▼
/// the end
/// ```
///
/// Any operation may be answered `fenced`, which ends the request with Fenced.
#[derive(Drop)]
pub struct Remove {
    site: SiteId,
    image: ImageId,
    stage: Stage,
    /// What is removed later, once the states of the head's map were told.
    later: VecDeque<Remnant>,
}

/// A stage of a removal.
#[derive(Drop)]
pub enum Stage {
    Looking(Outline),
    Removing(Remnant),
}

impl Remove {
    /// The removal of an image of a site, by its header. Whoever makes it owns the image. NoMemory
    /// where a copy of the header's snapshots is refused.
    pub fn new(
        alloc: Global,
        site: SiteId,
        image: ImageId,
        header: &HeaderView,
    ) -> Result<Self, NoMemory>
        ensures { IfOk result (λ r. (next : Plan)
            → rest_of_removal r next ≡ of_removal.removal_plan site image header.now next) }
    {
        Ok(Remove {
            site,
            image,
            stage: Stage::Looking(Outline::new(header)?),
            later: VecDeque::new(alloc),
        })
    }

    /// What it wants.
    pub fn wants(&self) -> Want
        ensures { (next : Plan) → Wants (rest_of_removal self.now next) result }
    {
        let kind = match &self.stage {
            Stage::Looking(_) => OpKind::MapGet,
            Stage::Removing(remnant) => remnant.kind(),
        };
        Want::Op {
            site: self.site,
            kind,
        }
    }

    /// The operation that it wants. NoMemory where memory for it is refused.
    pub fn next(&self, alloc: Global) -> Result<Op, NoMemory>
        ensures { (next : Plan) → IfOk result (Asks (rest_of_removal self.now next)) }
    {
        match &self.stage {
            Stage::Looking(_) => Ok(Op::Map {
                image: self.image,
                op: MapOp::Get { snap: None },
            }),
            Stage::Removing(remnant) => remnant.op(alloc, self.image),
        }
    }

    /// Takes the memory for an answer: where the states of the head's map are told, that of the
    /// list of all that is removed. NoMemory where that is refused.
    pub fn ready(&mut self, alloc: Global, answer: &Answer) -> Result<(), NoMemory>
        ensures rest { (next : Plan) → rest_of_removal self.new next ≡ rest_of_removal self.old next }
        ensures ready { OnOk result (of_part.IsReady self.new answer.now) }
    {
        let Stage::Looking(outline) = &self.stage else {
            return Ok(());
        };
        let Answer::Bits(bits) = answer else {
            return Ok(());
        };
        self.later = outline.remnants(alloc, bits.as_slice())?;
        Ok(())
    }

    /// Goes on with an answer that it has the memory for. Refused with NoImage where what has to be
    /// there isn't, and with Fenced by `fenced`. It takes no memory.
    pub fn feed(&mut self, answer: &Answer) -> Progress<()>
        requires tells { of_part.Tells self.old.stage answer.now }
        requires ready { of_part.IsReady self.old answer.now }
        ensures { ProgressesBy rest_of_removal answer.now result self.old self.new }
    {
        match &self.stage {
            Stage::Looking(_) => match answer {
                Answer::Bits(_) => self.go_on(),
                _ => Progress::Refused(refusal_of(answer)),
            },
            Stage::Removing(remnant) => match told_gone(remnant, answer) {
                Ok(()) => self.go_on(),
                Err(refusal) => Progress::Refused(refusal),
            },
        }
    }

    /// Goes on to what is removed next, or has ended where nothing is left.
    fn go_on(&mut self) -> Progress<()>
        ensures { (next : Plan)
            → Progresses next
            (of_removal.remove_each self.old.site (ops_of self.old.image self.old.later.items) next)
            result (rest_of_removal self.new next) }
    {
        match self.later.pop_front() {
            Some(remnant) => {
                self.stage = Stage::Removing(remnant);
                Progress::More
            }
            None => Progress::Ended(()),
        }
    }
}

/// That a remnant went or was gone, or why the request ends: Fenced, or NoImage where what has to
/// be there isn't.
fn told_gone(remnant: &Remnant, answer: &Answer) -> Result<(), Refusal>
    requires { TellsDone answer.now }
    ensures { (image : ℕ) (next : Plan)
        → of_removal.on_gone (removal_op image remnant.now) next answer.now ≡ going (λ gone. next) result }
{
    if let Answer::Absent = answer {
        if remnant.may_be_gone() {
            return Ok(());
        }
    }
    told_done(answer)
}
