//! How an exclusive lock is taken.
ghost use Rattle.std.specs.Prelude.{◌≡◌};
ghost use Rattle.rbd_kinds.specs.declared.machine.Fed.TheVariants as fed_with;
ghost use Rattle.rbd_machine.specs.Answers.{CanGive};
ghost use Rattle.rbd_machine.specs.Label.{Label, Lock};
ghost use Rattle.rbd_machine.specs.Plan.{Plan, Wants, Asks, plan_after};
ghost use Rattle.rbd_lock.specs.Acquire.{acquire, begun_way, lock_of, op_of, rest_of_acquire, standing_of, Acquires, TakesLock, TellsTaken, TellsWatchers};
ghost use Rattle.rbd_lock.specs.Steps.{is_instance_among};
ghost use Rattle.rbd_lock.specs.declared.acquire.Stage.TheVariants as at_stage;

use crate::told::told_broken;
use rbd_kinds::{
    Answer, Fed, Flow, HeaderOp, ImageId, Instance, Instances, NoMemory, NoticeKind, Op, OpKind,
    Reply, SiteId, Want,
};
use rbd_machine::{Machine, Progress, Reason, refusal_of, told_done};
use std::alloc::Global;

/// Where a request is on its way to an image's exclusive lock (Ceph: librbd's `AcquireRequest`, and
/// its `BreakRequest`, by which an owner that doesn't watch the header is put into the blocklist
/// before its lock is broken; the order of the operations is own).
///
/// ```text
/// Watching   watch                    (unless the instance watches already)
///    │ done
///    ▼
/// Taking     lock-take ◀───────────────────────────────────────────┐
///    │ held o       │ done                                         │
///    │              └──▶ what comes next, with the lock            │
///    ▼                                                             │
/// Looking    watchers-get                                          │
///    │ o is among them ──▶ Asking     notify RequestLock ──done────┤
///    │ o isn't                                                     │
///    ▼                                                             │
/// Fencing    block-add o                                           │
///    │ done                                                        │
///    ▼                                                             │
/// Breaking   lock-break o ──done, changed──────────────────────────┘
/// ```
///
/// Any operation that is answered `none` ends the request with NoImage, and any that is answered
/// `fenced` with Fenced. Where an owner watches and doesn't let go, there is no end.
#[derive(Clone, Copy)]
pub struct Acquire {
    site: SiteId,
    image: ImageId,
    stage: Stage,
}

/// A step of the way, with the owner that stands in it.
#[derive(Clone, Copy)]
pub enum Stage {
    Watching,
    Taking,
    Looking(Instance),
    Asking,
    Fencing(Instance),
    Breaking(Instance),
}

impl Acquire {
    /// The way to the lock of an image, for an instance that watches the image already (`watched`)
    /// or doesn't. It takes no memory.
    pub fn new(site: SiteId, image: ImageId, watched: bool) -> Self
        ensures way { result ≡ begun_way site image watched }
        ensures plan { (next : Plan) → rest_of_acquire result next ≡ acquire site image watched next }
    {
        let stage = if watched {
            Stage::Taking
        } else {
            Stage::Watching
        };
        Acquire { site, image, stage }
    }

    /// The site of the image.
    pub fn site(&self) -> SiteId
        ensures { result ≡ self.now.site }
    {
        self.site
    }

    /// The image whose lock it takes.
    pub fn image(&self) -> ImageId
        ensures { result ≡ self.now.image }
    {
        self.image
    }

    /// What it wants: an operation, always.
    pub fn wants(&self) -> Want
        ensures { (next : Plan) → Wants (rest_of_acquire self.now next) result }
    {
        let kind = match &self.stage {
            Stage::Watching => OpKind::Watch,
            Stage::Taking => OpKind::LockTake,
            Stage::Looking(_) => OpKind::WatchersGet,
            Stage::Asking => OpKind::Notify,
            Stage::Fencing(_) => OpKind::BlockAdd,
            Stage::Breaking(_) => OpKind::LockBreak,
        };
        Want::Op {
            site: self.site,
            kind,
        }
    }

    /// The operation that it wants. It takes no memory.
    pub fn next(&self) -> Op
        ensures op { result ≡ op_of self.now }
        ensures plan { (next : Plan) → Asks (rest_of_acquire self.now next) result }
    {
        let op = match &self.stage {
            Stage::Watching => HeaderOp::Watch,
            Stage::Taking => HeaderOp::LockTake,
            Stage::Looking(_) => HeaderOp::WatchersGet,
            Stage::Asking => HeaderOp::Notify {
                kind: NoticeKind::RequestLock,
            },
            Stage::Fencing(owner) => return Op::BlockAdd { instance: *owner },
            Stage::Breaking(owner) => HeaderOp::LockBreak { owner: *owner },
        };
        Op::Header {
            image: self.image,
            op,
        }
    }

    /// Goes on with the answer to its operation. It has ended where that took the lock. Refused
    /// with NoImage by the answer `none`, and with Fenced by `fenced`. It takes no memory.
    pub fn feed(&mut self, answer: &Answer) -> Progress<()>
        requires { CanGive (op_of self.old) answer.now }
        ensures goes { (labels : Label → Plan) (next : Plan) → labels Lock ≡ lock_of self.old next
            → Acquires labels next (plan_after (rest_of_acquire self.old next) (fed_with.Answer answer.now)) result
            (rest_of_acquire self.new next) }
        ensures label { (next : Plan) → lock_of self.new next ≡ lock_of self.old next }
        ensures place { (self.new.site ≡ self.old.site) × (self.new.image ≡ self.old.image) }
        ensures taken { TakesLock self.old.stage answer.now result }
    {
        match &self.stage {
            Stage::Taking => self.take(answer),
            Stage::Looking(owner) => {
                let owner = *owner;
                self.look(&owner, answer)
            }
            Stage::Watching | Stage::Asking => match told_done(answer) {
                Ok(()) => {
                    self.stage = Stage::Taking;
                    Progress::More
                }
                Err(refusal) => Progress::Refused(refusal),
            },
            Stage::Fencing(owner) => match told_done(answer) {
                Ok(()) => {
                    self.stage = Stage::Breaking(*owner);
                    Progress::More
                }
                Err(refusal) => Progress::Refused(refusal),
            },
            Stage::Breaking(_) => match told_broken(answer) {
                Ok(()) => {
                    self.stage = Stage::Taking;
                    Progress::More
                }
                Err(refusal) => Progress::Refused(refusal),
            },
        }
    }

    /// Goes on with the answer to its `lock-take`.
    fn take(&mut self, answer: &Answer) -> Progress<()>
        requires at { self.old.stage ≡ at_stage.Taking }
        requires tells { TellsTaken answer.now }
        ensures goes { (labels : Label → Plan) (next : Plan)
            → Acquires labels next (plan_after (rest_of_acquire self.old next) (fed_with.Answer answer.now)) result
            (rest_of_acquire self.new next) }
        ensures label { (next : Plan) → lock_of self.new next ≡ lock_of self.old next }
        ensures place { (self.new.site ≡ self.old.site) × (self.new.image ≡ self.old.image) }
        ensures taken { TakesLock self.old.stage answer.now result }
    {
        match answer {
            Answer::Done => Progress::Ended(()),
            Answer::Held(owner) => {
                self.stage = Stage::Looking(*owner);
                Progress::More
            }
            _ => Progress::Refused(refusal_of(answer)),
        }
    }

    /// Goes on with the answer to its look at the watchers.
    fn look(&mut self, owner: &Instance, answer: &Answer) -> Progress<()>
        requires at { self.old.stage ≡ at_stage.Looking owner.now }
        requires tells { TellsWatchers answer.now }
        ensures goes { (labels : Label → Plan) (next : Plan)
            → Acquires labels next (plan_after (rest_of_acquire self.old next) (fed_with.Answer answer.now)) result
            (rest_of_acquire self.new next) }
        ensures label { (next : Plan) → lock_of self.new next ≡ lock_of self.old next }
        ensures place { (self.new.site ≡ self.old.site) × (self.new.image ≡ self.old.image) }
        ensures taken { TakesLock self.old.stage answer.now result }
    {
        match answer {
            Answer::Instances(watchers) => {
                if is_among(watchers, owner) {
                    self.stage = Stage::Asking;
                    return Progress::More;
                }
                self.stage = Stage::Fencing(*owner);
                Progress::More
            }
            _ => Progress::Refused(refusal_of(answer)),
        }
    }
}

/// Whether an owner is among the watchers.
fn is_among(watchers: &Instances, owner: &Instance) -> bool
    ensures { result ≡ is_instance_among watchers.now owner.now }
{
    watchers.as_slice().contains(owner)
}

impl Machine for Acquire {
    ghost stands = { standing_of };

    ghost is_ready = { λ a answer. Unit {0} };

    fn wants(&self) -> Want {
        Acquire::wants(self)
    }

    fn next(&self, _alloc: Global) -> Result<Op, NoMemory> {
        Ok(Acquire::next(self))
    }

    fn reason(&self) -> Reason {
        Reason::Acquiring
    }

    fn ready(&mut self, _alloc: Global, _fed: &Fed) -> Result<(), NoMemory> {
        Ok(())
    }

    fn feed(&mut self, fed: &Fed) -> Flow {
        let Fed::Answer(answer) = fed else {
            unreachable!()
        };
        match Acquire::feed(self, answer) {
            Progress::More => Flow::More,
            Progress::Ended(()) => Flow::Done(Reply::Done),
            Progress::Refused(refusal) => Flow::Done(Reply::Refused(refusal)),
        }
    }
}
