//! The request of an `rm`.
ghost use Rattle.std.specs.Prelude.{◌≡◌, true, OnOk};
ghost use Rattle.rbd_kinds.specs.declared.machine.Fed.TheVariants as fed_with;
ghost use Rattle.rbd_machine.specs.Answers.{CanBeFed};
ghost use Rattle.rbd_machine.specs.Plan.{GoesOn, Goto, plan_after, without_labels};
ghost use Rattle.rbd_machine.specs.Ready.{IsReadyFor};
ghost use Rattle.rbd_meaning.specs.Removals.{image_removal_refuses, snaps_refuse};
ghost use Rattle.rbd_image.specs.Remove.{is_remove, remove_plan};
ghost use Rattle.rbd_image.specs.RemovalRequest as of_request;
ghost use Rattle.rbd_image.specs.RemovalRequest.{rest_of_request};
ghost use Rattle.rbd_image.specs.declared.remove_request.Stage.TheVariants as at;

use crate::remove::Remove;
use crate::watchers::{told_watchers, watchers_get};
use rbd_kinds::{
    Answer, Command, Fed, Flow, HeaderView, ImageId, NoMemory, Op, OpKind, Refusal, Reply,
    SessionNo, Sharing, SiteId, Snaps, Want,
};
use rbd_machine::{Approach, Machine, Progress, Reached, Reason, Refuses, non_primary};
use std::alloc::Global;

/// Removes an image that has no snapshots, and that no other session uses (Ceph: `rbd rm` refuses
/// an image with snapshots, and one that has watchers; when it asks for these is own).
///
/// ```text
/// Approaching   to its first look, alone in the image's line   (see `Approach`)
///    │             refused: NonPrimary, HasSnaps
/// Asking        watchers-get   ──none──▶ NoImage, or InUse
///    │ instances
/// Approaching   to its look under the lock
///    │             refused: NonPrimary, HasSnaps
/// AskingAgain   watchers-get   ──none──▶ NoImage, or InUse
///    │ instances
/// Removing      as a `Remove` by the header of its look under the lock
///    │ nothing is left
///    ▼
/// Done
/// ```
///
/// Each operation may be answered `fenced`, which ends the request with Fenced.
#[derive(Drop)]
pub struct RemoveRequest {
    site: SiteId,
    session: SessionNo,
    way: Approach,
    stage: Stage,
    /// The removal by its look under the lock, once there is memory for it.
    removal: Option<Remove>,
}

/// A stage of the request, with the image whose watchers it asks for.
#[derive(Drop)]
enum Stage {
    Approaching,
    Asking(ImageId),
    AskingAgain(ImageId),
    Removing,
}

/// What a removal refuses: NonPrimary at a secondary, which clients don't change, and then HasSnaps
/// where a snapshot is listed.
#[derive(Clone, Copy, PartialEq, Eq)]
struct Unlisted {}

impl Refuses for Unlisted {
    ghost refuses = { λ rule. image_removal_refuses };

    fn refusal(&self, header: &HeaderView) -> Option<Refusal> {
        match non_primary(header.role) {
            Some(refusal) => Some(refusal),
            None => snaps_refusal(&header.snaps),
        }
    }
}

/// HasSnaps where a snapshot is listed.
fn snaps_refusal(snaps: &Snaps) -> Option<Refusal>
    ensures { result ≡ snaps_refuse snaps.now }
{
    if snaps.is_empty() {
        None
    } else {
        Some(Refusal::HasSnaps)
    }
}

impl RemoveRequest {
    /// The request of an `rm` of a session at its home site. It takes no memory.
    pub fn new(session: SessionNo, home: SiteId, command: Command) -> Self
        requires { is_remove command ≡ true }
        ensures { rest_of_request result ≡ remove_plan home session command }
    {
        match command {
            Command::Remove { image } => RemoveRequest {
                site: home,
                session,
                way: Approach::new(home, image.into_name(), Sharing::Alone),
                stage: Stage::Approaching,
                removal: None,
            },
            _ => unreachable!(),
        }
    }

    /// Takes the memory for its look under the lock: there its removal is made, unless the header
    /// refuses it.
    fn ready_look(&mut self, alloc: Global, answer: &Answer) -> Result<(), NoMemory>
        requires at { self.old.stage ≡ at.Approaching }
        ensures rest { rest_of_request self.new ≡ rest_of_request self.old }
        ensures ready { OnOk result (of_request.IsReadyToGo self.new answer.now) }
    {
        let Some(image) = self.way.under_lock() else {
            return Ok(());
        };
        let Answer::Header(header) = answer else {
            return Ok(());
        };
        let rule = Unlisted {};
        if rule.refusal(header).is_some() {
            return Ok(());
        }
        self.removal = Some(Remove::new(alloc, self.site, image, header)?);
        Ok(())
    }

    /// Takes the memory that its removal needs for an answer.
    fn ready_removal(&mut self, alloc: Global, answer: &Answer) -> Result<(), NoMemory>
        requires at { self.old.stage ≡ at.Removing }
        ensures rest { rest_of_request self.new ≡ rest_of_request self.old }
        ensures ready { OnOk result (of_request.IsReadyToGo self.new answer.now) }
    {
        match &mut self.removal {
            Some(removal) => removal.ready(alloc, answer),
            None => Ok(()),
        }
    }

    /// Goes on with its way, and asks who watches behind each of its two looks.
    #[tactic(auto, using(crate::proofs::RemovalStages::goes_to_ask))]
    fn approach(&mut self, fed: &Fed) -> Flow
        requires at { self.old.stage ≡ at.Approaching }
        requires can { CanBeFed (rest_of_request self.old) fed.now }
        requires ready { IsReadyFor (of_request.IsReadyToGo self.old) fed.now }
        ensures { GoesOn Goto (plan_after (rest_of_request self.old) fed.now) result
            (without_labels (rest_of_request self.new)) }
    {
        match self.way.step(&Unlisted {}, fed) {
            Reached::More => Flow::More,
            Reached::FirstLook(image) => {
                self.stage = Stage::Asking(image);
                Flow::More
            }
            Reached::UnderLock(image) => {
                self.stage = Stage::AskingAgain(image);
                Flow::More
            }
            Reached::Refused(refusal) => Flow::Done(Reply::Refused(refusal)),
        }
    }

    /// Goes on behind the answer that tells who watches: with its way, or with its removal.
    #[tactic(auto, using(crate::proofs::Tells::watchers_tell, crate::proofs::RemovalStages::goes_on_its_way, crate::proofs::RemovalStages::goes_to_remove))]
    fn asked(&mut self, answer: &Answer) -> Flow
        requires at { of_request.IsAskingWho self.old.stage }
        requires can { CanBeFed (rest_of_request self.old) (fed_with.Answer answer.now) }
        ensures { GoesOn Goto (plan_after (rest_of_request self.old) (fed_with.Answer answer.now)) result
            (without_labels (rest_of_request self.new)) }
    {
        let behind = match &self.stage {
            Stage::Asking(_) => Stage::Approaching,
            Stage::AskingAgain(_) => Stage::Removing,
            _ => unreachable!(),
        };
        match told_watchers(self.session, answer) {
            Ok(()) => {
                self.stage = behind;
                Flow::More
            }
            Err(refusal) => Flow::Done(Reply::Refused(refusal)),
        }
    }

    /// Goes on with its removal.
    fn remove(&mut self, answer: &Answer) -> Flow
        requires at { self.old.stage ≡ at.Removing }
        requires can { CanBeFed (rest_of_request self.old) (fed_with.Answer answer.now) }
        requires ready { of_request.IsReadyToGo self.old answer.now }
        ensures { GoesOn Goto (plan_after (rest_of_request self.old) (fed_with.Answer answer.now)) result
            (without_labels (rest_of_request self.new)) }
    {
        match &mut self.removal {
            Some(removal) => match removal.feed(answer) {
                Progress::More => Flow::More,
                Progress::Ended(()) => Flow::Done(Reply::Done),
                Progress::Refused(refusal) => Flow::Done(Reply::Refused(refusal)),
            },
            None => unreachable!(),
        }
    }
}

impl Machine for RemoveRequest {
    ghost stands = { λ r. without_labels (rest_of_request r) };

    ghost is_ready = { of_request.IsReadyToGo };

    fn wants(&self) -> Want {
        let site = self.site;
        match &self.stage {
            Stage::Approaching => self.way.wants(),
            Stage::Asking(_) | Stage::AskingAgain(_) => Want::Op {
                site,
                kind: OpKind::WatchersGet,
            },
            Stage::Removing => match &self.removal {
                Some(removal) => removal.wants(),
                None => unreachable!(),
            },
        }
    }

    fn next(&self, alloc: Global) -> Result<Op, NoMemory> {
        match &self.stage {
            Stage::Approaching => self.way.next(),
            Stage::Asking(image) | Stage::AskingAgain(image) => Ok(watchers_get(*image)),
            Stage::Removing => match &self.removal {
                Some(removal) => removal.next(alloc),
                None => unreachable!(),
            },
        }
    }

    fn reason(&self) -> Reason {
        Reason::Own
    }

    fn ready(&mut self, alloc: Global, fed: &Fed) -> Result<(), NoMemory> {
        let Fed::Answer(answer) = fed else {
            return Ok(());
        };
        match &self.stage {
            Stage::Approaching => self.ready_look(alloc, answer),
            Stage::Removing => self.ready_removal(alloc, answer),
            _ => Ok(()),
        }
    }

    fn feed(&mut self, fed: &Fed) -> Flow {
        match &self.stage {
            Stage::Approaching => self.approach(fed),
            Stage::Asking(_) | Stage::AskingAgain(_) => {
                let Fed::Answer(answer) = fed else {
                    unreachable!()
                };
                self.asked(answer)
            }
            Stage::Removing => {
                let Fed::Answer(answer) = fed else {
                    unreachable!()
                };
                self.remove(answer)
            }
        }
    }
}
