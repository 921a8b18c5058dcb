//! The request of a `close`, a `quiesce` or a straight command.
ghost use Rattle.std.specs.Prelude.{◌≡◌, true};
ghost use Rattle.rbd_kinds.specs.declared.machine.Fed.TheVariants as fed_with;
ghost use Rattle.rbd_machine.specs.Answers.{CanBeFed};
ghost use Rattle.rbd_machine.specs.Plan.{GoesOn, Goto, plan_after, without_labels};
ghost use Rattle.rbd_machine.specs.Refused.{refuses_none};
ghost use Rattle.rbd_session.specs.Close.{is_close, close_plan, on_found, rest_of_request, IsFinding, IsOnNoWay};

use crate::operations::{lock_drop, notify, notify_bytes, unwatch};
use rbd_kinds::{
    Answer, Command, Fed, Flow, HeaderView, ImageId, Name, NoMemory, NoticeKind, Op, OpKind,
    Payload, Refusal, Reply, Sharing, SiteId, Want,
};
use rbd_machine::{
    Approach, Machine, Progress, Reason, Refuses, dir_find, refusal_of, told_done, told_image,
};
use std::alloc::Global;
use std::mem::replace;

/// A request that gives up an image's lock and watch (`close`), holds its session's changes of the
/// image back and lets them go on (`quiesce`, `resume`), or tells its watchers something (`tell`).
///
/// ```text
/// Finding       dir-find                ──none──▶ NoImage
///    │ id
///    ├──▶ Done, with nothing to tell
///    │
///    ├──▶ Saying       notify Custom    ──none──▶ NoImage, with bytes to tell
///    │       │ done
///    │       ▼
///    │    Done
///    │ of a `close`
/// Joining       the line of the image's requests, alone
///    │
/// Holding       that the requests before it have ended
///    │
/// Dropping      lock-drop               ──none──▶ NoImage
///    │ done    │ changed
/// Releasing    │   notify ReleasedLock  ──none──▶ NoImage
///    │ done    │
///    ▼         ▼
/// Unwatching    unwatch                 ──none──▶ NoImage
///    │ done
///    ▼
/// Done
///
/// Quiescing     to its look under the lock, alone in the image's line   (see `Approach`)
///    │ header
///    ▼
/// Done
/// ```
///
/// Each operation may be answered `fenced`, which ends the request with Fenced.
///
/// `close` and `quiesce` wait in the line of their image; what holds each back, the front page
/// says.
#[derive(Drop)]
pub struct CloseRequest {
    site: SiteId,
    stage: Stage,
}

/// A stage of a request, with its image once it is found.
#[derive(Drop)]
enum Stage {
    Finding(Name, Purpose),
    Joining(ImageId),
    Holding(ImageId),
    Dropping(ImageId),
    Releasing(ImageId),
    Unwatching(ImageId),
    Saying(ImageId, Payload),
    Quiescing(Approach),
}

/// What an image is found for.
#[derive(Drop)]
enum Purpose {
    Close,
    Nothing,
    Tell(Payload),
}

/// No header is refused: a secondary may be quiesced, too.
#[derive(Clone, Copy, PartialEq, Eq)]
struct AnyHeader {}

impl Refuses for AnyHeader {
    ghost refuses = { λ rule. refuses_none };

    fn refusal(&self, _header: &HeaderView) -> Option<Refusal> {
        None
    }
}

impl CloseRequest {
    /// The request of a `close`, `quiesce`, `resume` or `tell` at a session's home site. It takes
    /// no memory.
    pub fn new(home: SiteId, command: Command) -> Self
        requires { is_close command ≡ true }
        ensures { rest_of_request result ≡ close_plan home command }
    {
        let stage = match command {
            Command::Close { image } => Stage::Finding(image.into_name(), Purpose::Close),
            Command::Quiesce { image } => {
                Stage::Quiescing(Approach::new(home, image.into_name(), Sharing::Alone))
            }
            Command::Resume { image } => Stage::Finding(image.into_name(), Purpose::Nothing),
            Command::Tell { image, bytes } => {
                Stage::Finding(image.into_name(), Purpose::Tell(bytes))
            }
            _ => unreachable!(),
        };
        CloseRequest { site: home, stage }
    }

    /// Goes on with the answer to its operation, where it isn't on its way to a look under the
    /// lock.
    #[tactic(auto, using(rbd_machine::proofs::Tells::find_tells, crate::proofs::Tells::drop_tells, crate::proofs::Tells::notify_tells, crate::proofs::Tells::unwatch_tells))]
    fn answer(&mut self, answer: &Answer) -> Flow
        requires at { IsOnNoWay self.old.stage }
        requires can { CanBeFed (rest_of_request self.old) (fed_with.Answer answer.now) }
        ensures { GoesOn Goto (plan_after (rest_of_request self.old) (fed_with.Answer answer.now)) result
            (without_labels (rest_of_request self.new)) }
    {
        match &self.stage {
            Stage::Finding(_, _) => match told_image(answer) {
                Ok(image) => return self.found(image),
                Err(refusal) => return Flow::Done(Reply::Refused(refusal)),
            },
            Stage::Dropping(image) => match answer {
                Answer::Done => self.stage = Stage::Releasing(*image),
                Answer::Changed => self.stage = Stage::Unwatching(*image),
                _ => return Flow::Done(Reply::Refused(refusal_of(answer))),
            },
            Stage::Releasing(image) => match told_done(answer) {
                Ok(()) => self.stage = Stage::Unwatching(*image),
                Err(refusal) => return Flow::Done(Reply::Refused(refusal)),
            },
            Stage::Unwatching(_) | Stage::Saying(_, _) => match told_done(answer) {
                Ok(()) => return Flow::Done(Reply::Done),
                Err(refusal) => return Flow::Done(Reply::Refused(refusal)),
            },
            _ => unreachable!(),
        }
        Flow::More
    }

    /// Goes on with the image of its name.
    fn found(&mut self, image: ImageId) -> Flow
        requires { IsFinding self.old.stage }
        ensures { GoesOn Goto (on_found self.old.stage self.old.site image) result
            (without_labels (rest_of_request self.new)) }
    {
        // (a close is at its next stage at once, and the others leave it)
        let Stage::Finding(_, purpose) = replace(&mut self.stage, Stage::Joining(image)) else {
            unreachable!()
        };
        match purpose {
            Purpose::Close => Flow::More,
            Purpose::Nothing => Flow::Done(Reply::Done),
            Purpose::Tell(bytes) => {
                self.stage = Stage::Saying(image, bytes);
                Flow::More
            }
        }
    }
}

impl Machine for CloseRequest {
    ghost stands = { λ r. without_labels (rest_of_request r) };

    ghost is_ready = { λ r answer. Unit {0} };

    fn wants(&self) -> Want {
        let site = self.site;
        let kind = match &self.stage {
            Stage::Finding(_, _) => OpKind::DirFind,
            Stage::Joining(image) => {
                return Want::Join {
                    site,
                    image: *image,
                    sharing: Sharing::Alone,
                };
            }
            Stage::Holding(image) => {
                return Want::Hold {
                    site,
                    image: *image,
                };
            }
            Stage::Dropping(_) => OpKind::LockDrop,
            Stage::Releasing(_) | Stage::Saying(_, _) => OpKind::Notify,
            Stage::Unwatching(_) => OpKind::Unwatch,
            Stage::Quiescing(way) => return way.wants(),
        };
        Want::Op { site, kind }
    }

    fn next(&self, alloc: Global) -> Result<Op, NoMemory> {
        match &self.stage {
            Stage::Finding(name, _) => dir_find(name),
            Stage::Dropping(image) => Ok(lock_drop(*image)),
            Stage::Releasing(image) => Ok(notify(*image, NoticeKind::ReleasedLock)),
            Stage::Unwatching(image) => Ok(unwatch(*image)),
            Stage::Saying(image, bytes) => notify_bytes(alloc, *image, bytes),
            Stage::Quiescing(way) => way.next(),
            _ => unreachable!(),
        }
    }

    fn reason(&self) -> Reason {
        Reason::Own
    }

    fn ready(&mut self, _alloc: Global, _fed: &Fed) -> Result<(), NoMemory> {
        Ok(())
    }

    fn feed(&mut self, fed: &Fed) -> Flow {
        match &mut self.stage {
            Stage::Joining(image) => {
                self.stage = Stage::Holding(*image);
                Flow::More
            }
            Stage::Holding(image) => {
                self.stage = Stage::Dropping(*image);
                Flow::More
            }
            Stage::Quiescing(way) => match way.feed(&AnyHeader {}, fed) {
                Progress::More => Flow::More,
                Progress::Ended(_) => Flow::Done(Reply::Done),
                Progress::Refused(refusal) => Flow::Done(Reply::Refused(refusal)),
            },
            _ => {
                let Fed::Answer(answer) = fed else {
                    unreachable!()
                };
                self.answer(answer)
            }
        }
    }
}
