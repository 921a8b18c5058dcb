//! A request that changes an image in one part, behind its event.
ghost use Rattle.std.specs.Prelude.{◌≡◌, true, Some, OnOk};
ghost use Rattle.rbd_kinds.specs.declared.machine.Fed.TheVariants as fed_with;
ghost use Rattle.rbd_machine.specs.Answers.{CanBeFed};
ghost use Rattle.rbd_machine.specs.Plan.{GoesOn, Goto, plan_after, without_labels};
ghost use Rattle.rbd_machine.specs.Ready.{IsReadyFor};
ghost use Rattle.rbd_change.specs.Event.{ending, noting};
ghost use Rattle.rbd_change.specs.Request.{rest_of_change, rest_of_some, under_lock_in, IsApproaching, IsReady};

use crate::change::Change;
use crate::steps::ChangeSteps;
use rbd_kinds::{Answer, Command, Fed, Flow, ImageId, NoMemory, Op, Reply, SiteId, Want};
use rbd_machine::{Approach, Machine, Progress, Reason};
use std::alloc::Global;
use std::mem::replace;

/// A request that changes an image in one part, behind its event where it has one.
///
/// ```text
/// Approaching   to its look under the lock, alone or beside others   (see `Approach`)
///    │             refused: by what the change refuses
/// Noting        its event, in the image's journal                    (where it has one)
///    │
/// Acting        its part, one operation after another
///    │
/// Applying      the event counts as applied                          (where it has one)
///    │
///    ▼
/// Done
/// ```
///
/// Each operation may be answered `fenced`, which ends the request with Fenced.
#[derive(Drop)]
pub struct ChangeRequest<C, P> {
    site: SiteId,
    change: C,
    stage: Stage<P>,
    /// What is done behind the event, once the look under the lock told the header.
    part: Option<P>,
}

/// A stage of it, with its image once it is found.
#[derive(Drop)]
enum Stage<P> {
    Approaching(Approach),
    Noting(ImageId),
    /// And whether its event was noted.
    Acting(ImageId, P, bool),
    Applying(ImageId),
}

impl<C: Change> ChangeRequest<C, C::Steps> {
    /// The request of a command at a session's home site. It takes no memory.
    pub fn new(home: SiteId, command: Command) -> Self
        requires { C.serves command ≡ true }
        ensures { rest_of_change C.refuses C.noted C.does C.Steps.rest result ≡ C.plan home command }
    {
        let (image, change) = C::from_command(command);
        let sharing = change.sharing();
        ChangeRequest {
            site: home,
            change,
            stage: Stage::Approaching(Approach::new(home, image, sharing)),
            part: None,
        }
    }

    /// The image, where its look under the lock is what it wants.
    fn under_lock(&self) -> Option<ImageId>
        ensures { result ≡ under_lock_in self.now.stage }
    {
        match &self.stage {
            Stage::Approaching(way) => way.under_lock(),
            _ => None,
        }
    }

    /// Takes the memory for its look under the lock: there its part is made.
    fn ready_part(&mut self, alloc: Global, answer: &Answer) -> Result<(), NoMemory>
        requires at { IsApproaching self.old.stage }
        requires can { CanBeFed (rest_of_change C.refuses C.noted C.does C.Steps.rest self.old)
            (fed_with.Answer answer.now) }
        ensures rest { rest_of_change C.refuses C.noted C.does C.Steps.rest self.new
            ≡ rest_of_change C.refuses C.noted C.does C.Steps.rest self.old }
        ensures ready { OnOk result
            (IsReady C.refuses C.noted C.does C.Steps.rest C.Steps.is_ready self.new answer.now) }
    {
        let Some(image) = self.under_lock() else {
            return Ok(());
        };
        let Answer::Header(header) = answer else {
            return Ok(());
        };
        if self.change.refusal(header).is_some() {
            return Ok(());
        }
        let part = self.change.part(alloc, self.site, image, header)?;
        self.keep(part);
        Ok(())
    }

    /// Puts a part beside the stage. What stood there is let go by a call, and not in place.
    fn keep(&mut self, part: C::Steps)
        ensures { self.new
            ≡ record { site = self.old.site; change = self.old.change; stage = self.old.stage; part = Some part } }
    {
        drop(replace(&mut self.part, Some(part)));
    }

    /// Goes on to a stage, and lets the old one go.
    fn go_to(&mut self, stage: Stage<C::Steps>)
        ensures { self.new
            ≡ record { site = self.old.site; change = self.old.change; stage = stage; part = self.old.part } }
    {
        drop(replace(&mut self.stage, stage));
    }

    /// Goes on with its way to its look under the lock, and from there.
    fn approach(&mut self, fed: &Fed) -> Flow
        requires at { IsApproaching self.old.stage }
        requires can { CanBeFed (rest_of_change C.refuses C.noted C.does C.Steps.rest self.old) fed.now }
        requires ready { IsReadyFor (IsReady C.refuses C.noted C.does C.Steps.rest C.Steps.is_ready self.old) fed.now }
        ensures { GoesOn Goto
            (plan_after (rest_of_change C.refuses C.noted C.does C.Steps.rest self.old) fed.now) result
            (without_labels (rest_of_change C.refuses C.noted C.does C.Steps.rest self.new)) }
    {
        let Stage::Approaching(way) = &mut self.stage else {
            unreachable!()
        };
        match way.feed(&self.change, fed) {
            Progress::More => Flow::More,
            Progress::Refused(refusal) => Flow::Done(Reply::Refused(refusal)),
            Progress::Ended(image) => self.begin(image),
        }
    }

    /// Goes on behind its look under the lock: with its event, or with its part where it has none.
    #[tactic(auto, using(crate::proofs::Noted::goes_to_note, crate::proofs::Noted::goes_without_note))]
    fn begin(&mut self, image: ImageId) -> Flow
        ensures { GoesOn Goto
            (noting self.old.site image (C.noted self.old.change) (rest_of_some C.Steps.rest self.old.part)) result
            (without_labels (rest_of_change C.refuses C.noted C.does C.Steps.rest self.new)) }
    {
        if self.change.has_event() {
            self.go_to(Stage::Noting(image));
            return Flow::More;
        }
        self.begin_part(image, false)
    }

    /// Goes on with the part that its look under the lock made.
    fn begin_part(&mut self, image: ImageId, noted: bool) -> Flow
        ensures { GoesOn Goto (rest_of_some C.Steps.rest self.old.part (ending self.old.site image noted)) result
            (without_labels (rest_of_change C.refuses C.noted C.does C.Steps.rest self.new)) }
    {
        match self.part.take() {
            Some(part) => {
                self.go_to(Stage::Acting(image, part, noted));
                Flow::More
            }
            None => self.end(image, noted),
        }
    }

    /// Ends behind its part: its event counts as applied, where one was noted.
    fn end(&mut self, image: ImageId, noted: bool) -> Flow
        ensures { GoesOn Goto (ending self.old.site image noted) result
            (without_labels (rest_of_change C.refuses C.noted C.does C.Steps.rest self.new)) }
    {
        if !noted {
            return Flow::Done(Reply::Done);
        }
        self.go_to(Stage::Applying(image));
        Flow::More
    }
}

impl<C: Change> Machine for ChangeRequest<C, C::Steps> {
    ghost stands = { λ r. without_labels (rest_of_change C.refuses C.noted C.does C.Steps.rest r) };

    ghost is_ready = { IsReady C.refuses C.noted C.does C.Steps.rest C.Steps.is_ready };

    fn wants(&self) -> Want {
        let site = self.site;
        match &self.stage {
            Stage::Approaching(way) => way.wants(),
            Stage::Noting(image) => Want::Note {
                site,
                image: *image,
            },
            Stage::Acting(_, part, _) => part.wants(),
            Stage::Applying(image) => Want::Applied {
                site,
                image: *image,
            },
        }
    }

    fn next(&self, alloc: Global) -> Result<Op, NoMemory> {
        match &self.stage {
            Stage::Approaching(way) => way.next(),
            Stage::Noting(_) => unreachable!(),
            Stage::Acting(_, part, _) => part.next(alloc),
            Stage::Applying(_) => unreachable!(),
        }
    }

    fn reason(&self) -> Reason {
        Reason::Own
    }

    fn ready(&mut self, alloc: Global, fed: &Fed) -> Result<(), NoMemory> {
        let Fed::Answer(answer) = fed else {
            return Ok(());
        };
        match &mut self.stage {
            Stage::Approaching(_) => self.ready_part(alloc, answer),
            Stage::Acting(_, part, _) => part.ready(alloc, answer),
            _ => Ok(()),
        }
    }

    fn feed(&mut self, fed: &Fed) -> Flow {
        match &mut self.stage {
            Stage::Approaching(_) => self.approach(fed),
            Stage::Noting(image) => {
                let image = *image;
                self.begin_part(image, true)
            }
            Stage::Acting(image, part, noted) => {
                let Fed::Answer(answer) = fed else {
                    unreachable!()
                };
                match part.feed(answer) {
                    Progress::More => Flow::More,
                    Progress::Ended(()) => {
                        let (image, noted) = (*image, *noted);
                        self.end(image, noted)
                    }
                    Progress::Refused(refusal) => Flow::Done(Reply::Refused(refusal)),
                }
            }
            Stage::Applying(_) => Flow::Done(Reply::Done),
        }
    }
}
