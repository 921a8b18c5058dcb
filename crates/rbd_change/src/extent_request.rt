//! A request that changes an image object by object beside others, and notes an event.
ghost use Rattle.std.specs.Prelude.{◌≡◌, OnOk};
ghost use Rattle.rbd_kinds.specs.declared.machine.Fed.TheVariants as fed_with;
ghost use Rattle.rbd_machine.specs.Answers.{CanBeFed};
ghost use Rattle.rbd_machine.specs.Plan.{GoesOn, Goto, plan_after, without_labels};
ghost use Rattle.rbd_machine.specs.Ready.{IsReadyFor};
ghost use Rattle.rbd_machine.specs.Steps as steps;
ghost use Rattle.rbd_machine.specs.Steps.{applied};
ghost use Rattle.rbd_change.specs.Extent.{in_turn, rest_of_extent, under_lock_in, IsApproaching, IsReady};

use crate::at_object::ObjectChange;
use crate::extent::ExtentChange;
use crate::steps::ChangeSteps;
use rbd_kinds::{Answer, Fed, Flow, ImageId, Name, NoMemory, Op, Reply, Sharing, SiteId, Want};
use rbd_machine::{Approach, Machine, Progress, Reason};
use std::alloc::Global;
use std::collections::VecDeque;
use std::mem::replace;

/// A request that changes an image object by object beside others, and notes an event.
///
/// ```text
/// Approaching   to its look under the lock, in the image's line   (see `Approach`)
///    │             refused: by what the change refuses
/// Noting        its event, in the image's journal
///    │
/// Acting ◀──┐   its turn at a piece's object, and then
///    │──────┘   the piece, one operation after another
///    │ no piece is left
/// Applying      the event counts as applied
///    │
///    ▼
/// Done
/// ```
///
/// Each operation may be answered `fenced`, which ends the request with Fenced.
#[derive(Drop)]
pub struct ExtentRequest<C, P> {
    site: SiteId,
    change: C,
    stage: Stage<P>,
    /// The pieces that are left behind the one that it is at, once the look under the lock told the
    /// header.
    pieces: VecDeque<P>,
}

/// A stage of it, with its image once it is found.
#[derive(Drop)]
enum Stage<P> {
    Approaching(Approach),
    Noting(ImageId),
    /// At a piece, once it has its turn at the piece's object.
    Acting {
        image: ImageId,
        piece: P,
        has_turn: bool,
    },
    Applying(ImageId),
}

impl<C: ExtentChange> ExtentRequest<C, C::AtObject> {
    /// A change of the image of a name at a site, which goes beside the others that `sharing` names
    /// in the image's line. It takes no memory.
    pub fn new(alloc: Global, home: SiteId, image: Name, sharing: Sharing, change: C) -> Self
        ensures { rest_of_extent C.refuses C.noted C.does C.AtObject.rest C.AtObject.number result
            ≡ steps.change_plan home image sharing (C.refuses change) (C.does change home) }
    {
        ExtentRequest {
            site: home,
            change,
            stage: Stage::Approaching(Approach::new(home, image, sharing)),
            pieces: VecDeque::new(alloc),
        }
    }

    /// The image, where its look under the lock is what it wants.
    fn under_lock(&self) -> Option<ImageId>
        ensures { result ≡ under_lock_in self.now.stage }
    {
        match &self.stage {
            Stage::Approaching(way) => way.under_lock(),
            _ => None,
        }
    }

    /// Takes the memory for its look under the lock: there its pieces are made.
    fn ready_pieces(&mut self, alloc: Global, answer: &Answer) -> Result<(), NoMemory>
        requires at { IsApproaching self.old.stage }
        requires can { CanBeFed (rest_of_extent C.refuses C.noted C.does C.AtObject.rest C.AtObject.number self.old)
            (fed_with.Answer answer.now) }
        ensures rest { rest_of_extent C.refuses C.noted C.does C.AtObject.rest C.AtObject.number self.new
            ≡ rest_of_extent C.refuses C.noted C.does C.AtObject.rest C.AtObject.number self.old }
        ensures ready { OnOk result
            (IsReady C.refuses C.noted C.does C.AtObject.rest C.AtObject.number C.AtObject.is_ready
            self.new answer.now) }
    {
        let Some(image) = self.under_lock() else {
            return Ok(());
        };
        let Answer::Header(header) = answer else {
            return Ok(());
        };
        if self.change.refusal(header).is_some() {
            return Ok(());
        }
        let pieces = self.change.pieces(alloc, self.site, image, header)?;
        self.keep(pieces);
        Ok(())
    }

    /// Puts pieces beside the stage. What stood there is let go by a call, and not in place.
    fn keep(&mut self, pieces: VecDeque<C::AtObject>)
        ensures { self.new
            ≡ record { site = self.old.site; change = self.old.change; stage = self.old.stage; pieces = pieces } }
    {
        drop(replace(&mut self.pieces, pieces));
    }

    /// Goes on to a stage, and lets the old one go.
    fn go_to(&mut self, stage: Stage<C::AtObject>)
        ensures { self.new
            ≡ record { site = self.old.site; change = self.old.change; stage = stage; pieces = self.old.pieces } }
    {
        drop(replace(&mut self.stage, stage));
    }

    /// Goes on with its way to its look under the lock, and from there.
    fn approach(&mut self, fed: &Fed) -> Flow
        requires at { IsApproaching self.old.stage }
        requires can { CanBeFed
            (rest_of_extent C.refuses C.noted C.does C.AtObject.rest C.AtObject.number self.old) fed.now }
        requires ready { IsReadyFor
            (IsReady C.refuses C.noted C.does C.AtObject.rest C.AtObject.number C.AtObject.is_ready self.old) fed.now }
        ensures { GoesOn Goto
            (plan_after (rest_of_extent C.refuses C.noted C.does C.AtObject.rest C.AtObject.number self.old) fed.now)
            result
            (without_labels (rest_of_extent C.refuses C.noted C.does C.AtObject.rest C.AtObject.number self.new)) }
    {
        let Stage::Approaching(way) = &mut self.stage else {
            unreachable!()
        };
        match way.feed(&self.change, fed) {
            Progress::More => Flow::More,
            Progress::Refused(refusal) => Flow::Done(Reply::Refused(refusal)),
            Progress::Ended(image) => {
                self.go_to(Stage::Noting(image));
                Flow::More
            }
        }
    }

    /// Goes on with the next piece, whose turn comes first, or behind the last.
    fn next_piece(&mut self, image: ImageId) -> Flow
        ensures { GoesOn Goto
            (in_turn C.AtObject.rest C.AtObject.number self.old.pieces.items (applied self.old.site image))
            result
            (without_labels (rest_of_extent C.refuses C.noted C.does C.AtObject.rest C.AtObject.number self.new)) }
    {
        match self.pieces.pop_front() {
            Some(piece) => {
                let has_turn = false;
                self.go_to(Stage::Acting {
                    image,
                    piece,
                    has_turn,
                });
            }
            None => self.go_to(Stage::Applying(image)),
        }
        Flow::More
    }
}

impl<C: ExtentChange> Machine for ExtentRequest<C, C::AtObject> {
    ghost stands = { λ r.
        without_labels (rest_of_extent C.refuses C.noted C.does C.AtObject.rest C.AtObject.number r) };

    ghost is_ready = { IsReady C.refuses C.noted C.does C.AtObject.rest C.AtObject.number C.AtObject.is_ready };

    fn wants(&self) -> Want {
        let site = self.site;
        match &self.stage {
            Stage::Approaching(way) => way.wants(),
            Stage::Noting(image) => Want::Note {
                site,
                image: *image,
            },
            Stage::Acting {
                piece,
                has_turn: false,
                ..
            } => Want::Turn {
                object: piece.object(),
            },
            Stage::Acting { piece, .. } => piece.wants(),
            Stage::Applying(image) => Want::Applied {
                site,
                image: *image,
            },
        }
    }

    fn next(&self, alloc: Global) -> Result<Op, NoMemory> {
        match &self.stage {
            Stage::Approaching(way) => way.next(),
            Stage::Noting(_) => unreachable!(),
            Stage::Acting {
                has_turn: false,
                ..
            } => unreachable!(),
            Stage::Acting { piece, .. } => piece.next(alloc),
            Stage::Applying(_) => unreachable!(),
        }
    }

    fn reason(&self) -> Reason {
        Reason::Own
    }

    fn ready(&mut self, alloc: Global, fed: &Fed) -> Result<(), NoMemory> {
        let Fed::Answer(answer) = fed else {
            return Ok(());
        };
        match &mut self.stage {
            Stage::Approaching(_) => self.ready_pieces(alloc, answer),
            Stage::Acting {
                piece,
                has_turn: true,
                ..
            } => piece.ready(alloc, answer),
            _ => Ok(()),
        }
    }

    fn feed(&mut self, fed: &Fed) -> Flow {
        match &mut self.stage {
            Stage::Approaching(_) => self.approach(fed),
            Stage::Noting(image) => {
                let image = *image;
                self.next_piece(image)
            }
            Stage::Acting {
                image,
                piece,
                has_turn,
            } => {
                if !*has_turn {
                    *has_turn = true;
                    return Flow::More;
                }
                let Fed::Answer(answer) = fed else {
                    unreachable!()
                };
                match piece.feed(answer) {
                    Progress::More => Flow::More,
                    Progress::Ended(()) => {
                        let image = *image;
                        self.next_piece(image)
                    }
                    Progress::Refused(refusal) => Flow::Done(Reply::Refused(refusal)),
                }
            }
            Stage::Applying(_) => Flow::Done(Reply::Done),
        }
    }
}
