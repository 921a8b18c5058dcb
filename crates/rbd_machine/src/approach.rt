//! The way of a change to its look under the lock.
ghost use Rattle.std.specs.Prelude.{◌≡◌, ℕ, Option, IfOk};
ghost use Rattle.rbd_kinds.specs.declared.header.HeaderView.{HeaderView};
ghost use Rattle.rbd_kinds.specs.declared.machine.Fed.TheVariants as fed_with;
ghost use Rattle.rbd_commands.specs.declared.refusal.Refusal.{Refusal};
ghost use Rattle.rbd_machine.specs.Plan.{Plan, Wants, Asks, plan_after};
ghost use Rattle.rbd_machine.specs.Steps.{way_between};
ghost use Rattle.rbd_machine.specs.Approach.{rest_between, rest_of, Approaches, Reaches, under_lock_at, IsAskingAt, CanBeFedAt};

use crate::looks::{dir_find, header_get};
use crate::progress::Progress;
use crate::told::{told_header, told_image};
use rbd_kinds::{
    Answer, Fed, HeaderView, ImageId, Name, NoMemory, Op, OpKind, Refusal, Sharing, SiteId, Want,
};

/// What a change refuses by the header that it looks at.
pub trait Refuses {
    ghost refuses: { Self → HeaderView → Option Refusal };

    /// The refusal that holds, the first of several in the order of the rules.
    fn refusal(&self, header: &HeaderView) -> Option<Refusal>
        ensures { result ≡ refuses self.now header.now };
}

/// Where a change of an image is on its way to its look under the lock. It is a part of a request.
///
/// ```text
/// Finding   dir-find     ──none──▶ NoImage
///    │ id
/// Joining   the line of the image's requests
///    │
/// Looking   header-get   ──none──▶ NoImage, or a refusal by this header
///    │ header
///    ┊ (here an `rm` asks who watches; nobody else does anything)
///    ▼
/// Holding   the lock
///    │
/// UnderLock header-get   ──none──▶ NoImage, or a refusal by this header
///    │ header
///    ▼
/// what the change does
/// ```
///
/// Any operation may be answered `fenced`, which ends the request with Fenced.
#[derive(Drop)]
pub struct Approach {
    site: SiteId,
    name: Name,
    sharing: Sharing,
    stage: Stage,
}

/// A stage of the way, with the image once it is found.
#[derive(Drop)]
pub enum Stage {
    Finding,
    Joining(ImageId),
    Looking(ImageId),
    Holding(ImageId),
    UnderLock(ImageId),
}

/// What comes of a step of the way.
#[derive(Drop)]
pub enum Reached {
    /// It wants more.
    More,
    /// Its first look told a header of this image by which nothing is refused. The lock is next, and
    /// before it what the request does between its two looks.
    FirstLook(ImageId),
    /// Its look under the lock told such a header, and it has ended.
    UnderLock(ImageId),
    /// The request has ended.
    Refused(Refusal),
}

impl Approach {
    /// The way of a change of the image of a name at a site, which goes beside others in the
    /// image's line, or is alone there. It takes no memory.
    pub fn new(site: SiteId, name: Name, sharing: Sharing) -> Self
        ensures { (refuses : HeaderView → Option Refusal) (between : ℕ → Plan → Plan) (act : ℕ → HeaderView → Plan)
            → rest_between result refuses between act ≡ way_between site name sharing refuses between act }
    {
        Approach {
            site,
            name,
            sharing,
            stage: Stage::Finding,
        }
    }

    /// What it wants.
    pub fn wants(&self) -> Want
        ensures { (refuses : HeaderView → Option Refusal) (between : ℕ → Plan → Plan) (act : ℕ → HeaderView → Plan)
            → Wants (rest_between self.now refuses between act) result }
    {
        let site = self.site;
        match &self.stage {
            Stage::Finding => Want::Op {
                site,
                kind: OpKind::DirFind,
            },
            Stage::Joining(image) => Want::Join {
                site,
                image: *image,
                sharing: self.sharing,
            },
            Stage::Looking(_) => Want::Op {
                site,
                kind: OpKind::HeaderGet,
            },
            Stage::Holding(image) => Want::Hold {
                site,
                image: *image,
            },
            Stage::UnderLock(_) => Want::Op {
                site,
                kind: OpKind::HeaderGet,
            },
        }
    }

    /// The operation that it wants. NoMemory where the memory for the name is refused.
    pub fn next(&self) -> Result<Op, NoMemory>
        requires { IsAskingAt self.now.stage }
        ensures { (refuses : HeaderView → Option Refusal) (between : ℕ → Plan → Plan) (act : ℕ → HeaderView → Plan)
            → IfOk result (Asks (rest_between self.now refuses between act)) }
    {
        match &self.stage {
            Stage::Finding => dir_find(&self.name),
            Stage::Joining(_) => unreachable!(),
            Stage::Looking(image) => Ok(header_get(*image)),
            Stage::Holding(_) => unreachable!(),
            Stage::UnderLock(image) => Ok(header_get(*image)),
        }
    }

    /// The image, where its look under the lock is what it wants.
    pub fn under_lock(&self) -> Option<ImageId>
        ensures { result ≡ under_lock_at self.now.stage }
    {
        match &self.stage {
            Stage::UnderLock(image) => Some(*image),
            _ => None,
        }
    }

    /// Goes on with what it is fed, where nothing comes between its two looks. It has ended with the
    /// image where its look under the lock told a header by which the rule refuses nothing. Refused
    /// with what the rule refuses at either look, with NoImage by the answer `none`, and with Fenced
    /// by `fenced`. It takes no memory.
    pub fn feed<R: Refuses>(&mut self, rule: &R, fed: &Fed) -> Progress<ImageId>
        requires { CanBeFedAt self.old.stage self.old.name fed.now }
        ensures { (act : ℕ → HeaderView → Plan)
            → Approaches (R.refuses rule.now) act fed.now
            (plan_after (rest_of self.old (R.refuses rule.now) act) fed.now) result self.old self.new }
    {
        match self.step(rule, fed) {
            Reached::More => Progress::More,
            Reached::FirstLook(_) => Progress::More,
            Reached::UnderLock(image) => Progress::Ended(image),
            Reached::Refused(refusal) => Progress::Refused(refusal),
        }
    }

    /// Goes on with what it is fed as `feed` does, and tells of its first look too: so a request may
    /// do something of its own there, before it goes on with this way.
    pub fn step<R: Refuses>(&mut self, rule: &R, fed: &Fed) -> Reached
        requires { CanBeFedAt self.old.stage self.old.name fed.now }
        ensures { (between : ℕ → Plan → Plan) (act : ℕ → HeaderView → Plan)
            → Reaches (R.refuses rule.now) between act fed.now
            (plan_after (rest_between self.old (R.refuses rule.now) between act) fed.now) result self.old self.new }
    {
        match fed {
            Fed::Passed => self.pass(),
            Fed::Answer(answer) => self.answer(rule, answer),
        }
    }

    /// Goes on, where it waits for something else than an answer.
    fn pass(&mut self) -> Reached
        requires { CanBeFedAt self.old.stage self.old.name fed_with.Passed }
        ensures { (refuses : HeaderView → Option Refusal) (between : ℕ → Plan → Plan) (act : ℕ → HeaderView → Plan)
            → Reaches refuses between act fed_with.Passed
            (plan_after (rest_between self.old refuses between act) fed_with.Passed) result self.old self.new }
    {
        match &self.stage {
            Stage::Finding => unreachable!(),
            Stage::Joining(image) => {
                self.stage = Stage::Looking(*image);
                Reached::More
            }
            Stage::Looking(_) => unreachable!(),
            Stage::Holding(image) => {
                self.stage = Stage::UnderLock(*image);
                Reached::More
            }
            Stage::UnderLock(_) => unreachable!(),
        }
    }

    /// Goes on with the answer to its operation.
    #[tactic(auto, using(crate::proofs::Tells::find_tells, crate::proofs::Tells::look_tells))]
    fn answer<R: Refuses>(&mut self, rule: &R, answer: &Answer) -> Reached
        requires { CanBeFedAt self.old.stage self.old.name (fed_with.Answer answer.now) }
        ensures { (between : ℕ → Plan → Plan) (act : ℕ → HeaderView → Plan)
            → Reaches (R.refuses rule.now) between act (fed_with.Answer answer.now)
            (plan_after (rest_between self.old (R.refuses rule.now) between act) (fed_with.Answer answer.now))
            result self.old self.new }
    {
        match &self.stage {
            Stage::Finding => match told_image(answer) {
                Ok(image) => {
                    self.stage = Stage::Joining(image);
                    Reached::More
                }
                Err(refusal) => Reached::Refused(refusal),
            },
            Stage::Joining(_) => unreachable!(),
            Stage::Looking(image) => match told_header(answer) {
                Ok(header) => match rule.refusal(header) {
                    None => {
                        let image = *image;
                        self.stage = Stage::Holding(image);
                        Reached::FirstLook(image)
                    }
                    Some(refusal) => Reached::Refused(refusal),
                },
                Err(refusal) => Reached::Refused(refusal),
            },
            Stage::Holding(_) => unreachable!(),
            Stage::UnderLock(image) => match told_header(answer) {
                Ok(header) => match rule.refusal(header) {
                    None => Reached::UnderLock(*image),
                    Some(refusal) => Reached::Refused(refusal),
                },
                Err(refusal) => Reached::Refused(refusal),
            },
        }
    }
}
