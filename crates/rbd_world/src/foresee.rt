//! What an operation will come to at its site.
ghost use Rattle.std.specs.Prelude.{◌≡◌, ℕ, Option, None, false, length, IfOk, IfSome};
ghost use Rattle.rbd_kinds.specs.Form.{IsHeaderInForm};
ghost use Rattle.rbd_kinds.specs.OperationKind.{kind_of};
ghost use Rattle.rbd_kinds.specs.declared.answer.Answer.{Answer as Answered};
ghost use Rattle.rbd_kinds.specs.declared.header.HeaderView.{HeaderView as HeaderTold};
ghost use Rattle.rbd_kinds.specs.declared.machine.Fed.TheVariants as of_fed;
ghost use Rattle.rbd_kinds.specs.declared.operation.Op.TheVariants as of_op;
ghost use Rattle.rbd_lock.specs.Waiting.{asks_for_lock as waits};
ghost use Rattle.rbd_site.specs.InForm.{AreInForm};
ghost use Rattle.rbd_site.specs.Log.{records_of};
ghost use Rattle.rbd_site.specs.Step.{answer_to};
ghost use Rattle.rbd_site.specs.declared.done.DoneOp.TheVariants as of_done;
ghost use Rattle.rbd_stands.specs.Effect.{effect_of as effect_there, effect_of_op};
ghost use Rattle.rbd_world.specs.Operate.{image_of_op};
ghost use Rattle.rbd_world.specs.Run.{entry_of, fence_of, reason_of};
ghost use Rattle.rbd_world.specs.Sending.{doer_of};
ghost use Rattle.rbd_world.specs.Step.{IsPermitted, next_number, operation_at};
ghost use Rattle.rbd_world.specs.World.{records_in, site_in};
ghost use Rattle.rbd_world.specs.declared.event.Outcome.TheVariants as of_outcome;

use crate::event::Outcome;
use crate::noting::entry_by;
use crate::sender::Sender;
use crate::sites::Sites;
use rbd_flat::{Effect, Entry};
use rbd_kinds::{
    Answer, Fed, HeaderOp, HeaderView, ImageId, Instance, NoMemory, Op, Shared, SiteId,
};
use rbd_lock::is_waiting;
use rbd_site::Site;
use rbd_stands::effect_of;
use std::alloc::Global;

/// An operation that is to be done: whose, by whom, and where.
#[derive(Drop)]
pub struct Due {
    pub who: Instance,
    pub by: Sender,
    pub site: SiteId,
    pub op: Op,
}

/// What it will come to.
#[derive(Drop)]
pub struct Foreseen {
    /// What its sender is fed.
    pub fed: Fed,
    /// Its number in its site's log.
    pub number: u64,
    /// It asks again, on its way to a lock.
    pub waiting: bool,
    /// What the history has of it.
    pub entry: Entry,
}

impl Foreseen {
    /// What comes of the poll that does it, by whether a request then has its reply.
    pub fn outcome(&self, site: SiteId, replied: bool) -> Outcome
        ensures { result ≡ of_outcome.Step site self.now.number self.now.waiting replied }
    {
        Outcome::Step {
            site,
            number: self.number,
            waiting: self.waiting,
            replied,
        }
    }
}

/// What an operation will come to at its site. Nothing changes. NoMemory where memory for it is
/// refused.
pub fn foresee(alloc: Global, sites: &Sites, due: &Due) -> Result<Foreseen, NoMemory>
    requires permitted { IsPermitted sites.now due.now.who due.now.site due.now.op }
    ensures fed { IfOk result (λ f. f.fed ≡ of_fed.Answer
        (answer_to (records_in due.now.site sites.now) due.now.who due.now.op)) }
    ensures number { IfOk result (λ f. f.number ≡ next_number (site_in due.now.site sites.now)) }
    ensures waiting { IfOk result (λ f. f.waiting ≡ waits (reason_of (doer_of due.now.by)) (kind_of due.now.op)
        (answer_to (records_in due.now.site sites.now) due.now.who due.now.op)) }
    ensures entry { IfOk result (λ f. f.entry
        ≡ entry_of (operation_at (site_in due.now.site sites.now) due.now.who
        (doer_of due.now.by) due.now.site due.now.op)) }
{
    let at = sites.at(due.site);
    match at.answer(due.who, &due.op) {
        Ok(answer) => foresee_answered(alloc, at, due, answer),
        Err(fault) => Err(fault),
    }
}

/// The same, where its answer is known.
fn foresee_answered(
    alloc: Global,
    at: &Site,
    due: &Due,
    answer: Answer,
) -> Result<Foreseen, NoMemory>
    requires { answer ≡ answer_to (records_of at.now) due.now.who due.now.op }
    ensures fed { IfOk result (λ f. f.fed ≡ of_fed.Answer answer) }
    ensures number { IfOk result (λ f. f.number ≡ next_number at.now) }
    ensures waiting { IfOk result (λ f. f.waiting ≡ waits (reason_of (doer_of due.now.by))
        (kind_of due.now.op) answer) }
    ensures entry { IfOk result (λ f. f.entry
        ≡ entry_of (operation_at at.now due.now.who (doer_of due.now.by) due.now.site due.now.op)) }
{
    let number = at.log().len() as u64 + 1;
    match effect_now(alloc, at, &due.op, &answer) {
        Ok(effect) => {
            let waiting = is_waiting(due.by.reason(), due.op.kind(), &answer);
            let fence = fence_of(&due.op, &answer);
            let entry = entry_by(due.by.cause(&due.who), due.site, number, fence, effect);
            Ok(Foreseen {
                fed: Fed::Answer(answer),
                number,
                waiting,
                entry,
            })
        }
        Err(fault) => {
            drop(answer);
            Err(fault)
        }
    }
}

/// The instance that an operation puts into its site's blocklist.
fn fence_of(op: &Op, answer: &Answer) -> Option<Instance>
    ensures { result ≡ fence_of op.now answer.now }
{
    let Op::BlockAdd { instance } = op else {
        return None;
    };
    match answer {
        Answer::Done => Some(*instance),
        _ => None,
    }
}

/// The effect of an operation that will be answered so. (Most operations never have one: so nothing
/// is looked up for these, and no room is made for an effect.)
fn effect_now(
    alloc: Global,
    at: &Site,
    op: &Op,
    answer: &Answer,
) -> Result<Option<Shared<Effect>>, NoMemory>
    requires { AreInForm (records_of at.now) (length at.now.log) }
    ensures { IfOk result (λ effect. effect ≡ effect_there (records_of at.now) (of_done.Op op.now) answer.now) }
{
    if !may_have_effect(op) {
        return Ok(None);
    }
    match effect_by(alloc, at, op, answer)? {
        Some(effect) => Ok(Some(Shared::new(alloc, effect)?)),
        None => Ok(None),
    }
}

/// Whether an operation has an effect by some answer: `false` for those that never have one.
fn may_have_effect(op: &Op) -> bool
    ensures { result ≡ false → (header : Option HeaderTold) (answer : Answered)
        → effect_of_op header op.now answer ≡ None }
{
    match op {
        Op::Directory(_) => true,
        Op::Children(_) => true,
        Op::Header { image: _, op } => may_change_header(op),
        Op::Data {
            image: _,
            object: _,
            op: _,
        } => true,
        Op::BlockAdd { instance: _ } => false,
        Op::Map { image: _, op: _ } => false,
        Op::Journal { image: _, op: _ } => false,
    }
}

/// The same of an operation on a header: looks at it, and all that is about locks and watches, have
/// no effect on an image.
fn may_change_header(op: &HeaderOp) -> bool
    ensures { result ≡ false → (header : Option HeaderTold) (image : ℕ) (answer : Answered)
        → effect_of_op header (of_op.Header image op.now) answer ≡ None }
{
    match op {
        HeaderOp::Get => false,
        HeaderOp::LockTake => false,
        HeaderOp::LockDrop => false,
        HeaderOp::LockBreak { owner: _ } => false,
        HeaderOp::Watch => false,
        HeaderOp::Unwatch => false,
        HeaderOp::WatchersGet => false,
        HeaderOp::Notify { kind: _ } => false,
        _ => true,
    }
}

/// The same, not shared. Only what is done has an effect that the header of its image tells.
fn effect_by(alloc: Global, at: &Site, op: &Op, answer: &Answer) -> Result<Option<Effect>, NoMemory>
    requires { AreInForm (records_of at.now) (length at.now.log) }
    ensures { IfOk result (λ effect. effect ≡ effect_there (records_of at.now) (of_done.Op op.now) answer.now) }
{
    match answer {
        Answer::Done => effect_done(alloc, at, op, answer),
        _ => effect_of(alloc, op, answer, None),
    }
}

/// The same, by the header that its image has now.
fn effect_done(
    alloc: Global,
    at: &Site,
    op: &Op,
    answer: &Answer,
) -> Result<Option<Effect>, NoMemory>
    requires { AreInForm (records_of at.now) (length at.now.log) }
    ensures { IfOk result (λ effect. effect ≡ effect_there (records_of at.now) (of_done.Op op.now) answer.now) }
{
    match image_of(op) {
        Some(image) => {
            let header = header_at(at, image)?;
            effect_of(alloc, op, answer, header.as_ref())
        }
        None => effect_of(alloc, op, answer, None),
    }
}

/// The image whose header tells an operation's effect: that of a header or of a data object.
fn image_of(op: &Op) -> Option<ImageId>
    ensures { result ≡ image_of_op op.now }
{
    match op {
        Op::Header { image, .. } => Some(*image),
        Op::Data { image, .. } => Some(*image),
        _ => None,
    }
}

/// The header of an image, where it is there.
fn header_at(at: &Site, image: ImageId) -> Result<Option<HeaderView>, NoMemory>
    requires { AreInForm (records_of at.now) (length at.now.log) }
    ensures header { IfOk result (λ header. header ≡ (records_of at.now).headers image) }
    ensures form { IfOk result (λ header. IfSome header IsHeaderInForm) }
{
    at.header(image)
}
