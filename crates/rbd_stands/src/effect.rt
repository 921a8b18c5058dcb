//! The effect of any operation.
ghost use Rattle.std.specs.Prelude.{◌≡◌, Option, IfSome, IfOk, option_copied};
ghost use Rattle.rbd_kinds.specs.declared.answer.Answer.TheVariants as of_answer;
ghost use Rattle.rbd_kinds.specs.declared.header.HeaderView as of_header;
ghost use Rattle.rbd_kinds.specs.Form.{IsHeaderInForm};
ghost use Rattle.rbd_site.specs.declared.done.DoneOp.TheVariants as of_line;
ghost use Rattle.rbd_site.specs.Records.{Records};
ghost use Rattle.rbd_stands.specs.Effect as of_stands;
ghost use Rattle.rbd_stands.specs.Effect.{effect_of_op, header_of};

use crate::{children, data, directory, header};
use rbd_flat::Effect;
use rbd_kinds::{Answer, HeaderView, ImageId, NoMemory, Op, SnapId};
use std::alloc::Global;

/// The effect of an operation that was answered so, by the header that its image had at that
/// moment: `None` where it has none. What isn't answered done, with an id or with a snapshot has
/// none, and nor has a change of an object whose image has no header. NoMemory where memory for the
/// effect is refused.
///
/// Only operations on a header or on a data object need the header of their image.
pub fn effect_of(
    alloc: Global,
    op: &Op,
    answer: &Answer,
    header: Option<&HeaderView>,
) -> Result<Option<Effect>, NoMemory>
    requires form { IfSome (option_copied header) IsHeaderInForm }
    ensures effect { IfOk result (λ effect. effect ≡ effect_of_op (option_copied header.entry) op.now answer.now) }
    ensures line { (records : Records) → option_copied header.entry ≡ header_of records op.now
        → IfOk result (λ effect. effect ≡ of_stands.effect_of records (of_line.Op op.now) answer.now) }
{
    match answer {
        Answer::Done => of_done(alloc, op, header),
        Answer::Id(image) => of_id(op, *image),
        Answer::Snap(snap) => of_snap(op, *snap),
        _ => Ok(None),
    }
}

/// The effect of an operation that was done.
fn of_done(alloc: Global, op: &Op, header: Option<&HeaderView>) -> Result<Option<Effect>, NoMemory>
    requires { IfSome (option_copied header) IsHeaderInForm }
    ensures { IfOk result (λ effect. effect ≡ effect_of_op (option_copied header.entry) op.now of_answer.Done) }
{
    match op {
        Op::Directory(op) => directory::of_done(op),
        Op::Children(op) => Ok(children::of_done(op)),
        Op::Header { image, op } => Ok(header::of_done(*image, op, header)),
        Op::Data { image, object, op } => match header {
            Some(header) => data::of_done(alloc, *image, *object, op, header),
            None => Ok(None),
        },
        Op::BlockAdd { instance: _ } => Ok(None),
        Op::Map { image: _, op: _ } => Ok(None),
        Op::Journal { image: _, op: _ } => Ok(None),
    }
}

/// The effect of an operation that was answered with an id.
fn of_id(op: &Op, image: ImageId) -> Result<Option<Effect>, NoMemory>
    ensures { IfOk result (λ effect. (header : Option of_header.HeaderView)
        → effect ≡ effect_of_op header op.now (of_answer.Id image)) }
{
    match op {
        Op::Directory(op) => directory::of_id(op, image),
        Op::Children(_) => Ok(None),
        Op::Header { image: _, op: _ } => Ok(None),
        Op::Data {
            image: _,
            object: _,
            op: _,
        } => Ok(None),
        Op::BlockAdd { instance: _ } => Ok(None),
        Op::Map { image: _, op: _ } => Ok(None),
        Op::Journal { image: _, op: _ } => Ok(None),
    }
}

/// The effect of an operation that was answered with a snapshot.
fn of_snap(op: &Op, snap: SnapId) -> Result<Option<Effect>, NoMemory>
    ensures { IfOk result (λ effect. (header : Option of_header.HeaderView)
        → effect ≡ effect_of_op header op.now (of_answer.Snap snap)) }
{
    match op {
        Op::Header { image, op } => header::of_snap(*image, op, snap),
        Op::Directory(_) => Ok(None),
        Op::Children(_) => Ok(None),
        Op::Data {
            image: _,
            object: _,
            op: _,
        } => Ok(None),
        Op::BlockAdd { instance: _ } => Ok(None),
        Op::Map { image: _, op: _ } => Ok(None),
        Op::Journal { image: _, op: _ } => Ok(None),
    }
}
