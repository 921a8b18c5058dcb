//! Effects of operations on the directory of names.
ghost use Rattle.std.specs.Prelude.{◌≡◌, Option, IfOk};
ghost use Rattle.rbd_flat.specs.declared.effect.Effect.TheVariants as of_effect;
ghost use Rattle.rbd_kinds.specs.declared.answer.Answer.TheVariants as of_answer;
ghost use Rattle.rbd_kinds.specs.declared.header.HeaderView as of_header;
ghost use Rattle.rbd_kinds.specs.declared.operation.Op.TheVariants as of_op;
ghost use Rattle.rbd_stands.specs.Effect.{effect_of_op};

use rbd_flat::Effect;
use rbd_kinds::{DirectoryOp, ImageId, Name, NoMemory, TryClone};

/// The effect of an operation that was done.
pub fn of_done(op: &DirectoryOp) -> Result<Option<Effect>, NoMemory>
    ensures { IfOk result (λ effect. (header : Option of_header.HeaderView)
        → effect ≡ effect_of_op header (of_op.Directory op.now) of_answer.Done) }
{
    match op {
        DirectoryOp::Remove { image } => Ok(Some(Effect::NameFree { image: *image })),
        DirectoryOp::Rename { from, to } => Ok(Some(renamed(from, to)?)),
        DirectoryOp::Add { name: _ } => Ok(None),
        DirectoryOp::Find { name: _ } => Ok(None),
        DirectoryOp::List => Ok(None),
    }
}

/// That the image of a name has another one.
fn renamed(from: &Name, to: &Name) -> Result<Effect, NoMemory>
    ensures { IfOk result (λ effect. effect ≡ of_effect.Rename from.now to.now) }
{
    Ok(Effect::Rename {
        from: from.try_clone()?,
        to: to.try_clone()?,
    })
}

/// The effect of an operation that was answered with an id.
pub fn of_id(op: &DirectoryOp, image: ImageId) -> Result<Option<Effect>, NoMemory>
    ensures { IfOk result (λ effect. (header : Option of_header.HeaderView)
        → effect ≡ effect_of_op header (of_op.Directory op.now) (of_answer.Id image)) }
{
    match op {
        DirectoryOp::Add { name } => Ok(Some(Effect::Name {
            name: name.try_clone()?,
            image,
        })),
        DirectoryOp::Remove { image: _ } => Ok(None),
        DirectoryOp::Rename { from: _, to: _ } => Ok(None),
        DirectoryOp::Find { name: _ } => Ok(None),
        DirectoryOp::List => Ok(None),
    }
}
