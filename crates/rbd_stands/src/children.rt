//! Effects of operations on the list of children.
ghost use Rattle.std.specs.Prelude.{◌≡◌, Option};
ghost use Rattle.rbd_kinds.specs.declared.answer.Answer.TheVariants as of_answer;
ghost use Rattle.rbd_kinds.specs.declared.header.HeaderView as of_header;
ghost use Rattle.rbd_kinds.specs.declared.operation.Op.TheVariants as of_op;
ghost use Rattle.rbd_stands.specs.Effect.{effect_of_op};

use rbd_flat::Effect;
use rbd_kinds::ChildrenOp;

/// The effect of an operation that was done.
pub fn of_done(op: &ChildrenOp) -> Option<Effect>
    ensures { (header : Option of_header.HeaderView)
        → result ≡ effect_of_op header (of_op.Children op.now) of_answer.Done }
{
    match op {
        ChildrenOp::Add {
            parent,
            snap,
            child,
        } => Some(Effect::Link {
            parent: *parent,
            snap: *snap,
            child: *child,
        }),
        ChildrenOp::Remove {
            parent,
            snap,
            child,
        } => Some(Effect::Unlink {
            parent: *parent,
            snap: *snap,
            child: *child,
        }),
        ChildrenOp::List { parent: _, snap: _ } => None,
    }
}
