//! Operations on the list of children.
ghost use Rattle.std.specs.Prelude.{◌≡◌, IfOk, OnOk, OnErr};
ghost use Rattle.rbd_kinds.specs.declared.children_op.ChildrenOp.TheVariants as ChildrenOp;
ghost use Rattle.rbd_site.specs.ChildrenStep.{children_answer, children_after};

use crate::found::done_where;
use rbd_kinds::{Answer, ChildrenOp, ImageId, NoMemory, SnapId};
use rbd_registry::Children;

/// What an operation is answered now.
pub fn answer(children: &Children, op: ChildrenOp) -> Result<Answer, NoMemory>
    ensures { IfOk result (λ answer. answer ≡ children_answer children.now op) }
{
    match op {
        ChildrenOp::Add {
            parent: _,
            snap: _,
            child: _,
        } => Ok(Answer::Done),
        ChildrenOp::Remove {
            parent,
            snap,
            child,
        } => Ok(done_where(children.contains(parent, snap, child))),
        ChildrenOp::List { parent, snap } => Ok(Answer::Ids(children.of(parent, snap)?)),
    }
}

/// Does an operation, or nothing at all.
pub fn change(children: &mut Children, op: ChildrenOp) -> Result<(), NoMemory>
    ensures ok { OnOk result (children.new ≡ children_after children.old op) }
    ensures err { OnErr result (children.new ≡ children.old) }
{
    match op {
        ChildrenOp::Add {
            parent,
            snap,
            child,
        } => children.add(parent, snap, child),
        ChildrenOp::Remove {
            parent,
            snap,
            child,
        } => {
            remove(children, parent, snap, child);
            Ok(())
        }
        ChildrenOp::List { parent: _, snap: _ } => Ok(()),
    }
}

fn remove(children: &mut Children, parent: ImageId, snap: SnapId, child: ImageId)
    ensures { children.new ≡ children_after children.old (ChildrenOp.Remove parent snap child) }
{
    children.remove(parent, snap, child);
}
