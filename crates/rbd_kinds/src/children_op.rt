//! Operations on a site's list of children.
ghost use Rattle.std.specs.Prelude.{◌≡◌};
ghost use Rattle.rbd_kinds.specs.OperationKind.{children_kind};

use crate::id::{ImageId, SnapId};
use crate::operation_kind::OpKind;

/// An operation on a site's list of clones by their parents (Ceph: `rbd_children`).
#[derive(Clone, Copy)]
pub enum ChildrenOp {
    Add {
        parent: ImageId,
        snap: SnapId,
        child: ImageId,
    },
    Remove {
        parent: ImageId,
        snap: SnapId,
        child: ImageId,
    },
    /// The clones of a snapshot.
    List {
        parent: ImageId,
        snap: SnapId,
    },
}

impl ChildrenOp {
    /// Which operation it is, without its parts.
    pub fn kind(self) -> OpKind
        ensures { result ≡ children_kind self }
    {
        match self {
            ChildrenOp::Add {
                parent: _,
                snap: _,
                child: _,
            } => OpKind::ChildAdd,
            ChildrenOp::Remove {
                parent: _,
                snap: _,
                child: _,
            } => OpKind::ChildRemove,
            ChildrenOp::List { parent: _, snap: _ } => OpKind::ChildList,
        }
    }
}
