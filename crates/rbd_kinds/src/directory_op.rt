//! Operations on a site's directory.
ghost use Rattle.std.specs.Prelude.{◌≡◌};
ghost use Rattle.rbd_kinds.specs.OperationKind.{directory_kind};

use crate::id::ImageId;
use crate::operation_kind::OpKind;
use rbd_values::{Name, NoMemory, Shared, TryClone};

/// An operation on a site's directory of names (Ceph: `rbd_directory`).
#[derive(Drop)]
pub enum DirectoryOp {
    /// Which image has the name.
    Find { name: Name },
    /// Draws an id for the name.
    Add { name: Name },
    /// Takes the name of an image away.
    Remove { image: ImageId },
    /// Gives the image of a name another one. (It is shared, so that no operation is as large as two
    /// names.)
    Rename { from: Name, to: Shared<Name> },
    /// All names.
    List,
}

impl DirectoryOp {
    /// Which operation it is, without its parts.
    pub fn kind(&self) -> OpKind
        ensures { result ≡ directory_kind self.now }
    {
        match self {
            DirectoryOp::Find { name: _ } => OpKind::DirFind,
            DirectoryOp::Add { name: _ } => OpKind::DirAdd,
            DirectoryOp::Remove { image: _ } => OpKind::DirRemove,
            DirectoryOp::Rename { from: _, to: _ } => OpKind::DirRename,
            DirectoryOp::List => OpKind::DirList,
        }
    }
}

impl TryClone for DirectoryOp {
    fn try_clone(&self) -> Result<Self, NoMemory> {
        Ok(match self {
            DirectoryOp::Find { name } => DirectoryOp::Find {
                name: name.try_clone()?,
            },
            DirectoryOp::Add { name } => DirectoryOp::Add {
                name: name.try_clone()?,
            },
            DirectoryOp::Remove { image } => DirectoryOp::Remove { image: *image },
            DirectoryOp::Rename { from, to } => DirectoryOp::Rename {
                from: from.try_clone()?,
                to: to.try_clone()?,
            },
            DirectoryOp::List => DirectoryOp::List,
        })
    }
}
