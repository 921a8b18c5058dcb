//! Single operations on single objects of a site.
ghost use Rattle.std.specs.Prelude.{◌≡◌, IfOk};
ghost use Rattle.rbd_kinds.specs.declared.operation.Op.TheVariants as of_op;
ghost use Rattle.rbd_kinds.specs.OperationKind.{kind_of};

use crate::children_op::ChildrenOp;
use crate::data_op::DataOp;
use crate::directory_op::DirectoryOp;
use crate::header_op::HeaderOp;
use crate::id::{ImageId, Instance};
use crate::journal_op::JournalOp;
use crate::map_op::MapOp;
use crate::operation_kind::OpKind;
use rbd_values::{NoMemory, Shared, TryClone};
use std::alloc::Global;

/// One operation on one object of a site: which object, and what is done to it. Each is one step,
/// whole or not at all (Ceph: the operations of librados and of the object class `rbd`). There are
/// 47 kinds.
#[derive(Drop)]
pub enum Op {
    /// On `rbd_directory`.
    Directory(DirectoryOp),
    /// On `rbd_children`.
    Children(ChildrenOp),
    /// Puts an instance into the site's blocklist.
    BlockAdd {
        instance: Instance,
    },
    /// On the header of an image.
    Header {
        image: ImageId,
        op: HeaderOp,
    },
    /// On a data object of an image, by its number. (Its parts are many, and shared: so an
    /// operation is small, whatever it is.)
    Data {
        image: ImageId,
        object: u64,
        op: Shared<DataOp>,
    },
    /// On an object map of an image.
    Map {
        image: ImageId,
        op: MapOp,
    },
    /// On the journal of an image.
    Journal {
        image: ImageId,
        op: JournalOp,
    },
}

impl Op {
    /// An operation on a data object of an image.
    pub fn on_object(
        alloc: Global,
        image: ImageId,
        object: u64,
        op: DataOp,
    ) -> Result<Self, NoMemory>
        ensures { IfOk result (λ made. made ≡ of_op.Data image object op) }
    {
        Ok(Op::Data {
            image,
            object,
            op: Shared::new(alloc, op)?,
        })
    }

    /// Which operation it is, without its object and its parts.
    pub fn kind(&self) -> OpKind
        ensures { result ≡ kind_of self.now }
    {
        match self {
            Op::Directory(op) => op.kind(),
            Op::Children(op) => op.kind(),
            Op::BlockAdd { instance: _ } => OpKind::BlockAdd,
            Op::Header { image: _, op } => op.kind(),
            Op::Data {
                image: _,
                object: _,
                op,
            } => op.kind(),
            Op::Map { image: _, op } => op.kind(),
            Op::Journal { image: _, op } => op.kind(),
        }
    }
}

impl TryClone for Op {
    fn try_clone(&self) -> Result<Self, NoMemory> {
        Ok(match self {
            Op::Directory(op) => Op::Directory(op.try_clone()?),
            Op::Children(op) => Op::Children(*op),
            Op::BlockAdd { instance } => Op::BlockAdd {
                instance: *instance,
            },
            Op::Header { image, op } => Op::Header {
                image: *image,
                op: op.try_clone()?,
            },
            Op::Data { image, object, op } => Op::Data {
                image: *image,
                object: *object,
                op: op.try_clone()?,
            },
            Op::Map { image, op } => Op::Map {
                image: *image,
                op: op.try_clone()?,
            },
            Op::Journal { image, op } => Op::Journal {
                image: *image,
                op: op.try_clone()?,
            },
        })
    }
}
