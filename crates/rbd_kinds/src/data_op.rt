//! Operations on a data object.
ghost use Rattle.std.specs.Prelude.{◌≡◌, IfOk};
ghost use Rattle.rbd_kinds.specs.OperationKind.{data_kind};
ghost use Rattle.rbd_kinds.specs.declared.data_op.DataOp.TheVariants as variant;

use crate::header::SnapContext;
use crate::id::SnapId;
use crate::layout::Parts;
use crate::operation_kind::OpKind;
use rbd_values::{Bytes, NoMemory, TryClone};

/// An operation on one data object of an image (Ceph: `rbd_data.<id>.<number>`). A change carries
/// its snapshot context. With `must`, nothing changes where the head is absent.
#[derive(Drop)]
pub enum DataOp {
    /// The bytes of the parts, one part after another, at the head or at a snapshot. Without parts
    /// it asks whether the object exists there.
    Read {
        snap: Option<SnapId>,
        parts: Parts,
    },
    /// Puts the bytes into the parts, one part after another.
    Write {
        context: SnapContext,
        must: bool,
        parts: Parts,
        bytes: Bytes,
    },
    /// The head becomes exactly these bytes.
    WriteFull {
        context: SnapContext,
        bytes: Bytes,
    },
    /// The held bytes in the parts become zeros.
    Zero {
        context: SnapContext,
        must: bool,
        parts: Parts,
    },
    /// The head exists, without bytes.
    Empty {
        context: SnapContext,
    },
    /// The head is absent.
    Remove {
        context: SnapContext,
    },
    /// The head becomes these bytes where it is absent (Ceph: RBD layering).
    CopyUp {
        bytes: Bytes,
    },
}

impl DataOp {
    /// Which operation it is, without its parts.
    pub fn kind(&self) -> OpKind
        ensures { result ≡ data_kind self.now }
    {
        match self {
            DataOp::Read { snap: _, parts: _ } => OpKind::DataRead,
            DataOp::Write {
                context: _,
                must: _,
                parts: _,
                bytes: _,
            } => OpKind::DataWrite,
            DataOp::WriteFull {
                context: _,
                bytes: _,
            } => OpKind::DataWriteFull,
            DataOp::Zero {
                context: _,
                must: _,
                parts: _,
            } => OpKind::DataZero,
            DataOp::Empty { context: _ } => OpKind::DataEmpty,
            DataOp::Remove { context: _ } => OpKind::DataRemove,
            DataOp::CopyUp { bytes: _ } => OpKind::DataCopyUp,
        }
    }
}

impl TryClone for DataOp {
    fn try_clone(&self) -> Result<Self, NoMemory> {
        match self {
            DataOp::Read { snap, parts } => Ok(DataOp::Read {
                snap: *snap,
                parts: parts.try_clone()?,
            }),
            DataOp::Write {
                context,
                must,
                parts,
                bytes,
            } => copied_write(context, *must, parts, bytes),
            DataOp::WriteFull { context, bytes } => copied_write_full(context, bytes),
            DataOp::Zero {
                context,
                must,
                parts,
            } => copied_zero(context, *must, parts),
            DataOp::Empty { context } => Ok(DataOp::Empty {
                context: context.try_clone()?,
            }),
            DataOp::Remove { context } => Ok(DataOp::Remove {
                context: context.try_clone()?,
            }),
            DataOp::CopyUp { bytes } => Ok(DataOp::CopyUp {
                bytes: bytes.try_clone()?,
            }),
        }
    }
}

fn copied_write(
    context: &SnapContext,
    must: bool,
    parts: &Parts,
    bytes: &Bytes,
) -> Result<DataOp, NoMemory>
    ensures { IfOk result (λ copy. copy ≡ variant.Write context.now must parts.now bytes.now) }
{
    Ok(DataOp::Write {
        context: context.try_clone()?,
        must,
        parts: parts.try_clone()?,
        bytes: bytes.try_clone()?,
    })
}

fn copied_write_full(context: &SnapContext, bytes: &Bytes) -> Result<DataOp, NoMemory>
    ensures { IfOk result (λ copy. copy ≡ variant.WriteFull context.now bytes.now) }
{
    Ok(DataOp::WriteFull {
        context: context.try_clone()?,
        bytes: bytes.try_clone()?,
    })
}

fn copied_zero(context: &SnapContext, must: bool, parts: &Parts) -> Result<DataOp, NoMemory>
    ensures { IfOk result (λ copy. copy ≡ variant.Zero context.now must parts.now) }
{
    Ok(DataOp::Zero {
        context: context.try_clone()?,
        must,
        parts: parts.try_clone()?,
    })
}
