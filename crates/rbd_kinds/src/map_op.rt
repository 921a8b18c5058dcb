//! Operations on an image's object maps.
ghost use Rattle.std.specs.Prelude.{◌≡◌};
ghost use Rattle.rbd_kinds.specs.Maps.{map_snap};
ghost use Rattle.rbd_kinds.specs.OperationKind.{map_kind};

use crate::id::SnapId;
use crate::operation_kind::OpKind;
use rbd_values::{Bytes, NoMemory, TryClone};

/// An operation on the object map of an image's head, or of a snapshot (Ceph:
/// `rbd_object_map.<id>`, and with `.<snap>` behind it).
#[derive(Drop)]
pub enum MapOp {
    /// Makes the head's map, or lengthens it to so many objects.
    Resize {
        count: u64,
    },
    /// The states, two bits an object.
    Get {
        snap: Option<SnapId>,
    },
    /// Makes a map of four objects a byte.
    Put {
        snap: Option<SnapId>,
        bits: Bytes,
    },
    Set {
        snap: Option<SnapId>,
        object: u64,
        state: u8,
    },
    Remove {
        snap: Option<SnapId>,
    },
}

impl MapOp {
    /// Which operation it is, without its parts.
    pub fn kind(&self) -> OpKind
        ensures { result ≡ map_kind self.now }
    {
        match self {
            MapOp::Resize { count: _ } => OpKind::MapResize,
            MapOp::Get { snap: _ } => OpKind::MapGet,
            MapOp::Put { snap: _, bits: _ } => OpKind::MapPut,
            MapOp::Set {
                snap: _,
                object: _,
                state: _,
            } => OpKind::MapSet,
            MapOp::Remove { snap: _ } => OpKind::MapRemove,
        }
    }

    /// The snapshot on whose map it is, or none where it is on the head's.
    pub fn snap(&self) -> Option<SnapId>
        ensures { result ≡ map_snap self.now }
    {
        match self {
            MapOp::Resize { count: _ } => None,
            MapOp::Get { snap } => *snap,
            MapOp::Put { snap, bits: _ } => *snap,
            MapOp::Set {
                snap,
                object: _,
                state: _,
            } => *snap,
            MapOp::Remove { snap } => *snap,
        }
    }
}

impl TryClone for MapOp {
    fn try_clone(&self) -> Result<Self, NoMemory> {
        Ok(match self {
            MapOp::Put { snap, bits } => MapOp::Put {
                snap: *snap,
                bits: bits.try_clone()?,
            },
            MapOp::Resize { count } => MapOp::Resize { count: *count },
            MapOp::Get { snap } => MapOp::Get { snap: *snap },
            MapOp::Set {
                snap,
                object,
                state,
            } => MapOp::Set {
                snap: *snap,
                object: *object,
                state: *state,
            },
            MapOp::Remove { snap } => MapOp::Remove { snap: *snap },
        })
    }
}
