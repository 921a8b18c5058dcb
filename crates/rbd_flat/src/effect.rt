use crate::extents::Extents;
use rbd_kinds::{Bytes, ImageId, Name, Role, SnapId, SnapStatus};

/// One step of the flat-copy machine. It carries image places, and knows no objects.
#[derive(Debug, Drop)]
pub enum Effect {
    /// The name is added with its id.
    Name {
        name: Name,
        image: ImageId,
    },
    /// The entry with the id goes.
    NameFree {
        image: ImageId,
    },
    /// The name is replaced.
    Rename {
        from: Name,
        to: Name,
    },
    /// An image of `size` bytes, all zeros, without snapshots.
    Create {
        image: ImageId,
        size: u64,
        role: Role,
    },
    /// An image whose bytes are a copy of the parent's snapshot, without snapshots.
    Clone {
        image: ImageId,
        parent: ImageId,
        snap: SnapId,
    },
    /// The bytes go to the places in order, as far as these are below the size. Places past the
    /// given bytes become zeros.
    Piece {
        image: ImageId,
        at: Extents,
        bytes: Bytes,
    },
    /// The places become zeros, as far as they are below the size.
    Zero {
        image: ImageId,
        at: Extents,
    },
    /// The image is cut to `size` bytes, or lengthened by zeros.
    Size {
        image: ImageId,
        size: u64,
    },
    /// A copy of the bytes is added as the newest snapshot, unprotected.
    Snap {
        image: ImageId,
        snap: SnapId,
        name: Name,
    },
    /// The snapshot goes.
    Unsnap {
        image: ImageId,
        snap: SnapId,
    },
    /// The snapshot's status becomes the given one.
    Status {
        image: ImageId,
        snap: SnapId,
        status: SnapStatus,
    },
    /// The link from a parent's snapshot to a child is added.
    Link {
        parent: ImageId,
        snap: SnapId,
        child: ImageId,
    },
    /// That link goes.
    Unlink {
        parent: ImageId,
        snap: SnapId,
        child: ImageId,
    },
    /// The image's role becomes the given one.
    Role {
        image: ImageId,
        role: Role,
    },
    /// The image goes.
    Gone {
        image: ImageId,
    },
}
