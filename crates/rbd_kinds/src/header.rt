//! What an image's header tells.
ghost use Rattle.std.specs.Prelude.{◌≡◌, option_copied};
ghost use Rattle.rbd_kinds.specs.Header.{snap_named};

use crate::id::{ImageId, Instance, SiteId, SnapId};
use crate::layout::Layout;
use rbd_values::{Name, NoMemory, Sequence, TryClone};

/// Snapshots by id, newest first.
pub type SnapIds = Sequence<SnapId>;

/// Snapshots as the header lists them, oldest first.
pub type Snaps = Sequence<SnapView>;

/// The snapshots that a change of an object has to keep its contents for (Ceph: the self-managed
/// snapshot context of RADOS): a number, and the snapshots that exist, newest first.
#[derive(Drop)]
pub struct SnapContext {
    pub seq: SnapId,
    pub snaps: SnapIds,
}

/// A clone's parent: an image, its snapshot, and how many bytes from the front the clone takes from
/// it where it has no object of its own (Ceph: RBD layering).
#[derive(Clone, Copy, Debug, PartialEq, Eq)]
pub struct ParentLink {
    pub image: ImageId,
    pub snap: SnapId,
    /// The overlap in bytes.
    pub overlap: u64,
}

/// Whether a snapshot may be cloned, and whether it may be removed.
#[derive(Clone, Copy, Debug, PartialEq, Eq)]
pub enum SnapStatus {
    Unprotected,
    Unprotecting,
    Protected,
}

/// One snapshot as the header lists it. Size and parent are the image's when it was taken.
#[derive(Drop)]
pub struct SnapView {
    pub id: SnapId,
    pub name: Name,
    /// The size in bytes.
    pub size: u64,
    pub status: SnapStatus,
    pub parent: Option<ParentLink>,
}

/// An image's part in mirroring.
#[derive(Clone, Copy, Debug, PartialEq, Eq)]
pub enum Role {
    /// It isn't mirrored.
    Plain,
    /// Clients change it, and the other site follows it.
    Primary,
    /// It follows the other site's image, and clients don't change it.
    Secondary,
}

/// The name by which two mirrored images know each other: where the first of them was made.
#[derive(Clone, Copy, PartialEq, Eq)]
pub struct GlobalName {
    pub site: SiteId,
    pub image: ImageId,
}

/// All that an image's header tells.
#[derive(Drop)]
pub struct HeaderView {
    pub layout: Layout,
    /// The size in bytes.
    pub size: u64,
    /// Raised by one at each change but those of the lock.
    pub generation: u64,
    /// The id of the snapshot that was taken last, 0 for none.
    pub snap_seq: u32,
    pub snaps: Snaps,
    pub parent: Option<ParentLink>,
    /// 0, or one more than the parent's.
    pub depth: u32,
    /// The size in bytes with which it was made.
    pub born: u64,
    pub born_clone: bool,
    /// Whether changes are recorded in a journal first.
    pub journal: bool,
    /// Whether a full copy of the remote image is under way.
    pub syncing: bool,
    /// Who has the exclusive lock.
    pub owner: Option<Instance>,
    pub global: Option<GlobalName>,
    pub role: Role,
}

impl HeaderView {
    /// The snapshot of a name: `None` exactly where no listed snapshot has it, else the first that
    /// has. It takes no memory. Every look-up by name goes through it.
    pub fn named(&self, name: &Name) -> Option<&SnapView>
        ensures { option_copied result ≡ snap_named self.now.snaps name.now }
    {
        first_named(self.snaps.as_slice(), name)
    }
}

/// The first of some snapshots that has a name, as [`HeaderView::named`] finds it.
pub fn first_named<'s>(snaps: &'s [SnapView], name: &Name) -> Option<&'s SnapView>
    ensures { option_copied result ≡ snap_named snaps.now name.now }
{
    for found in snaps {
        if found.name == *name {
            return Some(found);
        }
    }
    None
}

impl TryClone for SnapContext {
    fn try_clone(&self) -> Result<Self, NoMemory> {
        Ok(SnapContext {
            seq: self.seq,
            snaps: self.snaps.try_clone()?,
        })
    }
}

impl TryClone for SnapView {
    fn try_clone(&self) -> Result<Self, NoMemory> {
        Ok(SnapView {
            name: self.name.try_clone()?,
            ..*self
        })
    }
}

impl TryClone for HeaderView {
    fn try_clone(&self) -> Result<Self, NoMemory> {
        Ok(HeaderView {
            snaps: self.snaps.try_clone()?,
            ..*self
        })
    }
}
