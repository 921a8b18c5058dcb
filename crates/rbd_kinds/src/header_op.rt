//! Operations on an image's header.
ghost use Rattle.std.specs.Prelude.{◌≡◌};
ghost use Rattle.rbd_kinds.specs.OperationKind.{header_kind};

use crate::header::{HeaderView, Role, SnapStatus};
use crate::id::{Instance, SnapId};
use crate::notice::NoticeKind;
use crate::operation_kind::OpKind;
use rbd_values::{Name, NoMemory, Shared, TryClone};

/// An operation on an image's header, with its exclusive lock and its watchers (Ceph:
/// `rbd_header.<id>`). The instance that does it is who takes or drops the lock, watches, and
/// notifies.
#[derive(Drop)]
pub enum HeaderOp {
    Create { view: Shared<HeaderView> },
    Get,
    /// Sets the size in bytes.
    SetSize { size: u64 },
    SnapAdd { name: Name },
    SnapRemove { snap: SnapId },
    SnapStatus { snap: SnapId, status: SnapStatus },
    /// Takes the parent away.
    Detach,
    Role { role: Role },
    /// Names the image to both sites, as the primary.
    Mirror,
    /// Ends the full copy of the remote image.
    Synced,
    /// Takes the header away, with its watchers.
    Remove,
    LockTake,
    LockDrop,
    /// Takes the lock away from its owner.
    LockBreak { owner: Instance },
    Watch,
    Unwatch,
    WatchersGet,
    /// Posts a notice to each watcher but the sender.
    Notify { kind: NoticeKind },
}

impl HeaderOp {
    /// Which operation it is, without its parts.
    pub fn kind(&self) -> OpKind
        ensures { result ≡ header_kind self.now }
    {
        match self {
            HeaderOp::Create { view: _ } => OpKind::HeaderCreate,
            HeaderOp::Get => OpKind::HeaderGet,
            HeaderOp::SetSize { size: _ } => OpKind::HeaderSetSize,
            HeaderOp::SnapAdd { name: _ } => OpKind::HeaderSnapAdd,
            HeaderOp::SnapRemove { snap: _ } => OpKind::HeaderSnapRemove,
            HeaderOp::SnapStatus { snap: _, status: _ } => OpKind::HeaderSnapStatus,
            HeaderOp::Detach => OpKind::HeaderDetach,
            HeaderOp::Role { role: _ } => OpKind::HeaderRole,
            HeaderOp::Mirror => OpKind::HeaderMirror,
            HeaderOp::Synced => OpKind::HeaderSynced,
            HeaderOp::Remove => OpKind::HeaderRemove,
            HeaderOp::LockTake => OpKind::LockTake,
            HeaderOp::LockDrop => OpKind::LockDrop,
            HeaderOp::LockBreak { owner: _ } => OpKind::LockBreak,
            HeaderOp::Watch => OpKind::Watch,
            HeaderOp::Unwatch => OpKind::Unwatch,
            HeaderOp::WatchersGet => OpKind::WatchersGet,
            HeaderOp::Notify { kind: _ } => OpKind::Notify,
        }
    }
}

impl TryClone for HeaderOp {
    fn try_clone(&self) -> Result<Self, NoMemory> {
        Ok(match self {
            HeaderOp::Create { view } => HeaderOp::Create {
                view: view.try_clone()?,
            },
            HeaderOp::SnapAdd { name } => HeaderOp::SnapAdd {
                name: name.try_clone()?,
            },
            HeaderOp::Notify { kind } => HeaderOp::Notify {
                kind: kind.try_clone()?,
            },
            HeaderOp::SetSize { size } => HeaderOp::SetSize { size: *size },
            HeaderOp::SnapRemove { snap } => HeaderOp::SnapRemove { snap: *snap },
            HeaderOp::SnapStatus { snap, status } => HeaderOp::SnapStatus {
                snap: *snap,
                status: *status,
            },
            HeaderOp::Role { role } => HeaderOp::Role { role: *role },
            HeaderOp::LockBreak { owner } => HeaderOp::LockBreak { owner: *owner },
            HeaderOp::Get => HeaderOp::Get,
            HeaderOp::Detach => HeaderOp::Detach,
            HeaderOp::Mirror => HeaderOp::Mirror,
            HeaderOp::Synced => HeaderOp::Synced,
            HeaderOp::Remove => HeaderOp::Remove,
            HeaderOp::LockTake => HeaderOp::LockTake,
            HeaderOp::LockDrop => HeaderOp::LockDrop,
            HeaderOp::Watch => HeaderOp::Watch,
            HeaderOp::Unwatch => HeaderOp::Unwatch,
            HeaderOp::WatchersGet => HeaderOp::WatchersGet,
        })
    }
}
