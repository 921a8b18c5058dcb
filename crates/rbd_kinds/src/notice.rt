//! What sessions tell each other about an image.
use crate::id::{ImageId, Instance, SiteId};
use rbd_values::{Bytes, NoMemory, Shared, TryClone};

/// What a notification says. (What a client tells is shared: so a notice is small, of which each
/// watcher gets one.)
#[derive(Drop)]
pub enum NoticeKind {
    /// The sender wants the exclusive lock.
    RequestLock,
    /// The sender has released the exclusive lock.
    ReleasedLock,
    /// What a client had to tell.
    Custom(Shared<Bytes>),
}

/// One notification to one watcher of an image's header. It may come late, never, or several times.
#[derive(Drop)]
pub struct Notice {
    /// Its number, from 1: one numbering serves both sites.
    pub number: u64,
    pub to: Instance,
    pub from: Instance,
    /// The site of the image.
    pub site: SiteId,
    pub image: ImageId,
    pub kind: NoticeKind,
}

impl TryClone for NoticeKind {
    fn try_clone(&self) -> Result<Self, NoMemory> {
        Ok(match self {
            NoticeKind::RequestLock => NoticeKind::RequestLock,
            NoticeKind::ReleasedLock => NoticeKind::ReleasedLock,
            NoticeKind::Custom(bytes) => NoticeKind::Custom(bytes.try_clone()?),
        })
    }
}
