//! What a journal records, and where.
use crate::id::{ImageId, SiteId};
use rbd_values::{Bytes, Name, NoMemory, Sequence, TryClone};

/// One period of ownership in a journal: the site and the image of the journal that drew it, and a
/// number, one above the last that this journal drew. So no two journals draw one tag.
#[derive(Clone, Copy, PartialEq, Eq)]
pub struct Tag {
    pub site: SiteId,
    pub image: ImageId,
    pub no: u64,
}

/// Where an event stands in a journal. Sequence numbers run from 1 without gaps, across the tags.
#[derive(Clone, Copy, PartialEq, Eq)]
pub struct Position {
    pub tag: Tag,
    pub seq: u64,
}

/// The sequence numbers `first` to `last` of a journal, which bear one tag.
#[derive(Clone, Copy, PartialEq, Eq)]
pub struct Span {
    pub tag: Tag,
    pub first: u64,
    pub last: u64,
}

/// Spans in the order of their numbers.
pub type Spans = Sequence<Span>;

/// Whose commit position a journal keeps.
#[derive(Clone, Copy, PartialEq, Eq)]
pub enum JournalClient {
    /// The image's owner.
    Local,
    /// The other site's mirror daemon.
    Mirror,
}

/// What a journal tells of itself. Positions are sequence numbers.
#[derive(Drop)]
pub struct JournalView {
    pub spans: Spans,
    /// The least number whose frame is held. Where none is, one more than the end, or `u64::MAX`
    /// where that is the end.
    pub first: u64,
    /// The commit position of the owner.
    pub local: u64,
    /// The commit position of the mirror daemon, once it is registered.
    pub mirror: Option<u64>,
    /// How many tags this journal has drawn.
    pub drawn: u64,
}

/// A change of an image as its journal records it. Places and lengths are bytes of the image.
#[derive(Drop)]
pub enum JournalEvent {
    Write { at: u64, bytes: Bytes },
    Discard { at: u64, len: u64 },
    Resize { size: u64 },
    SnapCreate { name: Name },
    SnapRemove { name: Name },
    SnapRollback { name: Name },
    Demote,
}

impl TryClone for Span {
    fn try_clone(&self) -> Result<Self, NoMemory> {
        Ok(*self)
    }
}

impl TryClone for JournalView {
    fn try_clone(&self) -> Result<Self, NoMemory> {
        Ok(JournalView {
            spans: self.spans.try_clone()?,
            ..*self
        })
    }
}
