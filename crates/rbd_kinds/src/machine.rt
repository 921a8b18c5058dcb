//! What a request wants next, what it is fed, and what comes of it.
use crate::answer::Answer;
use crate::id::{ImageId, SiteId};
use crate::operation_kind::OpKind;
use crate::reply::Reply;
use crate::sharing::Sharing;

/// What a request wants next.
#[derive(Clone, Copy, PartialEq, Eq)]
pub enum Want {
    /// An operation at a site.
    Op {
        site: SiteId,
        kind: OpKind,
    },
    /// To join the line of an image's requests, alone on the image or beside others.
    Join {
        site: SiteId,
        image: ImageId,
        sharing: Sharing,
    },
    /// The image's lock.
    Hold {
        site: SiteId,
        image: ImageId,
    },
    /// That its event is noted in the image's journal.
    Note {
        site: SiteId,
        image: ImageId,
    },
    /// Its turn at an object.
    Turn {
        object: u64,
    },
    /// That its event counts as applied.
    Applied {
        site: SiteId,
        image: ImageId,
    },
    /// To leave the image's line.
    Leave {
        site: SiteId,
        image: ImageId,
    },
}

/// What a request is fed.
#[derive(Drop)]
pub enum Fed {
    /// The answer to its operation.
    Answer(Answer),
    /// It has what else it wanted.
    Passed,
}

/// What comes of a feeding.
#[derive(Drop)]
pub enum Flow {
    /// It wants more.
    More,
    /// It has ended with a reply.
    Done(Reply),
}
