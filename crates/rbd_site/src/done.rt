//! The operations that a site has done.
use rbd_kinds::{Answer, ImageId, Instance, Op};

/// One operation of a site's log.
#[derive(Drop)]
pub struct Done {
    /// Its place in the log, from 1.
    pub number: u64,
    /// Whose it was, or `None` for a step of the store itself.
    pub instance: Option<Instance>,
    pub op: DoneOp,
    pub answer: Answer,
}

/// What was done.
#[derive(Drop)]
pub enum DoneOp {
    /// An operation of an instance.
    Op(Op),
    /// The store dropped what an object kept for snapshots that the header doesn't list.
    Trim { image: ImageId, object: u64 },
    /// The store let the watch of an instance expire.
    Expire { image: ImageId, instance: Instance },
}
