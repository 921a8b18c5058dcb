//! Why a request asks for an operation.

/// Why a request asks for an operation. What the history tells of the operation depends on this.
#[derive(Clone, Copy, PartialEq, Eq)]
pub enum Reason {
    /// It is a step of the request's own.
    Own,
    /// It is a step on the way to the image's lock.
    Acquiring,
    /// It is a step of the event of this number, which is replayed out of the image's journal.
    Replaying(u64),
}
