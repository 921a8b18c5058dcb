//! What comes of a step of a part of a request.
use rbd_kinds::Refusal;

/// What comes of a step of a part, as of the way to a look under the lock or of one piece of a
/// write.
#[derive(Drop)]
pub enum Progress<T> {
    /// The part wants more.
    More,
    /// The part has ended with this, and the request goes on.
    Ended(T),
    /// The request has ended.
    Refused(Refusal),
}
