/// How far a request has come in an image's line.
///
/// ```text
/// Joined ──it waits for the lock──▶ Waiting ──its look under the lock is answered──▶ Past
/// ```
#[derive(Clone, Copy, PartialEq, Eq)]
pub enum Stage {
    /// It has joined the line, and looks around without the lock.
    Joined,
    /// Its next look at the image's header is its own, under the lock.
    Waiting,
    /// Its look under the lock was answered, and it may change the image.
    Past,
}
