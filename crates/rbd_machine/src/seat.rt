//! Who asks.
use rbd_kinds::{SessionNo, SiteId};

/// Whose request it is: that of a session, in whichever of its lives, and of the site at which the
/// session is at home. A command names its images there.
#[derive(Clone, Copy, PartialEq, Eq)]
pub struct Seat {
    pub session: SessionNo,
    /// The site at which it is at home.
    pub home: SiteId,
}
