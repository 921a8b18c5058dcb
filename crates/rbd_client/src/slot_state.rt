//! What a client keeps of a slot, beside its session.
use rbd_commands::Quiescing;
use rbd_kinds::ImageAt;
use rbd_lock::Acquire;

/// How the request in a slot comes to the lock of its image.
#[derive(Clone, Copy)]
pub enum Way {
    /// It has begun no way: it needs none yet, or none any more.
    Unbegun,
    /// It is on its way.
    On(Acquire),
    /// It has taken the lock itself, and its look under the lock is still to come.
    Taken(ImageAt),
}

/// What a client keeps of a slot, beside its session.
#[derive(Clone, Copy)]
pub struct SlotState {
    pub way: Way,
    /// What its request does to a quiesce of its image.
    pub quiescing: Quiescing,
}
