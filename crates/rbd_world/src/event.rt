//! What can happen to a world, and what came of it.
use rbd_kinds::{Command, ImageId, SessionNo, Shared, SiteId, Slot};

/// One event: at most one operation on one object of one site.
#[derive(Drop)]
pub enum Event {
    /// A session begins the command of a line of the script, in its lowest free slot.
    Submit {
        session: SessionNo,
        line: u32,
        command: Shared<Command>,
    },
    /// Who acts at a slot of a session does the operation that is wanted there: the request in it,
    /// its way to the lock of its image, or, at slot 0, the release of a lock.
    Poll {
        session: SessionNo,
        slot: Slot,
    },
    /// A notice comes to the instance that it is for. It may come late, never, or several times.
    Deliver {
        number: u64,
    },
    /// The store ends a session's watch of an image: that of its oldest instance that watches.
    Expire {
        session: SessionNo,
        site: SiteId,
        image: ImageId,
    },
    /// A session stops. What each of its slots wanted may still come.
    Stop {
        session: SessionNo,
    },
    /// An operation comes, once, that a slot of a session wanted when the session was last stopped.
    Late {
        session: SessionNo,
        slot: Slot,
    },
    /// A stopped session begins its next life.
    Restart {
        session: SessionNo,
    },
    /// The store trims an object of an image.
    Trim {
        site: SiteId,
        image: ImageId,
        object: u64,
    },
}

/// What came of an event.
#[derive(Clone, Copy, PartialEq, Eq)]
pub enum Outcome {
    /// It named nothing that is there, and nothing changed.
    Nothing,
    /// The command has this slot.
    Submitted(Slot),
    /// The slot waits: the line of its image, another's turn, a quiesce, or another client that
    /// wants the lock holds its request back; or at slot 0 no lock is to be let go.
    Waits,
    /// One operation was done, with this number in its site's log. A request that is refused before
    /// any operation has its reply in a step with the number 0.
    Step {
        site: SiteId,
        number: u64,
        /// The operation was one of those on the way to a lock that ask again: the lock is held,
        /// its watchers were looked up, its owner was asked.
        waiting: bool,
        /// A request has its reply now.
        replied: bool,
    },
    /// An instance heard a notice.
    Heard,
    /// The store did a step of its own.
    Stored,
    /// The session was stopped, and its lines that had no reply are lost.
    Stopped,
    /// The session began its next life.
    Restarted,
}

/// An event, and what came of it.
#[derive(Drop)]
pub struct Call {
    pub event: Event,
    pub outcome: Outcome,
}
