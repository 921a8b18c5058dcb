use crate::effect::Effect;
use rbd_kinds::{Instance, Reply, SessionNo, Shared, SiteId};

/// Why an operation was done.
#[derive(Clone, Copy, PartialEq, Eq)]
pub enum Cause {
    /// For the command of this line of the script.
    Line(u32),
    /// By an instance that was stopped, or restarted, in the meantime.
    Late(Instance),
    /// For the command of this line, as a step of the replay of this event of a journal.
    Replay { line: u32, seq: u64 },
    /// By an instance that gives up a lock.
    House(Instance),
}

/// One entry of the history. `number` is the operation's in its site's log, from 1. (An effect is
/// large, and few entries have one: so it is shared.)
#[derive(Drop)]
pub enum Entry {
    /// A session began the command of this line.
    Start {
        line: u32,
        instance: Instance,
    },
    /// An operation that changes the flat site.
    Effect {
        cause: Cause,
        site: SiteId,
        number: u64,
        effect: Shared<Effect>,
    },
    /// An operation that leaves the flat site as it was.
    Look {
        cause: Cause,
        site: SiteId,
        number: u64,
    },
    /// An operation that put an instance into the site's blocklist.
    Fence {
        cause: Cause,
        site: SiteId,
        number: u64,
        instance: Instance,
    },
    /// The command of this line has its reply.
    Reply {
        line: u32,
        reply: Reply,
    },
    /// A session was stopped.
    Stop {
        session: SessionNo,
    },
    /// The command of this line was under way in a session that was stopped.
    Lost {
        line: u32,
    },
}
