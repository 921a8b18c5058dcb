//! What a script says.
use rbd_kinds::{Command, Growing, ImageId, Name, Number, OpKind, SessionNo, Shared, SiteId, Slot};

/// A script: the sessions that it declares, and its lines.
#[derive(Drop)]
pub struct Script {
    /// In the order of declaration. A session's number is its place, from 0.
    pub sessions: Sessions,
    /// In order. Lines that are passed over and declarations aren't among them.
    pub lines: Lines,
}

/// A session: where it is declared, its name, and its home site.
#[derive(Drop)]
pub struct Declared {
    /// The number of the line that declares it, from 1.
    pub line: u32,
    pub name: Name,
    pub home: SiteId,
}

/// The sessions of a script, in the order of their declaration.
pub type Sessions = Growing<Declared>;

/// One line of a script, by its number from 1.
#[derive(Drop)]
pub struct Line {
    pub number: u32,
    pub said: Said,
}

/// The lines of a script that ask for something, in order.
pub type Lines = Growing<Line>;

/// What a line says.
#[derive(Debug, Drop)]
pub enum Said {
    /// A session's command. With `beside` it doesn't wait for the commands before it.
    Command {
        session: SessionNo,
        beside: bool,
        command: Shared<Command>,
    },
    /// Polls a slot so many times.
    Poll {
        session: SessionNo,
        slot: Slot,
        times: u32,
    },
    /// Polls a slot until it wants an operation of the kind.
    Until {
        session: SessionNo,
        slot: Slot,
        kind: OpKind,
    },
    /// Plays so many rounds at most, in which all that can go on does.
    Settle(Number),
    /// Delivers the notice of this number.
    Deliver(Number),
    /// Keeps the notice of this number from being delivered by a settle.
    Lose(Number),
    /// Lets a session's watch of an image expire.
    Expire {
        session: SessionNo,
        site: SiteId,
        image: ImageId,
    },
    /// Stops a session.
    Stop(SessionNo),
    /// Starts a stopped session again, as a new instance.
    Restart(SessionNo),
    /// Does what a slot wanted when its session was stopped.
    Late {
        session: SessionNo,
        slot: Slot,
    },
    /// Lets the store trim a data object.
    Trim {
        site: SiteId,
        image: ImageId,
        object: Number,
    },
}
