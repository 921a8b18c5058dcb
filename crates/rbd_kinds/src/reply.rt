//! What a command is answered.
use crate::header::{HeaderView, Role, Snaps};
use crate::id::Ids;
use rbd_commands::Refusal;
use rbd_values::{Bytes, Name, Names, Shared};

/// The reply to a command.
#[derive(Drop)]
pub enum Reply {
    /// It is done.
    Done,
    /// What a read shows.
    Bytes(Bytes),
    /// The names of a site's images, ascending by their bytes.
    Names(Names),
    /// The clones of a snapshot, ascending.
    Ids(Ids),
    /// The snapshots of an image, oldest first.
    Snaps(Snaps),
    /// What an image's header tells.
    Info(Shared<HeaderView>),
    /// How many of an image's objects are used, and how many it has by its size.
    Used {
        used: u64,
        of: u64,
    },
    /// The mirror daemon has come to this sequence number.
    At(u64),
    /// The journals part at this sequence number.
    SplitBrain(u64),
    /// The next event is about this snapshot, and can't be replayed here.
    Stuck(Name),
    /// The image's part in mirroring, and its journal's end.
    Status {
        role: Role,
        at: u64,
        state: MirrorState,
    },
    /// It is refused, and its request has ended.
    Refused(Refusal),
}

/// How a secondary follows its primary.
#[derive(Drop)]
pub enum MirrorState {
    /// It isn't a secondary.
    Dash,
    Following,
    SplitBrain,
    /// The next event is about this snapshot, and can't be replayed here.
    Stuck(Shared<Name>),
    /// The remote image or its journal isn't there.
    Missing,
}
