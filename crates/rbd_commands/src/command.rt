//! What a session asks for.
ghost use Rattle.std.specs.Prelude.{◌≡◌, ◌↔◌, IsSome, IfSome};
ghost use Rattle.rbd_commands.specs.Command.{IsPayload};

use rbd_values::{AskedName, AtMost, Bytes, NoMemory, Number, TryClone};
use std::marker::Model;

/// A command of a session, with the ranges that a script's grammar gives to its parts: a command in
/// memory is one that a script may spell. Places, lengths and sizes are bytes.
#[derive(Debug, Drop)]
pub enum Command {
    /// Makes an image of zeros.
    Create {
        image: AskedName,
        size: Number,
        shape: Shape,
    },
    /// Makes a copy-on-write clone of a protected snapshot.
    Clone {
        parent: AskedName,
        snap: AskedName,
        image: AskedName,
        shape: Shape,
    },
    /// Puts the bytes from the byte `at` on.
    Write {
        image: AskedName,
        at: Number,
        bytes: Payload,
    },
    /// Puts one byte `len` times from the byte `at` on.
    Fill {
        image: AskedName,
        at: Number,
        len: FillLength,
        byte: u8,
    },
    /// Puts zeros from the byte `at` on, and gives up whole objects.
    Discard {
        image: AskedName,
        at: Number,
        len: Number,
    },
    /// Shows `len` bytes from the byte `at` on, of the head or of a snapshot.
    Read {
        image: AskedName,
        snap: Option<AskedName>,
        at: Number,
        len: ReadLength,
    },
    Resize {
        image: AskedName,
        size: Number,
    },
    Rename {
        from: AskedName,
        to: AskedName,
    },
    Remove {
        image: AskedName,
    },
    Info {
        image: AskedName,
    },
    /// How many objects are used (`du`).
    Used {
        image: AskedName,
    },
    /// Copies all that the clone takes from its parent, and parts from it.
    Flatten {
        image: AskedName,
    },
    /// Holds changes back until `Resume`.
    Quiesce {
        image: AskedName,
    },
    Resume {
        image: AskedName,
    },
    /// Gives up the lock and the watch.
    Close {
        image: AskedName,
    },
    /// The names of all images (`ls`).
    List,
    /// The clones of a snapshot.
    Children {
        image: AskedName,
        snap: AskedName,
    },
    /// Notifies the other watchers.
    Tell {
        image: AskedName,
        bytes: Payload,
    },
    SnapCreate {
        image: AskedName,
        snap: AskedName,
    },
    SnapRemove {
        image: AskedName,
        snap: AskedName,
    },
    SnapProtect {
        image: AskedName,
        snap: AskedName,
    },
    SnapUnprotect {
        image: AskedName,
        snap: AskedName,
    },
    SnapRollback {
        image: AskedName,
        snap: AskedName,
    },
    SnapList {
        image: AskedName,
    },
    MirrorEnable {
        image: AskedName,
    },
    MirrorDemote {
        image: AskedName,
    },
    /// With `force`, also where the other site's image wasn't demoted.
    MirrorPromote {
        image: AskedName,
        force: bool,
    },
    MirrorResync {
        image: AskedName,
    },
    MirrorStatus {
        image: AskedName,
    },
    MirrorFollow {
        image: AskedName,
    },
}

/// How many bytes a read may show.
pub type ReadLength = AtMost<65536>;

/// How many bytes a fill may put.
pub type FillLength = AtMost<1048576>;

/// The shape that a new image or a clone is asked to have. What isn't asked for is as usual, and
/// `rbd_layout` says what that is for each of the two.
#[derive(Clone, Copy, Debug, PartialEq, Eq)]
pub struct Shape {
    /// The object size in bytes.
    pub object: Option<Number>,
    /// The stripe unit in bytes.
    pub unit: Option<Number>,
    /// The stripe count in objects.
    pub count: Option<u32>,
    /// Whether the image has a journal.
    pub journal: bool,
}

/// The bytes of a write or of a message: 1 to 65,536. Contracts see the list of them.
#[derive(Debug, Drop)]
pub struct Payload {
    bytes: Bytes,
}

impl Model for Payload {
    ghost use Rattle.std.specs.Prelude.{ℕ, List};
    ghost use Rattle.rbd_commands.specs.Command.{IsPayload};

    ghost Value = { List ℕ };

    ghost view = { λ p. p.bytes };

    ghost invariant = { λ p. IsPayload p.bytes };
}

impl Payload {
    /// These bytes, or `None` where they are none or too many. It takes no memory.
    pub fn new(bytes: Bytes) -> Option<Self>
        ensures range { IsSome result ↔ IsPayload bytes }
        ensures value { IfSome result (λ payload. payload ≡ bytes) }
    {
        if bytes.is_empty() || bytes.len() > 65536 {
            None
        } else {
            Some(Payload { bytes })
        }
    }

    /// The bytes, 1 to 65,536 of them.
    pub fn as_slice(&self) -> &[u8]
        ensures value { result.now ≡ self.now }
        ensures range { IsPayload self.now }
    {
        self.bytes.as_slice()
    }

    /// The bytes, which copies of them share.
    pub fn as_bytes(&self) -> &Bytes
        ensures { result.now ≡ self.now }
    {
        &self.bytes
    }

    /// The bytes, without a copy.
    pub fn into_bytes(self) -> Bytes
        ensures value { result ≡ self }
        ensures range { IsPayload self }
    {
        let Payload { bytes } = self;
        bytes
    }
}

impl TryClone for Payload {
    fn try_clone(&self) -> Result<Self, NoMemory> {
        Ok(Payload {
            bytes: self.bytes.try_clone()?,
        })
    }
}
