ghost use Rattle.std.specs.Prelude.{Some};
ghost use Rattle.rbd_header.specs.Texts.{held_text, snap_add_text};

use rbd_kinds::Instance;
use std::error::Error;
use std::fmt;

/// Why a header takes no new snapshot.
#[derive(Clone, Copy, Debug, PartialEq, Eq)]
pub enum SnapAddFault {
    /// A snapshot of that name is listed.
    Exists,
    /// 256 snapshots are listed, or the ids are used up.
    Full,
    /// A growth of memory was refused.
    NoMemory,
}

impl fmt::Display for SnapAddFault {
    ghost output = { λ fault. Some (snap_add_text fault) };

    fn fmt<W: fmt::Write>(&self, f: &mut fmt::Formatter<W>) -> fmt::Result {
        f.write_str(match self {
            SnapAddFault::Exists => "the snapshot exists",
            SnapAddFault::Full => "the header is full of snapshots",
            SnapAddFault::NoMemory => "out of memory",
        })
    }
}

impl Error for SnapAddFault {}

/// The lock has another owner, this one.
#[derive(Clone, Copy, Debug, PartialEq, Eq)]
pub struct Held(pub Instance);

impl fmt::Display for Held {
    ghost output = { λ _. Some held_text };

    fn fmt<W: fmt::Write>(&self, f: &mut fmt::Formatter<W>) -> fmt::Result {
        f.write_str("the lock is held")
    }
}

impl Error for Held {}
