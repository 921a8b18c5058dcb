//! Why no frame could be read.
ghost use Rattle.std.specs.Prelude.{◌≡◌, Some};
ghost use Rattle.rbd_journal.specs.Texts.{fault_text};

use std::error::Error;
use std::fmt;

/// What is wrong at the front of the bytes: the first fault from left to right.
#[derive(Clone, Copy, Debug, PartialEq, Eq)]
pub enum FrameFault {
    /// The frame goes on past the last byte.
    Short,
    /// The first byte, where it names no kind.
    BadKind(u8),
    /// The length, where the kind doesn't allow it or the image ends before the event does.
    BadLength(u64),
    /// The place in the frame of the first byte that isn't of a name.
    BadText(usize),
    /// A growth of memory was refused.
    NoMemory,
}

impl fmt::Display for FrameFault {
    ghost output = { λ fault. Some (fault_text fault) };

    fn fmt<W: fmt::Write>(&self, f: &mut fmt::Formatter<W>) -> fmt::Result {
        match *self {
            FrameFault::Short => f.write_str("the frame is cut short"),
            FrameFault::BadKind(kind) => write!(f, "no kind of frame is 0x{kind:02x}"),
            FrameFault::BadLength(length) => write!(f, "a length of {length} is out of range"),
            FrameFault::BadText(place) => write!(f, "the byte at {place} is not of a name"),
            FrameFault::NoMemory => f.write_str("out of memory"),
        }
    }
}

impl Error for FrameFault {}

impl From<rbd_kinds::NoMemory> for FrameFault {
    ghost use Rattle.rbd_journal.specs.declared.fault.FrameFault.TheVariants.{NoMemory};

    ghost from_gives = { λ _ fault. fault ≡ NoMemory };

    fn from(_refused: rbd_kinds::NoMemory) -> FrameFault {
        FrameFault::NoMemory
    }
}
