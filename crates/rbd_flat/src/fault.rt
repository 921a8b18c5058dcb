ghost use Rattle.std.specs.Prelude.{Some};
ghost use Rattle.rbd_flat.specs.Texts.{fault_text};

use std::error::Error;
use std::fmt;

/// Why a read of the flat-copy machine shows no bytes.
#[derive(Clone, Copy, Debug, PartialEq, Eq)]
pub enum FlatFault {
    /// There is no image with the id.
    NoImage,
    /// The image lists no snapshot with the id.
    NoSnap,
    /// The extent is empty, or ends past the size.
    BadRange,
    /// A growth of memory was refused.
    NoMemory,
}

impl fmt::Display for FlatFault {
    ghost output = { λ fault. Some (fault_text fault) };

    fn fmt<W: fmt::Write>(&self, f: &mut fmt::Formatter<W>) -> fmt::Result {
        f.write_str(match self {
            FlatFault::NoImage => "no such image",
            FlatFault::NoSnap => "no such snapshot",
            FlatFault::BadRange => "the extent is empty or ends past the size",
            FlatFault::NoMemory => "out of memory",
        })
    }
}

impl Error for FlatFault {}
