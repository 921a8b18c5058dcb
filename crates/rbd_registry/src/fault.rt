ghost use Rattle.std.specs.Prelude.{Some};
ghost use Rattle.rbd_registry.specs.Texts.{add_text, rename_text};

use std::error::Error;
use std::fmt;

/// Why a directory takes no new name.
#[derive(Clone, Copy, Debug, PartialEq, Eq)]
pub enum AddFault {
    /// The name is held.
    Exists,
    /// 4,096 names are held, or the ids are used up.
    Full,
    /// A growth of memory was refused.
    NoMemory,
}

impl fmt::Display for AddFault {
    ghost output = { λ fault. Some (add_text fault) };

    fn fmt<W: fmt::Write>(&self, f: &mut fmt::Formatter<W>) -> fmt::Result {
        f.write_str(match self {
            AddFault::Exists => "the name is held",
            AddFault::Full => "the directory is full",
            AddFault::NoMemory => "out of memory",
        })
    }
}

impl Error for AddFault {}

/// Why a name isn't changed.
#[derive(Clone, Copy, Debug, PartialEq, Eq)]
pub enum RenameFault {
    /// The old name isn't held.
    NoName,
    /// The new name is held.
    Exists,
    /// A growth of memory was refused.
    NoMemory,
}

impl fmt::Display for RenameFault {
    ghost output = { λ fault. Some (rename_text fault) };

    fn fmt<W: fmt::Write>(&self, f: &mut fmt::Formatter<W>) -> fmt::Result {
        f.write_str(match self {
            RenameFault::NoName => "no such name",
            RenameFault::Exists => "the name is held",
            RenameFault::NoMemory => "out of memory",
        })
    }
}

impl Error for RenameFault {}
