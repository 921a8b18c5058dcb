ghost use Rattle.std.specs.Prelude.{Some};
ghost use Rattle.rbd_values.specs.Memory.{no_memory_text};

use std::alloc::{AllocError, AllocFailed};
use std::error::Error;
use std::fmt;

/// A growth of memory was refused. It is merged with no other refusal, and comes at no stated
/// moment.
#[derive(Clone, Copy, Debug, PartialEq, Eq)]
pub struct NoMemory;

impl fmt::Display for NoMemory {
    ghost output = { λ _. Some no_memory_text };

    fn fmt<W: fmt::Write>(&self, f: &mut fmt::Formatter<W>) -> fmt::Result {
        f.write_str("out of memory")
    }
}

impl Error for NoMemory {}

impl From<AllocError> for NoMemory {
    fn from(_refused: AllocError) -> NoMemory {
        NoMemory
    }
}

impl<T: Drop> From<AllocFailed<T>> for NoMemory {
    fn from(_refused: AllocFailed<T>) -> NoMemory {
        NoMemory
    }
}
