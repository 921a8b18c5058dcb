//! A large value that several owners share.
ghost use Rattle.std.specs.Prelude.{◌≡◌, IfOk};

use crate::copies::TryClone;
use crate::memory::NoMemory;
use std::alloc::Global;
use std::fmt;
use std::marker::Model;
use std::ops::Deref;
use std::sync::Arc;

/// A value that doesn't change, in memory of its own, seen by contracts as the value. A copy counts
/// one more owner and copies nothing. What holds one is as large as a pointer, however large the
/// value: so an enum with one large variant isn't as large as that.
#[derive(Drop)]
pub struct Shared<T> {
    held: Arc<T, Global>,
}

impl<T> Model for Shared<T> {
    ghost Value = { T };

    ghost view = { λ s. s.held.value };
}

impl<T: Drop> Shared<T> {
    /// The value, moved into memory of its own. Refused memory, the value is let go.
    pub fn new(alloc: Global, value: T) -> Result<Self, NoMemory>
        ensures { IfOk result (λ shared. shared ≡ value) }
    {
        Ok(Shared {
            held: Arc::new(alloc, value)?,
        })
    }
}

impl<T> Deref for Shared<T> {
    type Target = T;

    ghost deref_gives = { λ shared value. value ≡ shared };

    fn deref(&self) -> &T {
        &self.held
    }
}

impl<T: Drop> TryClone for Shared<T> {
    /// One more owner. It takes no memory, and is refused only where there are as many owners as
    /// can be counted.
    fn try_clone(&self) -> Result<Self, NoMemory> {
        Ok(Shared {
            held: Arc::try_clone(&self.held)?,
        })
    }
}

/// The value, wherever it lies.
impl<T: fmt::Debug> fmt::Debug for Shared<T> {
    fn fmt<W: fmt::Write>(&self, f: &mut fmt::Formatter<W>) -> fmt::Result {
        fmt::Debug::fmt(&self.held, f)
    }
}
