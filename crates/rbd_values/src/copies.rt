//! Copies that may be refused memory.
ghost use Rattle.std.specs.Prelude.{◌≡◌, IfOk};

use crate::memory::NoMemory;

/// A value that can be copied where there is memory (std's `Clone`, with the refusal as a type of
/// its own and the copy equal to its source).
pub trait TryClone: Drop {
    /// A copy, on the same allocator.
    fn try_clone(&self) -> Result<Self, NoMemory>
        ensures { IfOk result (λ copy. copy ≡ self.now) };
}
