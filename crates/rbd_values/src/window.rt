//! A part of a vector of bytes that several values share.
ghost use Rattle.std.specs.Prelude.{◌≡◌, ◌+◌, ◌≤◌, length, take, drop, IfOk};

use crate::copies::TryClone;
use crate::memory::NoMemory;
use std::alloc::Global;
use std::marker::Model;
use std::sync::Arc;

/// Some bytes, one after another, of a vector that several values share. Contracts see the list of
/// them. A copy and a part count one more owner, and copy no byte.
#[derive(Drop)]
pub struct Window {
    all: Arc<Vec<u8>, Global>,
    at: usize,
    len: usize,
}

impl Model for Window {
    ghost use Rattle.std.specs.Prelude.{ℕ, ◌+◌, ◌≤◌, List, length, take, drop};

    ghost Value = { List ℕ };

    ghost view = { λ w. take w.len (drop w.at w.all.value.items) };

    ghost invariant = { λ w. w.at + w.len ≤ length w.all.value.items };
}

impl Window {
    /// All bytes of a vector. The count of the owners takes a few words of memory.
    pub fn new(bytes: Vec<u8>) -> Result<Self, NoMemory>
        ensures { IfOk result (λ window. window ≡ bytes.items) }
    {
        let alloc = *bytes.allocator();
        let len = bytes.len();
        Ok(Window {
            all: Arc::new(alloc, bytes)?,
            at: 0,
            len,
        })
    }

    /// The `len` bytes from the byte `at` on.
    #[tactic(auto, using(crate::proofs::Windows::part_of_window))]
    pub fn part(&self, at: usize, len: usize) -> Result<Self, NoMemory>
        requires { at + len ≤ length self.now }
        ensures { IfOk result (λ part. part ≡ take len (drop at self.now)) }
    {
        Ok(Window {
            all: Arc::try_clone(&self.all)?,
            at: self.at + at,
            len,
        })
    }

    /// The bytes.
    pub fn as_slice(&self) -> &[u8]
        ensures { result.now ≡ self.now }
    {
        &self.all.as_slice()[self.at..self.at + self.len]
    }
}

impl TryClone for Window {
    /// One more owner. It takes no memory, and is refused only where there are as many owners as
    /// can be counted.
    fn try_clone(&self) -> Result<Self, NoMemory> {
        Ok(Window {
            all: Arc::try_clone(&self.all)?,
            at: self.at,
            len: self.len,
        })
    }
}
