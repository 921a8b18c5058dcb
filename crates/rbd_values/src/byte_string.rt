ghost use Rattle.std.specs.Prelude.{◌≡◌, [], ◌+◌, ◌≤◌, length, take, drop, List, ℕ, IsTrue, ◌↔◌, IfOk};
ghost use Rattle.rbd_values.specs.Held.{bytes_held};

use crate::copies::TryClone;
use crate::memory::NoMemory;
use crate::window::Window;
use std::alloc::Global;
use std::fmt;
use std::marker::Model;

/// Some bytes of an image, an object or a message, seen by contracts as the list of them. They lie
/// in a vector of their own, or in memory that several values share, and then a copy and a slice
/// count one more owner and copy no byte.
#[derive(Drop)]
pub struct Bytes {
    held: Held,
}

enum Held {
    Own(Vec<u8>),
    Shared(Window),
}

// (written out, so that it is a call where bytes are let go, and not a choice of two)
impl Drop for Held {
    fn drop(self) {
        match self {
            Held::Own(bytes) => drop(bytes),
            Held::Shared(bytes) => drop(bytes),
        }
    }
}

impl Held {
    fn share(self) -> Result<Self, NoMemory>
        ensures { IfOk result (λ shared. bytes_held shared ≡ bytes_held self) }
    {
        match self {
            Held::Own(bytes) => Ok(Held::Shared(Window::new(bytes)?)),
            Held::Shared(bytes) => Ok(Held::Shared(bytes)),
        }
    }
}

impl Model for Bytes {
    ghost use Rattle.std.specs.Prelude.{ℕ, List};
    ghost use Rattle.rbd_values.specs.Held.{bytes_held};

    ghost Value = { List ℕ };

    ghost view = { λ b. bytes_held b.held };
}

impl Bytes {
    /// No bytes. It takes no memory.
    pub fn new(alloc: Global) -> Self
        ensures { result ≡ [] }
    {
        Bytes::from_vec(Vec::new(alloc))
    }

    /// The bytes of a vector, without a copy.
    pub fn from_vec(bytes: Vec<u8>) -> Self
        ensures { result ≡ bytes.items }
    {
        Bytes {
            held: Held::Own(bytes),
        }
    }

    /// A copy of a slice.
    pub fn from_slice(alloc: Global, bytes: &[u8]) -> Result<Self, NoMemory>
        ensures { IfOk result (λ copy. copy ≡ bytes.now) }
    {
        Ok(Bytes::from_vec(Vec::from_slice(alloc, bytes)?))
    }

    /// The same bytes, without a copy: from now on, copies and slices of them share their memory.
    /// The count of the owners takes a few words of memory, once.
    pub fn share(self) -> Result<Self, NoMemory>
        ensures { IfOk result (λ shared. shared ≡ self) }
    {
        Ok(Bytes {
            held: self.held.share()?,
        })
    }

    /// The `len` bytes from the byte `at` on: of shared bytes without a copy, else a copy.
    pub fn slice(&self, at: usize, len: usize) -> Result<Self, NoMemory>
        requires { at + len ≤ length self.now }
        ensures { IfOk result (λ slice. slice ≡ take len (drop at self.now)) }
    {
        prove!(len <= self.len() - at);
        match &self.held {
            Held::Own(bytes) => Bytes::from_slice(*bytes.allocator(), &bytes[at..at + len]),
            Held::Shared(bytes) => Ok(Bytes {
                held: Held::Shared(bytes.part(at, len)?),
            }),
        }
    }

    /// The bytes.
    pub fn as_slice(&self) -> &[u8]
        ensures { result.now ≡ self.now }
    {
        match &self.held {
            Held::Own(bytes) => bytes.as_slice(),
            Held::Shared(bytes) => bytes.as_slice(),
        }
    }

    /// How many bytes they are.
    pub fn len(&self) -> usize
        ensures { result ≡ length self.now }
    {
        self.as_slice().len()
    }

    /// Whether there is none.
    pub fn is_empty(&self) -> bool
        ensures { IsTrue result ↔ (self.now ≡ []) }
    {
        self.as_slice().is_empty()
    }
}

impl TryClone for Bytes {
    /// One more owner of shared bytes, a copy of others.
    fn try_clone(&self) -> Result<Self, NoMemory> {
        let held = match &self.held {
            Held::Own(bytes) => Held::Own(bytes.clone()?),
            Held::Shared(bytes) => Held::Shared(bytes.try_clone()?),
        };
        Ok(Bytes { held })
    }
}

/// The list of the bytes, wherever they lie.
impl fmt::Debug for Bytes {
    fn fmt<W: fmt::Write>(&self, f: &mut fmt::Formatter<W>) -> fmt::Result {
        f.debug_struct("Bytes")
            .field("bytes", &self.as_slice())
            .finish()
    }
}
