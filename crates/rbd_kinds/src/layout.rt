//! How an image is cut into objects.
ghost use Rattle.std.specs.Prelude.{◌≡◌};
ghost use Rattle.rbd_kinds.specs.Extents as extents;

use rbd_values::{NoMemory, Sequence, TryClone};

/// How an image's bytes are striped over objects (Ceph: RBD striping). `object` and `unit` are
/// bytes, `count` is objects: a stripe is one unit in each of `count` objects, and `count` objects
/// that are filled together are an object set.
#[derive(Clone, Copy, Debug, PartialEq, Eq)]
pub struct Layout {
    /// The object size in bytes.
    pub object: u64,
    /// The stripe unit in bytes.
    pub unit: u64,
    /// The stripe count in objects.
    pub count: u32,
}

/// `len` bytes of an image from the byte `at` on.
#[derive(Clone, Copy, Debug, PartialEq, Eq)]
pub struct Extent {
    pub at: u64,
    pub len: u64,
}

impl Extent {
    /// Whether it isn't empty and ends within a size, in bytes: the one test of an extent, for
    /// reads, writes and the measure of both. It takes no memory.
    pub fn fits(&self, size: u64) -> bool
        ensures { result ≡ extents.fits self.now size }
    {
        self.len > 0 && self.len <= size && self.at <= size - self.len
    }
}

/// `len` bytes that lie together in an object from its byte `offset` on, and in the image from its
/// byte `at` on.
#[derive(Clone, Copy, PartialEq, Eq)]
pub struct Part {
    pub offset: u64,
    pub at: u64,
    pub len: u64,
}

/// Parts of one object, in the order of the image's bytes.
pub type Parts = Sequence<Part>;

impl TryClone for Part {
    fn try_clone(&self) -> Result<Self, NoMemory> {
        Ok(*self)
    }
}
