//! What a read keeps of the header that it looked at.
ghost use Rattle.std.specs.Prelude.{◌≡◌, ◌==◌, ◌+◌, ◌^◌, ◌≤◌, IfOk};
ghost use Rattle.rbd_kinds.specs.Striping.{IsLayout};
ghost use Rattle.rbd_data.specs.Seen as of_seen;

use crate::arrange::arrange;
use rbd_kinds::{Bytes, Extent, HeaderView, Layout, NoMemory};
use std::alloc::Global;
use std::marker::Model;

/// What a read keeps of the header that it looked at, and the extent that fits there. Contracts see
/// it as `Seen`.
#[derive(Drop)]
pub struct Looked {
    layout: Layout,
    extent: Extent,
    generation: u64,
}

impl Model for Looked {
    ghost use Rattle.std.specs.Prelude.{◌+◌, ◌^◌, ◌≤◌};
    ghost use Rattle.rbd_kinds.specs.Striping.{IsLayout};
    ghost use Rattle.rbd_data.specs.Seen.{Seen};

    ghost Value = { Seen };

    ghost view = { λ l. record { layout = l.layout; extent = l.extent; generation = l.generation } };

    ghost invariant = { λ l. IsLayout l.layout × (l.extent.at + l.extent.len ≤ 2 ^ 45) };
}

impl Looked {
    /// What is kept of a header, and an extent within one of its views.
    pub fn new(header: &HeaderView, extent: &Extent) -> Self
        requires layout { IsLayout header.now.layout }
        requires end { extent.now.at + extent.now.len ≤ 2 ^ 45 }
        ensures { result ≡ of_seen.seen_at header.now extent.now }
    {
        Looked {
            layout: header.layout,
            extent: *extent,
            generation: header.generation,
        }
    }

    /// The same once more.
    pub fn again(&self) -> Self
        ensures { result ≡ self.now }
    {
        Looked {
            layout: self.layout,
            extent: self.extent,
            generation: self.generation,
        }
    }

    /// Whether a header is still what it was: no change was done to it.
    pub fn is_still(&self, header: &HeaderView) -> bool
        ensures { result ≡ (header.now.generation == self.now.generation) }
    {
        header.generation == self.generation
    }

    /// The bytes of the extent, out of those that were read object by object. NoMemory where memory
    /// for them is refused.
    pub fn arranged(&self, alloc: Global, read: &[u8]) -> Result<Bytes, NoMemory>
        ensures { IfOk result (λ bytes. bytes ≡ of_seen.shown_bytes self.now read.now) }
    {
        arrange(alloc, &self.layout, &self.extent, read)
    }
}
