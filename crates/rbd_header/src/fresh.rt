//! The header of a new image.
ghost use Rattle.std.specs.Prelude.{◌≡◌};
ghost use Rattle.rbd_kinds.specs.Form.{HasFewObjects, IsNewHeader};
ghost use Rattle.rbd_kinds.specs.Striping.{IsLayout};
ghost use Rattle.rbd_header.specs.Header.{new_header as header_of};

use rbd_kinds::{HeaderView, Layout, Role, Snaps};
use std::alloc::Global;

/// The header of a new image of zeros, of a size in bytes: it has no parent and no journal. It
/// takes no memory.
pub fn new_header(alloc: Global, layout: Layout, size: u64) -> HeaderView
    ensures header { result ≡ header_of layout size }
    ensures form { IsLayout layout → HasFewObjects layout size → IsNewHeader result }
{
    HeaderView {
        layout,
        size,
        generation: 0,
        snap_seq: 0,
        snaps: Snaps::new(alloc),
        parent: None,
        depth: 0,
        born: size,
        born_clone: false,
        journal: false,
        syncing: false,
        owner: None,
        global: None,
        role: Role::Plain,
    }
}
