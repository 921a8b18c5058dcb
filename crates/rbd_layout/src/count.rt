//! How many objects an image has.
ghost use Rattle.std.specs.Prelude.{◌^◌, ◌<◌};
ghost use Rattle.rbd_kinds.specs.Striping.{IsLayout, IsObjectCount};

use crate::striping::place;
use rbd_kinds::Layout;

/// The number of objects of an image of `size` bytes: one more than the greatest object number of a
/// byte below the size, and 0 for size 0 (Ceph: RBD striping).
pub fn objects(layout: &Layout, size: u64) -> u64
    requires layout { IsLayout layout.now }
    requires size { size < 2 ^ 63 }
    ensures count { IsObjectCount layout.now size result }
{
    if size == 0 {
        return 0;
    }
    let last = place(layout, size - 1);
    if last.offset < layout.unit {
        // The last byte lies in its set's first stripe, which later objects of the set don't reach.
        return last.object + 1;
    }
    let count = u64::from(layout.count);
    (last.object / count + 1) * count
}
