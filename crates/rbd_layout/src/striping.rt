//! From image bytes to places in objects, and back.
ghost use Rattle.std.specs.Prelude.{◌≡◌, ◌^◌, ◌<◌};
ghost use Rattle.rbd_kinds.specs.Striping.{IsLayout, object_of, offset_of, byte_at};

use crate::types::BytePlace;
use rbd_kinds::Layout;

/// The place of an image byte (Ceph: RBD striping).
pub fn place(layout: &Layout, x: u64) -> BytePlace
    requires layout { IsLayout layout.now }
    requires byte { x < 2 ^ 63 }
    ensures object { result.object ≡ object_of layout.now x }
    ensures offset { result.offset ≡ offset_of layout.now x }
{
    let count = u64::from(layout.count);
    let units = layout.object / layout.unit;
    let block = x / layout.unit;
    let stripe = block / count;
    BytePlace {
        object: stripe / units * count + block % count,
        offset: stripe % units * layout.unit + x % layout.unit,
    }
}

/// The image byte that lies at a place (Ceph: RBD striping).
pub fn back(layout: &Layout, place: &BytePlace) -> u64
    requires layout { IsLayout layout.now }
    requires offset { place.now.offset < layout.now.object }
    requires byte { byte_at layout.now place.now.object place.now.offset < 2 ^ 63 }
    ensures byte { result ≡ byte_at layout.now place.now.object place.now.offset }
{
    let count = u64::from(layout.count);
    let units = layout.object / layout.unit;
    let stripe = place.object / count * units + place.offset / layout.unit;
    let block = stripe * count + place.object % count;
    block * layout.unit + place.offset % layout.unit
}
