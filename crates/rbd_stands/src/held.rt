//! How much of an object lies below the image's size.
ghost use Rattle.std.specs.Prelude.{◌≡◌, ◌^◌, ◌<◌};
ghost use Rattle.rbd_kinds.specs.Striping.{IsLayout};
ghost use Rattle.rbd_stands.specs.Kept as of_kept;
ghost use Rattle.rbd_stands.specs.Kept.{IsHeldBelow};

use rbd_kinds::{Layout, Part};

/// How many offsets of an object have their image byte below a size. They are the object's first
/// ones, and those past its end count too.
///
/// Stripes before the size's own hold a whole unit of the object. Of the size's own stripe it holds
/// a whole unit, none or the front of one, as its place in the stripe comes before the size's,
/// behind it, or is the same.
pub fn held_below(layout: &Layout, object: u64, size: u64) -> u64
    requires layout { IsLayout layout.now }
    requires size { size < 2 ^ 63 }
    ensures { IsHeldBelow layout.now object size result }
{
    let count = u64::from(layout.count);
    let units = layout.object / layout.unit;
    let block = size / layout.unit;
    let stripe = block / count;
    let set = object / count;
    if stripe / units < set {
        return 0;
    }
    let stripes = stripe - set * units;
    stripes * layout.unit + held_in_stripe(layout, object % count, block % count, size)
}

/// How many bytes of the unit at a position of the size's own stripe lie below the size, whose byte
/// is at another.
fn held_in_stripe(layout: &Layout, position: u64, last: u64, size: u64) -> u64
    requires layout { IsLayout layout.now }
    ensures { result ≡ of_kept.held_in_stripe layout.now.unit position last size }
{
    if position < last {
        return layout.unit;
    }
    if position > last {
        return 0;
    }
    size % layout.unit
}

/// How many of a part's bytes are kept, where so many offsets of its object are.
pub fn kept_len(held: u64, part: &Part) -> u64
    ensures { result ≡ of_kept.kept_len held part.now }
{
    if held <= part.offset {
        return 0;
    }
    part.len.min(held - part.offset)
}
