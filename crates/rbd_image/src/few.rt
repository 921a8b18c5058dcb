//! Whether a size has few objects.
ghost use Rattle.std.specs.Prelude.{◌≡◌, ◌%◌, ◌^◌};
ghost use Rattle.rbd_kinds.specs.Striping.{byte_at};
ghost use Rattle.rbd_meaning.specs.Resizes.{has_few_objects as are_few};

use rbd_kinds::Layout;

/// How many objects an image has at most.
const MOST_OBJECTS: u64 = 1_048_576;

/// Whether a size has at most 2^20 objects: it ends at the first byte of the next one, or before.
/// It tells so of any layout, also of one that isn't in form.
pub fn has_few_objects(layout: &Layout, size: u64) -> bool
    ensures { result ≡ are_few layout.now size }
{
    u128::from(size) <= first_past_the_most(layout)
}

/// The first byte of the object behind the most that may be. The sets before its own are full of
/// whole objects, and in its own set each object before it has one stripe unit before it.
fn first_past_the_most(layout: &Layout) -> u128
    ensures { result ≡ byte_at layout.now (2 ^ 20) 0 }
{
    let position = remainder(MOST_OBJECTS, u64::from(layout.count));
    let in_sets = MOST_OBJECTS - position;
    let object = layout.object - remainder(layout.object, layout.unit);
    u128::from(in_sets) * u128::from(object) + u128::from(position) * u128::from(layout.unit)
}

/// The remainder of a division, all of `x` where it is by 0.
fn remainder(x: u64, by: u64) -> u64
    ensures { result ≡ x % by }
{
    x.checked_rem(by).unwrap_or(x)
}
