//! The limits of a layout.
ghost use Rattle.std.specs.Prelude.{◌≤◌, ◌↔◌, IsTrue, IsOk, Some, codes};
ghost use Rattle.std.specs.Int.{IsPowerOfTwo};
ghost use Rattle.rbd_kinds.specs.Striping.{IsLayout};

use rbd_kinds::Layout;
use std::error::Error;
use std::fmt;

/// A layout passes a limit.
#[derive(Clone, Copy, Debug, PartialEq, Eq)]
pub struct BadShape;

impl fmt::Display for BadShape {
    ghost output = { λ _. Some (codes "bad layout") };

    fn fmt<W: fmt::Write>(&self, f: &mut fmt::Formatter<W>) -> fmt::Result {
        f.write_str("bad layout")
    }
}

impl Error for BadShape {}

/// Whether a layout keeps the limits, and `BadShape` where it doesn't. The object size is a power
/// of two from 4,096 to 33,554,432 bytes, the stripe unit one from 512 bytes to the object size,
/// and the stripe count is 1 to 16 (Ceph: RBD striping; the ranges of unit and count are this
/// project's own).
pub fn check(layout: &Layout) -> Result<(), BadShape>
    ensures valid { IsOk result ↔ IsLayout layout.now }
{
    if !is_power_within(layout.object, 4_096, 33_554_432) {
        return Err(BadShape);
    }
    if !is_power_within(layout.unit, 512, layout.object) {
        return Err(BadShape);
    }
    if layout.count < 1 || layout.count > 16 {
        return Err(BadShape);
    }
    Ok(())
}

/// Whether a size is a power of two from `least` to `most`.
fn is_power_within(size: u64, least: u64, most: u64) -> bool
    ensures { IsTrue result ↔ (IsPowerOfTwo size × (least ≤ size) × (size ≤ most)) }
{
    if size < least || size > most {
        return false;
    }
    size.is_power_of_two()
}
