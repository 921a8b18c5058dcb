//! Bytes at places of a list.
ghost use Rattle.std.specs.Prelude.{◌≡◌, ◌+◌, ◌*◌, ◌-◌, ◌^◌, min, drop, slice_index};
ghost use Rattle.rbd_flat.specs.Flat.{painted, places_of, places_of_one};
ghost use Rattle.rbd_flat.specs.Series.{extents_in};

use crate::extents::{Extents, Series};
use rbd_kinds::Extent;

/// Puts the bytes at the places of the extents, in order. Places past the end are passed over, and
/// places past the given bytes become zeros.
pub fn paint(bytes: &mut [u8], at: &Extents, new: &[u8])
    ensures { bytes.new ≡ painted (places_of at.now) new.now bytes.old }
{
    let mut rest = new;
    for series in at.as_slice() {
        rest = paint_series(bytes, series, rest);
    }
}

/// Puts the bytes at the places of a series, and returns those that are left.
fn paint_series<'a>(bytes: &mut [u8], series: &Series, new: &'a [u8]) -> &'a [u8]
    ensures bytes { bytes.new ≡ painted (places_of (extents_in series.now)) new.now bytes.old }
    ensures rest { result.now ≡ drop (series.now.count * series.now.first.len) new.now }
{
    let mut rest = new;
    for k in 0..series.count {
        let at = begin(series, k);
        let len = series.first.len;
        paint_extent(bytes, Extent { at, len }, rest);
        rest = behind(rest, len);
    }
    rest
}

/// Where an extent of a series begins. One past all numbers begins at the greatest, where no list
/// has a byte.
fn begin(series: &Series, k: u64) -> u64
    ensures { result ≡ min (series.now.first.at + k * series.now.step) (2 ^ 64 - 1) }
{
    series
        .first
        .at
        .saturating_add(k.saturating_mul(series.step))
}

/// What is left behind the first `len` bytes.
fn behind(bytes: &[u8], len: u64) -> &[u8]
    ensures { result.now ≡ drop len bytes.now }
{
    let len = len as usize;
    if len < bytes.len() {
        &bytes[len..]
    } else {
        &[]
    }
}

fn paint_extent(bytes: &mut [u8], extent: Extent, new: &[u8])
    ensures { bytes.new ≡ painted (places_of_one extent) new.now bytes.old }
{
    let at = extent.at as usize;
    let size = bytes.len();
    if at >= size {
        return;
    }
    let len = (extent.len as usize).min(size - at);
    for k in 0..len {
        bytes[at + k] = byte_at(new, k);
    }
}

/// The byte at a place, 0 past the end.
fn byte_at(bytes: &[u8], at: usize) -> u8
    ensures { result ≡ slice_index bytes.now at }
{
    bytes.get(at).copied().unwrap_or(0)
}
