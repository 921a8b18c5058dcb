//! The image bytes of an object's parts.
ghost use Rattle.std.specs.Prelude.{◌≡◌, ℕ, ◌/◌, ◌++◌, ◌^◌, ◌<◌, ◌==◌, if◌then◌else◌, IfOk, OnOk};
ghost use Rattle.rbd_kinds.specs.Form.{IsHeaderInForm};
ghost use Rattle.rbd_kinds.specs.Striping.{IsLayout, byte_at};
ghost use Rattle.rbd_stands.specs.Kept as of_kept;
ghost use Rattle.rbd_stands.specs.Kept.{extents_between, IsHeldBelow, IsSeriesFrom};
ghost use Rattle.rbd_stands.specs.Effect as of_effect;

use crate::held::{held_below, kept_len};
use rbd_flat::{Extents, Series};
use rbd_kinds::{Extent, HeaderView, Layout, NoMemory, Part};
use std::alloc::Global;

/// The image bytes below the size of parts of an object, in the order of the parts. NoMemory where
/// memory for them is refused.
pub fn extents_below(
    alloc: Global,
    header: &HeaderView,
    object: u64,
    parts: &[Part],
) -> Result<Extents, NoMemory>
    requires form { IsHeaderInForm header.now }
    ensures { IfOk result (λ at. at ≡ of_effect.extents_below header.now.layout header.now.size object parts.now) }
{
    let held = held_below(&header.layout, object, header.size);
    // (mostly a part has one series)
    let mut found = Extents::with_capacity(alloc, parts.len())?;
    for part in parts {
        push_part(&mut found, &header.layout, object, held, part)?;
    }
    Ok(found)
}

/// The image bytes of a whole object below the size. NoMemory where memory for them is refused.
pub fn whole_object(alloc: Global, header: &HeaderView, object: u64) -> Result<Extents, NoMemory>
    requires form { IsHeaderInForm header.now }
    ensures { IfOk result (λ at. at ≡ of_effect.whole_object header.now.layout header.now.size object) }
{
    let end = held_below(&header.layout, object, header.size).min(header.layout.object);
    let mut found = Extents::with_capacity(alloc, 1)?;
    push_between(&mut found, &header.layout, object, 0, end)?;
    Ok(found)
}

/// Adds the image bytes of those of a part's offsets that are held.
fn push_part(
    found: &mut Extents,
    layout: &Layout,
    object: u64,
    held: u64,
    part: &Part,
) -> Result<(), NoMemory>
    requires layout { IsLayout layout.now }
    requires within { (offset : ℕ) → offset < held → byte_at layout.now object offset < 2 ^ 63 }
    ensures { OnOk result ((size : ℕ) → IsHeldBelow layout.now object size held
        → found.new ≡ found.old ++ of_effect.joined_extents layout.now
        (of_effect.places_below layout.now size object part.now)) }
{
    let kept = kept_len(held, part);
    if kept == 0 {
        return Ok(());
    }
    push_between(found, layout, object, part.offset, part.offset + kept)
}

/// Adds the image bytes of the offsets from one to another.
///
/// Those are three series at most: what is left of a unit, whole units, and the front of one.
fn push_between(
    found: &mut Extents,
    layout: &Layout,
    object: u64,
    from: u64,
    end: u64,
) -> Result<(), NoMemory>
    requires layout { IsLayout layout.now }
    requires within { (offset : ℕ) → offset < end → byte_at layout.now object offset < 2 ^ 63 }
    ensures { OnOk result (found.new ≡ found.old ++ extents_between layout.now object from end) }
{
    let mut offset = from;
    while offset < end {
        let series = series_from(layout, object, offset, end);
        found.push(series)?;
        offset += series.first.len * series.count;
    }
    Ok(())
}

/// What lies together in the image from an offset on, up to another, and all whole units behind it
/// where that is one: an object has one unit in each stripe.
fn series_from(layout: &Layout, object: u64, offset: u64, end: u64) -> Series
    requires layout { IsLayout layout.now }
    requires within { (offset : ℕ) → offset < end → byte_at layout.now object offset < 2 ^ 63 }
    requires some { offset < end }
    ensures { IsSeriesFrom layout.now object offset end result }
{
    let at = image_byte(layout, object, offset);
    let len = run_from(layout, offset, end);
    Series {
        first: Extent { at, len },
        step: layout.unit * u64::from(layout.count),
        count: whole_units(layout, len, end - offset),
    }
}

/// How many whole units follow one another in so many bytes of an object, where the first bytes
/// that lie together are one. Else these count alone.
fn whole_units(layout: &Layout, len: u64, rest: u64) -> u64
    requires some { 0 < len }
    ensures { result ≡ (if len == layout.now.unit then rest / len else 1) }
{
    if len == layout.unit { rest / len } else { 1 }
}

/// How many bytes from an offset on, up to another, lie together in the image.
///
/// Where a stripe has no other object, the bytes of an object lie together in the image too, else
/// those of a unit.
fn run_from(layout: &Layout, offset: u64, end: u64) -> u64
    requires layout { IsLayout layout.now }
    requires some { offset < end }
    ensures { result ≡ of_kept.run_from layout.now offset end }
{
    if layout.count == 1 {
        return end - offset;
    }
    (layout.unit - offset % layout.unit).min(end - offset)
}

/// The image byte at an offset of an object.
fn image_byte(layout: &Layout, object: u64, offset: u64) -> u64
    requires layout { IsLayout layout.now }
    requires byte { byte_at layout.now object offset < 2 ^ 63 }
    ensures { result ≡ byte_at layout.now object offset }
{
    let count = u64::from(layout.count);
    let units = layout.object / layout.unit;
    let stripe = object / count * units + offset / layout.unit;
    let block = stripe * count + object % count;
    block * layout.unit + offset % layout.unit
}
