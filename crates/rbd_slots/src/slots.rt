//! The slots of a session: 1 to 64, each free or held.
ghost use Rattle.std.specs.Prelude.{◌≡◌, ℕ, ◌<◌, ◌≤◌, length, replicate, slice_set, None, Some, IsSome, IfOk};
ghost use Rattle.std.specs.Option.{option_map};
ghost use Rattle.rbd_slots.specs.Session.{held_in, IsLowest};

use rbd_kinds::{NoMemory, Slot};
use std::alloc::Global;

/// Slots that are all free. NoMemory where the memory for them is refused.
pub fn empty_slots<T: Drop>(alloc: Global) -> Result<Vec<Option<T>>, NoMemory>
    ensures { IfOk result (λ slots. slots.items ≡ replicate 65 None) }
{
    let mut slots = Vec::with_capacity(alloc, 65)?;
    for _ in 0..65u8 {
        slots.push(None)?;
    }
    Ok(slots)
}

/// The lowest free slot from one on, and 65 where none is free.
pub fn next_free<T>(slots: &[Option<T>], from: u8) -> u8
    requires length { length slots.now ≡ 65 }
    requires from { from ≤ 65 }
    ensures from { from ≤ result }
    ensures to { result ≤ 65 }
    ensures below { (slot : ℕ) → from ≤ slot → slot < result → IsSome (held_in slot slots.now) }
    ensures free { held_in result slots.now ≡ None }
{
    for slot in from..65 {
        if slots[slot as usize].is_none() {
            return slot;
        }
    }
    65
}

/// What a slot holds: `None` where it is free, or there is no such slot.
pub fn held_at<T>(slots: &[Option<T>], slot: Slot) -> Option<&T>
    ensures { option_map (λ r. r.now) result ≡ held_in slot slots.now }
{
    match slots.get(slot.0 as usize) {
        Some(held) => held.as_ref(),
        None => None,
    }
}

/// A slot is held from now on.
pub fn hold<T: Drop>(slots: &mut Vec<Option<T>>, slot: Slot, held: T)
    requires to { slot ≤ 64 }
    requires length { length slots.old.items ≡ 65 }
    ensures { slots.new.items ≡ slice_set slots.old.items slot (Some held) }
{
    slots[slot.0 as usize] = Some(held);
}

/// A slot that is held is free from now on.
pub fn free_up<T: Drop>(slots: &mut Vec<Option<T>>, lowest: &mut u8, slot: Slot)
    requires from { 1 ≤ slot }
    requires to { slot ≤ 64 }
    requires length { length slots.old.items ≡ 65 }
    requires lowest { IsLowest lowest.old slots.old.items }
    ensures slots { slots.new.items ≡ slice_set slots.old.items slot None }
    ensures lowest { IsLowest lowest.new slots.new.items }
{
    slots[slot.0 as usize] = None;
    if slot.0 < *lowest {
        *lowest = slot.0;
    }
}
