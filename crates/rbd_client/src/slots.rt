//! What a client keeps of its slots: 0 to 64.
ghost use Rattle.std.specs.Prelude.{◌≡◌, ◌≢◌, ℕ, ◌≤◌, length, replicate, IfOk};
ghost use Rattle.rbd_client.specs.Actor.{any_taken, way_has_taken};
ghost use Rattle.rbd_client.specs.Client.{blank_slot, slot_state};

use crate::slot_state::{SlotState, Way};
use rbd_kinds::{ImageAt, NoMemory, Slot};
use std::alloc::Global;

/// What is kept of slots that are all free. NoMemory where memory for it is refused.
pub fn blank_slots(alloc: Global) -> Result<Vec<SlotState>, NoMemory>
    ensures { IfOk result (λ slots. slots.items ≡ replicate 65 blank_slot) }
{
    let mut slots = Vec::with_capacity(alloc, 65)?;
    slots.resize(65, SlotState::blank())?;
    Ok(slots)
}

/// The state of a slot; blank above 64.
pub fn state_of(slots: &[SlotState], slot: Slot) -> SlotState
    ensures { result ≡ slot_state slot slots.now }
{
    match slots.get(slot.0 as usize) {
        Some(state) => *state,
        None => SlotState::blank(),
    }
}

/// This is kept of a slot from now on.
pub fn set_state(slots: &mut Vec<SlotState>, slot: Slot, state: SlotState)
    requires slot { slot ≤ 64 }
    requires length { length slots.old.items ≡ 65 }
    ensures length { length slots.new.items ≡ 65 }
    ensures here { slot_state slot slots.new.items ≡ state }
    ensures others { (other : ℕ) → other ≢ slot → slot_state other slots.new.items ≡ slot_state other slots.old.items }
{
    slots[slot.0 as usize] = state;
}

/// Whether a request has taken the lock of an image itself.
pub fn is_any_taken(slots: &[SlotState], at: &ImageAt) -> bool
    ensures { result ≡ any_taken at.now.site at.now.image slots.now }
{
    slots.iter().any(|state| has_taken(&state.way, at))
}

fn has_taken(way: &Way, at: &ImageAt) -> bool
    ensures { result ≡ way_has_taken at.now.site at.now.image way.now }
{
    match way {
        Way::Taken(taken) => taken.site == at.site && taken.image == at.image,
        _ => false,
    }
}
