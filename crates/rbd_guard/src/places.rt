//! Changes of one place of the slab. None of them takes memory.
ghost use Rattle.std.specs.Prelude.{◌≡◌, ℕ, ◌<◌, ◌==◌, cond, length, None, Some, vec_len, vec_capacity, slice_get};
ghost use Rattle.rbd_guard.specs.Links.{with_after, with_before};
ghost use Rattle.rbd_guard.specs.Slab.{used_at, number_at, queue_link, list_link, free_at, or_end};

use crate::link::SlabPlace;

/// What stands at a place that isn't free.
pub fn place_at(places: &Vec<SlabPlace>, at: usize) -> Option<SlabPlace>
    ensures { result ≡ used_at places.now.items at }
{
    let Some(place) = places.get(at) else {
        return None;
    };
    if place.used {
        return Some(*place);
    }
    None
}

/// The free place that a free one names.
pub fn next_free(places: &Vec<SlabPlace>, at: usize) -> Option<usize>
    ensures { result ≡ or_end (free_at places.now.items at) }
{
    let Some(place) = places.get(at) else {
        return None;
    };
    if place.used {
        return None;
    }
    place.free
}

/// Puts something at a place.
pub fn put(places: &mut Vec<SlabPlace>, at: usize, place: SlabPlace)
    requires { at < length places.old.items }
    ensures places { (p : ℕ) → slice_get places.new.items p ≡ cond (at == p) (Some place)
        (slice_get places.old.items p) }
    ensures len { vec_len places.new ≡ vec_len places.old }
    ensures capacity { vec_capacity places.new ≡ vec_capacity places.old }
{
    places[at] = place;
}

/// A place becomes free, and names another free one.
pub fn set_free(places: &mut Vec<SlabPlace>, at: usize, next: Option<usize>)
    requires { at < length places.old.items }
    ensures used { (p : ℕ) → used_at places.new.items p ≡ cond (at == p) None (used_at places.old.items p) }
    ensures free { (p : ℕ) → free_at places.new.items p ≡ cond (at == p) (Some next) (free_at places.old.items p) }
    ensures len { vec_len places.new ≡ vec_len places.old }
    ensures capacity { vec_capacity places.new ≡ vec_capacity places.old }
{
    let Some(place) = places.get_mut(at) else {
        return;
    };
    place.used = false;
    place.free = next;
}

/// Links a place, where a ticket stands, with the one after it in its object's queue.
pub fn link_queue_after(places: &mut Vec<SlabPlace>, at: Option<usize>, after: Option<usize>)
    ensures queue { (p : ℕ) → queue_link places.new.items p ≡ with_after (queue_link places.old.items) at after p }
    ensures list { (p : ℕ) → list_link places.new.items p ≡ list_link places.old.items p }
    ensures number { (p : ℕ) → number_at places.new.items p ≡ number_at places.old.items p }
    ensures free { (p : ℕ) → free_at places.new.items p ≡ free_at places.old.items p }
    ensures len { vec_len places.new ≡ vec_len places.old }
    ensures capacity { vec_capacity places.new ≡ vec_capacity places.old }
{
    let Some(at) = at else {
        return;
    };
    let Some(place) = places.get_mut(at) else {
        return;
    };
    place.queue.after = after;
}

/// Links a place, where a ticket stands, with the one before it in its object's queue.
pub fn link_queue_before(places: &mut Vec<SlabPlace>, at: Option<usize>, before: Option<usize>)
    ensures queue { (p : ℕ) → queue_link places.new.items p ≡ with_before (queue_link places.old.items) at before p }
    ensures list { (p : ℕ) → list_link places.new.items p ≡ list_link places.old.items p }
    ensures number { (p : ℕ) → number_at places.new.items p ≡ number_at places.old.items p }
    ensures free { (p : ℕ) → free_at places.new.items p ≡ free_at places.old.items p }
    ensures len { vec_len places.new ≡ vec_len places.old }
    ensures capacity { vec_capacity places.new ≡ vec_capacity places.old }
{
    let Some(at) = at else {
        return;
    };
    let Some(place) = places.get_mut(at) else {
        return;
    };
    place.queue.before = before;
}

/// Links a place, where a ticket stands, with the one after it in its request's list.
pub fn link_list_after(places: &mut Vec<SlabPlace>, at: Option<usize>, after: Option<usize>)
    ensures list { (p : ℕ) → list_link places.new.items p ≡ with_after (list_link places.old.items) at after p }
    ensures queue { (p : ℕ) → queue_link places.new.items p ≡ queue_link places.old.items p }
    ensures number { (p : ℕ) → number_at places.new.items p ≡ number_at places.old.items p }
    ensures free { (p : ℕ) → free_at places.new.items p ≡ free_at places.old.items p }
    ensures len { vec_len places.new ≡ vec_len places.old }
    ensures capacity { vec_capacity places.new ≡ vec_capacity places.old }
{
    let Some(at) = at else {
        return;
    };
    let Some(place) = places.get_mut(at) else {
        return;
    };
    place.list.after = after;
}

/// Links a place, where a ticket stands, with the one before it in its request's list.
pub fn link_list_before(places: &mut Vec<SlabPlace>, at: Option<usize>, before: Option<usize>)
    ensures list { (p : ℕ) → list_link places.new.items p ≡ with_before (list_link places.old.items) at before p }
    ensures queue { (p : ℕ) → queue_link places.new.items p ≡ queue_link places.old.items p }
    ensures number { (p : ℕ) → number_at places.new.items p ≡ number_at places.old.items p }
    ensures free { (p : ℕ) → free_at places.new.items p ≡ free_at places.old.items p }
    ensures len { vec_len places.new ≡ vec_len places.old }
    ensures capacity { vec_capacity places.new ≡ vec_capacity places.old }
{
    let Some(at) = at else {
        return;
    };
    let Some(place) = places.get_mut(at) else {
        return;
    };
    place.list.before = before;
}
