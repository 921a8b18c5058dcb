//! A place goes last into a queue or a list, or out of it. None of this takes memory, where there
//! is room.
ghost use Rattle.std.specs.Prelude.{◌≡◌, ℕ, ◌+◌, ◌-◌, ◌<◌, ◌≤◌, ◌^◌, Some, cond, nat_eq};
ghost use Rattle.std.specs.HashMap.{get, spare};
ghost use Rattle.rbd_guard.specs.Order.{ends_or};
ghost use Rattle.rbd_guard.specs.Links.{with_after, with_before, longer, shorter, or_none};
ghost use Rattle.rbd_guard.specs.Slab.{queue_link, list_link, number_at};
ghost use Rattle.rbd_guard.specs.Tickets.{NoneIsEmpty};

use crate::ends::{lengthen, shorten};
use crate::link::{Ends, TicketLink};
use crate::slab::Slab;
use std::collections::HashMap;

/// Puts a place last into an object's queue.
pub fn enter_queue(slab: &mut Slab, queues: &mut HashMap<u64, Ends>, object: u64, at: usize)
    requires room { 0 < spare queues.old }
    requires count { (ends_or (get nat_eq queues.old object)).count < 2 ^ 64 - 1 }
    ensures queue { (p : ℕ) → queue_link slab.new.places p
        ≡ with_after (with_before (queue_link slab.old.places) (Some at) (ends_or (get nat_eq queues.old object)).last)
        (ends_or (get nat_eq queues.old object)).last (Some at) p }
    ensures list { (p : ℕ) → list_link slab.new.places p ≡ list_link slab.old.places p }
    ensures number { (p : ℕ) → number_at slab.new.places p ≡ number_at slab.old.places p }
    ensures room { slab.new.room ≡ slab.old.room }
    ensures ends { (k : ℕ) → ends_or (get nat_eq queues.new k)
        ≡ cond (nat_eq object k) (longer (ends_or (get nat_eq queues.old object)) at)
        (ends_or (get nat_eq queues.old k)) }
    ensures used { NoneIsEmpty queues.old.entries → NoneIsEmpty queues.new.entries }
    ensures room_of_ends { spare queues.old ≤ spare queues.new + 1 }
{
    let last = lengthen(queues, object, at);
    slab.link_queue_before(Some(at), last);
    slab.link_queue_after(last, Some(at));
}

/// Puts a place last into a request's list.
pub fn enter_list(slab: &mut Slab, lists: &mut HashMap<u64, Ends>, request: u64, at: usize)
    requires room { 0 < spare lists.old }
    requires count { (ends_or (get nat_eq lists.old request)).count < 2 ^ 64 - 1 }
    ensures list { (p : ℕ) → list_link slab.new.places p
        ≡ with_after (with_before (list_link slab.old.places) (Some at) (ends_or (get nat_eq lists.old request)).last)
        (ends_or (get nat_eq lists.old request)).last (Some at) p }
    ensures queue { (p : ℕ) → queue_link slab.new.places p ≡ queue_link slab.old.places p }
    ensures number { (p : ℕ) → number_at slab.new.places p ≡ number_at slab.old.places p }
    ensures room { slab.new.room ≡ slab.old.room }
    ensures ends { (k : ℕ) → ends_or (get nat_eq lists.new k)
        ≡ cond (nat_eq request k) (longer (ends_or (get nat_eq lists.old request)) at)
        (ends_or (get nat_eq lists.old k)) }
    ensures used { NoneIsEmpty lists.old.entries → NoneIsEmpty lists.new.entries }
    ensures room_of_ends { spare lists.old ≤ spare lists.new + 1 }
{
    let last = lengthen(lists, request, at);
    slab.link_list_before(Some(at), last);
    slab.link_list_after(last, Some(at));
}

/// Takes a place that had this link out of its object's queue.
pub fn leave_queue(slab: &mut Slab, queues: &mut HashMap<u64, Ends>, link: TicketLink)
    requires { 0 < (ends_or (get nat_eq queues.old link.key)).count }
    ensures queue { (p : ℕ) → queue_link slab.new.places p
        ≡ with_before (with_after (queue_link slab.old.places) link.before link.after) link.after link.before p }
    ensures list { (p : ℕ) → list_link slab.new.places p ≡ list_link slab.old.places p }
    ensures number { (p : ℕ) → number_at slab.new.places p ≡ number_at slab.old.places p }
    ensures room { slab.new.room ≡ slab.old.room }
    ensures ends { (k : ℕ) → ends_or (get nat_eq queues.new k)
        ≡ cond (nat_eq link.key k) (or_none (shorter (ends_or (get nat_eq queues.old link.key)) link))
        (ends_or (get nat_eq queues.old k)) }
    ensures used { NoneIsEmpty queues.old.entries → NoneIsEmpty queues.new.entries }
    ensures room_of_ends { spare queues.old ≤ spare queues.new }
{
    slab.link_queue_after(link.before, link.after);
    slab.link_queue_before(link.after, link.before);
    shorten(queues, link);
}

/// Takes a place that had this link out of its request's list.
pub fn leave_list(slab: &mut Slab, lists: &mut HashMap<u64, Ends>, link: TicketLink)
    requires { 0 < (ends_or (get nat_eq lists.old link.key)).count }
    ensures list { (p : ℕ) → list_link slab.new.places p
        ≡ with_before (with_after (list_link slab.old.places) link.before link.after) link.after link.before p }
    ensures queue { (p : ℕ) → queue_link slab.new.places p ≡ queue_link slab.old.places p }
    ensures number { (p : ℕ) → number_at slab.new.places p ≡ number_at slab.old.places p }
    ensures room { slab.new.room ≡ slab.old.room }
    ensures ends { (k : ℕ) → ends_or (get nat_eq lists.new k)
        ≡ cond (nat_eq link.key k) (or_none (shorter (ends_or (get nat_eq lists.old link.key)) link))
        (ends_or (get nat_eq lists.old k)) }
    ensures used { NoneIsEmpty lists.old.entries → NoneIsEmpty lists.new.entries }
    ensures room_of_ends { spare lists.old ≤ spare lists.new }
{
    slab.link_list_after(link.before, link.after);
    slab.link_list_before(link.after, link.before);
    shorten(lists, link);
}
