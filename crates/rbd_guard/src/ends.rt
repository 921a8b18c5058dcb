//! The ends of lines, in a table by the line's key. No change takes memory, where there is room.
ghost use Rattle.std.specs.Prelude.{◌≡◌, ℕ, ◌+◌, ◌-◌, ◌<◌, ◌≤◌, ◌^◌, Some, cond, nat_eq};
ghost use Rattle.std.specs.HashMap.{get, spare};
ghost use Rattle.rbd_guard.specs.Order.{no_ends, ends_or};
ghost use Rattle.rbd_guard.specs.Links.{longer, shorter, or_none, or_else, other_unless};
ghost use Rattle.rbd_guard.specs.Tickets.{NoneIsEmpty};

use crate::link::{Ends, TicketLink};
use std::collections::HashMap;

/// The ends of the line under a key.
pub fn ends_of(table: &HashMap<u64, Ends>, key: u64) -> Ends
    ensures { result ≡ ends_or (get nat_eq table.now key) }
{
    match table.get(&key) {
        Some(ends) => *ends,
        None => Ends {
            first: None,
            last: None,
            count: 0,
        },
    }
}

/// The ends of a line with one more place behind it.
pub fn longer(ends: Ends, place: usize) -> Ends
    requires { ends.count < 2 ^ 64 - 1 }
    ensures { result ≡ longer ends place }
{
    Ends {
        first: or_else(ends.first, Some(place)),
        last: Some(place),
        count: ends.count + 1,
    }
}

fn or_else(first: Option<usize>, other: Option<usize>) -> Option<usize>
    ensures { result ≡ or_else first other }
{
    match first {
        Some(place) => Some(place),
        None => other,
    }
}

/// The ends of a line without the place that has a link.
pub fn shorter(ends: Ends, link: TicketLink) -> Ends
    requires { 0 < ends.count }
    ensures { result ≡ shorter ends link }
{
    Ends {
        first: unless(link.before, link.after, ends.first),
        last: unless(link.after, link.before, ends.last),
        count: ends.count - 1,
    }
}

fn unless(neighbour: Option<usize>, other: Option<usize>, kept: Option<usize>) -> Option<usize>
    ensures { result ≡ other_unless neighbour other kept }
{
    match neighbour {
        Some(_) => kept,
        None => other,
    }
}

/// Puts a place last into the line under a key, and answers the one that was last there.
pub fn lengthen(table: &mut HashMap<u64, Ends>, key: u64, place: usize) -> Option<usize>
    requires room { 0 < spare table.old }
    requires count { (ends_or (get nat_eq table.old key)).count < 2 ^ 64 - 1 }
    ensures last { result ≡ (ends_or (get nat_eq table.old key)).last }
    ensures ends { (k : ℕ) → ends_or (get nat_eq table.new k)
        ≡ cond (nat_eq key k) (longer (ends_or (get nat_eq table.old key)) place) (ends_or (get nat_eq table.old k)) }
    ensures used { NoneIsEmpty table.old.entries → NoneIsEmpty table.new.entries }
    ensures room { spare table.old ≤ spare table.new + 1 }
{
    let Some(held) = table.get_mut(&key) else {
        add_ends(table, key, place);
        return None;
    };
    let last = held.last;
    *held = longer(*held, place);
    last
}

/// Gives a line its ends, where nobody stood yet.
fn add_ends(table: &mut HashMap<u64, Ends>, key: u64, place: usize)
    requires { 0 < spare table.old }
    ensures ends { (k : ℕ) → get nat_eq table.new k ≡ cond (nat_eq key k) (Some (longer no_ends place))
        (get nat_eq table.old k) }
    ensures room { spare table.old ≤ spare table.new + 1 }
{
    let ends = Ends {
        first: Some(place),
        last: Some(place),
        count: 1,
    };
    let added: Result<_, _> = table.insert(key, ends);
    added.unwrap();
}

/// Takes a place that has this link out of its line. No ends are kept of a line in which nobody
/// stands.
pub fn shorten(table: &mut HashMap<u64, Ends>, link: TicketLink)
    requires { 0 < (ends_or (get nat_eq table.old link.key)).count }
    ensures ends { (k : ℕ) → ends_or (get nat_eq table.new k)
        ≡ cond (nat_eq link.key k) (or_none (shorter (ends_or (get nat_eq table.old link.key)) link))
        (ends_or (get nat_eq table.old k)) }
    ensures used { NoneIsEmpty table.old.entries → NoneIsEmpty table.new.entries }
    ensures room { spare table.old ≤ spare table.new }
{
    let Some(held) = table.get_mut(&link.key) else {
        return;
    };
    if held.count > 1 {
        *held = shorter(*held, link);
        return;
    }
    table.remove(&link.key);
}
