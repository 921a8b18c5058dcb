//! Where each ticket's number is found. None of this takes memory, where there is room.
ghost use Rattle.std.specs.Prelude.{◌≡◌, ℕ, ◌+◌, ◌<◌, ◌≤◌, None, Some, IsSome, cond, nat_eq};
ghost use Rattle.std.specs.HashMap.{get, spare};

use std::collections::HashMap;

/// A number is found at a place.
pub fn add_place(places: &mut HashMap<u64, usize>, number: u64, at: usize)
    requires { 0 < spare places.old }
    ensures places { (n : ℕ) → get nat_eq places.new n ≡ cond (nat_eq number n) (Some at) (get nat_eq places.old n) }
    ensures room { spare places.old ≤ spare places.new + 1 }
{
    let added: Result<_, _> = places.insert(number, at);
    added.unwrap();
}

/// A number is found no more. The place is the one where it was.
pub fn take_place(places: &mut HashMap<u64, usize>, number: u64) -> usize
    requires { IsSome (get nat_eq places.old number) }
    ensures was { get nat_eq places.old number ≡ Some result }
    ensures places { (n : ℕ) → get nat_eq places.new n ≡ cond (nat_eq number n) None (get nat_eq places.old n) }
    ensures room { spare places.old ≤ spare places.new }
{
    places.remove(&number).unwrap()
}
