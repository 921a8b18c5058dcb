//! Numbers with a greatest value.
ghost use Rattle.std.specs.Prelude.{◌≡◌, ◌≤◌, ◌↔◌, ℕ, IsSome, IfSome};

use std::marker::Model;

/// A number up to `MOST`. Contracts see the number.
#[derive(Clone, Copy, Debug, PartialEq, Eq, PartialOrd, Ord)]
pub struct AtMost<const MOST: u64> {
    value: u64,
}

/// A number as scripts have it: below 2^63.
pub type Number = AtMost<9223372036854775807>;

impl<const MOST: u64> Model for AtMost<MOST> {
    ghost Value = { ℕ };

    ghost view = { λ n. n.value };

    ghost invariant = { λ n. n.value ≤ MOST };

    ghost inverse = { λ n. record { value = n } };
}

impl<const MOST: u64> AtMost<MOST> {
    /// The number, or `None` where it is above `MOST`.
    pub fn new(value: u64) -> Option<Self>
        ensures most { IsSome result ↔ (value ≤ MOST) }
        ensures value { IfSome result (λ number. number ≡ value) }
    {
        if value <= MOST {
            Some(AtMost { value })
        } else {
            None
        }
    }

    /// The number.
    pub fn get(self) -> u64
        ensures value { result ≡ self.entry }
        ensures most { result ≤ MOST }
    {
        self.value
    }
}
