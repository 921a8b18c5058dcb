use std::marker::Model;

/// The right of a request to a turn at an object. Contracts see its number.
#[derive(Clone, Copy, PartialEq, Eq)]
pub struct Ticket {
    pub(crate) number: u64,
}

impl Model for Ticket {
    ghost use Rattle.std.specs.Prelude.{ℕ};

    ghost Value = { ℕ };

    ghost view = { λ t. t.number };

    ghost inverse = { λ n. record { number = n } };
}
