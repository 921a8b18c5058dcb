//! The events of a world, each with what came of it.
ghost use Rattle.std.specs.Prelude.{◌≡◌, ◌+◌, ◌^◌, ◌<◌, [], ◌∷◌, ◌++◌, length, OnOk};

use crate::event::{Event, Outcome};
use crate::ghost_log::GhostLog;
use rbd_kinds::NoMemory;
use std::marker::Model;

/// The most events that a world takes: more than any memory has bytes for.
const MOST: u64 = (1 << 59) - 1;

/// The events so far, each with what came of it, in order: fewer than 2^59. Contracts see the list
/// of them. Nothing that runs reads it, so only their number is kept.
#[derive(Drop)]
pub struct Calls {
    count: u64,
    made: GhostLog<Event, Outcome>,
}

impl Model for Calls {
    ghost use Rattle.std.specs.Prelude.{◌≡◌, ◌^◌, ◌<◌, List, length};
    ghost use Rattle.rbd_world.specs.Calls.{calls_from};
    ghost use Rattle.rbd_world.specs.declared.event.Call.{Call};

    ghost Value = { List Call };

    ghost view = { λ c. calls_from c.made.items };

    ghost invariant = { λ c. (c.count ≡ length (calls_from c.made.items)) × (c.count < 2 ^ 59) };
}

impl Calls {
    /// No calls.
    pub fn new() -> Self
        ensures { result ≡ [] }
    {
        Calls {
            count: 0,
            made: GhostLog::new(),
        }
    }

    /// Whether one more is taken. It is refused where there are 2^59 - 1.
    pub fn reserve(&self) -> Result<(), NoMemory>
        ensures ok { OnOk result (length self.now + 1 < 2 ^ 59) }
    {
        if self.count < MOST {
            Ok(())
        } else {
            Err(NoMemory)
        }
    }

    /// Notes an event, and what came of it, where one more is taken.
    pub fn keep(&mut self, event: &Event, outcome: &Outcome)
        requires { length self.old + 1 < 2 ^ 59 }
        ensures { self.new ≡ self.old ++ record { event = event.now; outcome = outcome.now } ∷ [] }
    {
        self.made = self.made.and(event, outcome);
        self.count += 1;
    }

    /// How many there are.
    pub fn count(&self) -> u64
        ensures count { result ≡ length self.now }
        ensures few { length self.now < 2 ^ 59 }
    {
        self.count
    }
}
