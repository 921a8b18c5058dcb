ghost use Rattle.std.specs.Prelude.{◌≡◌, ◌+◌, ◌-◌, ◌^◌, ◌<◌, ◌≤◌, Option, ℕ, List, length, take, IfOk, OnOk, OnErr};
ghost use Rattle.rbd_edge.specs.Sink.{held_with};

use crate::failed::Failed;

/// Where bytes go, as standard output (own).
pub trait Sink {
    /// The bytes held, where the sink tells them.
    ghost held: { Self → Option (List ℕ) };

    /// How often it has failed. The count never falls: an `Ok` leaves it, and a `Failed` raises
    /// it by one.
    ghost faults: { Self → ℕ };

    /// Gives some bytes, one at least, and answers how many of them, from the first on, were
    /// appended.
    fn give(&mut self, bytes: &[u8]) -> Result<usize, Failed>
        requires some { 0 < length bytes.now }
        requires countable { faults self.old < 2 ^ 64 - 1 }

        ensures progress { IfOk result (λ n. 1 ≤ n) }
        ensures bound { IfOk result (λ n. n ≤ length bytes.now) }
        ensures gained { IfOk result (λ n. held self.new ≡ held_with (take n bytes.now) (held self.old)) }
        ensures quiet { OnOk result (faults self.new ≡ faults self.old) }

        // A fault has its cause outside, and appends nothing.
        ensures failed { OnErr result (faults self.new ≡ faults self.old + 1) }
        ensures kept { OnErr result (held self.new ≡ held self.old) };
}
