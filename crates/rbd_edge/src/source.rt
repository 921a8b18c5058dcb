ghost use Rattle.std.specs.Prelude.{◌≡◌, ◌+◌, ◌-◌, ◌^◌, ◌<◌, ◌≤◌, ◌++◌, ◌↔◌, Option, ℕ, List, [], length, take, drop, IfOk, OnOk, OnErr, IfSome};
ghost use Rattle.rbd_edge.specs.Source.{left_after};

use crate::failed::Failed;

/// Where bytes come from, as standard input (own).
pub trait Source {
    /// The bytes left to take, where the source tells them.
    ghost left: { Self → Option (List ℕ) };

    /// How often it has failed. The count never falls: an `Ok` leaves it, and a `Failed` raises
    /// it by one.
    ghost faults: { Self → ℕ };

    /// Takes the next bytes into the front of a buffer, which has room for one at least, and
    /// answers how many they are. `Ok(0)` is the end, and fewer than the buffer holds is not. At
    /// `Failed` nothing is said of the buffer.
    fn take(&mut self, into: &mut [u8]) -> Result<usize, Failed>
        requires room { 0 < length into.old }
        requires countable { faults self.old < 2 ^ 64 - 1 }

        // At any source.
        ensures bound { IfOk result (λ n. n ≤ length into.old) }
        ensures quiet { OnOk result (faults self.new ≡ faults self.old) }

        // Where the bytes are told: they come in order, and none is lost.
        ensures few { IfOk result (λ n. IfSome (left self.old) (λ bytes. n ≤ length bytes)) }
        ensures bytes { IfOk result (λ n. IfSome (left self.old) (λ bytes.
            into.new ≡ take n bytes ++ drop n into.old)) }
        ensures rest { IfOk result (λ n. left self.new ≡ left_after n (left self.old)) }
        ensures end { IfOk result (λ n. IfSome (left self.old) (λ bytes. (n ≡ 0) ↔ (bytes ≡ []))) }

        // A fault has its cause outside, and takes nothing.
        ensures failed { OnErr result (faults self.new ≡ faults self.old + 1) }
        ensures kept { OnErr result (left self.new ≡ left self.old) };
}
