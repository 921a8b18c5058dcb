ghost use Rattle.std.specs.Prelude.{◌≡◌, ◌+◌, ◌-◌, ◌^◌, ◌<◌, ◌≤◌, ◌++◌, ◌↔◌, [], length, take, drop, min, IfOk, OnErr, IsErr, Contains};
ghost use Rattle.rbd_edge.specs.Calls.{next_call};

use crate::calls::{is_listed, next_call};
use crate::failed::Failed;
use crate::source::Source;
use std::marker::Model;

/// A source in memory, for tests: it tells its bytes, gives at most `most` of them a call, and
/// fails exactly at the calls whose numbers are in `fail`. Calls are numbered from 1, failed ones
/// too, and the number stays at `u64::MAX` (own). Contracts see a `SourceInMemory`.
#[derive(Drop)]
pub struct MemSource {
    bytes: Vec<u8>,
    at: usize,
    most: usize,
    fail: Vec<u64>,
    calls: u64,
    faults: u64,
}

impl Model for MemSource {
    ghost use Rattle.std.specs.Prelude.{◌≤◌, drop, vec_len};
    ghost use Rattle.rbd_edge.specs.Source.{SourceInMemory};

    ghost Value = { SourceInMemory };

    ghost view = { λ s. record {
      left = drop s.at s.bytes.items;
      most = s.most;
      fail = s.fail.items;
      calls = s.calls;
      faults = s.faults;
    } };

    ghost invariant = { λ s. (s.at ≤ vec_len s.bytes) × (1 ≤ s.most) };
}

impl MemSource {
    /// A source of these bytes, before its first call. It takes no memory.
    pub fn new(bytes: Vec<u8>, most: usize, fail: Vec<u64>) -> Self
        requires { 1 ≤ most }
        ensures { result ≡ record { left = bytes.items; most = most; fail = fail.items; calls = 0; faults = 0 } }
    {
        MemSource {
            bytes,
            at: 0,
            most,
            fail,
            calls: 0,
            faults: 0,
        }
    }
}

impl Source for MemSource {
    ghost use Rattle.std.specs.Prelude.{Some};

    ghost left = { λ s. Some s.left };

    ghost faults = { λ s. s.faults };

    fn take(&mut self, into: &mut [u8]) -> Result<usize, Failed>
        requires room { 0 < length into.old }
        requires countable { self.old.faults < 2 ^ 64 - 1 }

        // When it fails, and how many bytes it gives.
        ensures fails { IsErr result ↔ Contains self.old.fail (next_call self.old.calls) }
        ensures count { IfOk result (λ n. n ≡ min (min self.old.most (length into.old)) (length self.old.left)) }

        // What the source is then.
        ensures ok { IfOk result (λ n. self.new ≡ record self.old {
          left = drop n self.old.left;
          calls = next_call self.old.calls;
        }) }
        ensures err { OnErr result (self.new ≡ record self.old {
          calls = next_call self.old.calls;
          faults = self.old.faults + 1;
        }) }

        // As of each source.
        ensures bytes { IfOk result (λ n. into.new ≡ take n self.old.left ++ drop n into.old) }
        ensures end { IfOk result (λ n. (n ≡ 0) ↔ (self.old.left ≡ [])) }
    {
        self.calls = next_call(self.calls);
        if is_listed(&self.fail, self.calls) {
            self.faults += 1;
            return Err(Failed);
        }
        let n = copy_front(&self.bytes[self.at..], self.most, into);
        self.at += n;
        Ok(n)
    }
}

/// Copies as many bytes as there are and fit, and at most `most`, to the front of a buffer.
pub(crate) fn copy_front(bytes: &[u8], most: usize, into: &mut [u8]) -> usize
    ensures count { result ≡ min (min most (length into.old)) (length bytes.now) }
    ensures copied { into.new ≡ take result bytes.now ++ drop result into.old }
{
    let n = most.min(into.len()).min(bytes.len());
    into[..n].copy_from_slice(&bytes[..n]);
    n
}
