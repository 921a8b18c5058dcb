ghost use Rattle.std.specs.Prelude.{◌≡◌, ◌+◌, ◌-◌, ◌^◌, ◌<◌, ◌≤◌, ◌++◌, ◌↔◌, ◌⊎◌, [], length, take, min, IfOk, OnErr, IsErr, Contains};
ghost use Rattle.rbd_edge.specs.Calls.{next_call};

use crate::calls::{is_listed, next_call};
use crate::failed::Failed;
use crate::sink::Sink;
use rbd_values::NoMemory;
use std::alloc::Global;
use std::marker::Model;

/// A sink in memory, for tests: it tells its bytes, has room for `room` of them, takes at most
/// `most` a call, and fails exactly at the calls whose numbers are in `fail` and where it is full.
/// Calls are numbered from 1, failed ones too, and the number stays at `u64::MAX` (own). Contracts
/// see a `SinkInMemory`.
#[derive(Drop)]
pub struct MemSink {
    bytes: Vec<u8>,
    room: usize,
    most: usize,
    fail: Vec<u64>,
    calls: u64,
    faults: u64,
}

impl Model for MemSink {
    ghost use Rattle.std.specs.Prelude.{◌≤◌, vec_len, vec_capacity};
    ghost use Rattle.rbd_edge.specs.Sink.{SinkInMemory};

    ghost Value = { SinkInMemory };

    ghost view = { λ s. record {
      held = s.bytes.items;
      room = s.room;
      most = s.most;
      fail = s.fail.items;
      calls = s.calls;
      faults = s.faults;
    } };

    ghost invariant = { λ s. (vec_len s.bytes ≤ s.room) × (s.room ≤ vec_capacity s.bytes) × (1 ≤ s.most) };
}

impl MemSink {
    /// An empty sink, before its first call. It takes the memory for `room` bytes, so that `give`
    /// takes none.
    pub fn new(alloc: Global, room: usize, most: usize, fail: Vec<u64>) -> Result<Self, NoMemory>
        requires { 1 ≤ most }
        ensures { IfOk result (λ sink. sink ≡ record {
          held = [];
          room = room;
          most = most;
          fail = fail.items;
          calls = 0;
          faults = 0;
        }) }
    {
        Ok(MemSink {
            bytes: Vec::with_capacity(alloc, room)?,
            room,
            most,
            fail,
            calls: 0,
            faults: 0,
        })
    }

    /// The bytes held, `room` of them at most.
    pub fn held(&self) -> &[u8]
        ensures value { result.now ≡ self.now.held }
        ensures few { length result.now ≤ self.now.room }
    {
        self.bytes.as_slice()
    }
}

impl Sink for MemSink {
    ghost use Rattle.std.specs.Prelude.{Some};

    ghost held = { λ s. Some s.held };

    ghost faults = { λ s. s.faults };

    fn give(&mut self, bytes: &[u8]) -> Result<usize, Failed>
        requires some { 0 < length bytes.now }
        requires countable { self.old.faults < 2 ^ 64 - 1 }

        // When it fails, and how many bytes it takes.
        ensures fails { IsErr result ↔
            (Contains self.old.fail (next_call self.old.calls) ⊎ (length self.old.held ≡ self.old.room)) }
        ensures count { IfOk result (λ n.
            n ≡ min (min self.old.most (length bytes.now)) (self.old.room - length self.old.held)) }
        ensures progress { IfOk result (λ n. 1 ≤ n) }

        // What the sink is then.
        ensures ok { IfOk result (λ n. self.new ≡ record self.old {
          held = self.old.held ++ take n bytes.now;
          calls = next_call self.old.calls;
        }) }
        ensures err { OnErr result (self.new ≡ record self.old {
          calls = next_call self.old.calls;
          faults = self.old.faults + 1;
        }) }
    {
        self.calls = next_call(self.calls);
        if is_listed(&self.fail, self.calls) || self.bytes.len() >= self.room {
            self.faults += 1;
            return Err(Failed);
        }
        let n = self.most.min(bytes.len()).min(self.room - self.bytes.len());
        self.bytes.extend_from_slice(&bytes[..n]).unwrap();
        Ok(n)
    }
}
