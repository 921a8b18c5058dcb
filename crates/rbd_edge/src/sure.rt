ghost use Rattle.std.specs.Prelude.{◌≡◌, ◌<◌, ◌≤◌, ◌++◌, ℕ, List, length, take, drop, min, Some, None, Ok, IfOk};

use crate::failed::Failed;
use crate::memory_source::copy_front;
use crate::sink::Sink;
use crate::source::Source;
use std::marker::Model;

/// A source over a vector: it tells its bytes and never fails. Contracts see it as the bytes left.
/// It keeps the vector and counts where it is, so that no byte moves but into a buffer.
#[derive(Drop)]
pub struct SureSource {
    bytes: Vec<u8>,
    at: usize,
}

impl Model for SureSource {
    ghost use Rattle.std.specs.Prelude.{ℕ, List, ◌≤◌, drop, vec_len};

    ghost Value = { List ℕ };

    ghost view = { λ s. drop s.at s.bytes.items };

    ghost invariant = { λ s. s.at ≤ vec_len s.bytes };
}

impl SureSource {
    /// It takes no memory.
    pub fn new(bytes: Vec<u8>) -> Self
        ensures bytes { result ≡ bytes.items }
        ensures told { ⟦<SureSource as Source>⟧.left result ≡ Some bytes.items }
        ensures faults { ⟦<SureSource as Source>⟧.faults result ≡ 0 }
    {
        SureSource { bytes, at: 0 }
    }
}

impl Source for SureSource {
    ghost use Rattle.std.specs.Prelude.{Some};

    ghost left = { λ bytes. Some bytes };

    ghost faults = { λ _. 0 };

    fn take(&mut self, into: &mut [u8]) -> Result<usize, Failed>
        requires room { 0 < length into.old }
        ensures count { result ≡ Ok (min (length into.old) (length self.old)) }
        ensures bytes { IfOk result (λ n. into.new ≡ take n self.old ++ drop n into.old) }
        ensures rest { IfOk result (λ n. self.new ≡ drop n self.old) }
    {
        let n = copy_front(&self.bytes[self.at..], into.len(), into);
        self.at += n;
        Ok(n)
    }
}

/// A sink that takes every byte, keeps none, tells nothing and never fails.
#[derive(Clone, Copy)]
pub struct SureSink;

impl SureSink {
    /// A sink that takes whatever it is given, and tells nothing of it.
    pub fn new() -> Self
        ensures untold { ⟦<SureSink as Sink>⟧.held result ≡ None }
        ensures faults { ⟦<SureSink as Sink>⟧.faults result ≡ 0 }
    {
        SureSink
    }
}

impl Sink for SureSink {
    ghost use Rattle.std.specs.Prelude.{None};

    ghost held = { λ _. None };

    ghost faults = { λ _. 0 };

    fn give(&mut self, bytes: &[u8]) -> Result<usize, Failed>
        requires some { 0 < length bytes.now }
        ensures all { result ≡ Ok (length bytes.now) }
    {
        Ok(bytes.len())
    }
}
