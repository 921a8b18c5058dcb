ghost use Rattle.std.specs.Prelude.{◌≡◌, ◌<◌, ◌≤◌, ◌+◌, ◌-◌, ◌^◌, None, length, IfOk, OnOk, OnErr};
ghost use Rattle.std.specs.Io.KnownBytes.{ReadConsumes, WriteAppends};
ghost use Rattle.rbd_edge.specs.Stream.{reader_of, read_faults, writer_of, write_faults};

use crate::failed::Failed;
use crate::sink::Sink;
use crate::source::Source;
use std::io::{ErrorKind, Read, Write};

/// How often in a row a call is tried where it is interrupted. An interrupted call has moved no
/// byte, so that trying again is what a user wants; a call that is always interrupted counts as a
/// fault.
const TRIES: u32 = 64;

/// A reader of std as a source. As a source it tells nothing of its bytes, and it fails where the
/// reader does.
#[derive(Drop)]
pub struct StdSource<I> {
    reader: I,
    faults: u64,
}

impl<I: Read> StdSource<I> {
    /// A source that reads from it. No fault is counted yet.
    pub fn new(reader: I) -> Self
        ensures untold { ⟦<StdSource<I> as Source>⟧.left result ≡ None }
        ensures faults { ⟦<StdSource<I> as Source>⟧.faults result ≡ 0 }
        ensures reader { reader_of result ≡ reader }
    {
        StdSource { reader, faults: 0 }
    }
}

#[tactic(auto, using(crate::proofs::Handed::handing))]
impl<I: Read> Source for StdSource<I> {
    ghost use Rattle.std.specs.Prelude.{None};

    ghost left = { λ _. None };

    ghost faults = { λ s. s.faults };

    fn take(&mut self, into: &mut [u8]) -> Result<usize, Failed>
        requires room { 0 < length into.old }
        requires countable { read_faults self.old < 2 ^ 64 - 1 }

        ensures bound { IfOk result (λ n. n ≤ length into.old) }
        ensures quiet { OnOk result (read_faults self.new ≡ read_faults self.old) }
        ensures failed { OnErr result (read_faults self.new ≡ read_faults self.old + 1) }

        // Where the reader's own contract tells its bytes: they are handed on in order, and none is
        // lost.
        ensures handed_on { ReadConsumes (I.remaining (reader_of self.old))
            (I.remaining (reader_of self.new)) result into.new }
    {
        for _ in 0..TRIES {
            match self.reader.read(into) {
                Ok(n) => return Ok(n),
                Err(error) if error.kind() == ErrorKind::Interrupted => {}
                Err(_) => break,
            }
        }
        self.faults += 1;
        Err(Failed)
    }
}

/// A writer of std as a sink. As a sink it tells nothing of its bytes, and it fails where the
/// writer does or takes none of them.
///
/// It is for a writer that keeps nothing back, as std's standard output: each `give` is one write,
/// so that a program gives a whole text and flushes nothing. What a buffer still keeps would be
/// counted as given, and a later failure of its flush seen by nobody.
#[derive(Drop)]
pub struct StdSink<O> {
    writer: O,
    faults: u64,
}

impl<O: Write> StdSink<O> {
    /// A sink that writes to it. No fault is counted yet.
    pub fn new(writer: O) -> Self
        ensures untold { ⟦<StdSink<O> as Sink>⟧.held result ≡ None }
        ensures faults { ⟦<StdSink<O> as Sink>⟧.faults result ≡ 0 }
        ensures writer { writer_of result ≡ writer }
    {
        StdSink { writer, faults: 0 }
    }
}

#[tactic(auto, using(crate::proofs::Handed::handing))]
impl<O: Write> Sink for StdSink<O> {
    ghost use Rattle.std.specs.Prelude.{None};

    ghost held = { λ _. None };

    ghost faults = { λ s. s.faults };

    fn give(&mut self, bytes: &[u8]) -> Result<usize, Failed>
        requires some { 0 < length bytes.now }
        requires countable { write_faults self.old < 2 ^ 64 - 1 }

        ensures progress { IfOk result (λ n. 1 ≤ n) }
        ensures bound { IfOk result (λ n. n ≤ length bytes.now) }
        ensures quiet { OnOk result (write_faults self.new ≡ write_faults self.old) }
        ensures failed { OnErr result (write_faults self.new ≡ write_faults self.old + 1) }

        // Where the writer's own contract tells what it holds: the first bytes are appended.
        ensures handed_on { WriteAppends (O.contents (writer_of self.old))
            (O.contents (writer_of self.new)) result bytes.now }
    {
        for _ in 0..TRIES {
            match self.writer.write(bytes) {
                Ok(0) => break,
                Ok(n) => return Ok(n),
                Err(error) if error.kind() == ErrorKind::Interrupted => {}
                Err(_) => break,
            }
        }
        self.faults += 1;
        Err(Failed)
    }
}
