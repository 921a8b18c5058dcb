//! The top call.
ghost use Rattle.std.specs.Prelude.{◌≡◌, ◌≢◌, ◌+◌, ◌-◌, ◌^◌, ◌<◌, map, IfOk};
ghost use Rattle.std.specs.String.{string_bytes};
ghost use Rattle.rbd_edge.specs.Sink.{held_with, GainsFront};
ghost use Rattle.rbd_words.specs.Load.{IsLoad};
ghost use Rattle.rbd_lab.specs.Run.{devices, IsToPrint, IsLoadRun, IsRun, IsScriptRun, code_of};

use crate::play::{output, summed};
use crate::script::{fault_line, judged};
use rbd_edge::{ReadFault, Sink, Source, read_to, write_all};
use rbd_kinds::NoMemory;
use rbd_script::{SCRIPT_LIMIT, ScriptFault};
use rbd_text::usage;
use rbd_words::{Asked, Load, Mode};
use std::alloc::Global;
use std::sync::Wait;
use std::thread::Threads;

/// How a run ended.
#[derive(Clone, Copy, Debug, PartialEq, Eq)]
pub enum Status {
    /// The script was played, and what became of each command is printed.
    Done,
    /// The words aren't understood. The usage line is printed.
    Usage,
    /// A line of the script doesn't fit. The first is printed, and nothing was played.
    BadLine,
    /// The script's source failed. Nothing is printed.
    ReadFault,
    /// The sink failed. It has some first part of what was to be printed.
    WriteFault,
    /// A growth of memory was refused. Nothing is printed.
    NoMemory,
}

impl Status {
    /// The exit status.
    pub fn code(self) -> u8
        ensures { result ≡ code_of self }
    {
        match self {
            Status::Done => 0,
            Status::Usage => 1,
            Status::BadLine => 2,
            Status::ReadFault => 3,
            Status::WriteFault => 4,
            Status::NoMemory => 5,
        }
    }
}

/// Runs the program, as [`run_alone`] does. It may start threads and wait for them; no words that
/// are built do.
pub fn run<R: Threads + Wait + Sync, S: Source, K: Sink>(
    _rt: &R,
    alloc: Global,
    words: &[String],
    source: &mut S,
    sink: &mut K,
) -> Status
    requires source_countable { S.faults source.old < 2 ^ 64 - 1 }
    requires sink_countable { K.faults sink.old < 2 ^ 64 - 1 }
    ensures { IsRun (map (λ w. string_bytes w) words.now) result source.old source.new
        (devices (S.left source.old) (K.held sink.old) (S.faults source.old) (K.faults sink.old))
        (devices (S.left source.new) (K.held sink.new) (S.faults source.new) (K.faults sink.new)) }
{
    run_alone(alloc, words, source, sink)
}

/// Runs the program: the words without the program's name, a source that has the script, and a sink
/// for all that is printed.
///
/// A script is read to its end, or to one byte past the limit, before it is judged; one that isn't
/// one plays nothing. Where the words don't ask for a script, the source is left as it is. What is
/// printed is whole before printing begins.
#[tactic(auto, using(crate::proofs::Refused::memory_refused))]
pub fn run_alone<S: Source, K: Sink>(
    alloc: Global,
    words: &[String],
    source: &mut S,
    sink: &mut K,
) -> Status
    requires source_countable { S.faults source.old < 2 ^ 64 - 1 }
    requires sink_countable { K.faults sink.old < 2 ^ 64 - 1 }
    ensures { IsRun (map (λ w. string_bytes w) words.now) result source.old source.new
        (devices (S.left source.old) (K.held sink.old) (S.faults source.old) (K.faults sink.old))
        (devices (S.left source.new) (K.held sink.new) (S.faults source.new) (K.faults sink.new)) }
{
    match Asked::of(alloc, words) {
        Ok(None) => print(sink, usage().as_bytes(), Status::Usage),
        Ok(Some(Asked::Run(mode))) => run_script(alloc, mode, source, sink),
        Ok(Some(Asked::Generate(load))) => run_load(alloc, &load, sink),
        Err(NoMemory) => Status::NoMemory,
    }
}

/// Plays the script that the source has.
fn run_script<S: Source, K: Sink>(alloc: Global, mode: Mode, source: &mut S, sink: &mut K) -> Status
    requires source_countable { S.faults source.old < 2 ^ 64 - 1 }
    requires sink_countable { K.faults sink.old < 2 ^ 64 - 1 }
    ensures { IsScriptRun mode result
        (devices (S.left source.old) (K.held sink.old) (S.faults source.old) (K.faults sink.old))
        (devices (S.left source.new) (K.held sink.new) (S.faults source.new) (K.faults sink.new)) }
{
    let bytes = match read_to(alloc, source, SCRIPT_LIMIT + 1) {
        Ok(bytes) => bytes,
        Err(ReadFault::Failed) => return Status::ReadFault,
        Err(ReadFault::NoMemory) => return Status::NoMemory,
    };
    match answer(alloc, mode, bytes.as_slice()) {
        Ok((status, text)) => print(sink, text.as_slice(), status),
        Err(NoMemory) => Status::NoMemory,
    }
}

/// Plays the script that is generated.
fn run_load<K: Sink>(alloc: Global, load: &Load, sink: &mut K) -> Status
    requires load { IsLoad load.now }
    requires sink_countable { K.faults sink.old < 2 ^ 64 - 1 }
    ensures { IsLoadRun load.now result (K.held sink.old) (K.held sink.new) (K.faults sink.old) (K.faults sink.new) }
{
    match summed(alloc, load) {
        Ok(text) => print(sink, text.as_slice(), Status::Done),
        Err(NoMemory) => Status::NoMemory,
    }
}

/// Prints a text, and ends with the status.
fn print<K: Sink>(sink: &mut K, text: &[u8], status: Status) -> Status
    requires { K.faults sink.old < 2 ^ 64 - 1 }
    ensures printed { result ≢ Status.WriteFault → (result ≡ status)
        × (K.held sink.new ≡ held_with text.now (K.held sink.old)) × (K.faults sink.new ≡ K.faults sink.old) }
    ensures failed { status ≢ Status.WriteFault → result ≡ Status.WriteFault
        → GainsFront text.now (K.held sink.old) (K.held sink.new) × (K.faults sink.new ≡ K.faults sink.old + 1) }
{
    match write_all(sink, text) {
        Ok(()) => status,
        Err(_) => Status::WriteFault,
    }
}

/// What is to be printed for the bytes of a source, and the status that goes with it.
fn answer(alloc: Global, mode: Mode, bytes: &[u8]) -> Result<(Status, Vec<u8>), NoMemory>
    ensures { IfOk result (λ x. IsToPrint mode bytes.now x.0 x.1.items) }
{
    match judged(alloc, bytes) {
        Ok(script) => Ok((Status::Done, output(alloc, mode, &script)?)),
        Err(ScriptFault::Line(fault)) => Ok((Status::BadLine, fault_line(alloc, &fault)?)),
        Err(ScriptFault::NoMemory) => Err(NoMemory),
    }
}
