//! Sources and sinks: over memory, with faults, and over what std reads and writes.
use rbd_edge::*;
use rbd_kinds::NoMemory;
use std::alloc::Global;
use std::io;
use std::io::{ErrorKind, Read, Write};
use std::test::Fail;

/// Whether `abcdefg` comes in blocks of three, and the second call fails.
fn comes_in_blocks(source: &mut MemSource) -> bool {
    let mut block = [0; 5];
    if source.take(&mut block) != Ok(3) || &block != b"abc\0\0" {
        return false;
    }
    if source.take(&mut block) != Err(Failed) {
        return false;
    }
    if source.take(&mut block) != Ok(3) || &block != b"def\0\0" {
        return false;
    }
    if source.take(&mut block) != Ok(1) || &block != b"gef\0\0" {
        return false;
    }
    source.take(&mut block) == Ok(0)
}

#[test]
fn a_source_in_blocks_of_three_fails_at_its_second_call(rt: HostRuntime) -> Result<(), Fail> {
    let bytes = Vec::from_slice(rt.alloc(), b"abcdefg")?;
    let mut source = MemSource::new(bytes, 3, vec![in rt.alloc(); 2]?);
    assert!(rt; comes_in_blocks(&mut source));
    Ok(())
}

/// Whether a text of ten bytes stops behind its first eight.
fn stops_behind_eight(sink: &mut MemSink) -> bool {
    if write_all(sink, b"abcdefghij") != Err(Failed) {
        return false;
    }
    sink.held() == b"abcdefgh".as_slice()
}

#[test]
fn a_sink_with_room_for_eight_is_full(rt: HostRuntime) -> Result<(), Fail> {
    let mut sink = MemSink::new(rt.alloc(), 8, 4, Vec::new(rt.alloc()))?;
    assert!(rt; stops_behind_eight(&mut sink));
    Ok(())
}

/// A sink that takes four bytes at a time, and fails at its third call.
fn failing_third(alloc: Global) -> Result<MemSink, NoMemory> {
    MemSink::new(alloc, 1024, 4, vec![in alloc; 3]?)
}

/// Whether `abcdefg` is taken in three calls, and the one before the last fails.
fn takes_in_calls(sink: &mut MemSink) -> bool {
    if sink.give(b"abcde") != Ok(4) || sink.give(b"e") != Ok(1) {
        return false;
    }
    if sink.give(b"fg") != Err(Failed) || sink.give(b"fg") != Ok(2) {
        return false;
    }
    sink.held() == b"abcdefg".as_slice()
}

#[test]
fn a_sink_fails_at_its_third_call(rt: HostRuntime) -> Result<(), Fail> {
    let mut sink = failing_third(rt.alloc())?;
    assert!(rt; takes_in_calls(&mut sink));
    Ok(())
}

#[test]
fn a_text_stops_at_a_fault(rt: HostRuntime) -> Result<(), Fail> {
    let mut sink = failing_third(rt.alloc())?;
    assert!(rt; stops_behind_eight(&mut sink));
    Ok(())
}

/// Whether what is asked holds, and neither memory nor a source stood in the way.
fn holds(found_out: Result<bool, ReadFault>) -> bool {
    found_out.unwrap_or(false)
}

/// Whether this is read of `abcde` up to a limit.
fn is_read(alloc: Global, limit: usize, wanted: &str) -> Result<bool, ReadFault> {
    let mut source = SureSource::new(Vec::from_slice(alloc, b"abcde")?);
    let read = read_to(alloc, &mut source, limit)?;
    Ok(read.as_slice() == wanted.as_bytes())
}

#[test]
fn reading_stops_at_the_limit(rt: HostRuntime) {
    assert!(rt; holds(is_read(rt.alloc(), 4, "abcd")));
    assert!(rt; holds(is_read(rt.alloc(), 5, "abcde")));
    assert!(rt; holds(is_read(rt.alloc(), 6, "abcde")));
}

/// Whether reading stops at a fault, and then goes on with these bytes.
fn goes_on(alloc: Global, source: &mut MemSource, wanted: &[u8]) -> Result<bool, ReadFault> {
    let Err(ReadFault::Failed) = read_to(alloc, source, 100) else {
        return Ok(false);
    };
    let rest = read_to(alloc, source, 100)?;
    Ok(rest.as_slice() == wanted)
}

#[test]
fn reading_stops_at_a_fault(rt: HostRuntime) -> Result<(), Fail> {
    let bytes = Vec::from_slice(rt.alloc(), b"abcdefg")?;
    let mut source = MemSource::new(bytes, 3, vec![in rt.alloc(); 2]?);
    assert!(rt; holds(goes_on(rt.alloc(), &mut source, b"defg")));
    Ok(())
}

#[test]
fn the_sure_sink_takes_all(rt: HostRuntime) {
    let mut sink = SureSink::new();
    assert_eq!(rt; sink.give(b"abc"), Ok(3));
    assert_eq!(rt; write_all(&mut sink, b"abc"), Ok(()));
}

/// Gives `a`, is interrupted, gives `b`, fails, and gives nothing more.
#[derive(Drop)]
struct Stuttering(u8);

impl Read for Stuttering {
    fn read(&mut self, buf: &mut [u8]) -> io::Result<usize> {
        self.0 = self.0.saturating_add(1);
        match self.0 {
            1 => (&b"a"[..]).read(buf),
            2 => Err(io::Error::from(ErrorKind::Interrupted)),
            3 => (&b"b"[..]).read(buf),
            4 => Err(io::Error::from(ErrorKind::BrokenPipe)),
            _ => Ok(0),
        }
    }
}

/// Whether `hello` is read in two parts.
fn reads_in_two(alloc: Global) -> Result<bool, ReadFault> {
    let mut source = StdSource::new(b"hello".as_slice());
    let first = read_to(alloc, &mut source, 3)?;
    let second = read_to(alloc, &mut source, 3)?;
    Ok(first.as_slice() == b"hel".as_slice() && second.as_slice() == b"lo".as_slice())
}

/// Whether a reader is asked again where it is interrupted, and a fault of its is told.
fn reads_on_and_fails(alloc: Global) -> Result<bool, ReadFault> {
    let mut source = StdSource::new(Stuttering(0));
    let interrupted = read_to(alloc, &mut source, 2)?;
    let failed = read_to(alloc, &mut source, 2);
    Ok(interrupted.as_slice() == b"ab".as_slice() && failed.err() == Some(ReadFault::Failed))
}

#[test]
fn a_reader_is_a_source(rt: HostRuntime) {
    assert!(rt; holds(reads_in_two(rt.alloc())));
    assert!(rt; holds(reads_on_and_fails(rt.alloc())));
}

/// Whether a vector takes all bytes.
fn vector_takes_all(mut written: Vec<u8>) -> bool {
    let mut sink = StdSink::new(&mut written);
    let done = write_all(&mut sink, b"hello") == Ok(());
    done && written.as_slice() == b"hello".as_slice()
}

/// Whether an array that is full takes none of some bytes.
fn array_takes_three() -> bool {
    let mut room = [0; 3];
    let mut sink = StdSink::new(&mut room[..]);
    let failed = write_all(&mut sink, b"hello") == Err(Failed);
    failed && &room == b"hel"
}

#[test]
fn a_writer_is_a_sink(rt: HostRuntime) {
    assert!(rt; vector_takes_all(Vec::new(rt.alloc())));
    assert!(rt; array_takes_three());
}
