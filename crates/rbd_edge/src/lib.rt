//! The outside, as two traits: a [`Source`] of bytes and a [`Sink`] for them.
//!
//! A program that is generic over both is proved for standard input and output, for vectors, and
//! for devices that fail at a chosen call. Each device has two meanings that only contracts see:
//!
//! - the bytes: what a source has `left`, and what a sink has `held`, or `None` where the device
//!   tells nothing of them, as a pipe;
//! - the count of `faults`. An `Ok` leaves it as it was, and [`Failed`] raises it by one. So no
//!   program can answer a fault of its own making, and none can keep one back.
//!
//! # Use
//!
//! ```text
//! let text = read_to(alloc, &mut source, limit)?;     // to the end, or `limit` bytes
//! write_all(&mut sink, text.as_slice())?;
//! ```
//!
//! | device | tells its bytes | fails |
//! |---|---|---|
//! | [`StdSource`], [`StdSink`] over a reader, a writer | no | where that fails |
//! | [`SureSource`], over a vector | yes | never |
//! | [`SureSink`], which keeps nothing | no | never |
//! | [`MemSource`], [`MemSink`], for tests | yes | at the calls that are listed, and where full |
//!
//! # Cost
//!
//! A byte is copied once by `take` and once by `give`. [`read_to`] reads blocks of 64 KiB into a
//! buffer of that size on the heap and appends them to a vector that doubles as it grows, so that
//! its time is linear in what it reads. [`write_all`] takes no memory, and neither does any `take`
//! or `give`.
//!
//! # How it works
//!
//! `read_to` and `write_all` are loops over `take` and `give` that know nothing but the clauses of
//! the traits. [`StdSource`] and [`StdSink`] are the edge of what is proved: a few lines that hand
//! on what std's reader or writer answers, and count its errors. No contract says which bytes a
//! real stream gives or takes; where the contract of a reader or a writer tells its bytes, as a
//! slice's or a vector's does, they are shown to be handed on.
#![tactic(auto)]

mod calls;
mod failed;
mod memory_sink;
mod memory_source;
mod read;
mod sink;
mod source;
mod stream;
mod sure;
mod write;

pub use failed::Failed;
pub use memory_sink::MemSink;
pub use memory_source::MemSource;
pub use read::{ReadFault, read_to};
pub use sink::Sink;
pub use source::Source;
pub use stream::{StdSink, StdSource};
pub use sure::{SureSink, SureSource};
pub use write::write_all;
