//! What a session asks for, and why it may be refused: commands and refusals as plain data.
//!
//! A [`Command`] in memory is one that a script may spell: its names are such as a session may ask
//! for, and its numbers lie in the ranges of the grammar. What it does is no matter of this crate:
//! the crates of requests say it, each of theirs.
//!
//! ```text
//! Command::Info { image }.try_clone()?          the same command once more
//! Payload::new(Bytes::new(alloc))               None: a write has 1 to 65,536 bytes
//! format!(in alloc; "{}", Refusal::BadRange)?   error 22 BadRange
//! ```
//!
//! A copy of a command may be refused memory; it copies no payload that is shared.
#![tactic(auto)]

mod command;
mod command_copy;
mod quiescing;
mod refusal;

pub use command::{Command, FillLength, Payload, ReadLength, Shape};
pub use quiescing::Quiescing;
pub use refusal::Refusal;
