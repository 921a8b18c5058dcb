//! The script: sessions that are declared, their commands, and the events that a schedule asks for.
//!
//! ```text
//! client c1 a                      a session and its home site
//! c1 create disk 8192              its commands
//! & c1 read disk@new 0 16          one that doesn't wait for those before it
//! @until c1 1 lock-take            a line of a schedule
//! # passed over
//! ```
//!
//! ```text
//! read(alloc, b"client c1 a\nc1 ls\n", false)?       a session, and one line: number 2, `ls` of session 0
//! read(alloc, b"client c1 a\nc1 walk disk", false)   line 2: unknown word
//! read(alloc, b"@settle 1", true)                    line 1: schedule line
//! ```
//!
//! # Rules
//!
//! - A line ends with a line feed, and the last may lack it. Its tokens stand between spaces. A
//!   line without tokens, or whose first byte is `#`, is passed over and counted.
//! - A form is a list of parts (`specs/Form.antt`, with the forms in `specs/Command.antt` and
//!   `specs/Schedule.antt`): places of one token, and options. What a token says in a place is told
//!   in `specs/Number.antt`, `Hex.antt`, `Name.antt`, `Session.antt` and `Word.antt`.
//! - The parts are read from left to right, and the first fault decides: in a place, no token is a
//!   missing part, and a token outside the place's rule an unknown word, a bad number or a bad
//!   name; a token behind the last part is an extra part. Where options may still stand, another
//!   word is an unknown word, and so is an option twice or out of order (own).
//! - A session is declared once, before its use, and at most 32 are: a name beyond that is a bad
//!   name (own).
//! - With threads a line whose first token begins with `@` is a schedule line.
//! - A script has at most 16,777,216 bytes. The line with the first byte too many is an extra part,
//!   whatever else is wrong in it.
//!
//! # Contracts
//!
//! [`read`] answers exactly `reading` (`specs/Reading.antt`): the script that the bytes are, or the
//! first fault of the first line that has one. Want of memory may come in place of either. [`laws`]
//! says that a command, a line of a schedule and a declaration are each read of the tokens that
//! spell them, and of no others.
//!
//! # Cost
//!
//! One pass over the bytes. Nothing is copied but names and bytes in hexadecimal, once each, and a
//! token too long for its place isn't. A session is looked up among those declared, 32 at most.
//!
//! # How it works
//!
//! [`read`] cuts lines, `Script::add_line` one line into its first token and the rest, and `Tokens`
//! hands out parts. One function a form asks for its parts in their order and ends with `end`,
//! which refuses what is left.
#![tactic(auto)]

mod command;
mod fault;
pub mod laws;
mod line;
mod lines;
mod mirror;
mod name;
mod number;
mod payload;
mod place;
mod reader;
mod schedule;
mod script;
mod session;
mod snap;
mod tokens;
mod verb;
mod word;

pub use fault::{LineCause, LineFault, ScriptFault};
pub use reader::{SCRIPT_LIMIT, read};
pub use script::{Declared, Line, Lines, Said, Script, Sessions};
