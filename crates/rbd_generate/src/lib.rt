//! The generator: a script that a few numbers draw, and the summary of what came of it.
//!
//! ```text
//! let load = Load { seed: 7, clients: 4, commands: 1000 };   // 4 clients, 1,000 commands each
//! let script = generated(alloc, &load)?;                     // 4,004 commands
//! summary(alloc, &script, history)?                          // commands 4004 ok 4004 refused 0 ..
//! ```
//!
//! ```text
//! client g1 a                          the script of seed 0, 1 client, 4 commands
//! g1 create i1 1048576 object 4096
//! @settle 1000000
//! g1 fill i1 1984 64 1f                31 is drawn: at 64 * 31, and 31 % 4 is 3
//! g1 fill i1 3072 64 30                48
//! g1 read i1 4160 64                   65
//! g1 discard i1 5248 64                82
//! ```
//!
//! # Rules
//!
//! - The clients `g1`, `g2` and so on are sessions of site a. Each makes an image of 1,048,576
//!   bytes with objects of 4,096, `i1`, `i2` and so on, and then all images are made.
//! - Behind that turn follows turn, from 0 on, and in each the clients have one command each, in
//!   their order. In turn `t` the number of client `c` is `7 * seed + 31 * c + 17 * t` modulo
//!   65,536, and its command is for image `1 + (c + t) % clients`. It is about the 64 bytes at 64
//!   times the number modulo 16,384.
//! - By the number modulo 4 it is a `fill` (0 and 3) with the number modulo 256, a `read` (1) or a
//!   `discard` (2).
//! - The summary has the commands of the script, the replies that aren't refusals, the refusals,
//!   the commands without a reply, and the bytes that reads showed.
//!
//! # Contracts
//!
//! [`generated`] makes exactly `script_of` (`specs/Generated.antt`), and [`summary`] is exactly
//! `summary_text` (`specs/Summary.antt`) of any script and history. [`laws`] says how many commands
//! there are, that each lies inside its image, and that the lines follow one another.
//!
//! # Cost
//!
//! A command of the script takes its name and its place in memory. The summary goes over the
//! history a few times, and keeps a place for each line with a reply.
#![tactic(auto)]

mod command;
pub mod laws;
mod names;
mod script;
mod tally;

pub use script::generated;
pub use tally::summary;
