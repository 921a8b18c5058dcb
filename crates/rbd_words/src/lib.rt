//! The words of the command line.
//!
//! ```text
//! run                                           a script is read and played, and its replies printed
//! run --trace                                   history and operation logs too
//! gen --seed 7 --clients 4 --commands 1000      a script is generated and played, and a summary printed
//! gen --commands=1000 --seed=7 --clients 4      the same
//! ```
//!
//! # Rules
//!
//! - The command comes first, and then its options, each at most once, in any order. A value is the
//!   next word, or stands in the option's word behind `=`.
//! - All three options of `gen` are wanted. Their values are decimal numbers without sign or
//!   leading zeros: `--seed` below 2^32, `--clients` 1 to 16, `--commands` to 10,000.
//! - All other words are others: `--` and a help flag too, an option's first letters, and an option
//!   that another command has.
//!
//! # Contracts
//!
//! [`Asked::of`] is exactly `asked_for_by` (`specs/Words.antt`), a function of the words. [`laws`]
//! says that the three options ask for their numbers in each order and in each of their forms.
//!
//! # Method
//!
//! The kit's `clap` reads the words, by a command that is built for them (`specs/Command.antt`).
//! Its contract tells which lists of words have faults, and what the others are matched with;
//! `proofs/Commands.antt` shows that the rules above say the same of every list.
//!
//! # Cost
//!
//! A few passes over the words, and memory for the command and the matches, which may be refused.
#![tactic(auto)]

mod asked;
mod command;
pub mod laws;
mod load;
mod options;
mod words;

pub use asked::{Asked, Mode};
pub use load::Load;
