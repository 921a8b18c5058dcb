//! Parts of an object, and what a read, a write and a zero are, byte by byte.
//!
//! ```text
//! let parts = [Part { offset: 4, at: 0, len: 2 }, Part { offset: 0, at: 2, len: 1 }];
//! gather(alloc, b"abcdef", &parts)?            efa
//! scatter(&mut bytes, &parts, b"xyz")          of `abcdef`: zbcdxy
//! copy_window(b"abc", 2, &mut buffer)          `c`, and zeros
//! ```
//!
//! A request names *parts* of an object, each some bytes that lie together. [`gather`] takes the
//! bytes at the parts out of some bytes, [`scatter`] puts bytes at the parts, and [`shifted_parts`]
//! are the parts as they lie in bytes that begin at a byte of the image, such as the bytes that a
//! caller gave for an extent. [`bytes_for`] takes those that parts have out of such bytes, and
//! copies none where they lie together in shared bytes. Past its last byte an object reads as
//! zeros, so each of these may reach past the end of the bytes that it reads.
//!
//! The definitions say of a list of bytes what is read of it (`window`), and what it becomes by a
//! write (`overwritten`) and by a zero (`zeroed`), and the same of parts one after another. The
//! code costs the bytes that it copies.
#![tactic(auto)]

mod parts;
mod stretch;

pub use parts::{LARGEST_OBJECT, clear, copy_over, copy_window, gather, scatter, shifted_parts};
pub use stretch::bytes_for;
