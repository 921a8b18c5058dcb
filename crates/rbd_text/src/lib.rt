//! The output text: what a run prints of its history.
//!
//! A *history* tells in order what happened: which command began, which single operation on which
//! site was done for it, which reply it was given, which session was stopped. Each site keeps a
//! *log* of its operations. [`replies`] prints a line for each reply of a history, and then one for
//! each command of the script that has none. [`trace`] prints history and logs before that.
//! [`usage`] is the line for words that aren't understood. [`push_line`], [`push_log`] and
//! [`push_reply`] append one line of a history, one log and one reply.
//!
//! ```text
//! replies(alloc, &script, &history, &a, &b)       3 c1 ok
//!                                                 4 c1 ok 68656c6c6f
//!                                                 5 c1 error 22 BadRange
//!                                                 6 c2 unfinished waiting c1.0
//!                                                 8 c2 unsent
//!
//! trace(alloc, &script, &history, &a, &b)         h 1 start 2 c1.0
//!                                                 h 2 effect 2 a1 name
//!                                                 h 3 reply 2
//!                                                 o a1 c1.0 dir-add rbd_directory id
//!                                                 2 c1 ok
//! ```
//!
//! # The forms
//!
//! A reply's line is the line of its command, the session's name and the reply, in the order of the
//! history. The others follow in the order of the script: `lost` where the session was stopped with
//! the command under way, `unsent` where it never began, `unfinished` else, with `waiting` and the
//! owner where its last attempt at an image's lock, at either site and also in a replay, was
//! answered that another instance has it.
//!
//! A line of the history begins with `h` and its place from 1, a line of a log with `o`, the site's
//! letter and the operation's number. An instance is a session's name and the number of its life.
//! Ids are decimal, but in the names of objects they are lower-case hexadecimal, and the number of
//! a data object, and a snapshot behind a map's name, have 16 digits (Ceph: the names of an image's
//! RADOS objects). The rest of the forms is this project's own: each stands once, in
//! specs/Names.antt, Objects.antt, Replies.antt, Entries.antt, Operations.antt and Unanswered.antt.
//!
//! # Contracts
//!
//! The text is exactly `replies_text` or `trace_text` (specs/Text.antt), for any script, history
//! and logs, also those that no run makes: a session that isn't declared prints no name. One
//! condition there is: a header that a reply tells has a layout within the limits and a size below
//! 2^63, since its objects are counted.
//!
//! # Cost
//!
//! Time and memory are linear in script, history, logs and text. The history is gone over once for
//! the replies and once for the others, and an operation is found by its number, as is what is kept
//! of a line. The text is given room for about its length at once, and what a read showed is held a
//! second time while it is printed. Nothing of what is printed is copied.
//!
//! # How it works
//!
//! One printer for each form appends to a vector, and its contract is one equation: the text
//! before, and the form (word.rt, numbers.rt, names.rt, objects.rt, reply.rt, info.rt, snaps.rt,
//! entries.rt, operations.rt, lines.rt). speakers.rt keeps whose each line of the script is, and
//! progress.rt how far each command has come: which lines were started, answered and lost, and whom
//! each line's last attempt at a lock found.
#![tactic(auto)]

mod entries;
mod info;
mod lines;
mod names;
mod numbers;
mod objects;
mod operations;
mod output;
mod progress;
mod reply;
mod room;
mod snaps;
mod speakers;
mod word;

pub use entries::push_line;
pub use operations::push_log;
pub use output::{replies, trace, usage};
pub use reply::push_reply;
