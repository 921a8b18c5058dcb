//! Who watches an image, and what watchers are told (Ceph: watch and notify).
//!
//! ```text
//! let mut watchers = Watchers::new(alloc);
//! watchers.watch(first)?;
//! watchers.watch(second)?;
//! watchers.watch(first)?;                  // it keeps its place
//! watchers.list()?                         // first, second
//! watchers.receivers(first)?               // second
//! watchers.oldest(session)                 // the first of this session's lives that watches
//!
//! let mut mail = Mail::new(alloc);
//! mail.post(site, image, first, &[second], &NoticeKind::RequestLock)?;
//! mail.get(1)                              // the notice to the second
//! ```
//!
//! # Rules
//!
//! - Watchers stand in order of registration. To watch again changes nothing, and to end a watch
//!   leaves the others in their order.
//! - A notice goes to the watchers but its sender, in their order (own; in Ceph a notify also
//!   reaches a watch of its sender).
//! - Where several lives of a session watch, the oldest is the one with the least life.
//! - A post makes one notice for each receiver, in their order. Notices are numbered from 1 without
//!   gaps, and one numbering serves both sites, so a number alone says which is meant. A refused
//!   post makes none.
//! - A notice stays for good (own; Ceph forgets one that was acknowledged): it may be delivered
//!   late, never, or several times. Who gets it, and when, is said by the layer above.
//!
//! # Contracts
//!
//! Contracts see [`Watchers`] as the list of instances, without repetition, and [`Mail`] as the
//! list of its notices, oldest first. [`laws`] says what a post means for a reader, that a sender
//! isn't among its receivers, and that the oldest watch of a session is one of its watches.
//!
//! # Cost
//!
//! `watch` is a look-up by hash. `unwatch` also moves the watchers behind, `list` copies all, and
//! `others` looks at those up to the one that it finds. `receivers` is one copy of all, from which
//! the sender is taken, and `oldest` looks at all. A post costs the notices that it makes, however
//! many stand already, but for the moves of a vector that grows. `get` is an index. Only `watch`,
//! `list`, `receivers` and `post` take memory.
//!
//! # How it works
//!
//! A set in order of insertion, and a vector of notices. A post makes its notices beside the
//! vector, with their copies of what is told, and then moves them all there.
#![tactic(auto)]

pub mod laws;
mod mail;
mod watchers;

pub use mail::Mail;
pub use watchers::Watchers;
