//! The requests of `close`, `quiesce`, `resume` and `tell`: those by which a session gives an image
//! up, holds its own changes of it back and lets them go on, or tells its watchers something.
//!
//! ```text
//! let close = CloseRequest::new(SiteId::A, close_disk);          // close disk
//! let reply = run(close)?;               // by the loop that `rbd_machine` shows: Reply::Done
//! ```
//!
//! [`CloseRequest`] is one machine for the four commands.
//!
//! # Rules
//!
//! | command | steps |
//! |---|---|
//! | `close` | `dir-find`; alone in the line `lock-drop`, and `notify` ReleasedLock; `unwatch` |
//! | `quiesce` | to its look under the lock, alone |
//! | straight: `resume`, `tell` | `dir-find`; where it tells something, `notify` Custom |
//!
//! - An operation that is answered `none` ends a request with NoImage, and one that is answered
//!   `fenced` with Fenced. Nothing else refuses one: a secondary may be quiesced, too.
//! - **`close`** (Ceph: closing an image releases its exclusive lock and unregisters its watch; the
//!   order of the operations is own) takes no lock and makes no look under the lock. It gives up
//!   what the client has, or may have. Only where its `lock-drop` is `done` it tells the watchers.
//!   Where that is answered `changed`, the lock is another's or nobody's; the watch ends all the
//!   same. Whatever the `lock-drop` is answered, what the client counts of that lock ends
//!   (`rbd_lock`).
//! - **`quiesce`** (Ceph: a client of librbd quiesces its writes for a snapshot; that a session
//!   does so by a command, for its own requests alone, is own) counts from its look under the lock
//!   on.
//! - **A straight command** has a row in `rbd_meaning` (`specs/Straight.antt`), which says what it
//!   tells. It needs neither lock nor line.
//! - **`resume`** tells nothing. It joins no line, since the requests in it wait for it. It ends a
//!   quiesce of its own session alone, and is done without one, too (own).
//! - **`tell`** tells bytes (Ceph: a notification on the header object; what it says is the client's
//!   own). The notice goes to each watcher but the sender, and may come late, never, or several
//!   times.
//!
//! A `close` and a `quiesce` both want to join their line, and then to hold. What it takes until
//! they may go on there is the client's rule, by the command:
//!
//! | | `quiesce` | `close` |
//! |---|---|---|
//! | earlier requests of the line | have ended | have ended |
//! | the lock | is taken, unless the client has it | isn't taken |
//! | a quiesce, or a wish for the lock | holds it back | doesn't hold it back |
//! | later requests of the line | wait until it has ended | wait until it has ended |
//! | a release of the lock | waits for it from its `lock-take` on | doesn't wait for it |
//!
//! # Contracts
//!
//! - A request that is made has the plan of its command left, and keeps to it
//!   ([`Machine`](rbd_machine::Machine)).
//! - [`laws`] say how many operations each plan has at most, that none begins a part again, that
//!   each keeps to its line, that each is lawful from nothing known, and what each reply means.
//! - Of a `close`, wherever it stands or ends: its lock counts as let go from its drop on. It tells
//!   of a drop exactly where that was done. Its watch ends behind a drop that was done and told of,
//!   or that was answered `changed`.
//! - The others neither take a lock nor drop one by an operation of their own.
//!
//! | file | what it says |
//! |---|---|
//! | `specs/Close.antt` | the plan of each command, and what is left of a request |
//! | `specs/Meaning.antt` | what a `close` did, up to any end of it, and what stands behind what |
//!
//! # Cost
//!
//! A `close` has four operations at most, a `quiesce` three beside those of its way to the lock, a
//! `resume` one and a `tell` two. A request holds the parts of its command without a copy.
//! `dir-find` copies the name, and the `notify` of a `tell` its bytes, each time that it is asked
//! for. Nothing else takes memory.
#![tactic(auto)]

pub mod laws;
mod operations;
mod request;

pub use request::CloseRequest;
