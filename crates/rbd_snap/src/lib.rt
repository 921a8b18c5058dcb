//! The requests of `snap create`, `snap rm` and `snap rollback`, and the parts of which they are
//! made.
//!
//! ```text
//! let take = SnapRequest::new(SiteId::A, snap_create);           // snap create disk@monday
//! let reply = run(take)?;                // by the loop that `rbd_machine` shows: Reply::Done
//!
//! let back = RollbackRequest::new(SiteId::A, snap_rollback);     // snap rollback disk@monday
//! let reply = run(back)?;                // Reply::Done: the head is what monday shows
//! ```
//!
//! | request | change | part, behind its event |
//! |---|---|---|
//! | [`SnapRequest`] (`snap create`) | [`SnapChange`] | [`SnapPart`]: [`TakeSnap`] |
//! | [`SnapRequest`] (`snap rm`) | [`SnapChange`] | [`SnapPart`]: [`RemoveSnap`] |
//! | [`RollbackRequest`] | [`RollbackChange`] | [`Rollback`] |
//!
//! A request is the machine of `rbd_change` for a change that is alone on its image. The change
//! says why it is refused, its event, and its part. A part is for whoever does what an event says:
//! the request that noted it, or the replay of a journal.
//!
//! # Rules
//!
//! Each request goes to its look under the lock, alone in the image's line, has its event noted,
//! does its part, and then the event counts as applied. It is refused with NoImage where the name
//! is no image's. At both looks its header refuses it by the first of these:
//!
//! | request | refused |
//! |---|---|
//! | `snap create` | NonPrimary; SnapExists; BadShape where no more snapshots can be |
//! | `snap rm` | NonPrimary; NoSnap; SnapProtected where the snapshot may have clones |
//! | `snap rollback` | NonPrimary; NoSnap |
//!
//! | part | operations |
//! |---|---|
//! | [`TakeSnap`] | `map-get`, `map-put`, `header-snap-add` |
//! | [`RemoveSnap`] | `header-snap-remove`, `map-remove` |
//! | [`Rollback`], first | those of a new size, the snapshot's (`Size` of `rbd_pieces`) |
//! | then, of each object by number | a `data-read` at the snapshot, and a `FullPiece` of it |
//!
//! - An operation that is answered `none` ends the request with NoImage, unless it is said
//!   otherwise below, and one that is answered `fenced` with Fenced.
//! - A snapshot's map is put before the header lists the snapshot, with the bits that the head's
//!   map was told to have (Ceph: a snapshot has an object map of its own). Its id is one more than
//!   the last of the header of the look under the lock: alone on the image, nobody else takes one.
//! - That map is removed once the header doesn't list the snapshot. One that isn't there is passed
//!   over.
//! - A rollback leaves all snapshots as they are, the later ones too (Ceph: `rbd snap rollback`).
//!   Its changes go under the snapshot context of the look under the lock, so that a later snapshot
//!   keeps what the head had.
//! - The size is set first. So no object is restored past the head's end, and what a shrink cuts is
//!   zeros before the size says so.
//! - An object that isn't there at the snapshot becomes zeros. Outside the overlap it goes. Inside
//!   it stays without bytes, so that its parent's bytes don't show. The overlap is that of the head
//!   at the snapshot's size.
//! - Where the fence ends a rollback, the image may be between two sizes, or have some objects of
//!   the snapshot and others of before. Its event is in the journal.
//!
//! # Contracts
//!
//! - A request that is made has the plan of its command left, and keeps to it
//!   ([`Machine`](rbd_machine::Machine)). The parts keep to theirs with any plan behind them.
//! - [`laws`] and [`rollback_laws`] say of each plan how many operations it has at most, that it
//!   begins no part again, that it is lawful from nothing known, what was done where it is done,
//!   and that each reply is meant. What a rollback had done where it is refused is the front of a
//!   whole one; this is said of images without a parent.
//!
//! The definitions are read after those of `rbd_pieces` and `rbd_change`, in this order. What the
//! commands refuse, and what their replies mean, stands in `Snaps` and `Rollbacks` of
//! `rbd_meaning`.
//!
//! | file | what it says |
//! |---|---|
//! | `specs/Snap.antt` | the plans of `snap create`, `snap rm` and their parts |
//! | `specs/SnapParts.antt` | what is left of such a part |
//! | `specs/Snapping.antt` | what is left of such a request, in the words of `rbd_change` |
//! | `specs/SnapLaws.antt` | lemmas on these parts; it defines nothing |
//! | `specs/Rollback.antt` | the plan of the part (`roll_back`), and of the request (`rollback`) |
//! | `specs/Restore.antt` | where the objects of a head stand that are restored |
//! | `specs/Rolling.antt` | what is left of a rollback, as a part and as a request |
//! | `specs/RollbackTold.antt` | a word of the law on how many operations a rollback has |
//! | `specs/RollbackLaws.antt` | lemmas on the part of a rollback; it defines nothing |
//!
//! # Cost
//!
//! A request has three operations up to its look under the lock, and those of its part:
//!
//! | part | operations at most |
//! |---|---|
//! | [`TakeSnap`] | 3 |
//! | [`RemoveSnap`] | 2 |
//! | [`Rollback`] to more | 2, and 4 for each object of the snapshot |
//! | [`Rollback`] to less | the same, and 3 for each object with a byte from the new size on |
//!
//! Memory is taken by `next` and `ready`, which may be refused it without a change. A request holds
//! the names of its command without a copy; an operation that names something copies the name once,
//! and a `snap create` once more, for its part. The bits of a map are copied where they aren't
//! shared. A rollback copies the header at its look under the lock, makes the pieces of all
//! objects, and copies the bytes of each `data-read` that aren't shared.
//!
//! # How it works
//!
//! A [`Rollback`] is a `Size` of `rbd_pieces`, and then the objects. These hold the piece that is
//! restored and a queue of those after it, with the header at the new size. By its invariant each
//! piece has all bytes that the head has in its object.
#![tactic(auto)]

pub mod laws;
mod remove_snap;
mod restore;
mod rollback;
pub mod rollback_laws;
mod rollback_request;
mod snap;
mod take_snap;

pub use remove_snap::RemoveSnap;
pub use rollback::Rollback;
pub use rollback_request::{RollbackChange, RollbackRequest};
pub use snap::{SnapChange, SnapPart, SnapRequest};
pub use take_snap::TakeSnap;
