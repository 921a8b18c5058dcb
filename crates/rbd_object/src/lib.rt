//! Objects with self-managed snapshots, as RADOS has them: the object remembers what it was for
//! each snapshot that it was told of, and each change says which snapshots there are.
//!
//! ```text
//! let mut object = Object::new(alloc);                 // the head is absent, and its number `seq` is 0
//! object.write(&none, 0, b"old")?;                     // its context lists no snapshot
//! object.write(&one, 0, b"new")?;                      // snapshot 1 was taken between
//! object.read(None, 0, &mut buffer)                    // new
//! object.read(Some(SnapId(1)), 0, &mut buffer)         // old
//! object.trim(&[]);                                    // snapshot 1 was removed: it shows nothing
//! ```
//!
//! # Rules
//!
//! Ceph: RADOS self-managed snapshots. A change carries a context: a number, and the snapshots that
//! exist.
//!
//! 1. The head as it was is kept for each listed snapshot above `seq` and up to the number. An
//!    absent head is not kept.
//! 2. `seq` becomes the greater of `seq` and the number.
//! 3. The head is changed.
//!
//! A snapshot above `seq` shows the head, any other what is kept for it, and is absent where that
//! is nothing. A copy-up carries no context: it fills an absent head, and each snapshot above `seq`
//! with it (own; Ceph: RBD layering). Past its last byte an object reads as zeros.
//!
//! # Contracts
//!
//! Contracts see an [`Object`] as a value with `head`, `seq` and `kept`, a finite map from
//! snapshots to bytes. Each change says what the whole value becomes, and that it stays where
//! memory is refused. What that means for each view is said once, in [`laws`], of versioned
//! objects, whose `kept` is a function: the value stands for one (`versioned`), and both change
//! alike. The first law to read is [`laws::views_of_snapshots_stay`].
//!
//! # Cost
//!
//! Head and versions lie on the pages of `rbd_pages`, which says what its changes cost. The first
//! change after a snapshot adds an index and a count for each sheaf of the object where the head
//! stays in place (`write`, `zero`). The first change in a sheaf then adds an index and a count for
//! each of its pages, and the first one on a page copies it. Where the head is replaced
//! (`write_full`, `empty`, `remove`) the old one moves into the version. A change of several parts
//! costs as much each time, since the head is held beside it until the last part is done; that of
//! one part doesn't. A context whose number isn't above `seq` costs nothing. A read copies into the
//! caller's buffer alone; that of a snapshot looks through the versions first, newest first. A trim
//! looks at each snapshot that something is kept for, and at the sheaves of what it drops, and at
//! the pages of those that no other content names.
//!
//! [`Object::pages`] is the number of pages that some content names, each counted once. What each
//! call may add to it stands in the contracts of [`PagedObject`], which has the same calls and
//! whose contracts see that number beside the object's value. [`Object`] is its front: its
//! contracts know no pages. [`PagedObject::page_places`] and [`PagedObject::sheaf_places`] tell how
//! many places there are for pages and sheaves. Free ones are taken again before there are more, so
//! there are never more than a call may have had in use at one time ([`laws::places_were_in_use`]).
//!
//! # How it works
//!
//! The head and the versions are contents on the same sheaves (`rbd_pages`), each named by as many
//! places as its count says. Beside the head stands a queue of versions, newest first: contents
//! that the head once had, and the snapshots that they are kept for. No version is left that no
//! snapshot needs. A change that keeps the head shares it first, and lets it go again where the
//! change is refused memory.
#![tactic(auto)]

mod change;
mod heads;
pub mod laws;
mod object;
mod paged;
mod version;
mod versions;

pub use object::Object;
pub use paged::PagedObject;
pub use rbd_parts::LARGEST_OBJECT;
