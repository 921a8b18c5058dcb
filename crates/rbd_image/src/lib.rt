//! The requests that make, show, rename, resize and remove images, and the removal of an image as a
//! part.
//!
//! ```text
//! let create = CreateRequest::new(SiteId::A, create_disk);       // create disk 8192 object 4096
//! if let Some(refusal) = create.refusal() {
//!     return Ok(Reply::Refused(refusal));                        // a shape outside the limits
//! }
//! let reply = run(create)?;              // by the loop that `rbd_machine` shows: Reply::Done
//!
//! let rm = RemoveRequest::new(SessionNo(0), SiteId::A, rm_disk);
//! let reply = run(rm)?;                  // Reply::Done: nothing of the image is left
//! ```
//!
//! | type or call | what it is |
//! |---|---|
//! | [`CreateRequest`] | `create` |
//! | [`ListRequest`] | `ls`, `info`, `snap ls`, `du` and `rename` |
//! | [`ResizeRequest`] | `resize`: the machine of `rbd_change`, made of the two below |
//! | [`SizeChange`], [`NewSize`] | why a resize is refused; what it does behind its event |
//! | [`RemoveRequest`] | `rm` |
//! | [`Remove`], [`Remnant`] | the removal of an image, as a part; one thing that it takes away |
//! | [`map_get`] | the operation that asks for the states of the head's object map |
//!
//! # Rules
//!
//! | command | steps |
//! |---|---|
//! | `create` | `dir-add`, `map-resize`, `header-create` |
//! | `ls` | `dir-list` |
//! | `info`, `snap ls` | `dir-find`, `header-get` |
//! | `du` | `dir-find`, `header-get`, `map-get` |
//! | `rename` | `dir-rename` |
//! | `resize` | to its look under the lock, its event, a [`NewSize`], applied |
//! | `rm` | to its look under the lock, with a `watchers-get` behind each look; a [`Remove`] |
//!
//! A `resize` and an `rm` go to their look under the lock alone in the image's line. What refuses a
//! command is tested in this order, of these two at both looks:
//!
//! | refusal | where |
//! |---|---|
//! | NoImage | no image has the name |
//! | NonPrimary | a `resize` or an `rm` of a secondary |
//! | BadShape | a size has more than 2^20 objects (own), or a layout is outside its limits |
//! | ImageExists | the name of a `create`, or the new name of a `rename`, is held |
//! | HasSnaps | an `rm` of an image that has a snapshot (Ceph) |
//! | InUse | an `rm` of an image that an instance of another session watches (Ceph) |
//!
//! - A `create` is refused with BadShape before any operation, and also where the site has no more
//!   names or ids (own). An image's map is made before its header, with a state for each object of
//!   its size.
//! - Any operation may be answered `fenced`, which ends the request with Fenced.
//! - A `du` counts the objects of the size that the header tells, and among them those whose state
//!   in the head's map isn't 0. A map never becomes shorter (own): what it has past the size
//!   doesn't count. It waits for nothing, so a request beside it may change the size between its
//!   two looks (own).
//! - What a resize cuts is zeros before the size says so. Where the fence ends it, the image may be
//!   between two sizes; its event is in the journal.
//! - Lives of an `rm`'s own session count as itself: a session that opened an image may remove it.
//!
//! A removal takes what an image is in this order (own):
//!
//! | what | operation | where it isn't there |
//! |---|---|---|
//! | its name | `dir-remove` | is passed over |
//! | its header | `header-remove` | NoImage |
//! | its entry in its parent's list, if it has a parent | `child-remove` | is passed over |
//! | each object whose state isn't 0, ascending | `data-remove` | `none` is no answer to it |
//! | the head's map | `map-remove` | NoImage |
//! | each snapshot's map, oldest first | `map-remove` | is passed over |
//! | its journal, if it has one | `journal-remove` | NoImage |
//!
//! The name and the header go first. So nobody finds the image while its objects go, nor what is
//! left of it where a removal is cut off. Nothing of an object is kept for a snapshot.
//!
//! # Contracts
//!
//! - A request that is made has the plan of its command left, and keeps to it
//!   ([`Machine`](rbd_machine::Machine)). The parts keep to theirs with any plan behind them.
//!   Whoever makes a [`Remove`] owns the image, and gives the header of its look under the lock.
//! - [`laws`], [`resize_laws`] and [`removal_laws`] say of each plan how many operations it has at
//!   most, that it begins no part again, that it is lawful from nothing known, and that each reply
//!   is meant: what was done, what is shown of what was told, and which answer refused it. What a
//!   `resize` or an `rm` had done where it is refused is the front of a whole one.
//! - An `rm` that ends well has removed exactly what the list above names. That its journal is
//!   there, where it has one, is a premise, which holds where no header tells one. What is said of
//!   a `resize` is said of images without a parent.
//!
//! The definitions are read after those of `rbd_machine`, `rbd_pieces` and `rbd_change`. What the
//! commands refuse, and what their replies mean, stands in `rbd_meaning`.
//!
//! | file | what it says |
//! |---|---|
//! | `specs/Create.antt` | the plan of `create` |
//! | `specs/Listing.antt` | the plans of the commands that show or rename |
//! | `specs/Used.antt` | which objects `du` counts |
//! | `specs/Resize.antt` | the plan of `resize` (`size_change`), and what is left of one |
//! | `specs/HeadersTold.antt` | what holds of each header that was told, for a law on `resize` |
//! | `specs/SizeLaws.antt` | lemmas on [`NewSize`]; it defines nothing |
//! | `specs/Remove.antt` | the plan of `rm` (`remove_plan`), and of its part (`removal_plan`) |
//! | `specs/Remnants.antt` | what there is to remove (`remnants`), and the operation of each |
//! | `specs/RemovalPart.antt` | what is left of a [`Remove`], and for which answers it has memory |
//! | `specs/RemovalRequest.antt` | the same of a [`RemoveRequest`] |
//! | `specs/Told.antt` | how many objects were told to be in use, and whether a journal was told |
//!
//! # Cost
//!
//! | request | operations at most |
//! |---|---|
//! | `create` | 3 |
//! | `ls`, `rename` | 1 |
//! | `info`, `snap ls` | 2 |
//! | `du` | 3 |
//! | `resize` to more | 5 |
//! | `resize` to less | 5, and 3 for each object with a byte from the new size on |
//! | `rm` | 11, and one for each object in use |
//!
//! Memory is taken by `next` and `ready`, which may be refused it without a change. A request holds
//! the names of its command without a copy. What it shows is copied once, by `ready`; the bits of a
//! map are counted where they are. A `resize` to less copies the header at its look under the lock,
//! and makes its pieces at the answer to `map-get`. An `rm` copies the header's snapshots at its
//! look under the lock, where their memory isn't shared, and makes a [`Remnant`] for each operation
//! at the answer to `map-get`.
//!
//! # How it works
//!
//! Each request has the step at which it stands, and each call is a `match` on the step. A
//! [`Remove`] holds what its header tells of the parent, the snapshots and the journal until it is
//! told the states. Then it lists all that it removes, and takes one after another out of the list.
//! A [`RemoveRequest`] makes its removal in `ready` at its look under the lock, and begins it once
//! it was told who watches.
#![tactic(auto)]

mod create;
mod few;
pub mod laws;
mod listing;
mod objects;
mod operations;
mod outline;
mod remnant;
pub mod removal_laws;
mod remove;
mod remove_request;
mod resize;
pub mod resize_laws;
mod used;
mod watchers;

pub use create::CreateRequest;
pub use listing::ListRequest;
pub use operations::map_get;
pub use remnant::Remnant;
pub use remove::Remove;
pub use remove_request::RemoveRequest;
pub use resize::{NewSize, ResizeRequest, SizeChange};
