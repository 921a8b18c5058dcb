//! The requests of all commands that are served as one type, and for each command a row and a plan.
//! No crate above names a command's request.
//!
//! ```text
//! if !is_built(&command) {
//!     return Ok(None);                                     // a command that isn't served
//! }
//! let seat = Seat { session: SessionNo(0), home: SiteId::A };
//! let reply = match SessionRequest::begin(alloc, &seat, command)? {
//!     Begun::Refused(refusal) => Reply::Refused(refusal),  // only a `create` outside the limits
//!     Begun::Asks(request) => run(request)?,               // by the loop that `rbd_machine` shows
//! };
//! ```
//!
//! # Rules
//!
//! [`SessionRequest`] has a variant for each request, and does what the request in it does, call by
//! call. [`is_built`] is true of these commands alone:
//!
//! | command | request | operations at most |
//! |---|---|---|
//! | `write`, `fill` | [`WriteRequest`](rbd_data::WriteRequest) | 3, and 2 for each piece |
//! | `discard` | [`DiscardRequest`](rbd_data::DiscardRequest) | 3, and 3 for each piece |
//! | `read` | [`ReadRequest`](rbd_data::ReadRequest) | 3, and 1 for each piece, in each pass |
//! | `create` without a journal | [`CreateRequest`](rbd_image::CreateRequest) | 3 |
//! | `ls`, `rename` | [`ListRequest`](rbd_image::ListRequest) | 1 |
//! | `info`, `snap ls` | [`ListRequest`](rbd_image::ListRequest) | 2 |
//! | `du` | [`ListRequest`](rbd_image::ListRequest) | 3 |
//! | `snap create`, `snap rm` | [`SnapRequest`](rbd_snap::SnapRequest) | 6, 5 |
//! | `snap rollback` | [`RollbackRequest`](rbd_snap::RollbackRequest) | 5, and what it is told |
//! | `resize` | [`ResizeRequest`](rbd_image::ResizeRequest) | 5, and what it is told |
//! | `rm` | [`RemoveRequest`](rbd_image::RemoveRequest) | 11, and what it is told |
//! | `close`, `quiesce` | [`CloseRequest`](rbd_session::CloseRequest) | 4, 3 |
//! | straight: `resume`, `tell` | [`CloseRequest`](rbd_session::CloseRequest) | 1, 2 |
//!
//! - A way to a lock isn't counted. What the last ones are told: a `resize` has 3 more for each
//!   object with bytes from the new size on; a rollback those, and 4 for each object of the
//!   snapshot; an `rm` one for each object in use.
//! - The extent of a command is what it changes piece by piece beside other requests of its image:
//!   the bytes of a `write`, a `fill` or a `discard`. No other command has one.
//!
//! A command's row (`profile`) says beside whom it goes in the line of its image, which bytes it is
//! about, which event it notes, for which kinds of operation it asks, what it is answered, and how
//! many operations it has:
//!
//! ```text
//! command       joins    event        asks for, beside dir-find and header-get     operations
//! write d 0 11  shared   write        map-set, data-write                          3, 2 a piece
//! discard d ..  discard  discard      map-set, data-zero, data-empty, data-remove  3, 3 a piece
//! snap create   alone    snap-create  map-get, map-put, header-snap-add            6
//! close d       alone    none         lock-drop, notify, unwatch; no header-get    4
//! info d        no line  none                                                      2
//! ```
//!
//! A plan *follows* a row where it does what the row says, step by step:
//!
//! - It joins its line as the row says, once, and never leaves it before its end. Who joins a line
//!   only looks before it has waited for the lock.
//! - It notes the row's event behind that, and no other. What the event speaks of it changes only
//!   while the event is noted, and it is done only once this counts as applied.
//! - It asks for the row's kinds alone, and for no step of a way to a lock. A header that it makes
//!   is nobody's.
//! - Where it is refused it may end anywhere.
//!
//! # Contracts
//!
//! - [`SessionRequest`] meets [`Machine`](rbd_machine::Machine) and
//!   [`Request`](rbd_machine::Request), with the laws of the latter: each request is orderly,
//!   lawful, and each reply meant.
//! - [`laws`] says these and more of all commands at once: their labels stand at operations, the
//!   turns are those of the extent, how many operations there are, and that but for a `read` each
//!   request looks at its image's header no more behind its look under the lock.
//! - [`rows`] says that each request follows its command's row, what of the definitions below a row
//!   says, and what follows from a row alone. So a crate above reads what is asked of a command off
//!   its row.
//!
//! | file | what it says |
//! |---|---|
//! | `specs/Profile.antt` | the row of each command (`profile`), and what is read off it |
//! | `specs/Plans.antt` | the plan of each command (`plan_of`), and which are served (`is_built`) |
//! | `specs/Follows.antt` | a plan follows a row (`Follows`) |
//! | `specs/Asking.antt` | a plan asks for nothing but some operations (`AsksOnly`) |
//! | `specs/Touched.antt` | how many operations a plan has, and what the turns of an extent are |
//! | `specs/Looking.antt` | where a request looks at a header (`LooksOnce`) |
//! | `specs/InLine.antt` | how a change of an extent goes through its line (`ChangesInLine`) |
//! | `specs/Session.antt` | where a [`SessionRequest`] stands (`stands_of`) |
//!
//! The other files of `specs/` are lemmas that the laws of an `impl` cite. No contract has a word
//! of them.
//!
//! # Cost
//!
//! A call is that of the request in it, and one choice. `begin` takes the memory in which the
//! request lies; for a `write` also that to share its bytes, and for a `fill` that of its bytes.
//! [`is_built`] and `extent` take none.
//!
//! # How it works
//!
//! What holds of each of the ten requests holds of each command (`specs/EachRequest.antt`), so a
//! lemma over all commands is one line a request. Steps that many commands share follow any row
//! that has their kinds (`proofs/Walks.antt`). While its event is noted a request may ask for each
//! kind of its row, so nothing else need be known of a part (`proofs/Changes.antt`). That a command
//! follows its row is then a few lines, and `proofs/FollowsAll.antt` puts all together.
#![tactic(auto)]

mod begin;
pub mod laws;
mod request;
pub mod rows;
mod served;

pub use request::SessionRequest;
pub use served::is_built;
