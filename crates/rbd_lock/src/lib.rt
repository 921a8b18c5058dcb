//! How an image's exclusive lock is taken and let go, and what a client counts of the locks of its
//! images (Ceph: librbd's `ExclusiveLock`, with its `AcquireRequest`, `BreakRequest` and
//! `ReleaseRequest`; what is counted is own).
//!
//! ```text
//! let mut way = Acquire::new(SiteId::A, image, false);     // the instance doesn't watch it yet
//! loop {
//!     let op = way.next();                                 // watch, then lock-take, ..
//!     match way.feed(&ask_site(&op)) {
//!         Progress::More => {}
//!         Progress::Ended(()) => break,                    // the lock is taken
//!         Progress::Refused(refusal) => return Ok(refusal),
//!     }
//! }
//!
//! let mut locks = Locks::new(alloc);
//! locks.reserve()?;
//! locks.count(SiteId::A, &lock_take, &Answer::Done);       // the lock counts as owned
//! locks.hear(&request_lock)?;                              // another client wants it
//! let asked = locks.next_asked(None);                      // Some(at): it is to be let go
//! let release = Release::new(SiteId::A, image);
//! let op = release.next();                                 // lock-drop
//! let rest = release.answered(&Answer::Done);              // Some: the watchers are told next
//! ```
//!
//! | type or call | what it is |
//! |---|---|
//! | [`Acquire`] | the way to a lock: a part of a request, or a machine by itself |
//! | [`Stage`] | a step of that way |
//! | [`Release`] | the release of a lock: a machine by itself, which no request waits for |
//! | [`Locks`] | what a client counts of the locks of all its images, at both sites |
//! | [`LockState`] | the same of one image |
//! | [`owns_lock_after`] | whether a lock counts as owned behind one more operation |
//! | [`is_waiting`] | whether a step on the way to a lock asks again |
//!
//! # Rules
//!
//! Taking a lock ([`Acquire`] draws the steps):
//!
//! - An instance watches an image once, before it first asks for its lock, so that it hears who
//!   wants the lock later. `watched` tells that it does so already; then this step is left out.
//! - An owner that is among the watchers is asked, and never fenced: it may still be alive, and
//!   lets go in its own time. Each round looks up anew whether it watches, since a watch may
//!   expire.
//! - An owner that isn't among the watchers loses the lock. First its instance goes into the site's
//!   blocklist: what it may still send can't change the image any more (Ceph). Where the break is
//!   answered `changed`, somebody else was faster.
//! - After either the lock is asked for again. So there is no end as long as an owner watches and
//!   keeps the lock. What asks again is *waiting* ([`is_waiting`]): a `lock-take` that was told who
//!   has the lock, a `watchers-get` that was told who watches, a `notify` that was posted (own).
//! - At each step the answer `none` ends the request with NoImage, and `fenced` with Fenced.
//!
//! Letting it go ([`Release`]): a `lock-drop`, and where that is `done`, a `notify` ReleasedLock.
//! Whatever they are answered, a release ends with Done. When a client may begin one is said in
//! `rbd_client`.
//!
//! A client counts four things of each image at each site. At first none is so.
//!
//! | | from | up to |
//! |---|---|---|
//! | *watched* | a `watch` done | the answer of an `unwatch` |
//! | *owned* | a `lock-take` done | the answer of a `lock-drop`, or a `header-remove` done |
//! | *asked* | a RequestLock heard while owned | a `lock-take` done, or the end of *owned* |
//! | *quiesced* | a `quiesce`'s look under the lock | a `resume`'s look-up, or the end of *owned* |
//!
//! - *Owned* is that the lock is the client's, and *asked* that another client wants it.
//! - Any answer of a `lock-drop` or an `unwatch` ends what it is for: `done`, `changed`, `none` or
//!   `fenced`. The client may count on the lock, or on the watch, no longer.
//! - A header that is removed takes the lock along.
//! - A RequestLock that is heard without the lock is passed over for good, also where the lock is
//!   taken later. Who still wants it asks again.
//! - Nothing else changes what is counted. Nobody tells the client that its lock was broken or its
//!   watch expired. A lock that counts as owned may be another's, then: the fence refuses what the
//!   client still sends.
//! - Images don't touch each other, nor do both sites: an id means another image there.
//!
//! # Contracts
//!
//! - An [`Acquire`] keeps to its plan with *any* plan behind it, so a request that takes a lock on
//!   its way has one plan for both. It ends with the lock and nowhere else. It goes back to the
//!   label `Lock`, which stands at its `lock-take`. Each of its operations has the reason
//!   `Acquiring`.
//! - A [`Release`] keeps to its plan, and is never refused.
//! - Contracts read [`Locks`] by `lock_state_at`: what is counted of an image at a site. Each call
//!   is one equation on that, for all images. Those that were asked for (`asked`) are a list by
//!   site and then by id: in which order they were asked for doesn't matter. `IsSoundLocks` says
//!   that it is in order, and that each of its images is owned; each call has it as a clause.
//! - [`way_laws`]: a way that ends well ends with the lock. Each step stands where it may: an owner
//!   is fenced only behind a look that didn't show it among the watchers, and a lock is broken only
//!   directly behind that fence. Beside the steps that ask again there are few, and how many is
//!   said. All this holds of the steps up to the lock of any request. A way and a release do only
//!   what they may by what is known (`rbd_machine`).
//! - [`laws`]: whatever comes to a client, a lock counts as owned by the client's own operations on
//!   that image alone, and only such a lock is asked for. How long an asking stays. What is counted
//!   of all images says which were asked for, and `next_asked` tells the least behind another.
//!
//! The definitions are read after those of `rbd_machine`, in this order.
//!
//! | file | what it says |
//! |---|---|
//! | `specs/Steps.antt` | the operations, and who is among the watchers |
//! | `specs/Acquire.antt` | the plan (`acquire`), what is left of it, and a walk of one (`IsWay`) |
//! | `specs/Release.antt` | `release` is the plan of a release; `LetsGo` says what one did |
//! | `specs/Waiting.antt` | which steps ask again, and whether a lock is owned behind some steps |
//! | `specs/Order.antt` | where each step may stand, and how a way ends (`EndsBy`) |
//! | `specs/Counts.antt` | how many steps of which kind there are |
//! | `specs/Past.antt` | the steps up to the lock, and those of what comes next |
//! | `specs/Places.antt` | which images are among some, and which comes next |
//! | `specs/States.antt` | what changes the state of one image |
//! | `specs/Locks.antt` | what contracts see of [`Locks`], and what changes it |
//! | `specs/Comings.antt` | whatever comes to a client, one after another |
//!
//! # Cost
//!
//! A free lock costs two operations, or one where the instance watches. A round with an owner that
//! is asked costs three more, and one with an owner that is fenced four. The calls of a way and of
//! a release take no memory; a look at the watchers goes through their list once.
//!
//! `state` is a look-up by hash, and one by order among the few images that were asked for. A call
//! that changes something costs as much again; `count` of an operation that changes nothing looks
//! nothing up. `next_asked` finds its place by order. No call goes through all images. `reserve`
//! and `hear` take memory, and no other call does. An image of which nothing is counted any more is
//! forgotten.
//!
//! # How it works
//!
//! A way has the step at which it stands, and the owner only from `held o` up to `lock-break o`:
//! the next `lock-take` tells who has the lock then. A hash table by key has what is noted of each
//! image, and an ordered set the images that were asked for. Nothing stands in both, so they can't
//! disagree.
#![tactic(auto)]

mod acquire;
mod asked;
pub mod laws;
mod lock_state;
mod locks;
mod noted;
mod release;
mod told;
mod waiting;
pub mod way_laws;

pub use acquire::{Acquire, Stage};
pub use lock_state::{LockState, owns_lock_after};
pub use locks::Locks;
pub use release::Release;
pub use waiting::is_waiting;
