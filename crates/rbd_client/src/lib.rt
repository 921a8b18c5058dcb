//! What an instance has: its requests in slots (`rbd_slots`), what it counts of the locks of its
//! images, and the ways by which it takes these and lets them go (`rbd_lock`).
//!
//! ```text
//! let mut client: Client<SessionRequest> = Client::new(alloc, c1, SiteId::A)?;
//! let one = client.submit(alloc, 3, write, Quiescing::Leaves)?;    // slot 1: the one of line 3
//! let actor = client.actor(one);                                   // the request
//! if let Some((site, op)) = client.next(alloc, one, &actor)? {     // site A, dir-find
//!     let fed = Fed::Answer(ask_site(site, &op));
//!     client.ready(alloc, one, &actor, &fed)?;                     // all memory that this needs
//!     let reply = client.feed(one, &actor, site, &op, &fed);       // None: it goes on
//! }
//! client.hear(&request_lock)?;                                     // another client wants a lock
//! let kind = client.kind(Slot(0));                   // lock-drop, once no request relies on it
//! ```
//!
//! | type | what it is |
//! |---|---|
//! | [`Client`] | the requests and the locks of one instance |
//! | [`Actor`] | who acts where a slot is polled: nobody, a request, its way, or a release |
//! | [`SlotState`], [`Way`] | what is kept of a slot beside its request: how it comes to its lock |
//!
//! # Rules
//!
//! A request that changes an image goes through the image's line as `rbd_slots` says. At its look
//! under the lock, once the line lets it go on, the lock decides:
//!
//! ```text
//! look under the lock ──quiesced, or asked for──▶ waits
//!    │ the lock is the client's ─────▶ that look, and on
//!    │ it isn't
//!    ▼
//! its way to the lock (rbd_lock) ──taken──▶ that look, and on
//!    └──none, fenced──▶ its reply: it leaves its line and its slot
//! ```
//!
//! - A request that is on its way goes on there whatever comes. One that has taken the lock itself
//!   isn't held back by a later wish of another client.
//! - **The release** (slot 0) begins where another client asked for the lock, the image isn't
//!   quiesced, and no request of the image is past its look under the lock or has taken the lock
//!   itself. Of several images that were asked for it takes the first whose lock may be let go, by
//!   site and then by id. One that has begun goes on to its end.
//! - A `close` makes no look under the lock, so neither the lock, a quiesce nor a wish holds it
//!   back. It is alone in its line, and drops the lock behind all requests before it.
//! - A `quiesce` holds its image from its look under the lock on (`Quiescing::Begins`), and a
//!   `resume` ends that by its look-up of the image (`Quiescing::Ends`). Whoever submits a request
//!   says which of them it is.
//! - A wish of another client for a lock is noted where the lock counts as this client's, and
//!   passed over for good where it doesn't. What other clients tell is kept (`heard`).
//!
//! So a request comes past its look under the lock only where the client counts the lock as its
//! own, and the client goes on to count it so while a request relies on it. Only the removal of the
//! header ends it sooner (`rm`): the lock goes along, and the request that removed it, alone,
//! changes nothing by the lock any more. That a lock counts as owned doesn't say that it is:
//! another client may have fenced this one and broken it, and then the fence refuses whatever is
//! still sent.
//!
//! # Contracts
//!
//! - Contracts see a client as a record (`ClientView`): its session, its locks, what it keeps of
//!   each slot, the release that it is in the middle of, and what it heard. A new one knows of no
//!   lock.
//! - Who acts at a slot is a function of these (`actor_at`), and so is which operation is wanted
//!   there. What an answer comes to is said by who acted (`IsFedBy`).
//! - Each client is sound (`IsSoundClient`): a way belongs to a request that waits for its look
//!   under the lock of just that image, and one that has taken the lock has it.
//! - [`laws`]: a request looks under the lock only with the lock. A lock lasts while a request
//!   relies on it. A quiesced image and a wanted lock hold requests back. And when a release
//!   begins.
//!
//! | file | what it says |
//! |---|---|
//! | `specs/Client.antt` | `ClientView`, and what is kept of a slot |
//! | `specs/Actor.antt` | who acts at a slot, and which operation is wanted there |
//! | `specs/Feeding.antt` | what is ready before an answer, and what the answer comes to |
//! | `specs/Sound.antt` | what holds of each client |
//! | `specs/Laws.antt` | what the laws speak of |
//! | `specs/Seen.antt` | a client as plans tell it (`seen`): in each slot stands what is left |
//!
//! What is said of a client by its machines is so of it as seen (`proofs/SeenClient.antt`), so
//! crates above needn't know a machine.
//!
//! # Cost
//!
//! A call is that of its session, and a look-up of a lock and a slot. `kind` of slot 0 goes over
//! the images that were asked for, and for each over its line and the 65 slots; where none was
//! asked for it is one look. `ready` takes the memory to count one more lock, and `hear` a copy of
//! what a client was told. The others take what the session's take.
//!
//! # How it works
//!
//! A session knows no lock, and a lock no request. A client asks its session at whose look under
//! the lock a slot stands, and its locks what is counted there. Who acts is found anew at each
//! poll, so only answers have to be counted. Within one poll nothing else acts: so the poll finds
//! it once, and hands it to `next`, `ready` and `feed`.
#![tactic(auto)]

mod actor;
mod client;
mod counting;
mod going;
pub mod laws;
mod slot_state;
mod slots;

pub use actor::Actor;
pub use client::Client;
pub use slot_state::{SlotState, Way};
