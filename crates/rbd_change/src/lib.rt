//! Two machines for the requests that change an image: one for a change that does all in one part,
//! mostly alone on its image, and one for a change that goes object by object beside others. Each
//! notes an event, but a change in one part may have none (Ceph: the journal has none for a
//! snapshot's protection).
//!
//! ```text
//! pub type ResizeRequest = ChangeRequest<SizeChange, NewSize>;     // in `rbd_image`
//! pub type WriteRequest = ExtentRequest<WriteChange, WriteTurn>;   // in `rbd_data`
//!
//! let request = ResizeRequest::new(SiteId::A, resize);             // resize disk 6000
//! let request = ExtentRequest::new(alloc, SiteId::A, disk, Sharing::Shared, write_change);
//! ```
//!
//! | machine | its change | what that does behind its event |
//! |---|---|---|
//! | [`ChangeRequest`] | a [`Change`] | its [`ChangeSteps`], a part of the request |
//! | [`ExtentRequest`] | an [`ExtentChange`] | a piece for each object, an [`ObjectChange`], which names it |
//!
//! # Rules
//!
//! ```text
//!                  a change in one part                a change object by object
//! Approaching      to its look under the lock; `refusal` says why it is refused, at both looks
//!    │             `part`: made by that look's header  `pieces`: made by that look's header
//! Noting           its event, where it has one         its event
//!    │
//! Acting           the part: `wants`, `next`,          of each piece its turn at its `object`, and
//!    │             `ready` and `feed`                  then the piece, as a part
//! Applying         its event counts as applied
//!    │
//!    ▼
//! Done
//! ```
//!
//! - A [`ChangeRequest`] goes beside those others that its change names (`sharing`). Where it is
//!   alone in the image's line, from its look-up to its end, what its look under the lock shows
//!   can't change, but by its part.
//! - A change in one part without an event (`has_event`) goes from its look under the lock to its
//!   part, and ends with that.
//! - An [`ExtentRequest`] goes beside others there. It does its pieces in the order in which they
//!   were made, each at its turn at the piece's object.
//! - Where there is an event, nothing is changed before it is noted. It counts as applied once the
//!   part, or each piece, is done.
//! - A refusal of the part or of a piece ends the request: the event stays in the journal, and
//!   doesn't count as applied.
//!
//! # Contracts
//!
//! A change says what it `does` from its look under the lock on, as a plan: its event, its part or
//! pieces, and that the event counts as applied. By that each machine is proved once, for all its
//! changes: a request stands where its plan begins, and keeps to it
//! ([`Machine`](rbd_machine::Machine)). A [`Change`] also gives the plan of its commands, so
//! [`ChangeRequest::new`] takes a command. An [`ExtentRequest`] takes a change, since to make one
//! of a command may take memory; who makes it says which plan it is.
//!
//! | member | of | what it says |
//! |---|---|---|
//! | `refuses` | `Refuses` of `rbd_machine` | why it is refused, by a header |
//! | `serves`, `plan` | [`Change`] | the commands that ask for it, and the plan of each at a site |
//! | `shares` | [`Change`] | beside which others it goes |
//! | `noted` | [`Change`], [`ExtentChange`] | its event; of a [`Change`], where it has one |
//! | `does` | [`Change`], [`ExtentChange`] | the plan from its event on, by the header |
//! | `rest` | [`ChangeSteps`] | what is left of a part, with what comes next |
//! | `tells`, `is_ready` | [`ChangeSteps`] | by which answers it goes on; for which it has memory |
//! | law `asks` | [`ChangeSteps`] | it wants an operation, as a step of the request's own |
//! | law `told` | [`ChangeSteps`] | each answer that its operation can be given is one of these |
//! | `number` | [`ObjectChange`] | the number of its object |
//!
//! | file | what it says |
//! |---|---|
//! | `specs/Event.antt` | the note and the end of a change, with an event or none (`noting`, `ending`) |
//! | `specs/OwnStep.antt` | an operation that is a step of the request's own: the word of law `asks` |
//! | `specs/Request.antt` | what is left of a [`ChangeRequest`]; for which answers it has memory |
//! | `specs/Extent.antt` | the same of an [`ExtentRequest`]; what is left of pieces (`in_turn`) |
//!
//! These take the members above as parameters. A crate that has such a request gives both at its
//! own members, under a name of its own.
//!
//! # Cost
//!
//! Each call is that of its stage: of the way ([`Approach`](rbd_machine::Approach)), of the change,
//! or of the part. `new`, `wants` and `feed` take no memory. `ready` makes the part or the pieces,
//! at the look under the lock.
//!
//! # How it works
//!
//! `ready` puts the part, or a queue of pieces, beside the stage, since `feed` takes no memory;
//! they are taken from there once the event is noted, a piece once the one before it has ended. Old
//! values are let go by a call: a match in place on all variants of a part would be proved once
//! more at each step.
#![tactic(auto)]

mod at_object;
mod change;
mod extent;
mod extent_request;
mod request;
mod steps;

pub use at_object::ObjectChange;
pub use change::Change;
pub use extent::ExtentChange;
pub use extent_request::ExtentRequest;
pub use request::ChangeRequest;
pub use steps::ChangeSteps;
