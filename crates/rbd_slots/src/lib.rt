//! A session in one of its lives: the requests of that instance, each in a slot, and which of them
//! may go on.
//!
//! ```text
//! let mut session: Session<SessionRequest> = Session::new(alloc, c1, SiteId::A)?;
//! let one = session.submit(alloc, 3, write)?;              // slot 1: the command of line 3
//! let two = session.submit(alloc, 4, snap_create)?;        // slot 2: of the same image
//! if let Some((site, op)) = session.next(alloc, one)? {    // site A, dir-find
//!     let fed = Fed::Answer(ask_site(site, &op));
//!     session.ready(alloc, one, &fed)?;                    // all memory that this answer needs
//!     let reply = session.feed(one, &fed);                 // None: it is in the line of the image
//! }
//! let kind = session.kind(two);                            // site A, dir-find; None once it waits
//! ```
//!
//! | type | what it is |
//! |---|---|
//! | [`Session`] | the requests of one instance, in slots 1 to 64 |
//! | [`Occupant`] | what a slot holds: a request that runs, or one refused before any operation |
//! | [`Running`] | a request that runs: its script's line, its extent, its line, and its turn |
//!
//! # Rules
//!
//! - A request that changes an image *joins* the image's line at the answer by which it found the
//!   image. It reads the header, waits for the lock, and reads the header again: its *look under
//!   the lock*. When it may go past that look, and when it has its turn at an object, `rbd_queue`
//!   says.
//! - A slot *waits* while its request may not: then nobody asks for its operation. Whether it may
//!   is found anew each time that the slot is looked at.
//! - With its look under the lock answered, a request beside others takes a ticket for each object
//!   of its extent, by the layout that this look told. A ticket goes at the end of its piece: where
//!   the request next awaits a turn, or that its event counts as applied. With the end of the
//!   request all its tickets go. So writes change each object in the order in which they joined.
//! - A request that is given up leaves its line wherever it stands, with all its tickets.
//! - An image is *at rest* while no request of it is past its look under the lock.
//! - What a request wants beside operations and its turns it has at once. No image has a journal
//!   yet, so a note takes no step. As far as a `Session` knows, it has every lock: `rbd_client`
//!   adds the locks.
//!
//! # Contracts
//!
//! Contracts see a session as a record (`SessionView`): its instance and home, what each slot
//! holds, and the line of each image. A request is seen as itself. Where it stands is told by the
//! `stands` of its type, which clauses take as an argument, since no command is named here
//! ([`Request`](rbd_machine::Request)).
//!
//! - `kind`, `next` and `look_under_lock` answer `None` exactly where the slot is free, waits, or
//!   holds a request that is refused before any operation; the last one also where the request
//!   stands elsewhere.
//! - `ready` takes all memory for an answer, and changes nothing that is asked of the session.
//!   `feed` brings the request to its next operation, past all that it wants before, or to its
//!   reply. Both say what the lines are then (`Track`), as functions of what they were.
//! - Other slots stay as they are.
//! - [`laws`]: while a request that is alone is past its look under the lock, no other of its image
//!   is past its own. Pieces go in line. The first of a line never waits. A feeding takes nobody
//!   past a look under the lock but the request that is fed, and what others do leaves a request at
//!   that look.
//!
//! The definitions are read in this order.
//!
//! | file | what it says |
//! |---|---|
//! | `specs/Lines.antt` | the lines of all images, by image |
//! | `specs/Track.antt` | where a request stands in its line, and what its way makes of that |
//! | `specs/Waits.antt` | when a slot waits |
//! | `specs/OnTrack.antt` | what holds of each request on its way |
//! | `specs/Advance.antt` | what is ready before a feeding, and what comes of it |
//! | `specs/Session.antt` | `SessionView`, what holds of each session, and clauses of its calls |
//!
//! # Cost
//!
//! `kind`, `next`, `look_under_lock` and `ready` look up a slot and a line, and go through those
//! ahead in this one line, at most 63; a turn is one look-up. `is_at_rest` goes through one line.
//! `feed` costs what it passes on the way to the next operation, `give_up` what the tickets do.
//! `free` looks at one number, and `submit` goes from there to the next free slot. Memory is taken
//! by `new`, `submit`, `next` and `ready` alone.
//!
//! # How it works
//!
//! Slots are a list of 65, of which the first is never held. Lines are a hash table by image, each
//! a `Line` of `rbd_queue`, which goes with its last member; one that is empty is kept for the next
//! image. A request is fed in its slot: it is large, and isn't moved.
#![tactic(auto)]

mod advance;
mod feeding;
pub mod laws;
mod lines;
mod look_under_lock;
mod prepare;
mod running;
mod session;
mod slots;
mod waits;
mod wanted;

pub use running::{Occupant, Running};
pub use session::Session;
