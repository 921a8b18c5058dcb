//! The order in which the requests of one session do their pieces: first in, first out for each
//! object (own; Ceph keeps the writes to one object in order by the object itself).
//!
//! ```text
//! guard.reserve(2)?;                       // the next two calls of `enter` are Ok
//! let first = guard.enter(1, 7)?;          // request 1 enters object 7
//! let second = guard.enter(2, 7)?;         // request 2 enters it too, and waits
//! guard.first(7)                           // the ticket `first`
//! guard.leave(first);                      // request 1 has done its piece
//! guard.first(7)                           // the ticket `second`
//! guard.leave_all(2);                      // request 2 has ended: 1 ticket
//! ```
//!
//! # Rules
//!
//! A request enters the objects that it changes, and does the piece of an object only while its
//! ticket is the first there. So effects on one object come in the order of entry. Where a request
//! ends early, all its tickets leave.
//!
//! # Contracts
//!
//! Contracts see each object's `queue` and each request's `list`, as lists of tickets, earliest
//! first. They see of each queued ticket its object (`ticket_object`) and its request
//! (`ticket_request`), how many tickets were `drawn`, and beside them `reserved`: for how many
//! calls of `enter` there is room. Each call says what becomes of every queue and every list. No
//! order of all tickets is told.
//!
//! A ticket is seen as its number. Each is the count of those drawn before it, and `drawn` only
//! rises. So a ticket that has left equals no later one, as long as it is of the same guard.
//!
//! What holds of each guard (`IsSound`) is a clause of each call: a queued ticket stands once, in
//! the queue of its object and in the list of its request alone. What entering and leaving do to
//! the order of tickets is said in [`laws`].
//!
//! # Cost
//!
//! `enter`, `first`, `next_of` and `leave` look up the ends of one queue and of one list, and where
//! a ticket's number is, in hash tables (whose seed is fixed). The rest is a few places by index.
//! So they cost the same on average however many tickets are in. `leave_all` costs as much as its
//! tickets do one by one. Only `reserve` and `enter` take memory, and `enter` none where room is
//! reserved. Growing moves what is in. `bench/guard` measures each call.
//!
//! # How it works
//!
//! Each queued ticket stands at a place of one slab (`slab`), a vector whose places are named by
//! index. A place holds the ticket's number, and is linked with the places before and after it in
//! the queue of its object, and the same in the list of its request. Free places are linked through
//! the slab too. One whose ticket left is taken again by a later `enter`, so the slab is only as
//! long as the most tickets that were ever in at a time.
//!
//! Beside the slab there are three hash tables: the first and the last place of each queue that
//! isn't empty, the same of each list, and the place of each queued number. A ticket is copied, and
//! is seen as its number, so it can't carry a place that contracts don't see.
//!
//! The type keeps that both directions of each link agree, that a queue read from its first place
//! is all of it, and that each place in use stands in one queue and in one list. A free place
//! stands in neither, and the list of free places has each of them once. Where numbers are used up,
//! `reserve` and `enter` answer as for want of memory.
#![tactic(auto)]

mod ends;
mod found;
mod guard;
pub mod laws;
mod link;
mod places;
mod slab;
mod standing;
mod ticket;

pub use guard::Guard;
pub use ticket::Ticket;
