//! The line of one image: the requests of one session that change it, in the order in which they
//! joined (Ceph: the exclusive lock, which one client holds for all its requests; the line is own).
//!
//! ```text
//! let mut line = Line::new(alloc)?;
//! line.join(Slot(1), Sharing::Shared);             // two writes
//! line.join(Slot(2), Sharing::Shared);
//! line.join(Slot(3), Sharing::Alone);              // and a snapshot behind them
//! line.hold(Slot(1));                              // each waits for its look under the lock
//! line.hold(Slot(2));
//! let second = line.may_pass(Slot(2));             // false: slot 1 isn't past that look yet
//! line.reserve(2)?;                                // the next two calls of `enter` are allowed
//! line.pass(Slot(1));
//! line.enter(Slot(1), 7);                          // slot 1 will change object 7
//! line.pass(Slot(2));                              // slot 2 may pass now, and will change it too
//! line.enter(Slot(2), 7);
//! let turn = line.has_turn(Slot(2), 7);            // false: slot 1 is ahead of it
//! line.end_piece(Slot(1));                         // its piece is done: slot 2 has its turn
//! line.leave(Slot(1));
//! line.leave(Slot(2));                             // with its piece undone
//! let third = line.may_pass(Slot(3));              // true: nobody is ahead of the snapshot
//! ```
//!
//! # Rules
//!
//! A *member* of a [`Line`] is a request, named by its slot. It joins behind the others, alone on
//! the image or beside some ([`rbd_kinds::Sharing`]), and comes through three stages
//! ([`rbd_machine::Stage`]).
//!
//! | a member that is | may go past its look under the lock |
//! |---|---|
//! | shared (`write`, `fill`) | once each one ahead of it is past its own, and none is alone |
//! | a `discard` | the same, and no `flatten` is ahead of it (there is no such command yet) |
//! | a `flatten` | the same, and neither a `discard` nor a `flatten` is ahead of it |
//! | alone | once nobody is ahead of it |
//!
//! So while a member that is alone is past its look under the lock, no other one is past its own;
//! and nobody behind a member that is alone passes. A member that ends leaves the line, wherever it
//! stands.
//!
//! | call | the member's tickets |
//! |---|---|
//! | `enter`, in the step in which it passes | one more, for an object that it will change |
//! | `end_piece` | the first goes |
//! | `leave` | all go |
//!
//! A member has its *turn* at an object where that is the first of those for which it has tickets,
//! and it is the first in line order of those that have a ticket there. Only a member that isn't
//! alone, and is past its look under the lock, takes tickets, one for each object at most.
//!
//! # Contracts
//!
//! Contracts see a line as a `LineView`: its members in line order, each with the objects whose
//! tickets it has, and for how many more tickets there is room. They see no tickets. Each call says
//! by one equation what the members are then:
//!
//! | call | members then |
//! |---|---|
//! | `new` | none |
//! | `join` | the others, and the new one behind them |
//! | `hold`, `pass`, `enter`, `end_piece` | the same, with one slot's changed (`changed_member`) |
//! | `leave` | the same, without one slot's |
//! | `reserve`, and the calls that only look | the same |
//!
//! - Each line is fair (`IsFairLine`): no slot stands twice, each is 1 to 64, who is past its look
//!   under the lock was let pass by each one ahead of it, and who holds an object isn't alone, is
//!   past that look, and holds it once.
//! - [`laws`]: a member that is alone has nobody beside it. Of the members that hold an object one
//!   has its turn, and keeps it. A member that may pass still may, whatever others do. Members pass
//!   in line order.
//!
//! | file | what it says |
//! |---|---|
//! | `specs/Line.antt` | `LineView`; who may pass, who has its turn, and what changes a line |
//! | `specs/Steady.antt` | changes of a member after which those behind it may still pass |
//! | `specs/Turns.antt` | which slots hold an object, and which objects a slot holds |
//! | `specs/Kept.antt` | how the two parts of a line hold it |
//!
//! # Cost
//!
//! A line has at most 64 members. `join`, `enter`, `has_turn`, `end_piece` and `is_empty` cost the
//! same however many there are and however many tickets they have (`enter`, `has_turn` and
//! `end_piece` on average, by hash tables). `hold`, `may_pass`, `pass`, `stage`, `sharing` and
//! `is_any_past` go along the line once or twice. `leave` does so too, and costs what the member's
//! tickets do one by one. Only `new` and `reserve` take memory.
//!
//! # How it works
//!
//! The members stand in a vector, whose room for 64 is taken at the beginning. Their tickets are
//! those of a guard (`rbd_guard`), whose requests are the slots. A member takes its tickets while
//! nobody behind it is past its look under the lock, so the order of entry at each object is line
//! order. A piece may be done where the first ticket of its object is the first ticket of its slot:
//! two look-ups, however long the line is.
#![tactic(auto)]

pub mod laws;
mod line;
mod standing;
mod turns;

pub use line::Line;
