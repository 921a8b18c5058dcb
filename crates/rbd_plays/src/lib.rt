//! What the plays of a script come to: that a script has one run, how many of its commands have
//! their reply, and in which scripts each has. Definitions and laws, and no code that a program
//! calls.
//!
//! ```text
//! client c1 a
//! client c2 a
//! c1 create d 8192 object 4096
//! @settle 8
//! & c1 write d 0 1111          c1 alone has commands that take locks: `write`, `fill`, `discard`,
//! & c1 snap create d@s         `snap create`, `snap rm`, `snap rollback`, `resize`, `rm`
//! & c2 read d 0 2              others may read, list and rename,
//! & c2 close d                 and close
//! @until c1 1 data-write       as many polls as it takes
//! @expire c1 a 1               a watch may end, and a notice may be lost
//! ```
//!
//! Behind the closing rounds each of the five commands has its reply. With a `quiesce` in the
//! script, a `@stop`, or a `write` of c2, that isn't said: a request may be held up at a lock then.
//!
//! # Contracts
//!
//! - *One run* ([`one_run_laws`]). That a schedule led to a world (`IsPlay` of `rbd_schedule`) is a
//!   relation: a rule doesn't say how many events it comes to, nor a step what a client has room
//!   for. The script tells the run all the same: in any two worlds to which it leads the same
//!   events came, with the same outcomes, and the history, the logs of both sites and their mail
//!   are the same.
//! - *Replies add up* ([`laws`]). In any play a command has one reply or none, and each reply is
//!   one of a command. So the commands are as many as the replies and the commands without one,
//!   together.
//! - *One changer* ([`laws`]). Where one session alone has commands that take locks, no image is
//!   quiesced and no session is stopped, each command has its reply at the end of a play.
//! - [`steps`]: worlds that can't be told apart, *twins*, stay so by each event.
//!
//! | file | what it says |
//! |---|---|
//! | `specs/Twins.antt` | two worlds can't be told apart (`AreTwins`) |
//! | `specs/OneRun.antt` | two worlds have the same run (`IsSameRun`) |
//! | `specs/OneChanger.antt` | one session alone changes images, and each command has its reply |
//! | `specs/AddUp.antt` | the commands are as many as replies and commands without one (`AddUp`) |
//!
//! # How it is shown
//!
//! New worlds with the same homes are twins. An event does the same to twins, and leaves twins
//! where the clients that it leaves are counted (`proofs/TwinsStepping.antt`): a step tells each
//! part of a client but the lowest free slot and the order of the images that were asked for, and
//! clients that are counted have these by their other parts. A schedule asks of a world only what
//! twins answer alike (`proofs/ScheduleLooks.antt`), so each of its rules leads twins to twins
//! (`proofs/ScheduleTwins.antt`), and a loop goes on equally often on both sides
//! (`proofs/ScheduleLoops.antt`).
//!
//! The schedule begins commands of the script alone, and a line ends once. So behind each step that
//! gives a reply there is one reply more, and one command less without one (`proofs/AddUp.antt`).
//!
//! Each event of a script with one changer leaves a world *unhindered* (`proofs/Unhindered.antt`):
//! a lock is that session's or nobody's, and counts as its own at its client; no site refuses
//! anybody, no notice asks for a lock, and no way to a lock was told that another one has it. So
//! none of its steps asks again, and a round with a way in it isn't idle (`proofs/Idling.antt`).
#![tactic(auto)]

pub mod laws;
pub mod one_run_laws;
pub mod steps;
