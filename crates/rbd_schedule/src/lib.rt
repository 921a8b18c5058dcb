//! The schedule of a script: which event comes next, and a play of it on a world.
//!
//! ```text
//! let world = play(alloc, &script)?;          // a script that `rbd_script` read
//! let history = world.history();              // what happened, in order
//! let events = world.events();                // how many events came
//! ```
//!
//! A script:
//!
//! ```text
//! client c1 a
//! client c2 a
//! c1 create d 8192 object 4096
//! @settle 8                        c1's create is done
//! c1 write d 4094 11111111         begun, in slot 1 of c1
//! @poll c1 1 7                     by its way to the lock, up to the piece in object 0
//! c2 read d 4094 4                 begun, in slot 1 of c2
//! @settle 8                        rounds: c1 writes object 1, while c2 reads; each has its reply
//! ```
//!
//! # Rules
//!
//! - When a line with a command is reached, its session is given the command. Behind each line and
//!   each event all commands that may start are submitted, one after another: the first session, in
//!   the order of declaration, that has one, and of its commands the earliest. One may start where
//!   its session runs and has a free slot, and either it has `&`, or each earlier command of its
//!   session has its reply or is lost.
//! - `@poll` polls a slot so many times. `@until` looks before each poll, and polls until the slot
//!   wants the operation of that word, 4,096 times at most.
//! - `@deliver`, `@expire`, `@stop`, `@restart`, `@late` and `@trim` are one event each. `@lose` is
//!   none: it keeps rounds from delivering a notice, for good, also one that isn't there yet.
//! - `@settle` plays rounds. In a *round* each session that runs has its turn, in the order of
//!   declaration. First each notice is delivered that is to its instance and was neither delivered
//!   nor lost, in ascending order; then slot 0 is polled, and then each slot that is held at this
//!   point, in ascending order. (This turn is none at an object.) A round in which no step was
//!   done, but such as ask again for a lock, is *idle*, and eight of these in a row end it. A
//!   delivery is no step.
//! - Behind the last line come `2^60 * (commands + 1)` rounds more, or as many as it takes until
//!   eight in a row are idle.
//!
//! # Contracts
//!
//! - [`play`] answers with a world to which the script's schedule led, from a new one on
//!   (`IsPlay`): each of its calls is the event that the rules name behind the calls before it.
//!   Nothing goes on in it any more.
//! - [`laws`], of each script that was read: its lines ascend, and name declared sessions. Of each
//!   session with a request: one of its requests may go on, as long as no lock holds it. So at the
//!   end of each play each command that was begun has its reply, or is lost, or is held up at a
//!   lock, or stands behind such a one in the line of its image. And a command without `&` begins
//!   when all before it of its session have ended.
//!
//! | file | what it says |
//! |---|---|
//! | `specs/Given.antt` | the commands that lines give to sessions; the notices that they lose |
//! | `specs/Notices.antt` | which notices were delivered, and which are due to a session |
//! | `specs/Starts.antt` | which command starts next (`to_start`), and that none may (`IsQuiet`) |
//! | `specs/Deeds.antt` | deeds, one after another |
//! | `specs/Schedule.antt` | the schedule, as a relation on worlds (`PlaysScript`) |
//! | `specs/Slots.antt` | what the slots of a client tell, behind each event |
//! | `specs/Playing.antt` | which scripts are played, what a play is, and what the runner keeps |
//! | `specs/InOrder.antt` | what holds of the lines of each script that was read |
//! | `specs/InTurn.antt` | commands that wait for each other come one after another |
//! | `specs/Going.antt` | whether a request of a session may go on (`MayGo`) |
//! | `specs/Ends.antt` | how a play ends (`HasCalmed`) |
//!
//! # Cost
//!
//! An event costs its step in the world (`rbd_world`). Only behind a reply, and where a line gives
//! a command that needn't wait for one before it, is each session's queue looked at for one that
//! may start: two look-ups by number. A command is passed by in its queue once, so all looks
//! together cost as much as there are commands. A turn looks at the slots of its session up to the
//! highest that any session was given so far, and at the notices that are in its inbox.
//!
//! # How it works
//!
//! Beside the world the runner has a queue of commands for each session, the lines that have their
//! reply or are lost, whether a command may have come to start, and the highest slot that was
//! given. A queue has two places that only go on: all commands before the one are over, and none
//! before the other stands beside the others and wasn't begun. An event by which no line ends and
//! no session runs again lets none start (`proofs/Quiet.antt`). What ended is read from the entries
//! that an event adds to the history.
//!
//! Of the notices it has marks of those that were delivered, and those that are lost. Each notice
//! comes once into the inbox of its session. Of the notices that were sorted so a session is past
//! all that aren't in its inbox: these are to others or to earlier lives, or were delivered or lost,
//! and never are due to it again (`proofs/Passing.antt`, `proofs/Sorted.antt`). So a turn looks at
//! what its session was told alone.
#![tactic(auto)]

mod given;
mod heard;
pub mod laws;
mod notices;
mod queue;
mod rounds;
mod runner;
mod script;

pub use script::play;
