//! One world: two sites, up to 32 sessions with their lives, and one history of what they did, in
//! whatever order, whatever notice was lost, and whoever was stopped.
//!
//! ```text
//! let c1 = SessionNo(0);
//! let mut world = World::new(alloc, &[SiteId::A, SiteId::A])?;  // sessions c1 and c2
//! world.step(alloc, &create)?;                           // Submitted: line 3, in slot 1 of c1
//! world.poll(alloc, c1, Slot(1))?;                       // Step, number 1 at site A: dir-add
//! world.poll(alloc, c1, Slot(1))?;                       // number 2: map-resize
//! world.poll(alloc, c1, Slot(1))?;                       // number 3: header-create; its reply
//! world.step(alloc, &write)?;                            // Submitted: line 5
//! world.poll(alloc, c1, Slot(1))?;                       // dir-find; then its way to the lock
//! world.step(alloc, &Event::Stop { session: c1 })?;      // Stopped: line 5 is lost
//! world.step(alloc, &expire)?;                           // Stored: c1.0 watches no more
//! world.step(alloc, &other_write)?;                      // c2 will fence c1.0, and break its lock
//! world.step(alloc, &late)?;                             // Step: what c1.0 had sent comes
//! world.step(alloc, &Event::Restart { session: c1 })?;   // Restarted: c1 goes on as c1.1
//! let history = world.history();                         // start 3, effect name, .., stop, lost 5
//! world.close();
//! ```
//!
//! | type | what it is |
//! |---|---|
//! | [`World`] | both sites with their mail, all sessions with their lives, history and calls |
//! | [`Event`] | what can happen: at most one operation on one object of one site |
//! | [`Outcome`] | what came of it |
//! | [`Call`] | an event with its outcome, as the world keeps it |
//!
//! # Rules
//!
//! | event | outcome | what it does |
//! |---|---|---|
//! | submit | `Submitted` | a session begins the command of a line, in its lowest free slot |
//! | poll | `Step` | the slot's next operation is done |
//! | poll | `Step`, number 0 | a request that is refused before any operation has its reply |
//! | poll | `Waits` | nothing: the slot waits, or slot 0 has no lock to let go |
//! | deliver | `Heard` | the instance that a notice is for, if it runs, hears it: each time anew |
//! | expire | `Stored` | a site ends the watch of a session's oldest instance that watches |
//! | stop | `Stopped` | the instance stops: its lines without a reply are lost |
//! | late | `Step` | what a slot of the life that was stopped last wanted comes, once |
//! | restart | `Restarted` | a session that doesn't run begins its next life, which knows nothing |
//! | trim | `Stored` | the store drops what an object keeps for snapshots that are gone |
//! | any | `Nothing` | nothing: it named nothing that is there |
//!
//! - What is done at a slot is of the request in it, or of its way to the lock of its image. In
//!   slot 0 acts the *house* of the instance, which only lets locks go.
//! - A slot waits where the line of its image, another's turn, a quiesce, or another client's wish
//!   for the lock holds its request back.
//! - `Nothing` comes where there is no such session, or none that runs; no free slot; a line that
//!   was begun before; an empty slot; no such notice, watch or object.
//! - An operation has one entry of the history, with its number in its site's log.
//! - A world takes 2^59 - 1 events. What comes behind them is refused, as if there were no memory.
//! - An instance that is fenced at a site changes nothing there, late operations included: they are
//!   answered `fenced`.
//! - A notice that is never delivered holds nobody up for ever: who wants a lock asks again.
//!
//! # Contracts
//!
//! Contracts see a world as its sites' logs and mail, its sessions with their lives, its history
//! and its calls, each an event with what came of it (`WorldView`). They speak of it as plans tell
//! it (`seen`): in each slot stands what is left of its request, in place of the machine. (The view
//! itself holds the machines, since a plan has functions, and what a `Model` shows may have none.)
//!
//! What an event does is a function of the world (`happening`): the outcome, and what is added to
//! the history, to a log, to the mail and to the calls. Only what becomes of the client of the
//! session that the event names is said by that client's own clauses. A step that is refused memory
//! has done nothing.
//!
//! Each world is sound, whatever events came (`IsSoundWorld`):
//!
//! - Its calls, history, logs and mail are those of one *run*. At each place of the run each site's
//!   records stand for its flat site: that of the effects so far. A parent is less deep than its
//!   child.
//! - A line of the script is begun once, by an instance that runs. Each operation for it comes
//!   between its start and its end, with the answer and the effect that its site has for it there.
//!   Its one reply is the command's behind these operations (`IsMeantBy` of `rbd_meaning`); where
//!   it is refused on its way to the lock, as if its look under the lock had been answered so. It
//!   is lost exactly where its instance is stopped before.
//! - The request in a slot stands where a walk of its command's plan led it, by just the operations
//!   that were done for its script's line. Each such line that has neither reply nor loss is in a
//!   slot.
//! - The operations on a command's way to the lock of its image are a way of `rbd_lock`, while its
//!   own walk wants its look under the lock.
//! - Whoever does an operation is permitted it by what it knows, and what it knows is true. So is
//!   what it read of snapshots, as long as they are listed. What changes an image is its owner's,
//!   and a lock is broken only where its owner is fenced. A client counts its locks by its own
//!   operations alone.
//! - Of two `write`, `fill` or `discard` requests of one instance, the one that found an image
//!   first changes each of its objects first.
//! - As long as nobody is stopped or fenced, object maps tell exactly which objects exist, but for
//!   the object that a request makes or removes next, or whose state it sets next.
//!
//! [`laws`] has these as laws over any world as plans tell it: a world begins sound, and each
//! event, and each refusal of memory, leaves it so. It adds what follows of runs: who acts is a
//! life that runs, but for what a stopped one had sent; ways lead to locks; who has a lock watches
//! its image; and an owner which isn't fenced counts its lock.
//!
//! | file | what it says |
//! |---|---|
//! | `specs/Seats.antt` | where sessions are at home |
//! | `specs/World.antt` | what contracts see of a world (`WorldView`) |
//! | `specs/Seen.antt` | a world as plans tell it (`seen`) |
//! | `specs/Begun.antt` | whether a line of the script was begun |
//! | `specs/Run.antt` | a run: what the calls did; its history, logs and records at each place |
//! | `specs/Operate.antt` | one operation at a site |
//! | `specs/Sending.antt` | who has an operation done, and what a poll comes to |
//! | `specs/Step.antt` | what an event does (`happening`), and what a refused step leaves |
//! | `specs/Noted.antt` | the history after an event |
//! | `specs/Events.antt` | the steps of a list of events |
//! | `specs/Sound.antt` | what holds of each world (`IsSoundWorld`) |
//! | `specs/Past.antt` | what held up to a place of a run |
//! | `specs/Ways.antt` | the operations of a command on its way to a lock, and of a release |
//! | `specs/LetGo.antt` | which release of a lock a house is in the middle of |
//! | `specs/Owning.antt` | which locks an instance counts as its own, by its own operations |
//! | `specs/Watched.antt` | who watched an image, and whether its watch was ended since |
//! | `specs/Closes.antt` | where a request stands that lets a lock go by its own command |
//! | `specs/Owing.antt` | what the script's lines owe to object maps |
//! | `specs/Order.antt` | the order in which the writes of one instance change an image |
//! | `specs/InLine.antt` | how a write goes through the line of its image |
//! | `specs/Late.antt` | what comes of a stopped life |
//!
//! # Cost
//!
//! A step costs its operation, and look-ups by number: of a session, of a slot, of a notice, and of
//! a line on its page. History, logs and mail grow at their end, and are never copied or read. Of
//! the calls only the number is kept: the list is for contracts alone, and takes no memory
//! (`src/ghost_log.rt`). A poll whose operation may have an effect looks once more at the header of
//! its image, whose list of snapshots is shared. A stop costs its session's 65 slots.
//!
//! # How it works
//!
//! Room for two entries is taken first. A poll asks the client for its operation
//! and the site for its answer, makes the client ready for it, does the operation, and feeds the
//! client. Only the last two change anything, and the last takes no memory. A stop makes its lists,
//! and their room, before the client goes.
#![tactic(auto)]

mod begun;
mod calls;
mod deliver;
mod event;
mod foresee;
mod ghost_log;
mod late;
pub mod laws;
mod lives;
mod noting;
mod operate;
mod poll;
mod sender;
mod sites;
mod step;
mod stop;
mod submit;
mod trim;
mod world;

pub use event::{Call, Event, Outcome};
pub use world::World;
