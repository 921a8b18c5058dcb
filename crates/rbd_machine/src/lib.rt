//! What a request is: a machine that wants one thing at a time, does nothing itself, and goes on by
//! what it is fed; and how it goes through the line of its image.
//!
//! ```text
//! let reply = loop {
//!     let fed = match request.wants() {
//!         Want::Op { site, .. } => {
//!             let op = request.next(alloc)?;              // dir-find, header-get, ..
//!             Fed::Answer(what_it_answers(site, &op)?)
//!         }
//!         _ => Fed::Passed,                               // it has joined its line, ..
//!     };
//!     request.ready(alloc, &fed)?;                        // all memory that this needs
//!     do_it(&fed);                                        // the site does the operation
//!     match request.feed(&fed) {
//!         Flow::More => {}
//!         Flow::Done(reply) => break reply,
//!     }
//! };
//! ```
//!
//! | type or call | what it is |
//! |---|---|
//! | [`Machine`] | a request: what it wants, its next operation, and what it is fed |
//! | [`Request`], [`Begun`] | what a session asks of its requests: how one is made, and its laws |
//! | [`Approach`] | the way of a change to its look under the lock: a part of a request |
//! | [`Reached`] | what comes of a step of that way, its first look told apart |
//! | [`Refuses`] | what a change refuses by the header that it looks at |
//! | [`Progress`] | what comes of a step of a part |
//! | [`Stage`] | how far a request has come in the line of its image |
//! | [`Reason`] | why it asks for an operation |
//! | [`Seat`] | whose request it is: a session's, at home at a site |
//! | [`Boxed`] | a machine in memory of its own, so that it is moved at no cost |
//! | [`gives`], [`can_give`] | which answers an operation can give |
//! | [`told_image`], [`told_header`], [`told_done`] | what an answer tells, or its refusal |
//! | [`refusal_of`], [`non_primary`] | the refusal by an answer, and that of a secondary |
//! | [`dir_find`], [`header_get`] | the operations that look an image up |
//!
//! # Rules
//!
//! | it wants | whoever holds it | it is fed |
//! |---|---|---|
//! | `Op` | has the operation done at the site, once it is `ready` for the answer | the answer |
//! | `Note` | notes its event in the image's journal | `Passed` |
//! | `Join` | puts it into the image's line, alone or beside others | `Passed` |
//! | `Hold` | lets it wait until the line lets it go on, and it has the lock | `Passed` |
//! | `Turn` | lets it wait for its turn at an object | `Passed` |
//! | `Applied` | notes that its event counts as applied | `Passed` |
//! | `Leave` | takes it out of the line | `Passed` |
//!
//! - What it wants stays the same until it is fed. `feed` takes no memory, so no answer to an
//!   operation that was done is lost for want of it. A `ready` that is refused memory changes
//!   nothing, and may be called again.
//! - The answer `fenced` ends a request with Fenced. What isn't there ends it with NoImage.
//! - A change looks at its header twice: before it waits for the lock, and under it. The look under
//!   the lock decides, since what it shows can't change as long as the client has the lock. The
//!   first look spares a request that is refused the wait.
//! - Clients don't change a secondary: NonPrimary.
//!
//! # The course of a request
//!
//! How a request goes through the line of its image is told without the others in that line (own,
//! after Ceph's exclusive lock and its order of writes at an object). Its *course* says four
//! things:
//!
//! - its *place*: the image whose line it is in, whether it is alone there or goes beside others,
//!   and how far it has come ([`Stage`]);
//! - its *turn*: the object whose piece it does, or awaits its turn for;
//! - what is *due*: the objects whose tickets it takes at the end of its note;
//! - its *objects*: those whose tickets it has, in the order of its pieces.
//!
//! A write of the objects 0 and 1 of image 7:
//!
//! ```text
//! it wants          and is fed      place            turn  due     objects
//!                                   none             none  []      []       the beginning
//! dir-find disk     id 7            none             none  []      []
//! Join, shared      Passed          7, Joined        none  []      []
//! header-get 7      a header        7, Joined        none  []      []       the first look
//! Hold              Passed          7, Waiting       none  []      []
//! header-get 7      a header        7, Past          none  [0, 1]  []       under the lock
//! Note              Passed          7, Past          none  []      [0, 1]   it has its tickets
//! Turn 0            Passed          7, Past          0     []      [0, 1]
//! ..                                                                        the piece of object 0
//! Turn 1            Passed          7, Past          1     []      [1]      its ticket went
//! ..                                                                        the piece of object 1
//! Applied           Passed          7, Past          none  []      []       and the other ticket
//! it is done with its reply
//! ```
//!
//! - The *look under the lock* is the next look at the header of the line's image, once the request
//!   has waited for the lock. Told the header, the request is past it, and stays so in that line.
//! - With that answer a request beside others is due the objects of its extent, by the layout that
//!   the header tells. An extent that doesn't end within the size has none. A request that is
//!   alone, or changes no extent, is due none.
//! - A piece ends where the next turn is awaited, or that the event counts as applied. Then the
//!   first of its objects goes.
//!
//! A request is *orderly* where it keeps to this, whatever it is answered:
//!
//! | it | only where |
//! |---|---|
//! | asks for an operation | nothing is due |
//! | joins a line | it is in none, and has waited for nothing since its last answer |
//! | waits for the lock of an image | it is in that image's line, and hasn't waited there yet |
//! | has its event noted or applied, or leaves a line | it is in the line of that image |
//! | waits for its turn at an object | this is the first of its objects, behind the piece before |
//! | goes to a label | its course is the one that belongs to the label |
//!
//! So a request takes its tickets directly behind its look under the lock: no operation comes
//! between.
//!
//! # Contracts
//!
//! Contracts see a machine as where it stands (`Standing`): the *plan* that is left, a finite tree
//! of steps that branches on the answers, and the plan at each label, where a part begins again.
//! They promise of each machine:
//!
//! - `wants`, `next` and `reason` tell the next step of its plan (`Wants`, `Asks`, `AsksBy`).
//! - After `feed` it stands where its plan goes on by what it was fed (`plan_after`), and wants
//!   something; or it is done with the plan's reply (`GoesOn`). So whatever is said of plans is so
//!   of the requests that follow them.
//! - A session names no request: [`Request`] gives it the plan of a work, what the reply means, and
//!   three laws. The request is orderly, does only what it may by what it knows, and each reply is
//!   meant.
//!
//! Laws on any plan:
//!
//! - [`laws`]: what a request asks for, with the answers that it is fed, is a path of its plan,
//!   which bounds how many operations there are. One that begins again ends in a pass that doesn't.
//!   A change has three operations up to its look under the lock. A lawful request stays so,
//!   whatever it is fed that was possible by what it knew: later looks agree with earlier ones. It
//!   goes to a label where it knows at least as much as is known there, and who knows more may do
//!   more. It changes no image that it doesn't own by its look under the lock, and that look
//!   decides how it may. It breaks a lock only behind the fence of its owner, and lets one go only
//!   where it relies on no header. It is refused by answers of its own images, and looks at no
//!   others but those that headers name as parents.
//! - [`object_laws`]: who changed an object, or read it where none that removes it is beside it,
//!   knows that it is there. What makes zeros, or removes an object, is done beside no flatten.
//! - [`course_laws`]: an orderly request stays orderly, whatever it is fed, on the course that it
//!   has where it goes on.
//!
//! The definitions are read in this order.
//!
//! | file | what it says |
//! |---|---|
//! | `specs/Wait.antt` | what a request waits for |
//! | `specs/Label.antt` | where a request begins a part again |
//! | `specs/Plan.antt` | `Plan`, where a machine stands, and what each call tells of that |
//! | `specs/Answers.antt` | the answers that an operation can give (`CanGive`) |
//! | `specs/Ready.antt` | only an answer needs memory |
//! | `specs/Steps.antt` | steps that many requests share, as plans |
//! | `specs/Objects.antt` | the operations on the object of a piece |
//! | `specs/Path.antt` | the operations of a plan one after another, and how many at most |
//! | `specs/Passes.antt` | the passes of a request that begins again |
//! | `specs/Standalone.antt` | images with neither a parent nor a journal |
//! | `specs/Turns.antt` | at which objects a request waits for its turn |
//! | `specs/Approach.antt` | what is left of an [`Approach`], and what comes of a step of it |
//! | `specs/Knowledge.antt` | what a request knows, by its answers (`learned`) and its waits |
//! | `specs/Permits.antt` | what is permitted by that |
//! | `specs/AtLeast.antt` | who knows at least as much (`KnowsAtLeast`) |
//! | `specs/Possible.antt` | what may be told, by what is known (`IsPossible`) |
//! | `specs/Lawful.antt` | a plan does only what it may by what is known there (`IsLawful`) |
//! | `specs/About.antt` | which images are a request's own (`owned_behind`), and which operations are of them |
//! | `specs/OwnSteps.antt` | how many operations there are but for looks above (`own_steps`) |
//! | `specs/Refused.antt` | what an answer refuses, and what a refusal rests on (`IsRefusedBy`) |
//! | `specs/Begun.antt` | what comes of making a request (`IsBegun`) |
//! | `specs/Course.antt` | `Course`, and what each step makes of it |
//! | `specs/Orderly.antt` | the table above: `MayWait`, `IsOrderly`, with labels `IsOrderlyFrom` |
//!
//! # A new request
//!
//! 1. Its plan goes into `specs/`, in small definitions, each named after its step and with what
//!    comes next as its argument. So what is left at any step has a name.
//! 2. A private enum `Stage` has a variant for each step, with what the steps from there on need.
//!    `rest_at`, in `specs/`, gives the plan that is left at each. `stands` is that plan.
//! 3. Each call of [`Machine`] is a `match` with an arm for each step; the trait has the contracts.
//!    What can't be asked or fed at a stage is `unreachable!()`. An arm that does more than name
//!    the next step calls a function with a contract of its own. What an operation's answers tell
//!    is a lemma for each kind (`proofs/Tells.antt`).
//! 4. A part that several requests have is a struct of its own, whose clauses hold for every plan
//!    that comes next. So a request puts in its own, and proves nothing of the part again.
//! 5. Laws: its labels stand at operations (`IsClosed`), how many operations it has, that it is
//!    lawful (`IsLawfulRequest`), and that each reply is meant (`IsMeantBy` of `rbd_meaning`). An
//!    operation that no request did before gets its row in `Permits`, by what its effect on a site
//!    needs.
//!
//! # Cost
//!
//! A call is a few words, whatever came before it. `next` copies what it names: [`dir_find`] the
//! name, [`header_get`] nothing. An [`Approach`] takes memory in `next` alone, and [`told_header`]
//! lends the header of the answer. Of a course nothing runs here: `rbd_queue` keeps the stage and
//! the tickets of each member of a line.
#![tactic(auto)]

mod approach;
mod boxed;
pub mod course_laws;
mod giving;
pub mod laws;
mod looks;
mod machine;
pub mod object_laws;
mod progress;
mod reason;
mod request;
mod seat;
mod stage;
mod told;

pub use approach::{Approach, Reached, Refuses};
pub use boxed::Boxed;
pub use giving::{can_give, gives};
pub use looks::{dir_find, header_get};
pub use machine::Machine;
pub use progress::Progress;
pub use reason::Reason;
pub use request::{Begun, Request};
pub use seat::Seat;
pub use stage::Stage;
pub use told::{non_primary, refusal_of, told_done, told_header, told_image};
