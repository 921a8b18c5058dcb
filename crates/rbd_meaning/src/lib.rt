//! What the reply to a command means, behind the operations that were done for it: definitions,
//! laws on them, and no code that a program calls.
//!
//! A request does operations, and is answered each. The operations with their answers are its
//! *steps*, one list, however other requests' operations came in between. `IsMeantBy seat command
//! steps reply` says that the reply is the one that the command of a session with that seat has
//! behind these steps: it is done and this was done, or it shows what was told, or it is refused
//! and this answer refused it. It says nothing of how a request asks. That is a plan, and each
//! crate of requests shows of its plans that each reply to which a walk leads is meant
//! (`laws::replies_are_meant` there).
//!
//! ```text
//! write disk 4094 hello       steps                                reply
//!                             dir-find disk       id 7
//!                             header-get 7        header h
//!                             header-get 7        header h
//!                             map-set 7 0:1       done
//!                             data-write 7.0      done
//!                             map-set 7 1:1       done
//!                             data-write 7.1      done              Done
//!
//!                             dir-find disk       id 7
//!                             header-get 7        header h
//!                             header-get 7        none              Refused NoImage
//! ```
//!
//! # Rules
//!
//! | command | the reply, where it isn't refused, and what it means |
//! |---|---|
//! | `create` | Done: the shape is within the limits, an id was drawn for the name, and a map of the objects and a new header were made under it |
//! | `write`, `fill` | Done: two looks, and each piece of the extent was written by the second, under its snapshot context, behind the state of its object |
//! | `discard` | Done: two looks, and each piece of the extent became zeros by the second |
//! | `read` | Bytes: a pass between two looks at one generation, and what its pieces showed, in the order of the image |
//! | `resize` | Done: two looks, and the size was set by the second |
//! | `rename` | Done: the name became the other |
//! | `rm` | Done: two looks, each with one at the watchers, and by the second all went that the image was |
//! | `ls` | Names: those that the site told |
//! | `info`, `snap ls` | Info, Snaps: what the header of the name's image tells |
//! | `du` | Used: of the objects of the size that the image's header tells, how many have another state than 0 in the head's map |
//! | `snap create` | Done: two looks, the head's map became that of the next snapshot, and the header took the snapshot |
//! | `snap rm` | Done: two looks, and the snapshot went that the second lists under the name, and then its map |
//! | `snap rollback` | Done: two looks, the size was set to that of the snapshot which the second lists under the name, and each object of the head became what it was at the snapshot |
//! | `close` | Done: the image's lock was dropped and its watchers were told so, or it wasn't the client's; then its watch was let go |
//! | `quiesce` | Done: two looks, the second under the lock |
//! | a straight command (`straight_of`) | Done: the image was found, and its watchers were told the bytes, if there are any |
//!
//! A refusal is that of the last answer (`refusal_by` in `rbd_machine`, and for `rm`
//! `removal_refusal_by`): the first that holds there, in the order in which the command's
//! definition names them. The operations were the command's own: it looked its name up, or drew an
//! id for it, and the others are of the image that it was told. No answer before refused. Nothing
//! that users see was changed before, but where the fence refused a write, a fill, a `discard`, a
//! `create`, a `resize`, an `rm`, a `snap rm`, a `snap rollback` or a close, which may come at any
//! time: the write had only looked, or had written its first pieces by its look under the lock and
//! begun the next one at most, the create had drawn its id and made its map at most, the `snap rm`
//! had only looked, or had removed its snapshot, and the `discard`, `resize`, `rm` or
//! `snap rollback` had only looked, or had done the first operations of a whole one (`IsFrontOf`).
//! Behind its drop a close may find that its image is gone, too. A `create` of a shape outside the
//! limits is refused behind no operation. A read that began again is refused by its last pass, and
//! each pass before saw another header at its end, or none.
//!
//! No other reply is meant, and none for a command that isn't in the table, nor for a `create` with
//! a journal.
//!
//! # Contracts
//!
//! The definitions are read after those of `rbd_machine`, in this order.
//!
//! | file | what it says |
//! |---|---|
//! | `specs/Count.antt` | how many objects a size has |
//! | `specs/Range.antt` | the bytes that a command is about, and the refusal of those that aren't there |
//! | `specs/Arrange.antt` | bytes that were read object by object, in the order of the image |
//! | `specs/Writes.antt`, `specs/Reads.antt`, `specs/Creates.antt`, `specs/Listings.antt`, `specs/Snaps.antt`, `specs/Closes.antt` | of each command, what a header refuses, what has been done or is shown, and what each reply means |
//! | `specs/Straight.antt` | the rows of the straight commands, and what their replies mean |
//! | `specs/Discards.antt`, `specs/Resizes.antt`, `specs/Rollbacks.antt`, `specs/Removals.antt` | the same of the changes that have many operations |
//! | `specs/Partly.antt`, `specs/Parentless.antt` | the front of a whole change; answers that tell no parent |
//! | `specs/Meant.antt` | `IsMeantBy`: all commands that are served |
//! | `specs/Replies.antt`, `specs/Named.antt`, `specs/Undone.antt` | which kinds of reply a command has, which name it looks up, and which steps changed nothing: the words of the laws |
//!
//! [`laws`] says that behind the same operations one reply is meant, that no reply of one kind is
//! meant for a command of another, that nothing is done or shown for no operation, that a request
//! which was refused has changed nothing that users see, but where the fence refused one of those
//! above, or a close was fenced or found its image gone, that a name which isn't there is the
//! command's own, and that a secondary is refused as such whatever else holds there. They also say
//! that what was taken wasn't listed, what was removed wasn't protected, and an image that was
//! removed had no snapshot, and that a size has as many objects as its bytes have pieces.
//!
//! # A new command
//!
//! Its rows go into a file of `specs/`, and its line into `IsMeantBy` and into `grants`
//! (`specs/Replies.antt`). The laws here then want its cases, and the crate that has its plan wants
//! the law that its replies are meant.
#![tactic(auto)]

pub mod laws;
