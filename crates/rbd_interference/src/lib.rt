//! What requests may rely on while others' operations come in between, and when object maps are
//! exact: definitions and laws, and no code that a program calls.
//!
//! A request knows what its operations were answered and what it waited for (`Knowledge` of
//! `rbd_machine`), and a table says what it may do by that (`Permits`). Neither names a site. This
//! crate says when such knowledge is *true* at a site, by the site's records. It stays so, whoever
//! does what is permitted to it: what each request guarantees is what all others rely on.
//!
//! ```text
//! slot 1, a `write`              slot 2, a `create`         the records, and what is known
//! dir-find disk      id 7
//! header-get 7       header h                               the header of 7 is h
//! hold                           dir-add more      id 8     slot 2: id 8 waits for its header
//! header-get 7       header h                               slot 1: the header of 7 is h
//!                                header-create 8   done     8 has a header, 7 still has h
//! data-write 7.0     done                                   permitted by h, and so done
//! ```
//!
//! # Rules
//!
//! | what a request knows | when it is true |
//! |---|---|
//! | a header, with its own changes since | the image has it, but for the lock's owner |
//! | such a header, where a flatten may go beside | its parent may have gone too |
//! | an id that it drew | it waits for its header: no object of it was changed |
//! | an image whose header it removed | it has none, and its id isn't drawn again |
//! | an instance that it fenced | it is in the site's blocklist |
//! | a state that it raised in the map of the head or a snapshot | it isn't 0 |
//! | an object that it removed | it isn't there |
//! | alone: the states of the head's map | the map has them, and no other |
//! | alone: how long that map is | the map is there, and as long at least |
//! | alone: a snapshot's map that it put | it has the head's states |
//! | alone: places that it made zeros | they are zeros |
//! | a header that it was told, of any image | the one that the image has, if any, is a later one |
//!
//! How long a map is, a request also knows of an image that has no header, by its id that was drawn
//! or its header that was removed.
//!
//! - Knowledge is an instance's. What a fenced instance knew of headers says nothing any more: its
//!   lock may be broken, and another instance may change the image. It does nothing by them, since
//!   each of its operations is refused. The ids that it drew still wait.
//! - Two requests are *beside* each other where they go together on an image whose header both
//!   know (`go_together` of `rbd_kinds`: neither is alone, say), unless the instance of one is
//!   fenced. No id was drawn by both, or by one and its header removed by the other, and no header
//!   was removed by both. Nor did one draw the id of an image whose header the other was told. The
//!   line of an image sees to the first within a session (`rbd_queue`), and the lock between clients.
//! - Only where it is so may a request look at its image's header the first time under the lock, or
//!   give the lock up. It may change an object, or its state in the head's map, only where that
//!   breaks nothing which the other knows. A removal breaks that the object is there; what writes
//!   bytes, or leaves the object without any, that it isn't there, or that places of it are zeros;
//!   a state of 0, that the state was raised. This is what one may do beside another (`MayAct`).
//!   All else keeps two requests beside each other.
//! - Who isn't alone on an image knows of an object only in its turn there, and nothing once it
//!   waited for the next. So in its turn the others know nothing of the object: they had theirs
//!   before, or wait for it. A flatten takes no turns, and needs each object that is there: it goes
//!   beside none that makes zeros, removes an object or sets its state to 0.
//!
//! State 0 of an object map means that the object is absent, whatever happens. That a greater state
//! means that it is there holds as long as nobody is stopped or fenced. A request raises an
//! object's state before it makes the object, or sets it to 2 before it removes it and then to 0.
//! In between it *owes* the object what comes next, and maps are *exact* but for what anybody owes.
//!
//! # Contracts
//!
//! [`laws`] says, of any records:
//!
//! - What is known stays true under each operation that is permitted to another, who knows truly
//!   and may do it beside the first, and under the store's trims and ends of watches.
//! - What an answer and a wait teach is true, and says nothing of the other site. A fenced instance
//!   learns nothing, and changes nothing.
//! - What is answered was possible by what was known (`IsPossible` of `rbd_machine`): a later look
//!   at a header agrees with the earlier ones, and with an own header.
//! - What was told of other images stays true: a header stays an earlier one, and what was read of
//!   a snapshot is so as long as the snapshot is listed. So a byte that follows from several such
//!   reads, through one layer after another (Ceph: RBD layering), is the flat snapshot's.
//! - What is permitted by true knowledge meets the site's condition, and gets an answer that the
//!   owner of what it changes can be given. Where the records stand for a flat site, it has the
//!   effect there that `effect_of` tells, and no other.
//! - Each image goes on to have a map at each of its views, and none has a parent or a journal.
//! - Two requests that are beside each other stay so, and who isn't alone knows of an object only
//!   in its turn.
//! - A lock has one owner, and lasts. It is broken only where its owner is fenced, and given up, or
//!   removed with its header, only where no request beside knows the header.
//!
//! [`exact_laws`] says that the plans of all commands pay what they owe, and that what is permitted
//! by true knowledge leaves maps exact but for what is owed then.
//!
//! So a world of several clients goes on step by step: whatever request comes next, what all know
//! is true, what it wants may be done, and the step is one of the flat-copy machine, or none.
//!
//! | file | what it says |
//! |---|---|
//! | `specs/Truth.antt` | when knowledge is true at a site (`IsTrueAt`); which maps images have |
//! | `specs/Ancestors.antt` | when it is true what was told of images that a request doesn't own |
//! | `specs/Locks.antt` | what an instance may count on of a lock that is its own |
//! | `specs/Turns.antt` | what is known of single objects, in a turn |
//! | `specs/Beside.antt` | which two requests are beside each other, and what one may do then |
//! | `specs/Owed.antt` | what a request owes, and that it pays it (`PaysItsStates`) |
//! | `specs/Exact.antt` | maps are exact but for what anybody owes (`IsExactBut`) |
//!
//! # How it is shown
//!
//! A command whose row (`profile` of `rbd_catalog`) has neither the setting of a state nor the
//! removal of an object among its kinds owes nothing, whatever its plan is (`proofs/Unowing.antt`).
//! The plans of the others are gone through step by step.
//!
//! A new operation wants its row in `Permits`, a case in each law, and for what it teaches a field
//! in `IsTrueAt`. A parent will bring one more field: that an object inside the overlap was copied
//! up.
#![tactic(auto)]

pub mod exact_laws;
pub mod laws;
