//! What replies say: each is the flat-copy machine's, at its place in the one history. And what
//! fenced clients can't do: they change nothing. Definitions and laws on the runs of `rbd_world`,
//! and no code that a program calls.
//!
//! ```text
//! the run                       the flat site, byte 4,094 on    what the replies of lines 5 and 6 say
//! write 5: dir-find, two looks  00 00 | 00 00
//! read 6:  dir-find, a look     00 00 | 00 00
//! write 5: data-write object 0  11 22 | 00 00
//! read 6:  data-read object 0   11 22 | 00 00                   its first piece is 11 22, as here
//! read 6:  data-read object 1   11 22 | 00 00                   its second is 00 00, as here
//! read 6:  a look               11 22 | 00 00                   the header is the first look's: 11 22 00 00
//! write 5: data-write object 1  11 22 | 33 44                   done: its two pieces, and nothing else
//! ```
//!
//! # Rules
//!
//! The operations of a line's command stand at *places* of the run, each with the flat site of all
//! effects before. Those on its way to the lock of its image are apart, as those of a release and
//! of a stopped session are: they are no part of the command. A header that a reply goes by, by its
//! layout, its size, its snapshots or its generation, is the one that the look at its place was
//! told (`LooksAt`).
//!
//! | reply | what it says |
//! |---|---|
//! | `create` done | the name was free at its first place; its effects are the name and a new image of zeros |
//! | `write`, `fill` done | its effects are its pieces, one for each object of its extent, in order, in the image that the name had; they lie within the size at its look under the lock |
//! | `snap create`, `snap rm` done | its one effect is the snapshot taken, or the removal of the one that the flat image had under the name at its look under the lock |
//! | `discard` done | its effects are zeros at its pieces, one for each object of its extent, in order; it lies within the size at its look under the lock |
//! | `resize` done | its effects are zeros from the new size on, where it shrank, and then the size |
//! | `snap rollback` done | its effects are those of a resize to the size of the flat snapshot that the name had at its look under the lock, and then for each object of this size the bytes that the flat snapshot shows where the object was read |
//! | `rm` done | its effects are the name freed, where one led to the image still, and the image gone; it had no snapshot at its look under the lock |
//! | `rename` done | its one effect is the other name, which was free, for the image that the first had at its place |
//! | `ls` | all names of the flat site at its place |
//! | `du` | how many objects the size of the flat image has at the place of its look, by the layout that it was told; and how many of them are in use by the states that its map told |
//! | `info`, `snap ls` | size, role and snapshots of the flat image at the place of its look |
//! | `read` | in its last pass each piece, by the layout that its first look was told, was read at a place of its own, and what was answered there are the flat view's bytes at this place; the extent lies within the view, and the looks at both ends of the pass were told headers of one generation |
//! | any other command, answered as its row says, as a `close` | no effect at all |
//! | any refused | no effect at all, unless the fence refuses a change when a part of it was done; what refuses it is said of its last answer by `rbd_meaning` |
//! | any refused on its way to the lock | no effect at all; what refuses it is said as of a look under the lock that was answered as the way's last operation was |
//! | any to a command that changes no image | no effect at all, also where its line is lost or under way |
//! | any to a command that only shows | none of its operations has an effect, changes a record or is told to anybody |
//!
//! Which instance may change what doesn't depend on replies:
//!
//! | operation | what holds |
//! |---|---|
//! | of a fenced instance | at the site that fenced it: it is answered `Fenced`, and neither site, no flat site and no notice changes, at every place behind the fence, also long after its session was stopped |
//! | a change of an image that is done | it is by the owner of the image's lock there; or makes the map of an image whose id its command drew, and that never had a header; or removes what is left of one whose header its command removed |
//! | a lock is broken | its owner was fenced before, at that site |
//! | a lock is lost | its owner dropped it, removed the header with it, or is fenced |
//! | what comes behind a stop | its slot wanted just this when its own life was stopped, and it comes once |
//! | a watch ends | whoever watched ended it, or the store did, or the header was removed by the owner of the image's lock |
//! | a notification | no record and no flat site changes |
//!
//! An operation that a stopped session had sent is the next one, at the stop, of a line that was lost
//! by it. So one that makes a map is of a command that drew the id itself, and one that removes the
//! map of a head of a command that removed the header itself. The command of one that removes an
//! object, or the map of a snapshot, of an image without a header removed that itself or had looked
//! at it: that nobody else of its instance removed it since, a run doesn't say.
//!
//! # Contracts
//!
//! | file | what it says |
//! |---|---|
//! | `specs/Places.antt` | the places of a command's operations, the flat site there, what a look there was told, and their effects |
//! | `specs/Home.antt` | that they were done at one site |
//! | `specs/Changed.antt` | what changes did |
//! | `specs/Zeroed.antt` | what a discard and a resize did |
//! | `specs/RolledBack.antt` | what a rollback did |
//! | `specs/Removed.antt` | what an `rm` did |
//! | `specs/Listed.antt` | what listings show |
//! | `specs/Reads.antt` | what a read shows |
//! | `specs/Replies.antt` | all of it, by command and reply (`IsReplyOf`) |
//! | `specs/Worlds.antt` | so it is with each reply in a world's history, at its own entry; and that worlds go on by events |
//! | `specs/Shown.antt` | that the headers which replies of a history show are in form |
//! | `specs/Bounds.antt` | how many operations a line's command has at most, so far and in all |
//! | `specs/Fenced.antt` | that an operation changed nothing, as a look, or since its instance is fenced; and whose changes are |
//! | `specs/Logs.antt` | that the log of a site is an owned one, as `rbd_stands` has it |
//! | `specs/Sent.antt` | that what comes behind a stop was sent, and comes once |
//! | `specs/Watched.antt` | who watches, and what a notification leaves as it was |
//!
//! [`laws`] says it of each reply of each run that is right (`IsRight` of `rbd_world`), as that of
//! every world is: at its own place, whatever comes later.
//!
//! # How it works
//!
//! `rbd_meaning` says of a reply which operations its line did and what they were answered; the run
//! says that each answer is that of the records there, and that these stand for the flat site. So
//! each row above is a law of `rbd_stands` at one place or several. For a read the header is the
//! same at all places of the pass, since a header that is there stays until it is removed, and none
//! comes in its place then; its generation never falls, and what leaves the generation leaves the
//! header, but for its owner. Where no reply came, a walk of the command's plan led to where the
//! line is or was lost (`IsLedTo` of `rbd_world`), and what it may ask for on its way is said by
//! the row of its command (`profile` of `rbd_catalog`).
//!
//! Which bytes a discard, a resize and a rollback changed depends on the header at each operation.
//! That is the one that the command's look under the lock told, with its own changes since: the run
//! says of each operation of a line what its command knew by the line's own operations (`Recalls`
//! of `rbd_world`), and that what is known is true.
//!
//! A blocklist only grows: the one operation that changes it puts an instance in, and a trim or the
//! end of a watch leaves it. So who is fenced at a place is so at all later ones, and a site does
//! nothing for it.
#![tactic(auto)]

pub mod laws;
