//! When the records of a site stand for a flat site, and which step of the flat-copy machine each
//! operation is: definitions, laws, and one call.
//!
//! A site keeps a directory, headers, and objects with what they kept for snapshots. Users think of
//! a *flat site*: plain lists of bytes, each snapshot a full copy. `StandsFor` says that records
//! show exactly a flat site: the same names, the same images, and each byte of each view. Each
//! operation is then one step of the flat-copy machine, or none. [`effect_of`] computes which:
//!
//! ```text
//! // An image of 20,000 bytes: objects of 8,192 bytes, units of 4,096, three objects in a stripe.
//! // Its unit 4, image bytes 16384 to 20479, is the second of object 1.
//! let op = Op::Data { image, object: 1, op: write };     // offsets 7710 to 7713: bytes 1, 2, 3, 4
//! let effect = effect_of(alloc, &op, &Answer::Done, Some(&header))?;     // Piece at 19998: 1, 2
//! let effect = effect_of(alloc, &op, &Answer::Absent, Some(&header))?;   // None: it wasn't done
//! let effect = effect_of(alloc, &op, &Answer::Done, None)?;              // None: no such image
//! ```
//!
//! # Rules
//!
//! | operation | answer | effect |
//! |---|---|---|
//! | `dir-add` | `id` | `Name` |
//! | `dir-remove`, `dir-rename` | `done` | `NameFree`, `Rename` |
//! | `child-add`, `child-remove` | `done` | `Link`, `Unlink` |
//! | `header-create` | `done` | `Create`; `Clone` where the header has a parent |
//! | `header-set-size`, `header-role`, `header-remove` | `done` | `Size`, `Role`, `Gone` |
//! | `header-snap-add` | `snap` | `Snap` |
//! | `header-snap-remove`, `header-snap-status` | `done` | `Unsnap`, `Status` |
//! | `header-mirror` | `done` | `Role` primary, where it had no global name yet |
//! | `data-write` | `done` | `Piece` of its parts below the size, with their bytes |
//! | `data-write-full` | `done` | `Piece` of the whole object: zeros past the bytes |
//! | `data-zero` | `done` | `Zero` of its parts below the size |
//! | `data-empty`, `data-remove` | `done` | `Zero` of the whole object below the size |
//!
//! Each other operation and answer has no effect, nor has an operation on an object whose image has
//! no header, nor a copy-up, since the image shows these bytes already. A flat site has no locks,
//! watchers, object maps or blocklist. What is done to them, by a fenced instance, or by the store
//! itself leaves it as it is.
//!
//! # Contracts
//!
//! A proof about a machine that does operations carries `StandsFor` along. It is so at the start
//! ([`laws::no_records_stand`]). For each operation the proof cites its law, shows the law's
//! condition, and has `StandsFor` of the records after the operation and of the flat site after the
//! effect:
//!
//! ```text
//! writing_an_object   StandsFor of these records, and the header is there
//!                     the context is the header's, the parts lie in the object, below the size
//!                     inside the overlap the object was copied up
//!                     the answer to the `data-write` is `done`
//!                   → StandsFor of the records after it
//!                     and of the flat site after the Piece of these parts
//! ```
//!
//! - [`laws`]: a law for each operation. The conditions are what a machine has to see to: the
//!   header's snapshot context, a copy-up before a write, zeros before a shrink, no view left on a
//!   snapshot that goes. What is read needs none: a header tells the flat image, and an object's
//!   bytes are the flat image's.
//! - [`maps`]: state 0 of an object map goes on to mean that the object is absent.
//! - [`fencing`]: what a site's log says of locks. Who is listed does nothing any more. Who loses a
//!   lock let go of it or is listed, where each change of an image was by its owner.
//! - [`effect_of`] gives the value of one definition, for any operation, answer and header in form.
//!   The parts of the operation may lie anywhere, in any order, and have more or fewer bytes than
//!   are given. `Err` comes only where memory is refused.
//!
//! | file | what it says |
//! |---|---|
//! | `specs/View.antt` | the views of an image: its head, and each snapshot that its header lists |
//! | `specs/Shown.antt` | the byte that an object shows, its own or the parent's |
//! | `specs/Image.antt` | when header and objects stand for a flat image (`ImageStands`) |
//! | `specs/Site.antt` | when the records stand for a flat site (`StandsFor`) |
//! | `specs/Condition.antt` | the conditions of the laws |
//! | `specs/Covering.antt` | when object maps cover the objects, and what keeps that |
//! | `specs/Effect.antt` | the effect of an operation, and of a line of a log |
//! | `specs/Unseen.antt` | operations on what a flat image doesn't have |
//! | `specs/Reading.antt` | what operations that read tell of the flat site |
//! | `specs/Writing.antt` | a write of bytes to an extent, piece by piece |
//! | `specs/Owned.antt` | changes by owners (`IsOwnedStep`), and what a log says of locks |
//! | `specs/Kept.antt` | how much of an object's parts lies below a size, for the code |
//!
//! # Cost
//!
//! An effect costs what it holds: a name, one extent for each run of bytes that lie together, and
//! the bytes. The size of the image, its snapshots and what its objects keep don't count, and no
//! header is copied. A change of parts takes a step for each part and each stripe unit that it
//! touches, one of a whole object a step for each unit below the size; where a stripe has one
//! object, its units are one run. Names and bytes that are shared (`Bytes::share`) the effect
//! shares too; others are copied. Bytes of a write are put together anew only where some of them go
//! past the size, or are more than its parts have.
//!
//! # How it works
//!
//! *One step to the parent.* The byte of an absent object inside the overlap is the byte of the
//! parent's flat snapshot, and isn't looked up through the parent's objects. So an image stands by
//! its own header and objects, and the flat snapshots that its views name. A change of one image
//! leaves all others standing where it keeps these.
//!
//! *One law for all changes of a head* ([`laws::changing_a_head`]): a change under the header's
//! context keeps what each listed snapshot shows, whatever the new head is. So write, zero, empty,
//! remove and replace only say what the head shows then.
//!
//! *The effect.* In one object a greater offset is a greater byte of the image. So the offsets
//! whose bytes lie below the size are the first ones, and a few divisions tell how many
//! (`held_below`). That cuts each part, and its bytes. What is left is walked run by run.
#![tactic(auto)]

mod bytes;
mod children;
mod data;
mod directory;
mod effect;
mod extents;
pub mod fencing;
mod header;
mod held;
pub mod laws;
pub mod maps;

pub use effect::effect_of;
