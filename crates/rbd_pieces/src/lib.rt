//! Parts of requests: one object that is written, zeroed or replaced, objects that are read one
//! after another, and a new size of an image.
//!
//! ```text
//! let context = context_of(alloc, &header)?;
//! let mut write = WritePiece::new(SiteId::A, image, context, piece, bytes);
//! loop {
//!     let op = write.next(alloc)?;                         // map-set, then data-write
//!     match write.feed(&ask_site(&op)) {
//!         Progress::More => {}
//!         Progress::Ended(()) => break,                    // the request goes on
//!         Progress::Refused(refusal) => return Ok(refusal),
//!     }
//! }
//!
//! let mut gather = Gather::new(alloc, SiteId::A, image, Some(snap), pieces);
//! loop {
//!     let answer = ask_site(&gather.next(alloc)?);         // a data-read of each object
//!     gather.ready(&answer)?;                              // room for its bytes
//!     match gather.feed(&answer) {
//!         Progress::More => {}
//!         Progress::Ended(()) => break,
//!         Progress::Refused(refusal) => return Ok(refusal),
//!     }
//! }
//! let bytes = gather.take_bytes();
//! ```
//!
//! # Rules
//!
//! An object is *inside* where its first byte lies below the head's overlap (Ceph: RBD layering;
//! [`is_inside`]), and else outside. A piece is *whole* where it has all bytes of its object below
//! the header's size ([`is_whole`]).
//!
//! | part | of | operations |
//! |---|---|---|
//! | [`WritePiece`] | some bytes of an object | `map-set` 1, `data-write` |
//! | [`Gather`] | pieces, one after another | `data-read` for each |
//! | [`ZeroPiece`] | a piece that isn't whole, outside | `data-zero` |
//! | | one inside | `map-set` 1, `data-zero` where the object is there |
//! | | a whole one, outside | `map-set` 2, `data-remove`, `map-set` 0 |
//! | | one inside | `map-set` 1, `data-empty` |
//! | [`FullPiece`] | a whole piece; one of the bytes isn't 0 | `map-set` 1, `data-write-full` |
//! | | a whole piece; zeros, or no bytes | as a `ZeroPiece` |
//! | [`Size`] | the same size or more | `map-resize` to its objects, `header-set-size` |
//! | | less | `map-get`, zeros behind the new size, `header-set-size` |
//!
//! - All changes of objects go under the snapshot context of the header by which the part was made.
//! - A state is raised before its object may come to be there, and set to 0 only once the object is
//!   gone (Ceph: the object-map feature). So state 0 means that the object isn't there, wherever a
//!   part is cut off.
//! - A gather reads the head or one snapshot. Its bytes are those of the pieces in their order, and
//!   in a piece those of its parts. An object that is answered `none` shows zeros.
//! - A `FullPiece` writes its bytes up to the last that isn't zero: an object reads as zeros past
//!   its last byte.
//! - An object inside that is zeroed stays, so that its parent's bytes don't show again. One that
//!   isn't there was never copied up: its `data-zero` is answered `none`. Until there are clones
//!   that answer never comes.
//! - A `Size` to less has a `ZeroPiece` for each object with bytes behind the new size, by number.
//!   It passes over those that are outside and have state 0: they have nothing to zero.
//! - What else is answered `none` ends a request with NoImage, and `fenced` with Fenced.
//!
//! # Contracts
//!
//! - Each part keeps to its plan with any plan behind it, and tells a
//!   [`Progress`](rbd_machine::Progress). It may be fed what its operation can be answered, and
//!   nothing else.
//! - A part that zeros, replaces or resizes is made by a header in form, for pieces of its head
//!   ([`zero_laws::pieces_are_of_the_head`]).
//! - [`laws`] and [`zero_laws`] say how many operations a part has, that none begins a part again,
//!   and that each does only what it may where the image is the request's own, alone or at its turn
//!   at the object. A part of `zero_laws` that ends well has done exactly the operations of the
//!   table.
//!
//! The definitions are read after those of `rbd_machine`, in this order. In each, `rest_of_..` is
//! what is left of a part.
//!
//! | file | what it says |
//! |---|---|
//! | `specs/Gather.antt` | the plan that reads pieces (`gather`), and its room for answers |
//! | `specs/Write.antt` | the plan of a piece of a write (`write_piece`) |
//! | `specs/Operations.antt` | the operations of the parts below |
//! | `specs/Zero.antt` | `is_whole`, `is_inside`; the plan of a piece that becomes zeros |
//! | `specs/Full.antt` | the bytes that are written (`cut_bytes`); the plan of a `FullPiece` |
//! | `specs/Shrink.antt` | the pieces that a smaller size zeros, by the states of the head's map |
//! | `specs/Size.antt` | the plan of a size (`resize`), and for which answers it has the memory |
//! | `specs/Known.antt` | what is known behind a part, and where a piece is lawful |
//! | `specs/Pieces.antt` | what is done for several pieces (`ArePieces`), where what is done for one is a relation |
//!
//! # Cost
//!
//! | call | memory |
//! |---|---|
//! | [`WritePiece::new`], [`Gather::new`], [`Gather::take_bytes`] | none |
//! | [`ZeroPiece::new`] | the parts of its extent, unless the piece is whole |
//! | [`FullPiece::new`] | the snapshot context, and the cut bytes unless they are shared |
//! | [`FullPiece::under`] | the cut bytes, unless they are shared |
//! | [`Size::new`] | a copy of the header, for a smaller size |
//! | [`Gather::ready`] | room for the bytes of one answer |
//! | [`Size::ready`] | at the answer to `map-get` the pieces |
//! | `next` | the parts; for a change the context's snapshots, and bytes that aren't shared |
//! | `wants`, `feed` | none |
//!
//! `Gather::feed` copies the bytes of an answer once. `Size::ready` looks at each object with bytes
//! behind the new size, and makes nothing for those passed over.
//!
//! # How it works
//!
//! A piece has a stage for each of its operations. Whether a `ZeroPiece` is whole, and inside,
//! decides at which stage it begins. A gather holds the piece that it reads, a queue of those after
//! it, and the bytes so far. A `FullPiece` cuts its bytes when it is made, and is a `ZeroPiece`
//! where none are left. A `Size` to less holds the header until it is told the states; then it
//! makes all its pieces, and takes one after another out of a queue.
#![tactic(auto)]

mod cut;
mod full_piece;
mod gather;
pub mod laws;
mod operations;
mod replace;
mod shrink;
mod size;
mod states;
mod whole;
mod write_piece;
pub mod zero_laws;
mod zero_piece;

pub use full_piece::FullPiece;
pub use gather::Gather;
pub use size::Size;
pub use whole::{is_inside, is_whole};
pub use write_piece::WritePiece;
pub use zero_piece::ZeroPiece;
