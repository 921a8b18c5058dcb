//! The requests of `write`, `fill`, `discard` and `read`.
//!
//! ```text
//! let write = write_request(alloc, SiteId::A, write_hello)?;     // write disk 4094 68656c6c6f
//! let reply = run(write)?;               // by the loop that `rbd_machine` shows: Reply::Done
//!
//! let discard = discard_request(alloc, SiteId::A, discard_both); // discard disk 4000 4192
//! let reply = run(discard)?;             // Reply::Done: these bytes are zeros
//!
//! let read = ReadRequest::new(SiteId::A, read_hello);            // read disk 4094 5
//! let reply = run(read)?;                // the five bytes
//! ```
//!
//! | request | made by | its change | a piece of it |
//! |---|---|---|---|
//! | [`WriteRequest`] | [`write_request`] | [`WriteChange`] | [`WriteTurn`] (`WritePiece`) |
//! | [`DiscardRequest`] | [`discard_request`] | [`DiscardChange`] | [`DiscardTurn`] (`ZeroPiece`) |
//! | [`ReadRequest`] | [`ReadRequest::new`] | none | none: it reads by a `Gather` |
//!
//! A write, which a `fill` is too, and a discard are the machine of `rbd_change` for a change that
//! goes object by object beside others. Their pieces, and the `Gather`, are parts of `rbd_pieces`.
//! [`range_refusal`] is why a header refuses a change of a range.
//!
//! # Rules
//!
//! ```text
//! write, fill   to its look under the lock; its event; for each object, at its turn there,
//!               a map-set and a data-write; applied
//! discard       the same, with what makes the object's bytes zeros
//! read          dir-find, header-get, a data-read of each object, header-get
//! ```
//!
//! - A `write`, a `fill` and a `discard` join the image's line beside others. At both looks their
//!   header refuses them with NonPrimary and then with BadRange. A `read` is refused with NoSnap,
//!   and then with BadRange. All are refused with NoImage where the name is no image's.
//! - Any operation may be answered `fenced`, which ends the request with Fenced.
//! - A fill is a write of one byte many times.
//! - The pieces of a change are those of its extent by the striping that its look under the lock
//!   told (Ceph: RBD striping), by ascending object, under the snapshot context of that header.
//! - Before the bytes of a write's piece, the head's map says that its object exists. What makes
//!   the bytes of a discard's piece zeros is in the table of `rbd_pieces`: an object that loses all
//!   its bytes goes, where no parent's bytes would show in its place (Ceph: RBD discard).
//! - A read takes no lock. It looks at the header before and after. Where the generation is another
//!   then, or the header is gone, it begins again with `dir-find`. So its bytes are those of one
//!   state of the header. An object that isn't there shows zeros.
//!
//! # Contracts
//!
//! - A request that is made has the plan of its command left, and keeps to it
//!   ([`Machine`](rbd_machine::Machine)).
//! - [`laws`] and [`discard_laws`]: a change is done only where each of its pieces was written, or
//!   became zeros, by its look under the lock. Its turns are those at the objects of its pieces,
//!   ascending. A read shows bytes only of a pass between two looks at a header that didn't change,
//!   however often it began again. The plans are lawful from nothing known, how many operations
//!   they have is said, and each reply is meant. A discard that is refused has done the front of a
//!   whole one.
//! - The replies of a discard are meant where images have no parent: inside an overlap a
//!   `data-zero` may be answered `none`, which ends the request with NoImage.
//!
//! The definitions are read after those of `rbd_pieces` and `rbd_change`, in this order. What the
//! commands refuse, and what their replies mean, stands in `rbd_meaning`.
//!
//! | file | what it says |
//! |---|---|
//! | `specs/Write.antt` | the plan of a write (`write`), and what is left of one |
//! | `specs/WritePieceLaws.antt` | lemmas on [`WriteTurn`]; it defines nothing |
//! | `specs/Discard.antt` | the same of a discard, and for which answers it has the memory |
//! | `specs/ZeroPieceLaws.antt` | lemmas on [`DiscardTurn`]; it defines nothing |
//! | `specs/Seen.antt` | what a read keeps of the header, and the bytes that it shows |
//! | `specs/Read.antt` | a pass between two looks (`pass`), its closing look, and what is left |
//!
//! # Cost
//!
//! | request | operations at most |
//! |---|---|
//! | `write`, `fill` | 3, and 2 for each object |
//! | `discard` | 3, and 3 for each object |
//! | `read` | 3, and one for each object; as many again each time that it begins again |
//!
//! The bytes of a write lie in memory once: its pieces share those of the command. Only a piece of
//! several parts, which lie apart there, gathers its bytes, once, at the look under the lock. One
//! snapshot context serves all pieces. A discard makes the parts of those pieces alone that aren't
//! whole. The bytes of a read are copied once from each answer, and once into the reply, in the
//! order of the image.
//!
//! Memory is taken by [`write_request`], `next` and `ready`, which may be refused it without a
//! change. [`discard_request`], [`ReadRequest::new`], `wants` and `feed` take none.
//!
//! # How it works
//!
//! All pieces of a change are made by `ready` at the look under the lock, before the event is
//! noted. A [`ReadRequest`] goes through stages of its own. What an answer needs is put beside the
//! stage by `ready`, and `feed` takes it from there.
#![tactic(auto)]

mod arrange;
mod discard;
pub mod discard_laws;
mod extent;
pub mod laws;
mod looked;
mod read;
mod write;
mod write_pieces;
mod zero_pieces;

pub use discard::{DiscardChange, DiscardRequest, DiscardTurn, discard_request};
pub use extent::range_refusal;
pub use read::ReadRequest;
pub use write::{WriteChange, WriteRequest, WriteTurn, write_request};
