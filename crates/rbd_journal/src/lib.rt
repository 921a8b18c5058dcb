//! The journal of one image: which events it recorded, under whose tags, and how far its clients
//! have come (Ceph: RBD journaling); and the frames that it keeps, one event of an image as bytes
//! (own).
//!
//! ```text
//! let mut journal = Journal::based(alloc, &Spans::new(alloc))?;  // nothing is recorded
//! let tag = journal.tag(SiteId::A, image);                       // its first tag
//! let frame = encode(alloc, &event)?;            // a Write of `hello` at 4094: 18 bytes
//! journal.append(Position { tag, seq: 1 }, &frame)?;
//! let read = journal.read(1);                                    // its position and frame
//! let (same, length) = decode(alloc, &frame)?;                   // the event, and 18
//! journal.commit(JournalClient::Local, 1);                       // the owner has applied it
//! journal.trim();                                                // and nobody else needs it
//! ```
//!
//! | type or call | what it is |
//! |---|---|
//! | [`Journal`] | spans of numbers, each under one tag; held frames; its clients' counters |
//! | [`encode`] | the frame of an event |
//! | [`decode`] | the event of the frame at the front of some bytes, and the frame's length |
//! | [`FrameFault`] | why no frame stands there |
//!
//! A journal keeps a frame as bytes, and doesn't read it.
//!
//! # Rules
//!
//! - Sequence numbers run from 1 without gaps over the whole journal, across its tags (own).
//! - A span is a run of numbers that bear one tag. A journal can begin on the spans of another:
//!   then it ends where they end and holds no frame, and its owner has come that far.
//! - A held frame has the tag of the span that has its number.
//! - A tag has the site and the image of the journal that drew it, and a number that is one above
//!   the last. So no tag is drawn twice.
//! - A commit position never goes back. The mirror daemon has none until it registers, or commits.
//! - A trim drops the frames that each client has committed. So what the owner has still to replay
//!   is held, always.
//!
//! # Format
//!
//! A frame is a kind byte, the length of the body in four bytes, and the body. The high half of the
//! kind is the version, 1. All numbers have their highest byte first.
//!
//! | kind | event | body | its length |
//! |---|---|---|---|
//! | `11` | Write | the place in 8 bytes, then 1 to 1,048,576 bytes | 9 to 1,048,584 |
//! | `12` | Discard | the place in 8 bytes, then how many bytes, in 8 | 16 |
//! | `13` | Resize | the size in 8 bytes | 8 |
//! | `14`, `15`, `16` | SnapCreate, SnapRemove, SnapRollback | the snapshot's name | 1 to 64 |
//! | `17` | Demote | nothing | 0 |
//!
//! A discard has at least 1 byte. No write or discard ends past byte 2^63, and no size is above it.
//! A name has letters, digits, `.`, `_` and `-`, whatever the first: that a session asks for none
//! that begins with `.` or `-` is no rule of the journal.
//!
//! Each event has one frame, and no frame begins another, so frames can stand one behind the other.
//! [`decode`] answers with the first fault that applies, in this order:
//!
//! 1. no byte: Short; a first byte that is no kind: BadKind of it;
//! 2. fewer than 5 bytes: Short; a length that the kind doesn't allow: BadLength of it;
//! 3. fewer bytes than the length says: Short;
//! 4. a discard of 0 bytes, or one that ends past 2^63: BadLength of its number of bytes; a write
//!    that ends past it: BadLength of the body's length; a size past it: BadLength of the size;
//! 5. a byte that isn't of a name: BadText of its place in the frame.
//!
//! # Contracts
//!
//! - Contracts see a [`Journal`] as `JournalRecords`: the spans, the end, the held frames with
//!   their tags, and the counters of its clients. Each call says what the whole value becomes. An
//!   append that is refused memory changes nothing.
//! - [`laws`]: what is appended is read at its number, and what was read at others before. A trim
//!   takes what each client has committed, and nothing else. No tag is drawn twice.
//! - Contracts of frames speak of `frame`, the spelling of an event (`rbd_kinds`), and of
//!   `first_fault`. [`frame_laws`]: at the front of any bytes stands a frame or a fault, never
//!   both; no frame begins another; one spelling is one event.
//!
//! | file | what it says |
//! |---|---|
//! | `specs/Records.antt` | `JournalRecords`, and what each call makes of it |
//! | `specs/Calls.antt` | calls one after another, and the tags that they draw |
//! | `specs/Faults.antt` | the first fault of some bytes (`first_fault`) |
//! | `specs/Parts.antt` | what the steps of decoding find |
//! | `specs/Texts.antt` | how a fault is told |
//!
//! # Cost
//!
//! An append copies its frame once, and at times moves the spans or the held frames to a larger
//! place. A read is an index, a commit an assignment. A view copies the spans; after
//! [`Journal::share`] it shares them, until they change. A trim takes a step for each frame that it
//! drops. Only `based`, `append`, `share` and `view` take memory.
//!
//! [`encode`] and [`decode`] copy the bytes of a write or of a name once, and take memory for that
//! alone: `encode` exactly the frame's length. A decode looks at no byte behind the frame, and a
//! fault takes no memory.
//!
//! # How it works
//!
//! Only a trim drops frames, and always the oldest. So the held ones are a queue of the last
//! numbers, and the number of a frame is its place, counted from the end. Decoding first finds the
//! kind and the body, whatever the kind is, and then the event in the body, by one small function
//! for each form of body.
#![tactic(auto)]

mod body;
mod decoding;
mod encoding;
mod entry;
mod fault;
pub mod frame_laws;
mod frame_layout;
mod journal;
mod kind;
pub mod laws;
mod span;

pub use decoding::decode;
pub use encoding::encode;
pub use fault::FrameFault;
pub use journal::Journal;
