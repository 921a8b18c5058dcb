//! Plain values, which know nothing of images: bytes, lists, names and numbers, and the refusal of
//! memory.
//!
//! A [`Name`] may begin with `.` or `-`. A session asks for an [`AskedName`], which doesn't: so no
//! session names the snapshot `.sync` that a synchronisation makes.
//!
//! Contracts see a [`Name`], an [`AskedName`] and [`Bytes`] as the list of their bytes, a
//! [`Sequence`] and a [`Growing`] list as the list of their items, wherever these lie, a number as
//! the number, and what is [`Shared`] as the value.
//!
//! ```text
//! Name::parse(Bytes::from_slice(alloc, b".sync")?)         the name `.sync`
//! AskedName::parse(Bytes::from_slice(alloc, b".sync")?)    None
//! AskedName::parse(Bytes::from_slice(alloc, b"disk")?)     the name `disk`
//! AtMost::<65536>::new(65537)                              None
//! ```
//!
//! Nothing is copied that isn't asked for: `from_vec` takes a vector over, and `try_clone` copies.
//! [`Bytes`] and a [`Sequence`] that were shared (`share`) are no longer copied: a `try_clone`, and
//! a slice of the bytes, counts one more owner of the same memory, whichever threads the values are
//! in. What isn't shared lies in a vector of its own. A copy, a first share and the growth of a
//! list can be refused memory ([`NoMemory`]), and a list whose growth was refused is as it was.
//! Items that can't be copied, as the lines of a script, are gathered in a [`Growing`] list.
//!
//! The crate also has lemmas on std's ordered maps and sets as finite ones (`proofs/Ordered.antt`).
#![tactic(auto)]

mod asked_name;
mod byte_string;
mod copies;
mod growing;
mod memory;
mod name;
mod number;
mod sequence;
mod shared;
mod window;

pub use asked_name::AskedName;
pub use byte_string::Bytes;
pub use copies::TryClone;
pub use growing::Growing;
pub use memory::NoMemory;
pub use name::{Name, Names, is_name_byte};
pub use number::{AtMost, Number};
pub use sequence::Sequence;
pub use shared::Shared;
