//! Contents of an object, which share their bytes by pages.
//!
//! ```text
//! let mut sheaves = Sheaves::new(alloc);
//! let mut head = Content::new(alloc);
//! head.write(&mut sheaves, 0, b"old")?;
//! let kept = head.share(&mut sheaves)?;        // the same pages, named once more
//! head.write(&mut sheaves, 0, b"new")?;        // on a page of its own
//! kept.read(&sheaves, 0, &mut buffer)          // old
//! kept.let_go(&mut sheaves);                   // what only it named is free
//! ```
//!
//! # Contracts
//!
//! Contracts see [`Sheaves`] as two lists of counted things, the sheaves with their pages and the
//! pages with their bytes (`Stock`), and a [`Content`] as a list of sheaves and a length
//! (`Listed`). `listed_bytes` says which bytes that is. Each change says three things: what the
//! bytes become, that each count follows the lists (`Exchanged`), and that what others name too has
//! the same pages and bytes. A sum of all lists, as an object has them, is left to the caller.
//!
//! A page or a sheaf that is let go leaves its place free, and a free place is taken before there
//! is one more. So there are never more places than were named at one time: `KeepsMost` says it of
//! a step, and [`laws::places_are_the_most_named`] of any run of steps. `Grown` bounds the places
//! of a change that takes several, and lets some of them go where it is refused.
//!
//! # Cost
//!
//! Contents lie on pages of 4,096 bytes, and their pages in *sheaves* of 128. A write costs the
//! bytes that it writes, and an index and an entry for each page that is new; the memory for the
//! entries is taken in one step. One that lies on one page that is the content's alone goes there
//! at once. A page of zeros has no bytes: they are taken at the first one that isn't zero. A share
//! costs an index and a count for each sheaf. The first change in a shared sheaf adds an index and
//! a count for each of its pages, and the first one on a shared page copies it. A read copies into
//! the caller's buffer alone.
//!
//! # How it works
//!
//! The arena has the pages, each with a count: the number of sheaves that name it. A sheaf is a
//! list of up to 128 indices of pages, and has a count too: the number of contents that name it. A
//! content is a list of indices of sheaves, all full but the last, so that a page is found by two
//! divisions. The places of free pages are a list beside the arena, with room for all places, and
//! so are those of free sheaves. A change writes a page in place only where its count and that of
//! its sheaf are 1. Else it takes a new sheaf with the same pages, which are counted once more, and
//! a new page with the same bytes. A sheaf whose count falls to 0 lets its pages go.
//!
//! A write on one page that is ready is done there. Any other change first makes its pages ready,
//! which may be refused memory and shows nothing, and then changes them, which can't be. Refused,
//! it drops the sheaves that it added; pages of zeros that it added to the last sheaf may stay
//! there, behind the last byte, for the next change to take. Each step is stated for one list
//! alone, of the pages of a sheaf or of the sheaves of a content: each count follows the list, and
//! what others name too stays as it is.
#![tactic(auto)]

mod arena;
mod bytes;
mod content;
pub mod laws;
mod lists;
mod page;
mod pages;
mod sheaf;
mod sheaves;

pub use content::Content;
pub use sheaves::Sheaves;
