//! The flat-copy machine: images as plain lists of bytes, each snapshot and each clone a full copy.
//!
//! It is what every reply of the product is measured against. A *flat site* is a map from names to
//! ids, a map from ids to flat images, and the links from parents' snapshots to their children. A
//! flat image is the list of its bytes, its snapshots, oldest first, and its role. An [`Effect`] is
//! one step of it, and the definition `after` (specs/Flat.antt) says in one line what each does.
//! Objects, striping and copy-on-write are not in it, and that is the point: it can be read in a
//! minute.
//!
//! # Use
//!
//! Proofs use the definitions and the laws of [`laws`]: which byte stands at a place after one
//! step, the size, the role and the snapshots after it, and what a step does not touch. Tests and
//! checkers of a history run the same machine as a [`FlatSite`]:
//!
//! ```text
//! let mut site = FlatSite::new(alloc);
//! site.after(&Effect::Create { image, size: 8192, role: Role::Plain })?;
//! site.after(&Effect::Piece { image, at, bytes })?;
//! let shown = site.read(image, None, &Extent { at: 4094, len: 5 })?;
//! ```
//!
//! Contracts see a `FlatSite` as the flat site itself, the record `Flat`.
//!
//! # Cost
//!
//! It is the slow form. An image takes its whole size in memory, and so does each snapshot and each
//! clone; making one copies all bytes. A look-up by name or id takes logarithmic time, `NameFree`
//! goes through all names, and painting takes time by the bytes painted below the size. Where
//! memory is refused nothing has changed.
//!
//! # How it works
//!
//! std's ordered maps hold names, images and links (site.rt, and site/ with a small function for
//! each effect); image.rt changes one image, and paint.rt puts bytes at places of a list.
#![tactic(auto)]

mod effect;
mod entry;
mod extents;
mod fault;
mod image;
pub mod laws;
mod paint;
mod site;

pub use effect::Effect;
pub use entry::{Cause, Entry};
pub use extents::{Extents, Series};
pub use fault::FlatFault;
pub use site::FlatSite;
