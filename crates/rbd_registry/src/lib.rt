//! The two lists of a site that no image owns: its *directory*, which finds images by name, and the
//! list of *children*, which tells which images were cloned of a snapshot.
//!
//! ```text
//! let mut directory = Directory::new(alloc);
//! let disk = directory.add(&name)?;               // image 1
//! directory.rename(&name, &other)?;               // still image 1
//! directory.remove(disk);                         // the next image is 2
//!
//! let mut children = Children::new(alloc);
//! children.add(disk, SnapId(3), ImageId(2))?;
//! children.of(disk, SnapId(3))?;                  // image 2
//! ```
//!
//! Costs: a look-up, an `add`, a `rename` and each call on one child go down an ordered map (at
//! most 4,096 names; children are as many as clones). [`Children::of`] reads the entries of the one
//! snapshot and no others. [`Directory::remove`] finds the name by its id, so it reads each name's
//! id once: it ends the removal of an image, which visits each object of it.
//!
//! How it works: both are std's ordered maps. Ids are numbered from 1 by a counter that only rises,
//! so an id is never drawn twice, and what another cluster, a journal or a late operation says of
//! an image that is gone is never said of another one (own).
#![tactic(auto)]

mod children;
mod directory;
mod entry;
mod fault;

pub use children::Children;
pub use directory::Directory;
pub use fault::{AddFault, RenameFault};
