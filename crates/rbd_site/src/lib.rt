//! One site (a cluster): its records, changed by single operations on single objects, and the log
//! of them.
//!
//! ```text
//! let mut site = Site::new(alloc, SiteId::A)?;
//! let mut mail = Mail::new(alloc);                                    // of both sites
//! site.apply(first, Op::Directory(DirectoryOp::Add { name }), &mut mail)?;  // Id of image 1
//! site.apply(first, Op::Header { image, op: HeaderOp::Create { view } }, &mut mail)?;  // Done
//! site.apply(first, Op::Header { image, op: HeaderOp::LockTake }, &mut mail)?;         // Done
//! site.apply(second, Op::Header { image, op: HeaderOp::LockTake }, &mut mail)?;  // Held(first)
//! site.apply(second, Op::BlockAdd { instance: first }, &mut mail)?;              // Done
//! site.apply(first, Op::Data { image, object: 0, op: write }, &mut mail)?;       // Fenced
//! site.trim(image, 0)?;                                               // false: no such object
//! site.log()                                                          // six lines, from 1 on
//! ```
//!
//! # Rules
//!
//! - A site keeps its directory, the children of its snapshots, its blocklist, the header of each
//!   image with its watchers, its object maps, and its data objects by number (Ceph:
//!   `rbd_directory`, `rbd_children`, `rbd_header.<id>`, `rbd_object_map.<id>`, which has
//!   `.<snap>` behind it for a snapshot, `rbd_data.<id>.<number>`).
//! - Every operation of an instance in the blocklist is answered `fenced` and changes nothing,
//!   before anything else is looked at (Ceph: the OSD blocklist). Entries stay (own).
//! - A notification goes to each watcher of the image but its sender (own), in order of
//!   registration. A header that is removed takes its watchers with it.
//! - An operation is done on one of these, whole or not at all, and answered. Only one that is
//!   answered done, or with an id or a snapshot that was drawn, has changed something (own).
//! - An object is there once a change was done to it, a removal too, and for good. One that isn't
//!   answers as one whose head is absent (own).
//! - A change with `must` is done only where the object's head exists. All of its parts are
//!   written, or none.
//! - The head and each snapshot have a map of their own. `map-resize` makes that of the head where
//!   there is none, and `map-put` makes any, of four objects a byte. What a map says isn't looked
//!   at by an operation on the object (own).
//! - A header is made once, in form and with no past. Each later change raises its generation by at
//!   most one.
//! - The store itself trims objects: it drops what one keeps for snapshots that the header doesn't
//!   list (Ceph: snapshot trimming). It may also end a watch at any moment, and tells nobody (own).
//! - Each operation and each step of the store is a line of the log, with its number, its instance
//!   and its answer. One that was refused memory has no line, changed nothing and told nobody.
//!
//! Operations on journals aren't built yet, nor is `header-mirror`: each call's condition rules
//! them out, but for a fenced instance's.
//!
//! # Contracts
//!
//! Contracts see a [`Site`] as its id and its log: the records are what the log leaves, line by
//! line, of none (`records_of`). [`Site::apply`] answers what the definitions say of these records
//! (`answer_to`), adds the one line that makes them what the definitions say they become (`after`),
//! and posts into the mail what they say is told (`mail_after`). [`Site::apply_answered`] is the
//! same for who has this answer from [`Site::answer`]. [`Site::log`] says that each line
//! has the answer of the records before it, that the lines are numbered from 1, and that each
//! header and each map is in form. [`laws`] says what the definitions mean: one object changes,
//! snapshots stay as they were, and a fenced instance does nothing.
//!
//! # Cost
//!
//! An operation finds its object by its key, in a map, and costs what that object's own change
//! costs: nothing grows with the log, the number of images or their sizes. Whether an instance is
//! fenced is one look-up among those that are. A notification copies the image's watchers, and
//! costs its receivers; a look at the watchers copies them. `map-set` touches one byte, and a look
//! at a map and a `map-put` copy it once, a quarter of a byte an object. The log keeps the
//! operation itself, and a copy of its answer, in which bytes and the list of a header's snapshots
//! are shared. Such a list is copied once after each of its changes, and by no look, unless memory
//! was refused to that copy. A trim reads the list of snapshots of one header.
//!
//! # How it works
//!
//! A directory, a list of children, a blocklist and four tables, and one file for each kind of
//! object, with what an operation is answered and what it changes. `apply` asks for the answer, and
//! goes on as `apply_answered`, which copies it and takes the memory for the line, changes the
//! object or posts the notices, and then logs it: only the change or the post could still be
//! refused, and does all or nothing. At a look at a header it has the header share its list, for
//! the looks behind it, and behind a change of one too, where there is memory: that is no part of
//! the records.
#![tactic(auto)]

mod children;
mod data;
mod directory;
mod done;
mod found;
mod header;
pub mod laws;
mod map;
mod map_key;
mod object_key;
mod site;
mod store;
mod watch;

pub use done::{Done, DoneOp};
pub use site::Site;
