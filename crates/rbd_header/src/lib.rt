//! An image's header: its size, snapshots, parent, role and lock.
//!
//! ```text
//! let mut header = Header::make(view)?;
//! header.lock(instance)?;                         // this instance owns the image
//! let first = header.snap_add(&name)?;            // snapshot 1, with the head's size and parent
//! header.snap_status(first, SnapStatus::Protected);
//! header.set_size(4096);                          // cuts the head's overlap too
//! header.named(&name)                             // the snapshot, still with its own size
//! header.unlock(instance);
//! ```
//!
//! [`context_of`] is the snapshot context that a header gives to changes of the image's data, and
//! [`ids_of`] lists the ids of its snapshots.
//!
//! Contracts see a [`Header`] as the [`HeaderView`](rbd_kinds::HeaderView) that it tells, and each
//! call's contract is one equation: the view after it is this function of the view before.
//!
//! What an image's header may be after one that it was is said by `specs/Later.antt`: [`laws`] says
//! that each change keeps to it. So who saw a header knows what stays of it.
//!
//! Costs: a look-up of a snapshot, by id or by name, and a change of one read the list of
//! snapshots, which are 256 at most; all other calls are a few words. [`Header::view`] copies the
//! list. After [`Header::share`], which copies it once, views share that copy until the list
//! changes. Of a header's calls only `make`, `share`, `view` and `snap_add` take memory;
//! [`context_of`] and [`ids_of`] do too.
//!
//! How it works: a header that was shared has the list of snapshots twice, one that is changed in
//! place, and one that the views share. A change of the first lets go of the second, which views
//! that were told before still hold: so a change needs no memory for it. Each change that is done
//! raises the generation by one; taking, giving up and breaking the lock don't (own). The id of a
//! snapshot is one above the last that this header drew, so it is never drawn twice (own).
#![tactic(auto)]

mod context;
mod fault;
mod fresh;
mod header;
pub mod laws;
mod lookup;
mod snaps;
mod view;

pub use context::{context_of, ids_of};
pub use fault::{Held, SnapAddFault};
pub use fresh::new_header;
pub use header::{Header, is_full};
pub use lookup::snapshot;
pub use view::{View, view_of};
