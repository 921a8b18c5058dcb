//! The blocklist of a site: which instances it refuses (Ceph: the OSD blocklist).
//!
//! ```text
//! let mut blocklist = Blocklist::new(alloc);
//! blocklist.add(lost)?;                    // the owner of a lock has gone
//! blocklist.has(lost)                      // true, and from now on for good
//! blocklist.has(restarted)                 // false: a restarted session is another instance
//! ```
//!
//! # Rules
//!
//! Every operation of a listed instance is refused and changes nothing, so its lock can be broken
//! without fear of what it may still have on its way: that is the layer above. Entries stay (own;
//! Ceph's expire), so there is no call that takes one out. Each site has its own list (Ceph: each
//! cluster has).
//!
//! # Cost
//!
//! `add` and `has` take time by the logarithm of the number of entries. `has` takes no memory.
//!
//! # How it works
//!
//! An ordered set of instances: by session, then by life. Contracts see it as the finite set.
#![tactic(auto)]

mod blocklist;
pub mod laws;

pub use blocklist::Blocklist;
