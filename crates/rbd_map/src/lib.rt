//! The object map of an image or of one of its snapshots: what is known of each of its objects
//! without asking for it (Ceph: RBD's object-map feature).
//!
//! ```text
//! let mut map = ObjectMap::new(alloc);     // no objects
//! map.resize(5)?;                          // five objects, in state 0
//! map.set(1, 1);                           // object 1 exists
//! map.set(4, 2);                           // object 4 may exist: it is about to go
//! map.used(5)                              // 2
//! map.bits()?                              // the bytes 10 80
//! ```
//!
//! # Rules
//!
//! Two bits an object (Ceph: `OBJECT_NONEXISTENT`, `OBJECT_EXISTS`, `OBJECT_PENDING`,
//! `OBJECT_EXISTS_CLEAN`):
//!
//! | state | what it says |
//! |---|---|
//! | 0 | the object doesn't exist |
//! | 1 | it exists |
//! | 2 | it is about to be taken away |
//! | 3 | never written (own; Ceph: it hasn't changed since the last snapshot) |
//!
//! Four objects a byte, the first in the highest bits (own). What is left of the last byte is zero.
//! A map never becomes shorter (own).
//!
//! A map *covers* the objects where state 0 means that the object doesn't exist. That is what its
//! users keep, by raising a state before an object is written and lowering it after the object
//! went. It is defined here, with what `resize` and `set` do to it: [`laws::covering_is_kept`].
//!
//! # Contracts
//!
//! Contracts see the list of the states. The bytes are said by `bits_of`, and the way back by
//! `states_of`; the one undoes the other ([`laws::bits_and_states`]).
//!
//! # Cost
//!
//! A quarter of a byte an object, in memory too. `get` and `set` look at one byte, `used` looks at
//! each byte once and passes those without used objects over, and `bits` copies the bytes. `get`,
//! `set`, `used` and `len` take no memory.
#![tactic(auto)]

mod byte;
mod count;
pub mod laws;
mod map;

pub use map::ObjectMap;
