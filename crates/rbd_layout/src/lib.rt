//! Where the bytes of a block image lie: the striping of an image over objects (Ceph: RBD
//! striping).
//!
//! A stripe is one stripe unit in each of `count` objects. Stripes are filled one after another,
//! and when the `count` objects are full, the next `count` objects begin: these are an object set.
//!
//! ```text
//! Layout { object: 8192, unit: 4096, count: 3 }       unit 0 is image bytes 0 to 4095
//!
//!   object 0   object 1   object 2  |  object 3   object 4   object 5
//!   unit 0     unit 1     unit 2    |  unit 6     unit 7     unit 8      stripe 0 and stripe 2
//!   unit 3     unit 4     unit 5    |  unit 9     unit 10    unit 11     stripe 1 and stripe 3
//! ```
//!
//! [`check`] says whether a layout keeps the limits. For such a layout [`place`] says in which
//! object an image byte lies and at which offset, [`back`] which image byte lies at a place,
//! [`objects`] how many objects an image of a size has, [`pieces`] which parts of which objects an
//! extent touches, [`objects_within`] which objects alone, and of one object [`parts_in`] which
//! parts and [`bytes_in`] how many bytes. [`layout_of`] is the layout of an image that is made new
//! with a shape, [`clone_layout_of`] that of a clone, and [`keeps_limits`] says whether an image
//! with a layout and a size may be made.
//!
//! # Cost
//!
//! All but [`pieces`], [`objects_within`] and [`parts_in`] is a handful of divisions, and takes no
//! memory. [`pieces`] and [`parts_in`] take a step for each part that they return,
//! [`objects_within`] one for each object, and [`pieces`] and [`objects_within`] one for each object
//! of the first and the last set that the extent doesn't touch, at most 15 in each. Neither the
//! object's size nor the image's counts. They take no memory but for what they return.
//!
//! # How it works
//!
//! In one object a greater offset is a greater image byte. So the bytes of an object that lie in an
//! extent are those from one offset to another: as many as lie below the extent's begin, and as
//! many as lie below its end. [`pieces`] computes the two and walks from the one to the other, a
//! stripe unit at a time, or at once where the stripe count is 1, since there the units of an
//! object lie together.
//!
//! The laws are public functions with an empty body. Their contracts say what the layers above rely
//! on: places and bytes are inverse ([`place_of_a_byte`], [`byte_at_a_place`]), which bytes an
//! object has ([`bytes_ascend`], [`bytes_of_an_object`], [`first_byte_decides`]), and that the
//! pieces of an extent are its bytes, each once, and are one list ([`parts_are_the_bytes`],
//! [`pieces_are_the_bytes`]), which a definition computes ([`pieces_are_listed`]) and of which the
//! objects are known by sums alone ([`objects_are_told_by_sums`]).
#![tactic(auto)]

mod asked;
mod count;
mod extent;
mod laws;
mod shape;
mod striping;
mod types;

pub use asked::{clone_layout_of, keeps_limits, layout_of};
pub use count::objects;
pub use extent::{bytes_in, first_object, objects_within, parts_in, pieces};
pub use laws::{
    byte_at_a_place, bytes_ascend, bytes_of_an_object, first_byte_decides,
    objects_are_told_by_sums, objects_grow, parts_are_the_bytes, pieces_are_listed,
    pieces_are_the_bytes, place_of_a_byte,
};
pub use shape::{BadShape, check};
pub use striping::{back, place};
pub use types::{BytePlace, Piece};
