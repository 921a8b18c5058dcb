//! Where the parts of a frame stand, in bytes.

/// The kind and the length of the body: what stands before the body.
pub const HEADER: usize = 5;

/// No event reaches past this byte of an image.
pub const FURTHEST: u64 = 1 << 63;
