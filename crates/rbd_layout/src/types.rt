//! Places and pieces.
use rbd_kinds::Parts;

/// Where a byte lies: in an object, by its number, at an offset in bytes.
#[derive(Clone, Copy, PartialEq, Eq)]
pub struct BytePlace {
    pub object: u64,
    pub offset: u64,
}

/// The parts of one object that an extent touches, ascending in the object and in the image.
#[derive(Drop)]
pub struct Piece {
    /// The object's number.
    pub object: u64,
    pub parts: Parts,
}
