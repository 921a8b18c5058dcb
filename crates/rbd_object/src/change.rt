//! What is done to a head.
use rbd_kinds::Part;

/// A change of a head. An absent head begins with no bytes where one is written, and stays absent
/// where it is made zero.
#[derive(Drop)]
pub enum ObjectChange<'a> {
    /// Bytes are written from a byte on.
    Write(u64, &'a [u8]),
    /// Bytes are written into parts, one part after another.
    WriteParts(&'a [Part], &'a [u8]),
    /// The head becomes these bytes.
    WriteFull(&'a [u8]),
    /// Some bytes from a byte on become zero.
    Zero(u64, u64),
    /// The bytes of parts become zero.
    ZeroParts(&'a [Part]),
    /// The head has no bytes.
    Empty,
    /// The head is absent.
    Remove,
}
