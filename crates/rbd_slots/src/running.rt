//! A request that runs in a slot.
use rbd_kinds::{Extent, ImageAt, Refusal, Sequence};

/// What a slot holds.
#[derive(Drop)]
pub enum Occupant<R> {
    /// A request that is refused before any operation.
    Refused { line: u32, refusal: Refusal },
    /// A request that runs.
    Running(Running<R>),
}

/// A request that runs. It stands at an operation, and waits or may go on.
#[derive(Drop)]
pub struct Running<R> {
    /// The number of its command's line in the script.
    pub line: u32,
    pub request: R,
    /// The extent that it changes piece by piece, beside others.
    pub extent: Option<Extent>,
    /// The image whose line it is in.
    pub place: Option<ImageAt>,
    /// The object whose piece it does, or awaits its turn for.
    pub turn: Option<u64>,
    /// Made ready for the answer to its look under the lock: the objects that it then takes tickets
    /// for.
    pub looked: Option<Sequence<u64>>,
}
