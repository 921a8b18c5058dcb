/// Where a ticket stands in its object's queue, or in its request's list: the object or the
/// request, and the places of the tickets before and after it.
#[derive(Clone, Copy)]
pub struct TicketLink {
    pub key: u64,
    pub before: Option<usize>,
    pub after: Option<usize>,
}

/// The places of the first and the last ticket of a queue or a list, and how many stand in it.
#[derive(Clone, Copy)]
pub struct Ends {
    pub first: Option<usize>,
    pub last: Option<usize>,
    pub count: u64,
}

/// A place of the slab: a ticket's number, and where it stands. Where the place is free, nothing
/// but `free` counts, which is the next free place.
#[derive(Clone, Copy)]
pub struct SlabPlace {
    pub used: bool,
    pub number: u64,
    pub queue: TicketLink,
    pub list: TicketLink,
    pub free: Option<usize>,
}
