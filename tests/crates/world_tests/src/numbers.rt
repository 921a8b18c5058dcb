//! The operations of a history, and those of the logs.
use rbd_flat::Entry;
use rbd_kinds::SiteId;
use rbd_site::Done;

/// The operation of an entry: its site and its number.
fn operation(entry: &Entry) -> Option<(SiteId, u64)> {
    match entry {
        Entry::Effect {
            cause: _,
            site,
            number,
            effect: _,
        } => Some((*site, *number)),
        Entry::Look {
            cause: _,
            site,
            number,
        } => Some((*site, *number)),
        Entry::Fence {
            cause: _,
            site,
            number,
            instance: _,
        } => Some((*site, *number)),
        _ => None,
    }
}

/// Whether a log has an operation of an instance with this number at this place.
fn has_operation(log: &[Done], number: u64) -> bool {
    match log.get((number as usize).wrapping_sub(1)) {
        Some(done) => done.number == number && done.instance.is_some(),
        None => false,
    }
}

/// Whether each operation that a history tells stands in the log of its site under its number.
pub fn numbers_are_of_logs(history: &[Entry], a: &[Done], b: &[Done]) -> bool {
    for entry in history {
        let is_there = match operation(entry) {
            Some((SiteId::A, number)) => has_operation(a, number),
            Some((SiteId::B, number)) => has_operation(b, number),
            None => true,
        };
        if !is_there {
            return false;
        }
    }
    true
}
