//! What a read of an image shows that was filled.
use super::schedule::number;
use rbd_flat::Entry;
use rbd_kinds::Reply;

/// The byte of a fill.
const FILLING: u8 = 0x5a;

/// Whether the bytes of an extent are those of a fill, and all others zeros.
fn is_filled(bytes: &[u8], at: u64, len: u64) -> bool {
    for (place, byte) in bytes.iter().enumerate() {
        let place = place as u64;
        let is_inside = at <= place && place - at < len;
        let want = if is_inside { FILLING } else { 0 };
        if *byte != want {
            return false;
        }
    }
    true
}

/// Whether a reply shows so many bytes, filled in an extent: its place and its length, with a `.`
/// between.
fn is_shown(reply: &Reply, size: u64, extent: &str) -> bool {
    let (at, len) = extent.split_once('.').unwrap_or((extent, ""));
    match reply {
        Reply::Bytes(bytes) => {
            bytes.len() as u64 == size
                && is_filled(
                    bytes.as_slice(),
                    u64::from(number(at)),
                    u64::from(number(len)),
                )
        }
        _ => false,
    }
}

/// Whether the last entry of a history is a reply with all bytes of an image: `12289.4095.2` has
/// the size, and the place and the length of the fill.
pub fn shows_fill(history: &[Entry], told: &str) -> bool {
    let (size, extent) = told.split_once('.').unwrap_or((told, ""));
    match history.last() {
        Some(Entry::Reply { line: _, reply }) => is_shown(reply, u64::from(number(size)), extent),
        _ => false,
    }
}
