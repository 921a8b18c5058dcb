//! Counting used objects.
ghost use Rattle.std.specs.Prelude.{◌≡◌, ◌*◌, ◌/◌, ◌^◌, ◌<◌, ◌≤◌, [], ◌∷◌, length, count_by, if◌then◌else◌};
ghost use Rattle.rbd_kinds.specs.States.{state_at};
ghost use Rattle.rbd_map.specs.States.{states_of, is_used};

use crate::byte::state_in;

/// How many of the first `count` objects are used.
pub fn used_in(bytes: &[u8], count: u64) -> u64
    requires { count ≤ 4 * length bytes.now }
    ensures { result ≡ count_by is_used (states_of bytes.now count) }
{
    let whole = count / 4;
    let mut used = used_in_bytes(&bytes[..whole as usize]);
    for object in 4 * whole..count {
        used += used_at(bytes, object);
    }
    used
}

/// 1 if an object is used, else 0.
fn used_at(bytes: &[u8], object: u64) -> u64
    requires { object / 4 < length bytes.now }
    ensures { result ≡ (if is_used (state_at bytes.now object) then 1 else 0) }
{
    if state_in(bytes, object) == 0 { 0 } else { 1 }
}

/// How many objects of whole bytes are used.
fn used_in_bytes(bytes: &[u8]) -> u64
    requires { 4 * length bytes.now < 2 ^ 64 }
    ensures { result ≡ count_by is_used (states_of bytes.now (4 * length bytes.now)) }
{
    let mut used = 0;
    for byte in bytes {
        used += used_in_byte(*byte);
    }
    used
}

/// How many of a byte's four objects are used.
fn used_in_byte(byte: u8) -> u64
    ensures { result ≡ count_by is_used (states_of (byte ∷ []) 4) }
{
    if byte == 0 {
        return 0;
    }
    let states = [byte / 64 % 4, byte / 16 % 4, byte / 4 % 4, byte % 4];
    states.iter().filter(|state| **state != 0).count() as u64
}
