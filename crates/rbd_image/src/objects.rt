//! The objects that are in use by the bits of a map.
ghost use Rattle.std.specs.Prelude.{◌≡◌, ◌*◌, ◌/◌, ◌%◌, ◌<◌, length, if◌then◌else◌, Some, None, IfOk};
ghost use Rattle.rbd_kinds.specs.States.{state_at, weight};
ghost use Rattle.rbd_image.specs.Remnants.{is_in_use};

use rbd_kinds::NoMemory;

/// How many states some bits have. NoMemory where they are more than the numbers of 64 bits, which
/// no memory holds.
pub fn state_count(bits: &[u8]) -> Result<u64, NoMemory>
    ensures { IfOk result (λ count. count ≡ 4 * length bits.now) }
{
    match (bits.len() as u64).checked_mul(4) {
        Some(count) => Ok(count),
        None => Err(NoMemory),
    }
}

/// The object of this number, unless its state is 0.
pub fn object_in(bits: &[u8], object: u64) -> Option<u64>
    requires { object < 4 * length bits.now }
    ensures { result ≡ (if is_in_use bits.now object then Some object else None) }
{
    if state_in(bits, object) == 0 {
        return None;
    }
    Some(object)
}

/// The state of an object.
fn state_in(bits: &[u8], object: u64) -> u8
    requires { object / 4 < length bits.now }
    ensures { result ≡ state_at bits.now object }
{
    bits[(object / 4) as usize] / weight_of(object) % 4
}

/// What a state counts for in its byte: objects 0 to 3 lie there from the highest bits down.
fn weight_of(object: u64) -> u8
    ensures { result ≡ weight (object % 4) }
{
    match object % 4 {
        0 => 64,
        1 => 16,
        2 => 4,
        _ => 1,
    }
}
