//! The state of an object in the bits of a map.
ghost use Rattle.std.specs.Prelude.{◌≡◌, ◌%◌};
ghost use Rattle.rbd_kinds.specs.States.{state_at, weight};

/// The state of an object by the bits of a map, and 0 past their end.
pub fn state_in(bits: &[u8], object: u64) -> u8
    ensures { result ≡ state_at bits.now object }
{
    let at = (object / 4) as usize;
    if at < bits.len() {
        bits[at] / weight_of(object) % 4
    } else {
        0
    }
}

/// What a state counts for in its byte: four objects lie there, from the highest bits down.
fn weight_of(object: u64) -> u8
    ensures { result ≡ weight (object % 4) }
{
    match object % 4 {
        0 => 64,
        1 => 16,
        2 => 4,
        _ => 1,
    }
}
