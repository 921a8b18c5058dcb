//! Where an object's state lies in the bytes.
ghost use Rattle.std.specs.Prelude.{◌≡◌, ◌/◌, ◌%◌, ◌<◌, length};
ghost use Rattle.rbd_kinds.specs.States.{weight, state_at};

/// What a state counts for in its byte: objects 0 to 3 lie there from the highest bits down.
pub fn weight_of(object: u64) -> u8
    ensures { result ≡ weight (object % 4) }
{
    match object % 4 {
        0 => 64,
        1 => 16,
        2 => 4,
        _ => 1,
    }
}

/// The state of an object.
pub fn state_in(bytes: &[u8], object: u64) -> u8
    requires { object / 4 < length bytes.now }
    ensures { result ≡ state_at bytes.now object }
{
    bytes[(object / 4) as usize] / weight_of(object) % 4
}
