//! Bytes without the zeros at their end.
ghost use Rattle.std.specs.Prelude.{◌≡◌, ◌≤◌, length, take, IfOk};
ghost use Rattle.rbd_pieces.specs.Full.{cut_bytes};

use rbd_kinds::{Bytes, NoMemory};

/// The bytes up to the last that isn't zero: of shared bytes without a copy, else a copy. NoMemory
/// where that is refused.
pub fn cut(bytes: &Bytes) -> Result<Bytes, NoMemory>
    ensures { IfOk result (λ left. left ≡ cut_bytes bytes.now) }
{
    bytes.slice(0, cut_len(bytes.as_slice()))
}

/// How many they are.
fn cut_len(bytes: &[u8]) -> usize
    ensures within { result ≤ length bytes.now }
    ensures cut { take result bytes.now ≡ cut_bytes bytes.now }
{
    let mut len = bytes.len();
    while len > 0 {
        if bytes[len - 1] != 0 {
            return len;
        }
        len -= 1;
    }
    0
}
