//! How many objects are in use by the bits of a map.
ghost use Rattle.std.specs.Prelude.{◌≡◌, ◌+◌, ◌*◌, ◌<◌, ◌≤◌, [], ◌∷◌, length};
ghost use Rattle.rbd_meaning.specs.Listings.{used_among as in_use_among};
ghost use Rattle.rbd_image.specs.Used.{one_used};

/// How many of the first `count` objects are in use: those whose state isn't 0. It looks at each
/// byte of these objects once.
pub fn used_among(count: u64, bits: &[u8]) -> u64
    ensures { result ≡ in_use_among count bits.now }
{
    let mut used = 0;
    for index in 0..bytes_of(count, bits) {
        let before = 4 * index as u64;
        used += used_in_byte(count - before, bits[index]);
    }
    used
}

/// How many bytes have the states of the first `count` objects, or all where the map has fewer.
fn bytes_of(count: u64, bits: &[u8]) -> usize
    ensures there { result ≤ length bits.now }
    ensures needed { 4 * result < count + 4 }
    ensures enough { result < length bits.now → count ≤ 4 * result }
{
    let whole = count / 4;
    let needed = if count % 4 == 0 { whole } else { whole + 1 };
    needed.min(bits.len() as u64) as usize
}

/// How many of the first objects of a byte's four are in use.
fn used_in_byte(count: u64, byte: u8) -> u64
    ensures { result ≡ in_use_among count (byte ∷ []) }
{
    if byte == 0 {
        return 0;
    }
    used_at(count, byte, 0)
        + used_at(count, byte, 1)
        + used_at(count, byte, 2)
        + used_at(count, byte, 3)
}

/// 1 where the object at a place of a byte is one of the first and in use, else 0. Objects 0 to 3
/// lie there from the highest bits down.
fn used_at(count: u64, byte: u8, place: u64) -> u64
    requires { place < 4 }
    ensures { result ≡ one_used count (byte ∷ []) place }
{
    let weight = match place {
        0 => 64,
        1 => 16,
        2 => 4,
        _ => 1,
    };
    if place < count && byte / weight % 4 != 0 {
        1
    } else {
        0
    }
}
