ghost use Rattle.std.specs.Prelude.{◌≡◌, ◌==◌, ◌≤◌, length};
ghost use Rattle.std.specs.List.{position_or_len};

/// How many bytes of the text stand before the first such byte, or all where there is none.
pub fn place_of(wanted: u8, text: &[u8]) -> usize
    ensures within { result ≤ length text.now }
    ensures place { result ≡ position_or_len (λ b. b == wanted) text.now }
{
    for (i, &byte) in text.iter().enumerate() {
        if byte == wanted {
            return i;
        }
    }
    text.len()
}
