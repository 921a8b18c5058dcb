//! A word, as it is printed.
ghost use Rattle.std.specs.Prelude.{◌≡◌, ◌++◌, OnOk};

use rbd_kinds::NoMemory;

/// Appends a word. An arm of a `match` calls it last, and so has no way out of its own: each one
/// costs the proof of a function seconds.
pub fn push_word(text: &mut Vec<u8>, word: &[u8]) -> Result<(), NoMemory>
    ensures { OnOk result (text.new.items ≡ text.old.items ++ word.now) }
{
    text.extend_from_slice(word)?;
    Ok(())
}
