//! Those of an operation's bytes that go to places below the image's size.
ghost use Rattle.std.specs.Prelude.{◌≡◌, IsTrue, take, drop, IfOk};
ghost use Rattle.rbd_kinds.specs.Form.{IsHeaderInForm};
ghost use Rattle.rbd_stands.specs.Kept.{bytes_kept};
ghost use Rattle.rbd_stands.specs.Effect as of_effect;

use crate::held::{held_below, kept_len};
use rbd_kinds::{Bytes, HeaderView, NoMemory, Part, TryClone};
use std::alloc::Global;

/// Those of the bytes that go to places below the size. Where all do, as they mostly will, nothing
/// is copied of bytes that are shared. NoMemory where a copy is refused.
pub fn bytes_below(
    alloc: Global,
    header: &HeaderView,
    object: u64,
    parts: &[Part],
    bytes: &Bytes,
) -> Result<Bytes, NoMemory>
    requires form { IsHeaderInForm header.now }
    ensures { IfOk result (λ kept. kept
        ≡ of_effect.bytes_below header.now.layout header.now.size object parts.now bytes.now) }
{
    let held = held_below(&header.layout, object, header.size);
    if keeps_all(held, parts, bytes.as_slice()) {
        return bytes.try_clone();
    }
    gather(alloc, held, parts, bytes.as_slice())
}

/// Whether the bytes are kept as they are: each part is whole, and has its bytes.
fn keeps_all(held: u64, parts: &[Part], bytes: &[u8]) -> bool
    ensures { IsTrue result → bytes_kept held parts.now bytes.now ≡ bytes.now }
{
    let mut rest = bytes;
    for part in parts {
        if kept_len(held, part) < part.len {
            return false;
        }
        rest = behind(rest, part.len);
    }
    rest.is_empty()
}

/// A copy of those of the bytes that are kept.
fn gather(alloc: Global, held: u64, parts: &[Part], bytes: &[u8]) -> Result<Bytes, NoMemory>
    ensures { IfOk result (λ kept. kept ≡ bytes_kept held parts.now bytes.now) }
{
    let mut kept = Vec::new(alloc);
    let mut rest = bytes;
    for part in parts {
        kept.extend_from_slice(front(rest, kept_len(held, part)))?;
        rest = behind(rest, part.len);
    }
    Ok(Bytes::from_vec(kept))
}

/// The first `len` bytes, all where there are fewer.
fn front(bytes: &[u8], len: u64) -> &[u8]
    ensures { result.now ≡ take len bytes.now }
{
    let len = len as usize;
    if len < bytes.len() {
        &bytes[..len]
    } else {
        bytes
    }
}

/// What is left behind the first `len` bytes.
fn behind(bytes: &[u8], len: u64) -> &[u8]
    ensures { result.now ≡ drop len bytes.now }
{
    let len = len as usize;
    if len < bytes.len() {
        &bytes[len..]
    } else {
        &[]
    }
}
