//! Those of some bytes that parts of an object take, without a copy where they lie together.
ghost use Rattle.std.specs.Prelude.{◌≡◌, ◌+◌, ◌≤◌, IfOk, IsTrue, ◌↔◌};
ghost use Rattle.rbd_parts.specs.Parts.{bytes_for as bytes_of_parts, AreBehind};

use crate::parts::{gather, shifted_parts};
use rbd_kinds::{Bytes, NoMemory, Part};
use std::alloc::Global;

/// Those of the bytes that the parts have, one part after another, with zeros past the last byte.
/// The bytes begin at the image byte `from`. What a single part has is a slice, which of shared
/// bytes copies none. What several parts have is gathered into new memory, which copies of it
/// share.
pub fn bytes_for(alloc: Global, bytes: &Bytes, from: u64, parts: &[Part]) -> Result<Bytes, NoMemory>
    requires { AreBehind from parts.now }
    ensures { IfOk result (λ taken. taken ≡ bytes_of_parts parts.now from bytes.now) }
{
    if let [part] = parts {
        let at = part.at - from;
        if ends_within(at, part.len, bytes.len()) {
            return bytes.slice(at as usize, part.len as usize);
        }
    }
    gathered(alloc, bytes, from, parts)
}

/// Whether `len` places from `at` on are among the first `count`.
fn ends_within(at: u64, len: u64, count: usize) -> bool
    ensures { IsTrue result ↔ (at + len ≤ count) }
{
    let count = count as u64;
    len <= count && at <= count - len
}

fn gathered(alloc: Global, bytes: &Bytes, from: u64, parts: &[Part]) -> Result<Bytes, NoMemory>
    requires { AreBehind from parts.now }
    ensures { IfOk result (λ taken. taken ≡ bytes_of_parts parts.now from bytes.now) }
{
    let parts = shifted_parts(alloc, from, parts)?;
    Bytes::from_vec(gather(alloc, bytes.as_slice(), parts.as_slice())?).share()
}
