//! Bytes out of parts and into them.
ghost use Rattle.std.specs.Prelude.{◌≡◌, ◌+◌, ◌≤◌, ◌++◌, length, map, IfOk, OnOk};
ghost use Rattle.rbd_parts.specs.Contents.{window, overwritten, zeroed};
ghost use Rattle.rbd_kinds.specs.Parts.{parts_len};
ghost use Rattle.rbd_parts.specs.Parts.{parts_of, parts_written, EndWithin, shifted, AreBehind};

use rbd_kinds::{NoMemory, Part};
use std::alloc::Global;

/// The greatest size of an object in bytes (Ceph: 32 MiB for RBD's objects).
pub const LARGEST_OBJECT: u64 = 33_554_432;

/// A copy of the bytes at the parts' offsets, one part after another, with zeros past the last
/// byte.
pub fn gather(alloc: Global, bytes: &[u8], parts: &[Part]) -> Result<Vec<u8>, NoMemory>
    ensures { IfOk result (λ gathered. gathered.items ≡ parts_of parts.now bytes.now) }
{
    let mut gathered = Vec::new(alloc);
    for part in parts {
        append_window(&mut gathered, bytes, part)?;
    }
    Ok(gathered)
}

/// Puts bytes at the parts' offsets, one part after another. It takes no memory.
pub fn scatter(into: &mut [u8], parts: &[Part], bytes: &[u8])
    requires within { EndWithin (length into.old) parts.now }
    requires long { length bytes.now ≡ parts_len parts.now }
    ensures { into.new ≡ parts_written parts.now bytes.now into.old }
{
    let mut rest = bytes;
    for part in parts {
        let (first, others) = rest.split_at(part.len as usize);
        copy_over(into, part.offset as usize, first);
        rest = others;
    }
}

/// The parts as they lie in bytes that begin at the image byte `from`.
pub fn shifted_parts(alloc: Global, from: u64, parts: &[Part]) -> Result<Vec<Part>, NoMemory>
    requires { AreBehind from parts.now }
    ensures { IfOk result (λ shifts. shifts.items ≡ map (shifted from) parts.now) }
{
    let mut shifts = Vec::new(alloc);
    for part in parts {
        shifts.push(Part {
            offset: part.at - from,
            ..*part
        })?;
    }
    Ok(shifts)
}

/// Adds the bytes of a part, with zeros past the last byte.
fn append_window(read: &mut Vec<u8>, bytes: &[u8], part: &Part) -> Result<(), NoMemory>
    ensures { OnOk result (read.new.items ≡ read.old.items ++ window bytes.now part.now.offset part.now.len) }
{
    let start = read.len();
    let Some(end) = start.checked_add(part.len as usize) else {
        return Err(NoMemory);
    };
    read.resize(end, 0)?;
    let (_, added) = read.as_mut_slice().split_at_mut(start);
    copy_window(bytes, part.offset as usize, added);
    Ok(())
}

/// Fills a buffer with the bytes from `at` on, and with zeros past the last. It takes no memory.
pub fn copy_window(bytes: &[u8], at: usize, into: &mut [u8])
    ensures { into.new ≡ window bytes.now at (length into.old) }
{
    let held = &bytes[at.min(bytes.len())..];
    let count = held.len().min(into.len());
    let (front, past) = into.split_at_mut(count);
    front.copy_from_slice(&held[..count]);
    past.fill(0);
}

/// Puts the new bytes over those from `at` on.
pub fn copy_over(bytes: &mut [u8], at: usize, new: &[u8])
    requires { at + length new.now ≤ length bytes.old }
    ensures { bytes.new ≡ overwritten bytes.old at new.now }
{
    bytes[at..at + new.len()].copy_from_slice(new);
}

/// Makes `len` bytes from byte `at` on zero, as far as there are bytes.
pub fn clear(bytes: &mut [u8], at: usize, len: usize)
    ensures { bytes.new ≡ zeroed bytes.old at len }
{
    let from = at.min(bytes.len());
    let count = len.min(bytes.len() - from);
    bytes[from..from + count].fill(0);
}
