//! Bytes that were read object by object, in the order of the image.
ghost use Rattle.std.specs.Prelude.{◌≡◌, ◌+◌, ◌^◌, ◌≤◌, drop, length, IfOk};
ghost use Rattle.rbd_kinds.specs.Striping.{IsLayout};
ghost use Rattle.rbd_parts.specs.Parts.{AreBehind, EndBefore};
ghost use Rattle.rbd_parts.specs.Contents.{window, overwritten};
ghost use Rattle.rbd_meaning.specs.Arrange as of_arrange;

use rbd_kinds::{Bytes, Extent, Layout, NoMemory, Part};
use rbd_layout::pieces;
use rbd_parts::copy_window;
use std::alloc::Global;

/// The bytes of an extent, out of those of its pieces, one piece after another and in it one part
/// after another. NoMemory where memory for them is refused.
pub fn arrange(
    alloc: Global,
    layout: &Layout,
    extent: &Extent,
    read: &[u8],
) -> Result<Bytes, NoMemory>
    requires layout { IsLayout layout.now }
    requires end { extent.now.at + extent.now.len ≤ 2 ^ 45 }
    ensures { IfOk result (λ bytes. bytes ≡ of_arrange.bytes_of_extent layout.now extent.now read.now) }
{
    let listed = pieces(alloc, layout, extent)?;
    let mut into = vec![in alloc; 0u8; extent.len as usize]?;
    let mut rest = read;
    for piece in listed.as_slice() {
        rest = put_parts(into.as_mut_slice(), extent, piece.parts.as_slice(), rest);
    }
    Ok(Bytes::from_vec(into))
}

/// Puts the bytes of an object's parts to their places, and gives those behind them.
fn put_parts<'r>(into: &mut [u8], extent: &Extent, parts: &[Part], read: &'r [u8]) -> &'r [u8]
    requires long { length into.old ≡ extent.now.len }
    requires behind { AreBehind extent.now.at parts.now }
    requires before { EndBefore extent.now.at extent.now.len parts.now }
    ensures into { into.new ≡ of_arrange.put_parts extent.now.at parts.now read.now into.old }
    ensures long { length into.new ≡ length into.old }
    ensures rest { result.now ≡ of_arrange.behind_parts parts.now read.now }
{
    let mut rest = read;
    for part in parts {
        let len = part.len as usize;
        put_part(into, (part.at - extent.at) as usize, len, rest);
        rest = skip(rest, len);
    }
    rest
}

/// Puts the first bytes to a place, zeros where they are too few.
fn put_part(into: &mut [u8], at: usize, len: usize, read: &[u8])
    requires { at + len ≤ length into.old }
    ensures { into.new ≡ overwritten into.old at (window read.now 0 len) }
{
    let (_, behind) = into.split_at_mut(at);
    let (here, _) = behind.split_at_mut(len);
    copy_window(read, 0, here);
}

/// The bytes behind the first `count`.
fn skip(bytes: &[u8], count: usize) -> &[u8]
    ensures { result.now ≡ drop count bytes.now }
{
    &bytes[count.min(bytes.len())..]
}
