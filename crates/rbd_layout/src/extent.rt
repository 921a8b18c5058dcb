//! What an extent touches, object by object.
ghost use Rattle.std.specs.Prelude.{◌≡◌, ◌+◌, ◌^◌, ◌<◌, ◌≤◌, length, map, IfOk};
ghost use Rattle.rbd_kinds.specs.Striping.{IsLayout};
ghost use Rattle.rbd_layout.specs.declared.types.Piece as of_piece;
ghost use Rattle.rbd_layout.specs.Pieces as of_pieces;
ghost use Rattle.rbd_layout.specs.Pieces.{IsHeld, IsPartsOf, IsPieces};

use crate::count::objects;
use crate::striping::{back, place};
use crate::types::{BytePlace, Piece};
use rbd_kinds::{Extent, Layout, NoMemory, Part, Parts};
use std::alloc::Global;

/// The pieces of an extent: its bytes grouped by object. There is one piece for each object that
/// the extent touches, in the order of their numbers; in a piece parts that touch are joined (Ceph:
/// RBD striping). An empty extent has none.
///
/// The answer `NoMemory` comes only where a growth of the list or of its parts was refused.
pub fn pieces(alloc: Global, layout: &Layout, extent: &Extent) -> Result<Vec<Piece>, NoMemory>
    requires layout { IsLayout layout.now }
    requires end { extent.now.at + extent.now.len ≤ 2 ^ 45 }
    ensures pieces { IfOk result (λ list. IsPieces layout.now extent.now list.items) }
{
    let first = first_object(layout, extent);
    let end = objects(layout, extent.at + extent.len);
    let mut pieces = Vec::new(alloc);
    for object in first..end {
        let parts = parts_in(alloc, layout, extent, object)?;
        if !parts.is_empty() {
            pieces.push(Piece { object, parts })?;
        }
    }
    Ok(pieces)
}

/// The numbers of the objects that an extent touches, ascending: those of its [`pieces`], without
/// their parts.
///
/// The answer `NoMemory` comes only where a growth of the list was refused.
pub fn objects_within(alloc: Global, layout: &Layout, extent: &Extent) -> Result<Vec<u64>, NoMemory>
    requires layout { IsLayout layout.now }
    requires end { extent.now.at + extent.now.len ≤ 2 ^ 45 }
    ensures { IfOk result (λ list. list.items
        ≡ map (λ (p : of_piece.Piece). p.object) (of_pieces.pieces_of layout.now extent.now)) }
{
    let first = first_object(layout, extent);
    let end = objects(layout, extent.at + extent.len);
    let mut touched = Vec::new(alloc);
    for object in first..end {
        if bytes_in(layout, extent, object) > 0 {
            touched.push(object)?;
        }
    }
    Ok(touched)
}

/// The first object of the set in which an extent begins: the extent touches none before it, and
/// of the set at most 15 that it doesn't touch.
pub fn first_object(layout: &Layout, extent: &Extent) -> u64
    requires layout { IsLayout layout.now }
    requires end { extent.now.at + extent.now.len ≤ 2 ^ 45 }
    ensures { result ≡ of_pieces.first_object layout.now extent.now }
{
    let count = u64::from(layout.count);
    place(layout, extent.at).object / count * count
}

/// How many bytes of an extent lie in an object: 0 where it doesn't touch the object. Whether an
/// extent has all bytes of an object is told by such sums, without the parts.
pub fn bytes_in(layout: &Layout, extent: &Extent, object: u64) -> u64
    requires layout { IsLayout layout.now }
    requires end { extent.now.at + extent.now.len ≤ 2 ^ 45 }
    ensures { result ≡ length (of_pieces.places_in layout.now extent.now object) }
{
    held(layout, object, extent.at + extent.len) - held(layout, object, extent.at)
}

/// The parts of an extent that lie in one object: those of its piece in [`pieces`], or none where
/// the extent doesn't touch the object. An object's bytes below a clone's overlap are its parts of
/// the extent from 0 to the overlap.
///
/// The answer `NoMemory` comes only where a growth of the parts was refused.
pub fn parts_in(
    alloc: Global,
    layout: &Layout,
    extent: &Extent,
    object: u64,
) -> Result<Parts, NoMemory>
    requires layout { IsLayout layout.now }
    requires end { extent.now.at + extent.now.len ≤ 2 ^ 45 }
    ensures parts { IfOk result (IsPartsOf layout.now extent.now object) }
{
    // Where a stripe has no other object, the units of an object lie together in the image too.
    let run = if layout.count == 1 {
        layout.object
    } else {
        layout.unit
    };
    let mut parts = Parts::new(alloc);
    let mut offset = held(layout, object, extent.at);
    let end = held(layout, object, extent.at + extent.len);
    while offset < end {
        let at = back(layout, &BytePlace { object, offset });
        let len = (run - offset % run).min(end - offset);
        parts.push(Part { offset, at, len })?;
        offset += len;
    }
    Ok(parts)
}

/// How many bytes of an object lie below an image byte. They are the object's first ones.
///
/// In the set of the first byte that isn't below, the objects before that byte's own have their
/// unit of its stripe too, and those after it don't.
fn held(layout: &Layout, object: u64, below: u64) -> u64
    requires layout { IsLayout layout.now }
    requires below { below < 2 ^ 63 }
    ensures held { IsHeld layout.now object below result }
{
    let count = u64::from(layout.count);
    let next = place(layout, below);
    if object / count < next.object / count {
        return layout.object;
    }
    if object / count > next.object / count {
        return 0;
    }
    let whole_units = next.offset / layout.unit * layout.unit;
    if object < next.object {
        return whole_units + layout.unit;
    }
    if object > next.object {
        return whole_units;
    }
    next.offset
}
