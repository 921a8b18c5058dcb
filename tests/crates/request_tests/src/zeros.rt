//! Tests of the parts of requests that zero or replace an object, or set a size, through the public
//! calls of `rbd_pieces`: tables of images and extents against the operations that are done, in
//! order. They were worked out by hand, from the rules in words.
use crate::fixtures::{Alone, IMAGE, Played, Scene, bytes, header, holds, number, play};
use rbd_header::context_of;
use rbd_kinds::{Bytes, Extent, HeaderView, ImageAt, NoMemory, SiteId};
use rbd_layout::{Piece, keeps_limits, objects_within, pieces, place};
use rbd_machine::Machine;
use rbd_pieces::{FullPiece, Size, ZeroPiece};
use std::alloc::Global;
use std::process::Abort;
use std::test::Fail;

// ---- headers and bytes of words

/// The next word of a row, as a number.
fn next_number(words: &mut &str) -> u64 {
    let (word, rest) = words.split_once(' ').unwrap_or((*words, ""));
    *words = rest;
    number(word)
}

/// The header of an image by the next two words of a row: its size, and its overlap.
fn header_of(alloc: Global, words: &mut &str) -> Result<Option<HeaderView>, NoMemory> {
    let size = next_number(words);
    let overlap = next_number(words);
    let built = format!(in alloc; "size {size} parent {overlap}")?;
    header(alloc, built.as_str())
}

/// Whether a part is done after some operations, which the scene writes down.
fn is_done<M: Machine>(
    alloc: Global,
    part: &mut M,
    scene: &mut Scene<'_>,
) -> Result<bool, NoMemory> {
    let mut reply = String::new(alloc);
    let played = play(alloc, part, scene, 20, &mut reply)?;
    Ok(played == Played::Replied && reply.as_str() == "done")
}

/// Whether a piece is one of the head.
fn is_of_head(header: &HeaderView, piece: &Piece) -> bool {
    let Some(part) = piece.parts.as_slice().first() else {
        return false;
    };
    if part.at >= header.size || part.at >= 1_000_000 {
        return false;
    }
    place(&header.layout, part.at).object == piece.object
}

// ---- pieces that become zeros

fn zeros_into(
    alloc: Global,
    header: &HeaderView,
    extent: &Extent,
    object: u64,
    scene: &mut Scene<'_>,
) -> Result<bool, NoMemory> {
    let target = ImageAt {
        site: SiteId::A,
        image: IMAGE,
    };
    let context = context_of(alloc, header)?;
    let part = ZeroPiece::new(alloc, &target, header, context, extent, object)?;
    is_done(alloc, &mut Alone { part }, scene)
}

/// The operations that zero an extent, of an image by a row: its size, its overlap, and where the
/// extent begins and how long it is.
fn zeroed(alloc: Global, row: &str, scene: &mut Scene<'_>) -> Result<bool, NoMemory> {
    let mut words = row;
    let Some(header) = header_of(alloc, &mut words)? else {
        return Ok(false);
    };
    let at = next_number(&mut words);
    let len = next_number(&mut words);
    extent_zeroed(alloc, &header, at, len, scene)
}

fn extent_zeroed(
    alloc: Global,
    header: &HeaderView,
    at: u64,
    len: u64,
    scene: &mut Scene<'_>,
) -> Result<bool, NoMemory> {
    if at >= 1_000_000 || len >= 1_000_000 || at + len > header.size {
        return Ok(false);
    }
    let extent = Extent { at, len };
    for object in objects_within(alloc, &header.layout, &extent)? {
        if !zeros_into(alloc, header, &extent, object, scene)? {
            return Ok(false);
        }
    }
    Ok(true)
}

const ZEROED: &str = "\
12288 0 0 4096|map-set 0 2, data-remove 0, map-set 0 0
12288 0 0 4095|data-zero 0 at 0 4095
12288 0 1 4095|data-zero 0 at 1 4095
12288 0 4000 4192|data-zero 0 at 4000 96, map-set 1 2, data-remove 1, map-set 1 0
12288 0 4000 4191|data-zero 0 at 4000 96, data-zero 1 at 0 4095
10000 0 8192 1808|map-set 2 2, data-remove 2, map-set 2 0
10000 0 8192 1807|data-zero 2 at 0 1807
12288 4096 0 8192|map-set 0 1, data-empty 0, map-set 1 2, data-remove 1, map-set 1 0
12288 4097 0 8192|map-set 0 1, data-empty 0, map-set 1 1, data-empty 1
12288 4097 4095 2|map-set 0 1, data-zero 0 must at 4095 1, map-set 1 1, data-zero 1 must at 0 1
12288 1 4095 2|map-set 0 1, data-zero 0 must at 4095 1, data-zero 1 at 0 1";

// ---- pieces that are replaced

fn full_into(
    alloc: Global,
    header: &HeaderView,
    piece: Piece,
    bytes: &Bytes,
    scene: &mut Scene<'_>,
) -> Result<bool, NoMemory> {
    if !is_of_head(header, &piece) {
        return Ok(false);
    }
    let part = FullPiece::new(alloc, SiteId::A, IMAGE, header, piece, bytes)?;
    is_done(alloc, &mut Alone { part }, scene)
}

/// The operations that replace each object of an image by a row: its size, its overlap, and the
/// bytes.
fn replaced(alloc: Global, row: &str, scene: &mut Scene<'_>) -> Result<bool, NoMemory> {
    let mut words = row;
    let Some(header) = header_of(alloc, &mut words)? else {
        return Ok(false);
    };
    let bytes = Bytes::from_vec(bytes(alloc, words)?);
    objects_replaced(alloc, &header, &bytes, scene)
}

fn objects_replaced(
    alloc: Global,
    header: &HeaderView,
    bytes: &Bytes,
    scene: &mut Scene<'_>,
) -> Result<bool, NoMemory> {
    if header.size >= 1_000_000 {
        return Ok(false);
    }
    let head = Extent {
        at: 0,
        len: header.size,
    };
    for piece in pieces(alloc, &header.layout, &head)? {
        if !full_into(alloc, header, piece, bytes, scene)? {
            return Ok(false);
        }
    }
    Ok(true)
}

const REPLACED: &str = "\
4096 0 ab|map-set 0 1, data-write-full 0 ab
4096 0 ab..|map-set 0 1, data-write-full 0 ab
4096 0 .a.b.|map-set 0 1, data-write-full 0 .a.b
4096 0 ...|map-set 0 2, data-remove 0, map-set 0 0
6000 1 a.|map-set 0 1, data-write-full 0 a, map-set 1 1, data-write-full 1 a
6000 1 .|map-set 0 1, data-empty 0, map-set 1 2, data-remove 1, map-set 1 0";

// ---- sizes

/// The operations that set a size of an image by a row: its size, its overlap, the new size, and
/// the states of its head's map.
fn resized(alloc: Global, row: &str, scene: &mut Scene<'_>) -> Result<bool, NoMemory> {
    let mut words = row;
    let Some(header) = header_of(alloc, &mut words)? else {
        return Ok(false);
    };
    resize(alloc, &header, next_number(&mut words), scene)
}

fn resize(
    alloc: Global,
    header: &HeaderView,
    to: u64,
    scene: &mut Scene<'_>,
) -> Result<bool, NoMemory> {
    if to >= 1_000_000 {
        return Ok(false);
    }
    if !keeps_limits(&header.layout, to) {
        return Ok(false);
    }
    let part = Size::new(alloc, SiteId::A, IMAGE, header, to)?;
    is_done(alloc, &mut Alone { part }, scene)
}

const RESIZED: &str = "\
12288 0 12288 111|map-resize 3, header-set-size 12288
12288 0 12289 111|map-resize 4, header-set-size 12289
0 0 4096 |map-resize 1, header-set-size 4096
12288 0 8192 111|map-get, map-set 2 2, data-remove 2, map-set 2 0, header-set-size 8192
12288 0 8192 112|map-get, map-set 2 2, data-remove 2, map-set 2 0, header-set-size 8192
12288 0 8192 110|map-get, header-set-size 8192
12288 0 6000 111|map-get, data-zero 1 at 1904 2192, map-set 2 2, data-remove 2, map-set 2 0, header-set-size 6000
12288 0 6000 001|map-get, map-set 2 2, data-remove 2, map-set 2 0, header-set-size 6000
12288 0 6000 |map-get, header-set-size 6000
12288 0 0 010|map-get, map-set 1 2, data-remove 1, map-set 1 0, header-set-size 0
12288 5000 6000 000|map-get, map-set 1 1, data-zero 1 must at 1904 2192, header-set-size 6000
12288 5000 0 000|map-get, map-set 0 1, data-empty 0, map-set 1 1, data-empty 1, header-set-size 0
12288 5000 0 111|map-get, map-set 0 1, data-empty 0, map-set 1 1, data-empty 1, map-set 2 2, data-remove 2, map-set 2 0, header-set-size 0";

// ---- tables

/// Which table a row is of.
enum Table {
    Zeroed,
    Replaced,
    Resized,
}

/// The states of a map that a row gives as its last word: of one that sets a size the fourth.
fn states_of<'t>(table: &Table, case: &'t str) -> &'t str {
    match table {
        Table::Resized => case.rsplit_once(' ').unwrap_or(("", "")).1,
        _ => "",
    }
}

fn row_holds(alloc: Global, table: &Table, row: &str) -> Result<bool, NoMemory> {
    let (case, operations) = row.split_once('|').unwrap_or((row, ""));
    let look = format!(in alloc; "states {}", states_of(table, case))?;
    let mut scene = Scene::new(alloc, look.as_str(), "", None);
    let done = match table {
        Table::Zeroed => zeroed(alloc, case, &mut scene)?,
        Table::Replaced => replaced(alloc, case, &mut scene)?,
        Table::Resized => resized(alloc, case, &mut scene)?,
    };
    Ok(done && scene.wants.as_str() == operations)
}

fn table_holds(rt: &impl Abort, alloc: Global, table: &Table, rows: &str) {
    for row in rows.split('\n') {
        assert!(rt; holds(row_holds(alloc, table, row)), "{row}");
    }
}

#[test]
fn pieces_become_zeros_by_these_operations(rt: HostRuntime) -> Result<(), Fail> {
    table_holds(&rt, rt.alloc(), &Table::Zeroed, ZEROED);
    Ok(())
}

#[test]
fn objects_are_replaced_by_these_operations(rt: HostRuntime) -> Result<(), Fail> {
    table_holds(&rt, rt.alloc(), &Table::Replaced, REPLACED);
    Ok(())
}

#[test]
fn sizes_are_set_by_these_operations(rt: HostRuntime) -> Result<(), Fail> {
    table_holds(&rt, rt.alloc(), &Table::Resized, RESIZED);
    Ok(())
}
