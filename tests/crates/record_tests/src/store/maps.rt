//! Object maps beside the objects that they tell of. The wanted states and bytes were worked out
//! by hand from the rules: objects of 4,096 bytes, a map of eight, outside of any overlap.
use super::bench::{Bench, C1, IMAGE};
use super::site::{context, is_done, on_object};
use crate::holds;
use rbd_kinds::{
    Answer, Bytes, DataOp, ImageId, Instance, MapOp, NoMemory, Op, Part, Parts, SnapId,
};
use rbd_site::Site;
use std::alloc::Global;
use std::process::Abort;
use std::test::Fail;

/// What is done to which bytes of the image, from the first to one past the last; the bytes of the
/// head's map then; and the first byte of objects 0 to 2 then, `-` where the object is absent.
///
/// A write sets state 1, and writes sevens. Zeros over a part of an object leave it there. Over a
/// whole one they set state 2, take it away, and set state 0. A whole object that is emptied, as
/// inside an overlap, keeps state 1.
const EXTENTS: [(&str, u16, u16, [u8; 2], &str); 9] = [
    ("write", 4095, 4097, [0x50, 0x00], "07-"),
    ("zero", 4096, 4097, [0x50, 0x00], "00-"),
    ("zero", 0, 8192, [0x00, 0x00], "---"),
    ("zero", 4097, 4107, [0x00, 0x00], "---"),
    ("write", 8192, 12288, [0x04, 0x00], "--7"),
    ("zero", 8193, 12288, [0x04, 0x00], "--7"),
    ("empty", 8192, 12288, [0x04, 0x00], "--0"),
    ("write", 0, 1, [0x44, 0x00], "7-0"),
    ("zero", 0, 12288, [0x00, 0x00], "---"),
];

/// Some bytes of one object.
#[derive(Clone, Copy)]
struct Piece {
    object: u64,
    at: u64,
    offset: u64,
    len: u64,
}

/// What lies in an object of the bytes from one up to another.
fn piece_of(object: u16, from: u16, to: u16) -> Piece {
    let first = 4096 * object as u64;
    let begin = (from as u64).max(first).min(first + 4096);
    let end = (to as u64).max(begin).min(first + 4096);
    Piece {
        object: object as u64,
        at: begin,
        offset: begin - first,
        len: end - begin,
    }
}

fn part_of(alloc: Global, piece: Piece) -> Result<Parts, NoMemory> {
    let mut parts = Vec::new(alloc);
    parts.push(Part {
        offset: piece.offset,
        at: piece.at,
        len: piece.len,
    })?;
    Ok(Parts::from_vec(parts))
}

/// What the map of the head or of a snapshot would tell now.
fn ask(
    site: &Site,
    me: Instance,
    image: ImageId,
    snap: Option<SnapId>,
) -> Result<Answer, NoMemory> {
    let op = Op::Map {
        image,
        op: MapOp::Get { snap },
    };
    let told = site.answer(me, &op);
    drop(op);
    told
}

fn on_map(bench: &mut Bench, me: Instance, image: ImageId, op: MapOp) -> Result<bool, NoMemory> {
    Ok(is_done(bench.apply(me, Op::Map { image, op })?))
}

/// Whether the head's map has more bytes than the objects up to this one need, so that it has the
/// object.
fn has_object(site: &Site, me: Instance, image: ImageId, object: u64) -> Result<bool, NoMemory> {
    match ask(site, me, image, None)? {
        Answer::Bits(bits) => {
            let has = object / 4 + 1 < bits.len() as u64;
            drop(bits);
            Ok(has)
        }
        other => {
            drop(other);
            Ok(false)
        }
    }
}

/// Whether an object gets a state in the head's map.
fn sets(
    bench: &mut Bench,
    me: Instance,
    image: ImageId,
    object: u64,
    state: u8,
) -> Result<bool, NoMemory> {
    if !has_object(&bench.site, me, image, object)? {
        return Ok(false);
    }
    on_map(
        bench,
        me,
        image,
        MapOp::Set {
            snap: None,
            object,
            state,
        },
    )
}

/// The bytes of the head's map, if it is there. They may be put as they are.
fn head_bits(site: &Site, me: Instance, image: ImageId) -> Result<Option<Bytes>, NoMemory> {
    let _lines = site.log().len();
    match ask(site, me, image, None)? {
        Answer::Bits(bits) => Ok(Some(bits)),
        other => {
            drop(other);
            Ok(None)
        }
    }
}

fn puts(bench: &mut Bench, snap: SnapId, bits: Bytes) -> Result<bool, NoMemory> {
    let snap = Some(snap);
    on_map(bench, C1, IMAGE, MapOp::Put { snap, bits })
}

/// Whether the head's map is put as that of a snapshot.
fn copies_to(bench: &mut Bench, snap: SnapId) -> Result<bool, NoMemory> {
    match head_bits(&bench.site, C1, IMAGE)? {
        Some(bits) => puts(bench, snap, bits),
        None => Ok(false),
    }
}

/// Whether a map has these bytes, or is absent where none are wanted.
fn has_bits(site: &Site, snap: Option<SnapId>, wanted: &[u8]) -> Result<bool, NoMemory> {
    match ask(site, C1, IMAGE, snap)? {
        Answer::Bits(bits) => {
            let same = bits.as_slice() == wanted;
            drop(bits);
            Ok(same)
        }
        other => {
            drop(other);
            Ok(wanted.is_empty())
        }
    }
}

fn writes(bench: &mut Bench, alloc: Global, piece: Piece) -> Result<bool, NoMemory> {
    if !sets(bench, C1, IMAGE, piece.object, 1)? {
        return Ok(false);
    }
    let op = DataOp::Write {
        context: context(alloc, 0)?,
        must: false,
        parts: part_of(alloc, piece)?,
        bytes: Bytes::from_vec(vec![in alloc; 7u8; piece.len as usize]?),
    };
    Ok(is_done(on_object(bench, piece.object, op)?))
}

fn zeroes_part(bench: &mut Bench, alloc: Global, piece: Piece) -> Result<bool, NoMemory> {
    let op = DataOp::Zero {
        context: context(alloc, 0)?,
        must: false,
        parts: part_of(alloc, piece)?,
    };
    Ok(is_done(on_object(bench, piece.object, op)?))
}

fn is_removed(bench: &mut Bench, alloc: Global, object: u64) -> Result<bool, NoMemory> {
    let context = context(alloc, 0)?;
    Ok(is_done(on_object(bench, object, DataOp::Remove { context })?))
}

fn removes(bench: &mut Bench, alloc: Global, object: u64) -> Result<bool, NoMemory> {
    if !sets(bench, C1, IMAGE, object, 2)? {
        return Ok(false);
    }
    if !is_removed(bench, alloc, object)? {
        return Ok(false);
    }
    sets(bench, C1, IMAGE, object, 0)
}

fn empties(bench: &mut Bench, alloc: Global, object: u64) -> Result<bool, NoMemory> {
    if !sets(bench, C1, IMAGE, object, 1)? {
        return Ok(false);
    }
    let context = context(alloc, 0)?;
    Ok(is_done(on_object(bench, object, DataOp::Empty { context })?))
}

/// Whether a piece is done.
fn does(bench: &mut Bench, alloc: Global, word: &str, piece: Piece) -> Result<bool, NoMemory> {
    match word {
        "write" => writes(bench, alloc, piece),
        "empty" => empties(bench, alloc, piece.object),
        _ => {
            if piece.len < 4096 {
                return zeroes_part(bench, alloc, piece);
            }
            removes(bench, alloc, piece.object)
        }
    }
}

/// Whether each piece is done that lies in objects 0 to 2.
fn does_all(
    bench: &mut Bench,
    alloc: Global,
    word: &str,
    from: u16,
    to: u16,
) -> Result<bool, NoMemory> {
    for object in 0..3 {
        let piece = piece_of(object, from, to);
        if piece.len > 0 && !does(bench, alloc, word, piece)? {
            return Ok(false);
        }
    }
    Ok(true)
}

fn read_first(bench: &mut Bench, alloc: Global, object: u64) -> Result<Answer, NoMemory> {
    let first = Piece {
        object,
        at: 0,
        offset: 0,
        len: 1,
    };
    let parts = part_of(alloc, first)?;
    on_object(bench, object, DataOp::Read { snap: None, parts })
}

/// How a row shows the first byte of an object.
fn shown(answer: Answer) -> char {
    match answer {
        Answer::Bytes(bytes) => {
            let seven = bytes.as_slice() == [7].as_slice();
            drop(bytes);
            if seven { '7' } else { '0' }
        }
        other => {
            drop(other);
            '-'
        }
    }
}

fn shows(bench: &mut Bench, alloc: Global, heads: &str) -> Result<bool, NoMemory> {
    let mut object = 0_u64;
    for head in heads.chars() {
        if shown(read_first(bench, alloc, object)?) != head {
            return Ok(false);
        }
        object = object.wrapping_add(1);
    }
    Ok(true)
}

fn row_holds(
    bench: &mut Bench,
    alloc: Global,
    row: (&str, u16, u16, [u8; 2], &str),
) -> Result<bool, NoMemory> {
    let (word, from, to, bits, heads) = row;
    if !does_all(bench, alloc, word, from, to)? {
        return Ok(false);
    }
    if !has_bits(&bench.site, None, bits.as_slice())? {
        return Ok(false);
    }
    shows(bench, alloc, heads)
}

/// Whether the head gets a map of eight objects.
fn is_mapped(bench: &mut Bench) -> Result<bool, NoMemory> {
    on_map(bench, C1, IMAGE, MapOp::Resize { count: 8 })
}

fn run(rt: &impl Abort, alloc: Global, bench: &mut Bench) {
    assert!(rt; holds(is_mapped(bench)));
    for row in EXTENTS {
        assert!(rt;
            holds(row_holds(bench, alloc, row)),
            "the first byte {}",
            row.1
        );
    }
}

#[test]
fn states_follow_the_objects(rt: HostRuntime) -> Result<(), Fail> {
    let mut bench = Bench::new(rt.alloc())?;
    run(&rt, rt.alloc(), &mut bench);
    Ok(())
}

const SNAP: SnapId = SnapId(1);

fn is_taken_away(bench: &mut Bench) -> Result<bool, NoMemory> {
    on_map(bench, C1, IMAGE, MapOp::Remove { snap: Some(SNAP) })
}

/// Whether the head's map and that of the snapshot have these bytes.
fn have_bits(site: &Site, head: &[u8], snap: &[u8]) -> bool {
    holds(has_bits(site, None, head)) && holds(has_bits(site, Some(SNAP), snap))
}

/// Whether the head's map isn't there before it is made, and then takes a state.
fn begins(bench: &mut Bench) -> Result<bool, NoMemory> {
    if sets(bench, C1, IMAGE, 1, 1)? || !is_mapped(bench)? {
        return Ok(false);
    }
    let set = sets(bench, C1, IMAGE, 1, 1)?;
    Ok(set && have_bits(&bench.site, &[0x10, 0x00], &[]))
}

/// Whether the snapshot's map is the head's as it was when it was put.
fn goes_apart(bench: &mut Bench) -> Result<bool, NoMemory> {
    if !copies_to(bench, SNAP)? {
        return Ok(false);
    }
    let set = sets(bench, C1, IMAGE, 0, 2)?;
    Ok(set && have_bits(&bench.site, &[0x90, 0x00], &[0x10, 0x00]))
}

/// Whether the snapshot's map goes once, and the head's stays.
fn ends(bench: &mut Bench) -> Result<bool, NoMemory> {
    if !is_taken_away(bench)? || is_taken_away(bench)? {
        return Ok(false);
    }
    Ok(have_bits(&bench.site, &[0x90, 0x00], &[]))
}

fn has_its_own(bench: &mut Bench) -> Result<bool, NoMemory> {
    if !begins(bench)? || !goes_apart(bench)? {
        return Ok(false);
    }
    ends(bench)
}

#[test]
fn a_snapshot_has_a_map_of_its_own(rt: HostRuntime) -> Result<(), Fail> {
    let mut bench = Bench::new(rt.alloc())?;
    assert!(rt; holds(has_its_own(&mut bench)));
    Ok(())
}
