//! A piece of a write and the pieces of a view, to their end and to a refusal. What they have to
//! want was worked out from their diagrams.
use super::commands::first_row;
use crate::fixtures::{Alone, IMAGE, header, holds, plays};
use rbd_header::context_of;
use rbd_kinds::{
    Answer, Bytes, NoMemory, OpKind, Part, Parts, Refusal, SiteId, SnapContext, SnapId, Want,
};
use rbd_layout::Piece;
use rbd_machine::Progress;
use rbd_pieces::{Gather, WritePiece};
use std::alloc::Global;
use std::process::Abort;
use std::test::Fail;

/// The first bytes of an object.
fn piece(alloc: Global, object: u64, len: u64) -> Result<Piece, NoMemory> {
    let mut parts = Parts::new(alloc);
    parts.push(Part {
        offset: 0,
        at: 0,
        len,
    })?;
    Ok(Piece { object, parts })
}

// ---- a piece of a write

/// The bytes `new` for object 3.
fn write_piece(alloc: Global) -> Result<Option<WritePiece>, NoMemory> {
    let Some(header) = header(alloc, "size 4096")? else {
        return Ok(None);
    };
    let context = context_of(alloc, &header);
    drop(header);
    Ok(Some(piece_in(alloc, context?)?))
}

fn piece_in(alloc: Global, context: SnapContext) -> Result<WritePiece, NoMemory> {
    let bytes = Bytes::from_slice(alloc, b"new")?;
    let piece = piece(alloc, 3, 3)?;
    Ok(WritePiece::new(SiteId::A, IMAGE, context, piece, bytes))
}

/// Whether the piece wants these rows.
fn writes(alloc: Global, rows: &str) -> Result<bool, NoMemory> {
    let Some(part) = write_piece(alloc)? else {
        return Ok(false);
    };
    let is_third = part.object() == 3;
    let mut write = Alone { part };
    let played = plays(alloc, &mut write, rows);
    drop(write);
    Ok(is_third && played?)
}

const WRITES: &str = "a piece is written behind the state of its object
map-set 3 1 => done
data-write 3 at 0 3 new of 0 => done
done

a state that nothing has is no image
map-set 3 1 => none
NoImage

the fence ends a piece at the state of its object
map-set 3 1 => fenced
Fenced

the fence ends a write
map-set 3 1 => done
data-write 3 at 0 3 new of 0 => fenced
Fenced";

#[test]
fn pieces_of_a_write_want_these(rt: HostRuntime) {
    for case in WRITES.split("\n\n") {
        let (title, rows) = first_row(case);
        assert!(rt; holds(writes(rt.alloc(), rows)), "{title}");
    }
}

/// No site answers a write so; the piece takes it as a header that is gone.
fn refusal_of(write: &mut WritePiece, answer: &Answer) -> Option<Refusal> {
    match write.feed(answer) {
        Progress::Refused(refusal) => Some(refusal),
        _ => None,
    }
}

/// Whether a write that is told that nothing is there is refused as one of no image.
fn absent_is_no_image(alloc: Global) -> Result<bool, NoMemory> {
    let Some(mut write) = write_piece(alloc)? else {
        return Ok(false);
    };
    let raised = refusal_of(&mut write, &Answer::Done).is_none();
    let kind = OpKind::DataWrite;
    let wanted = write.wants()
        == Want::Op {
            site: SiteId::A,
            kind,
        };
    let refusal = refusal_of(&mut write, &Answer::Absent);
    drop(write);
    Ok(raised && wanted && refusal == Some(Refusal::NoImage))
}

#[test]
fn a_write_where_nothing_is_there_is_no_image(rt: HostRuntime) {
    assert!(rt; holds(absent_is_no_image(rt.alloc())));
}

// ---- the pieces of a view

/// Three bytes of object 1, and then two of object 4, at a snapshot.
fn two_pieces(alloc: Global) -> Result<Alone<Gather>, NoMemory> {
    let mut pieces = Vec::new(alloc);
    let second = piece(alloc, 4, 2)?;
    pieces.push(piece(alloc, 1, 3)?)?;
    pieces.push(second)?;
    let part = Gather::new(alloc, SiteId::B, IMAGE, Some(SnapId(1)), pieces);
    Ok(Alone { part })
}

/// Three bytes of object 1, at the head.
fn one_piece(alloc: Global) -> Result<Alone<Gather>, NoMemory> {
    let mut pieces = Vec::new(alloc);
    pieces.push(piece(alloc, 1, 3)?)?;
    let part = Gather::new(alloc, SiteId::B, IMAGE, None, pieces);
    Ok(Alone { part })
}

/// Whether the pieces want these rows, and then have these bytes, which are taken out of them.
fn gathers(
    alloc: Global,
    gather: &mut Alone<Gather>,
    rows: &str,
    expected: &[u8],
) -> Result<bool, NoMemory> {
    if !plays(alloc, gather, rows)? {
        return Ok(false);
    }
    let part = &mut gather.part;
    let shown = part.bytes() == expected;
    Ok(shown && part.take_bytes().as_slice() == expected && part.bytes().is_empty())
}

const ABSENT: &str = "at-b data-read 1 snap 1 at 0 3 of 0 => bytes abc
at-b data-read 4 snap 1 at 0 2 of 0 => none
done";

const FENCED: &str = "at-b data-read 1 snap 1 at 0 3 of 0 => bytes abc
at-b data-read 4 snap 1 at 0 2 of 0 => fenced
Fenced";

const AT_THE_HEAD: &str = "at-b data-read 1 at 0 3 of 0 => none
done";

#[test]
fn an_absent_object_shows_zeros_behind_the_bytes_before(rt: HostRuntime) -> Result<(), Fail> {
    let mut gather = two_pieces(rt.alloc())?;
    assert!(rt; holds(gathers(rt.alloc(), &mut gather, ABSENT, b"abc\0\0")));
    Ok(())
}

#[test]
fn the_fence_ends_a_gather(rt: HostRuntime) -> Result<(), Fail> {
    let mut gather = two_pieces(rt.alloc())?;
    assert!(rt; holds(plays(rt.alloc(), &mut gather, FENCED)));
    Ok(())
}

#[test]
fn an_absent_object_at_the_head_shows_zeros(rt: HostRuntime) -> Result<(), Fail> {
    let mut gather = one_piece(rt.alloc())?;
    assert!(rt; holds(gathers(rt.alloc(), &mut gather, AT_THE_HEAD, b"\0\0\0")));
    Ok(())
}
