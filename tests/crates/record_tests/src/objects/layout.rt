//! Layouts: limits, places and pieces. The tables of five layouts stand in `striped`.
use super::striped::{
    DEFAULT_EXTENTS, DEFAULT_PLACES, LONG_EXTENTS, LONG_PLACES, SMALL_EXTENTS, SMALL_PLACES,
    TWO_UNITS_EXTENTS, TWO_UNITS_PLACES, WIDE_EXTENTS, WIDE_PLACES,
};
use rbd_kinds::{Extent, Layout, NoMemory, Number, Shape};
use rbd_layout::*;
use std::alloc::AllocError;
use std::process::Abort;

const fn layout(object: u64, unit: u64, count: u32) -> Layout {
    Layout {
        object,
        unit,
        count,
    }
}

#[test]
fn limits(rt: HostRuntime) {
    for (object, unit, count, valid) in [
        (4_096, 512, 1, true),
        (33_554_432, 33_554_432, 16, true),
        (4_194_304, 65_536, 5, true),
        (2_048, 512, 1, false),
        (67_108_864, 512, 1, false),
        (12_288, 4_096, 1, false),
        (4_096, 256, 1, false),
        (4_096, 1_536, 1, false),
        (4_096, 8_192, 1, false),
        (4_096, 4_096, 0, false),
        (4_096, 4_096, 17, false),
    ] {
        assert_eq!(rt;
            check(&layout(object, unit, count)).is_ok(),
            valid,
            "{object} {unit} {count}"
        );
    }
}

#[test]
fn the_usual_shape(rt: HostRuntime) {
    let mut shape = Shape {
        object: None,
        unit: None,
        count: None,
        journal: false,
    };
    assert_eq!(rt; layout_of(&shape), layout(4_194_304, 4_194_304, 1));
    shape.object = Number::new(8_192);
    assert_eq!(rt; layout_of(&shape), layout(8_192, 8_192, 1));
    shape.unit = Number::new(512);
    shape.count = Some(3);
    assert_eq!(rt; layout_of(&shape), layout(8_192, 512, 3));
}

/// A clone of an image of 8,192, 4,096 and 2.
#[test]
fn the_shape_of_a_clone(rt: HostRuntime) {
    let parent = layout(8_192, 4_096, 2);
    let mut shape = Shape {
        object: None,
        unit: None,
        count: None,
        journal: true,
    };
    assert_eq!(rt; clone_layout_of(&parent, &shape), parent);
    shape.count = Some(3);
    assert_eq!(rt; clone_layout_of(&parent, &shape), layout(8_192, 8_192, 3));
    shape.object = Number::new(16_384);
    assert_eq!(rt; clone_layout_of(&parent, &shape), layout(16_384, 16_384, 3));
}

/// 4,294,967,296 bytes are 2^20 objects of 4,096 bytes.
#[test]
fn limits_of_an_image(rt: HostRuntime) {
    for (object, size, kept) in [
        (4_096, 4_294_967_296u64, true),
        (4_096, 4_294_967_297, false),
        (5_000, 4_096, false),
    ] {
        assert!(rt; size < 1 << 62);
        assert_eq!(rt;
            keeps_limits(&layout(object, 512, 1), size),
            kept,
            "{object} {size}"
        );
    }
}

/// Stripe units 0 to 31 of the figure of two object sets in Ceph's description of striping: four
/// objects in a set, four units in an object.
#[test]
fn two_object_sets(rt: HostRuntime) {
    let layout = layout(16_384, 4_096, 4);
    assert!(rt; check(&layout).is_ok());
    let sets: [[[u64; 4]; 4]; 2] = [
        [[0, 4, 8, 12], [1, 5, 9, 13], [2, 6, 10, 14], [3, 7, 11, 15]],
        [
            [16, 20, 24, 28],
            [17, 21, 25, 29],
            [18, 22, 26, 30],
            [19, 23, 27, 31],
        ],
    ];
    let mut object = 0u64;
    for units in sets.iter().flatten() {
        let mut offset = 0u64;
        for &unit in units {
            assert!(rt; unit < 32);
            let found = place(&layout, unit * 4_096);
            assert_eq!(rt;
                (found.object, found.offset),
                (object, offset),
                "unit {unit}"
            );
            offset = offset.saturating_add(4_096);
        }
        object = object.saturating_add(1);
    }
}

#[test]
fn one_place(rt: HostRuntime) {
    let layout = layout(8_192, 4_096, 3);
    assert!(rt; check(&layout).is_ok());
    assert_eq!(rt; place_and_back(&rt, &layout, 50_000), (6, 848));
}

#[test]
fn object_counts(rt: HostRuntime) {
    let layout = layout(8_192, 4_096, 3);
    assert!(rt; check(&layout).is_ok());
    for (size, count) in [
        (0, 0),
        (1, 1),
        (4_096, 1),
        (4_097, 2),
        (12_288, 3),
        (12_289, 3),
        (24_576, 3),
        (24_577, 4),
        (28_672, 4),
        (28_673, 5),
        (36_864, 6),
        (49_152, 6),
        (49_153, 7),
    ] {
        assert!(rt; size < 1 << 20);
        assert_eq!(rt; objects(&layout, size), count, "of {size} bytes");
    }
}

#[test]
fn covered_by_an_overlap(rt: HostRuntime) -> Result<(), NoMemory> {
    let layout = layout(8_192, 4_096, 3);
    covered_are(
        &rt,
        &layout,
        20_000,
        1,
        &[(0, 4_096, 4_096), (4_096, 16_384, 3_616)],
    )?;
    covered_are(&rt, &layout, 20_000, 3, &[])
}

#[test]
fn refusal_is_printed(rt: HostRuntime) -> Result<(), AllocError> {
    assert_eq!(rt;
        format!(in rt.alloc(); "{BadShape}")?.as_str(),
        "bad layout"
    );
    Ok(())
}

#[test]
fn two_units_in_an_object(rt: HostRuntime) -> Result<(), NoMemory> {
    places_are(&rt, &layout(8_192, 4_096, 3), &TWO_UNITS_PLACES);
    pieces_are(&rt, &layout(8_192, 4_096, 3), &TWO_UNITS_EXTENTS)
}

#[test]
fn small_units_in_many_objects(rt: HostRuntime) -> Result<(), NoMemory> {
    places_are(&rt, &layout(4_096, 512, 16), &SMALL_PLACES);
    pieces_are(&rt, &layout(4_096, 512, 16), &SMALL_EXTENTS)
}

#[test]
fn units_of_one_object_lie_together(rt: HostRuntime) -> Result<(), NoMemory> {
    places_are(&rt, &layout(33_554_432, 512, 1), &LONG_PLACES);
    pieces_are(&rt, &layout(33_554_432, 512, 1), &LONG_EXTENTS)
}

#[test]
fn one_unit_in_an_object(rt: HostRuntime) -> Result<(), NoMemory> {
    places_are(&rt, &layout(4_194_304, 4_194_304, 1), &DEFAULT_PLACES);
    pieces_are(&rt, &layout(4_194_304, 4_194_304, 1), &DEFAULT_EXTENTS)
}

#[test]
fn five_objects_in_a_stripe(rt: HostRuntime) -> Result<(), NoMemory> {
    places_are(&rt, &layout(4_194_304, 65_536, 5), &WIDE_PLACES);
    pieces_are(&rt, &layout(4_194_304, 65_536, 5), &WIDE_EXTENTS)
}

/// Each place of a table, and the byte at each place.
fn places_are(rt: &impl Abort, layout: &Layout, table: &[(u64, u64, u64)]) {
    assert!(rt; check(layout).is_ok());
    for &(x, object, offset) in table {
        assert!(rt; x < 1 << 62);
        assert_eq!(rt; place_and_back(rt, layout, x), (object, offset), "at {x}");
    }
}

/// The object and the offset of a byte, which lead back to it.
fn place_and_back(rt: &impl Abort, layout: &Layout, x: u64) -> (u64, u64) {
    place_of_a_byte();
    let found = place(layout, x);
    assert_eq!(rt; back(layout, &found), x);
    (found.object, found.offset)
}

/// The parts of an object below an overlap: offset, byte of the image, length.
fn covered_are(
    rt: &(impl Abort + AllocGlobal),
    layout: &Layout,
    overlap: u64,
    object: u64,
    table: &[(u64, u64, u64)],
) -> Result<(), NoMemory> {
    assert!(rt; check(layout).is_ok());
    assert!(rt; overlap <= 1 << 44);
    let mut wanted = table.iter();
    let extent = Extent {
        at: 0,
        len: overlap,
    };
    for part in parts_in(rt.alloc(), layout, &extent, object)?.as_slice() {
        assert_eq!(rt; Some(&(part.offset, part.at, part.len)), wanted.next());
    }
    assert!(rt; wanted.next().is_none());
    Ok(())
}

/// The parts of some pieces: object, offset there, byte of the image, length.
fn parts_are(rt: &impl Abort, pieces: &[Piece], extent: &Extent, wanted: &[(u64, u64, u64, u64)]) {
    let Extent { at, len } = extent;
    let mut wanted = wanted.iter();
    for piece in pieces {
        for part in piece.parts.as_slice() {
            let row = (piece.object, part.offset, part.at, part.len);
            assert_eq!(rt; Some(&row), wanted.next(), "of {len} bytes at {at}");
        }
    }
    assert!(rt; wanted.next().is_none(), "after {len} bytes at {at}");
}

/// The parts of each extent of a table.
fn pieces_are(
    rt: &(impl Abort + AllocGlobal),
    layout: &Layout,
    table: &[(u64, u64, &[(u64, u64, u64, u64)])],
) -> Result<(), NoMemory> {
    assert!(rt; check(layout).is_ok());
    for &(at, len, wanted) in table {
        assert!(rt; len <= 1 << 44 && at <= 1 << 44);
        let extent = Extent { at, len };
        let pieces = pieces(rt.alloc(), layout, &extent)?;
        parts_are(rt, pieces.as_slice(), &extent, wanted);
    }
    Ok(())
}
