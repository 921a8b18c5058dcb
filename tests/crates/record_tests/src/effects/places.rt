//! Which image bytes an object's parts are, and which a whole object.
use super::{DISK, STRIPED, header};
use crate::holds;
use rbd_flat::{Effect, Extents};
use rbd_kinds::{
    Answer, Bytes, DataOp, HeaderView, Layout, NoMemory, Op, Part, Parts, SnapContext, SnapId,
    SnapIds,
};
use rbd_stands::effect_of;
use std::alloc::Global;
use std::process::Abort;
use std::test::Fail;

/// One object in a stripe, of eight units.
const ALONE: Layout = Layout {
    object: 4096,
    unit: 512,
    count: 1,
};

/// Objects of sixteen units, two in a stripe.
const PAIRED: Layout = Layout {
    object: 8192,
    unit: 512,
    count: 2,
};

fn context(alloc: Global) -> SnapContext {
    SnapContext {
        seq: SnapId(0),
        snaps: SnapIds::new(alloc),
    }
}

/// Whether an effect is zeros at these places of the image.
fn is_zero_at(effect: &Option<Effect>, want: &[(u64, u64)]) -> bool {
    match effect {
        Some(Effect::Zero { image, at }) => *image == DISK && are_at(at, want),
        _ => false,
    }
}

/// Whether extents have these begins and lengths.
fn are_at(at: &Extents, want: &[(u64, u64)]) -> bool {
    let mut k = 0;
    for series in at.as_slice() {
        for n in 0..series.count {
            let at = series.first.at + n * series.step;
            if want.get(k) != Some(&(at, series.first.len)) {
                return false;
            }
            k += 1;
        }
    }
    k == want.len()
}

fn zeroes(
    alloc: Global,
    header: &HeaderView,
    op: &Op,
    want: &[(u64, u64)],
) -> Result<bool, NoMemory> {
    let effect = effect_of(alloc, op, &Answer::Done, Some(header))?;
    Ok(is_zero_at(&effect, want))
}

/// Whether a removal of an object is zeros at these places.
fn whole_is(
    rt: &impl Abort,
    alloc: Global,
    layout: Layout,
    size: u64,
    object: u64,
    want: &[(u64, u64)],
) -> bool {
    let header = header(rt, alloc, layout, size, None);
    let remove = DataOp::Remove {
        context: context(alloc),
    };
    match Op::on_object(alloc, DISK, object, remove) {
        Ok(op) => holds(zeroes(alloc, &header, &op, want)),
        Err(_) => false,
    }
}

fn zero(alloc: Global, object: u64, offset: u64, len: u64) -> Result<Op, NoMemory> {
    let part = Part { offset, at: 0, len };
    let parts = Parts::from_slice(alloc, &[part])?;
    let zero = DataOp::Zero {
        context: context(alloc),
        must: false,
        parts,
    };
    Op::on_object(alloc, DISK, object, zero)
}

/// Whether zeros in one part of an object are zeros at these places.
fn part_is(
    alloc: Global,
    header: &HeaderView,
    object: u64,
    offset: u64,
    len: u64,
    want: &[(u64, u64)],
) -> bool {
    match zero(alloc, object, offset, len) {
        Ok(op) => holds(zeroes(alloc, header, &op, want)),
        Err(_) => false,
    }
}

/// Units 0 and 3 are object 0's, 1 and 4 object 1's, 2 and 5 object 2's, 6 and 9 object 3's. Byte
/// 20000 is in unit 4.
#[test]
fn a_whole_object_ends_at_the_size(rt: HostRuntime) -> Result<(), Fail> {
    let alloc = rt.alloc();
    assert!(rt; whole_is(&rt, alloc, STRIPED, 20000, 0, &[(0, 4096), (12288, 4096)]));
    assert!(rt;
        whole_is(
            &rt,
            alloc,
            STRIPED,
            20000,
            1,
            &[(4096, 4096), (16384, 3616)]
        )
    );
    assert!(rt; whole_is(&rt, alloc, STRIPED, 20000, 2, &[(8192, 4096)]));
    assert!(rt; whole_is(&rt, alloc, STRIPED, 20000, 3, &[]));
    assert!(rt;
        whole_is(
            &rt,
            alloc,
            STRIPED,
            20480,
            1,
            &[(4096, 4096), (16384, 4096)]
        )
    );
    assert!(rt; whole_is(&rt, alloc, STRIPED, 20481, 2, &[(8192, 4096), (20480, 1)]));
    Ok(())
}

/// Units 6 and 9 are object 3's, so that its bytes begin at 24576 and go on at 36864.
#[test]
fn a_later_set_of_objects(rt: HostRuntime) -> Result<(), Fail> {
    let alloc = rt.alloc();
    assert!(rt; whole_is(&rt, alloc, STRIPED, 24577, 3, &[(24576, 1)]));
    assert!(rt;
        whole_is(
            &rt,
            alloc,
            STRIPED,
            49152,
            3,
            &[(24576, 4096), (36864, 4096)]
        )
    );
    assert!(rt; whole_is(&rt, alloc, STRIPED, 49152, 0, &[(0, 4096), (12288, 4096)]));
    assert!(rt; whole_is(&rt, alloc, STRIPED, 49152, 6, &[]));
    Ok(())
}

/// Where a stripe has one object, its units lie together.
#[test]
fn objects_alone_in_a_stripe(rt: HostRuntime) -> Result<(), Fail> {
    let alloc = rt.alloc();
    assert!(rt; whole_is(&rt, alloc, ALONE, 6000, 0, &[(0, 4096)]));
    assert!(rt; whole_is(&rt, alloc, ALONE, 6000, 1, &[(4096, 1904)]));
    assert!(rt; whole_is(&rt, alloc, ALONE, 6000, 2, &[]));
    assert!(rt; whole_is(&rt, alloc, ALONE, 0, 0, &[]));
    Ok(())
}

/// Object 1 is image bytes 4096 to 8191, of which those up to 5999 are below the size.
#[test]
fn a_part_is_cut_at_the_size(rt: HostRuntime) -> Result<(), Fail> {
    let alloc = rt.alloc();
    let header = header(&rt, alloc, ALONE, 6000, None);
    assert!(rt; part_is(alloc, &header, 1, 500, 600, &[(4596, 600)]));
    assert!(rt; part_is(alloc, &header, 1, 1900, 100, &[(5996, 4)]));
    assert!(rt; part_is(alloc, &header, 1, 1904, 100, &[]));
    assert!(rt; part_is(alloc, &header, 1, 4000, 96, &[]));
    assert!(rt; part_is(alloc, &header, 0, 10, 0, &[]));
    Ok(())
}

/// Object 0 has units 0, 2, 4 and so on, object 1 units 1, 3, 5; object 2 has unit 32, at byte
/// 16384.
#[test]
fn a_part_goes_through_units(rt: HostRuntime) -> Result<(), Fail> {
    let alloc = rt.alloc();
    let header = header(&rt, alloc, PAIRED, 20000, None);
    assert!(rt;
        part_is(
            alloc,
            &header,
            0,
            500,
            600,
            &[(500, 12), (1024, 512), (2048, 76)]
        )
    );
    assert!(rt; part_is(alloc, &header, 1, 511, 2, &[(1023, 1), (1536, 1)]));
    assert!(rt; part_is(alloc, &header, 2, 0, 513, &[(16384, 512), (17408, 1)]));
    assert!(rt; part_is(alloc, &header, 2, 1535, 100, &[(18943, 1), (19456, 99)]));
    assert!(rt; part_is(alloc, &header, 2, 2040, 100, &[(19960, 8)]));
    Ok(())
}

/// A write of 1, 2, 3 and so on to two parts of object 1, the later one first.
fn write(alloc: Global) -> Result<Op, NoMemory> {
    let first = Part {
        offset: 1902,
        at: 5998,
        len: 4,
    };
    let second = Part {
        offset: 0,
        at: 4096,
        len: 2,
    };
    let parts = Parts::from_slice(alloc, &[first, second])?;
    let bytes = Bytes::from_slice(alloc, &[1, 2, 3, 4, 5, 6])?;
    let write = DataOp::Write {
        context: context(alloc),
        must: false,
        parts,
        bytes,
    };
    Op::on_object(alloc, DISK, 1, write)
}

/// Whether an effect puts bytes at places of the image.
fn is_piece(effect: &Option<Effect>, want: &[(u64, u64)], want_bytes: &[u8]) -> bool {
    match effect {
        Some(Effect::Piece { image, at, bytes }) => {
            *image == DISK && are_at(at, want) && bytes.as_slice() == want_bytes
        }
        _ => false,
    }
}

fn puts(
    alloc: Global,
    header: &HeaderView,
    op: &Op,
    want: &[(u64, u64)],
    want_bytes: &[u8],
) -> Result<bool, NoMemory> {
    let effect = effect_of(alloc, op, &Answer::Done, Some(header))?;
    Ok(is_piece(&effect, want, want_bytes))
}

/// Whether the write puts these bytes at these places.
fn writes(alloc: Global, header: &HeaderView, want: &[(u64, u64)], want_bytes: &[u8]) -> bool {
    match write(alloc) {
        Ok(op) => holds(puts(alloc, header, &op, want, want_bytes)),
        Err(_) => false,
    }
}

/// Image bytes 5998 to 6001 and 4096 and 4097.
#[test]
fn bytes_past_the_size_are_left_out(rt: HostRuntime) -> Result<(), Fail> {
    let alloc = rt.alloc();
    let short = header(&rt, alloc, ALONE, 6000, None);
    assert!(rt; writes(alloc, &short, &[(5998, 2), (4096, 2)], &[1, 2, 5, 6]));
    let long = header(&rt, alloc, ALONE, 6002, None);
    assert!(rt; writes(alloc, &long, &[(5998, 4), (4096, 2)], &[1, 2, 3, 4, 5, 6]));
    let small = header(&rt, alloc, ALONE, 4096, None);
    assert!(rt; writes(alloc, &small, &[], &[]));
    Ok(())
}
