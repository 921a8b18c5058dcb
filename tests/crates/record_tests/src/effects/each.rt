//! Each operation with its effect, on an image of 20,000 bytes: a row is KIND, ANSWER, EFFECT.
use super::make::{answer, op};
use super::{DISK, GLOBAL, STRIPED, header, shows};
use rbd_header::new_header;
use rbd_kinds::{Answer, HeaderOp, HeaderView, ImageId, Op, OpKind, ParentLink, Shared, SnapId};
use std::alloc::Global;
use std::process::Abort;
use std::test::Fail;

const EACH: &str = "dir-find|id|None
dir-add|id|Some(Name { name: Name { text: Bytes { bytes: [111, 108, 100] } }, image: ImageId(9) })
dir-remove|done|Some(NameFree { image: ImageId(7) })
dir-rename|done|Some(Rename { from: Name { text: Bytes { bytes: [111, 108, 100] } }, to: Name { text: Bytes { bytes: [110, 101, 119] } } })
dir-list|done|None
child-add|done|Some(Link { parent: ImageId(7), snap: SnapId(3), child: ImageId(8) })
child-remove|done|Some(Unlink { parent: ImageId(7), snap: SnapId(3), child: ImageId(8) })
child-list|done|None
block-add|done|None
header-create|done|Some(Create { image: ImageId(7), size: 20000, role: Plain })
header-get|done|None
header-set-size|done|Some(Size { image: ImageId(7), size: 5000 })
header-snap-add|snap|Some(Snap { image: ImageId(7), snap: SnapId(4), name: Name { text: Bytes { bytes: [111, 108, 100] } } })
header-snap-remove|done|Some(Unsnap { image: ImageId(7), snap: SnapId(3) })
header-snap-status|done|Some(Status { image: ImageId(7), snap: SnapId(3), status: Protected })
header-detach|done|None
header-role|done|Some(Role { image: ImageId(7), role: Secondary })
header-mirror|done|Some(Role { image: ImageId(7), role: Primary })
header-synced|done|None
header-remove|done|Some(Gone { image: ImageId(7) })
lock-take|done|None
lock-drop|done|None
lock-break|done|None
watch|done|None
unwatch|done|None
watchers-get|done|None
notify|done|None
data-read|done|None
data-write|done|Some(Piece { image: ImageId(7), at: Extents { all: [Series { first: Extent { at: 8190, len: 2 }, step: 12288, count: 1 }, Series { first: Extent { at: 16384, len: 2 }, step: 12288, count: 1 }, Series { first: Extent { at: 19998, len: 2 }, step: 12288, count: 1 }] }, bytes: Bytes { bytes: [1, 2, 3, 4, 5, 6] } })
data-write-full|done|Some(Piece { image: ImageId(7), at: Extents { all: [Series { first: Extent { at: 4096, len: 4096 }, step: 12288, count: 1 }, Series { first: Extent { at: 16384, len: 3616 }, step: 12288, count: 1 }] }, bytes: Bytes { bytes: [1, 2, 3] } })
data-zero|done|Some(Zero { image: ImageId(7), at: Extents { all: [Series { first: Extent { at: 8190, len: 2 }, step: 12288, count: 1 }, Series { first: Extent { at: 16384, len: 2 }, step: 12288, count: 1 }, Series { first: Extent { at: 19998, len: 2 }, step: 12288, count: 1 }] } })
data-empty|done|Some(Zero { image: ImageId(7), at: Extents { all: [Series { first: Extent { at: 4096, len: 4096 }, step: 12288, count: 1 }, Series { first: Extent { at: 16384, len: 3616 }, step: 12288, count: 1 }] } })
data-remove|done|Some(Zero { image: ImageId(7), at: Extents { all: [Series { first: Extent { at: 4096, len: 4096 }, step: 12288, count: 1 }, Series { first: Extent { at: 16384, len: 3616 }, step: 12288, count: 1 }] } })
data-copy-up|done|None
map-resize|done|None
map-get|done|None
map-put|done|None
map-set|done|None
map-remove|done|None
journal-create|done|None
journal-tag|done|None
journal-append|done|None
journal-read|done|None
journal-spans|done|None
journal-register|done|None
journal-commit|done|None
journal-remove|done|None";

/// What isn't answered done, or with what it draws, did nothing.
const REFUSED: &str = "dir-add|done|None
dir-add|snap|None
dir-add|exists|None
dir-add|full|None
dir-remove|none|None
dir-remove|id|None
dir-rename|none|None
dir-rename|exists|None
child-add|exists|None
child-remove|none|None
header-create|exists|None
header-set-size|none|None
header-set-size|fenced|None
header-snap-add|done|None
header-snap-add|id|None
header-snap-add|exists|None
header-snap-add|full|None
header-snap-remove|none|None
header-snap-status|none|None
header-role|none|None
header-mirror|none|None
header-remove|none|None
lock-take|changed|None
data-write|none|None
data-write|fenced|None
data-write|id|None
data-write-full|snap|None
data-write-full|fenced|None
data-zero|none|None
data-empty|fenced|None
data-remove|none|None
data-copy-up|exists|None";

/// Of an image that has no header.
const HEADERLESS: &str =
    "dir-add|id|Some(Name { name: Name { text: Bytes { bytes: [111, 108, 100] } }, image: ImageId(9) })
header-create|done|Some(Create { image: ImageId(7), size: 20000, role: Plain })
header-mirror|done|None
header-remove|done|Some(Gone { image: ImageId(7) })
data-write|done|None
data-write-full|done|None
data-zero|done|None
data-empty|done|None
data-remove|done|None
data-copy-up|done|None";

/// Of an image that both sites know by a name.
const MIRRORED: &str = "header-mirror|done|None
header-role|done|Some(Role { image: ImageId(7), role: Secondary })
header-set-size|done|Some(Size { image: ImageId(7), size: 5000 })";

fn row_holds(rt: &impl Abort, alloc: Global, header: Option<&HeaderView>, row: &str) -> bool {
    let Some((word, rest)) = row.split_once('|') else {
        return false;
    };
    let Some((told, want)) = rest.split_once('|') else {
        return false;
    };
    let Some(kind) = OpKind::from_word(word.as_bytes()) else {
        return false;
    };
    kind_shows(rt, alloc, header, kind, told, want)
}

fn kind_shows(
    rt: &impl Abort,
    alloc: Global,
    header: Option<&HeaderView>,
    kind: OpKind,
    told: &str,
    want: &str,
) -> bool {
    match op(rt, alloc, kind) {
        Ok(op) => shows(alloc, op, answer(told), header, want),
        Err(_) => false,
    }
}

fn rows_hold(rt: &impl Abort, alloc: Global, header: Option<&HeaderView>, rows: &str) -> bool {
    for row in rows.split('\n') {
        if !row_holds(rt, alloc, header, row) {
            return false;
        }
    }
    true
}

/// Whether the table of all operations has a row for a kind.
fn is_listed(kind: OpKind) -> bool {
    for row in EACH.split('\n') {
        if row.split('|').next() == Some(kind.word()) {
            return true;
        }
    }
    false
}

#[test]
fn each_kind_has_a_row(rt: HostRuntime) -> Result<(), Fail> {
    for kind in OpKind::ALL {
        assert!(rt; is_listed(kind));
    }
    Ok(())
}

#[test]
fn each_operation_has_its_effect(rt: HostRuntime) -> Result<(), Fail> {
    let header = header(&rt, rt.alloc(), STRIPED, 20000, None);
    assert!(rt; rows_hold(&rt, rt.alloc(), Some(&header), EACH));
    Ok(())
}

#[test]
fn what_is_not_done_has_none(rt: HostRuntime) -> Result<(), Fail> {
    let header = header(&rt, rt.alloc(), STRIPED, 20000, None);
    assert!(rt; rows_hold(&rt, rt.alloc(), Some(&header), REFUSED));
    Ok(())
}

#[test]
fn data_of_no_image_has_none(rt: HostRuntime) -> Result<(), Fail> {
    assert!(rt; rows_hold(&rt, rt.alloc(), None, HEADERLESS));
    Ok(())
}

#[test]
fn a_second_mirror_enable_is_a_look(rt: HostRuntime) -> Result<(), Fail> {
    let header = header(&rt, rt.alloc(), STRIPED, 20000, Some(GLOBAL));
    assert!(rt; rows_hold(&rt, rt.alloc(), Some(&header), MIRRORED));
    Ok(())
}

#[test]
fn a_header_with_a_parent_is_a_clone(rt: HostRuntime) -> Result<(), Fail> {
    let view = HeaderView {
        parent: Some(ParentLink {
            image: ImageId(5),
            snap: SnapId(2),
            overlap: 100,
        }),
        ..new_header(rt.alloc(), STRIPED, 20000)
    };
    let op = Op::Header {
        image: DISK,
        op: HeaderOp::Create {
            view: Shared::new(rt.alloc(), view)?,
        },
    };
    let want = "Some(Clone { image: ImageId(7), parent: ImageId(5), snap: SnapId(2) })";
    assert!(rt; shows(rt.alloc(), op, Answer::Done, None, want));
    Ok(())
}
