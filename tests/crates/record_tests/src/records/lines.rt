//! What is known of lines on both sides of the edges of pages, worked out by hand.
use rbd_line_table::LineMap;
use std::process::Abort;
use std::test::Fail;

/// Lines 1, 4,095, 4,097 and the last of all; what is known of line 4,097 is put twice. There is
/// room for line 9,000, of which nothing is known.
fn put(lines: &mut LineMap<u8>) -> Result<(), Fail> {
    lines.insert(1, 10)?;
    lines.insert(4_097, 11)?;
    lines.insert(4_095, 12)?;
    lines.insert(u32::MAX, 13)?;
    lines.reserve(4_097)?;
    lines.put(4_097, 14);
    lines.reserve(9_000)?;
    Ok(())
}

/// Lines that are looked up, and what is known of each.
const KNOWN: [(u32, Option<u8>); 10] = [
    (0, None),
    (1, Some(10)),
    (2, None),
    (4_095, Some(12)),
    (4_096, None),
    (4_097, Some(14)),
    (8_193, None),
    (9_000, None),
    (u32::MAX - 1, None),
    (u32::MAX, Some(13)),
];

fn are_known(rt: &impl Abort, lines: &LineMap<u8>) {
    for (line, known) in KNOWN {
        let found = lines.get(line);
        let has = lines.has(line);
        assert!(rt; found == known, "line {line}");
        assert!(rt; has == known.is_some(), "line {line}");
    }
}

#[test]
fn a_line_is_known_by_its_number(rt: HostRuntime) -> Result<(), Fail> {
    let mut lines = LineMap::new(rt.alloc());
    assert!(rt; !lines.has(1));
    put(&mut lines)?;
    are_known(&rt, &lines);
    Ok(())
}
