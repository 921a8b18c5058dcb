//! Every prefix of a script.
use super::{is_told, push_unfolded};
use std::alloc::Global;

/// A script, piece by piece: what is told of each prefix that ends within the piece, its end
/// included.
const PIECES: &str = "line 1: unknown word|clien
line 1: missing part|t c1\x20
1 sessions, 0 lines|a;
line 2: unknown word|c
line 2: missing part|1\x20
line 2: unknown word|creat
line 2: missing part|e disk\x20
1 sessions, 1 lines|8192\x20
line 2: unknown word|objec
line 2: missing part|t\x20
1 sessions, 1 lines|4096;
line 3: unknown word|c
line 3: missing part|1\x20
line 3: unknown word|writ
line 3: missing part|e disk 4094\x20
line 3: bad number|6
1 sessions, 2 lines|8
line 3: bad number|6
1 sessions, 2 lines|5
line 3: bad number|6
1 sessions, 2 lines|c
line 3: bad number|6
1 sessions, 2 lines|c
line 3: bad number|6
1 sessions, 2 lines|f;
line 4: unknown word|c
line 4: missing part|1\x20
line 4: unknown word|rea
line 4: missing part|d disk 4094\x20
1 sessions, 3 lines|5;";

/// Adds a piece byte by byte, and sees what is told of each prefix.
fn piece_holds(alloc: Global, text: &mut Vec<u8>, row: &str) -> bool {
    let Some((want, piece)) = row.split_once('|') else {
        return false;
    };
    for byte in piece.bytes() {
        if !push_unfolded(text, byte) || !is_told(alloc, text.as_slice(), false, want) {
            return false;
        }
    }
    true
}

#[test]
fn each_prefix_is_told(rt: HostRuntime) {
    let mut text = Vec::new(rt.alloc());
    assert!(rt; is_told(rt.alloc(), text.as_slice(), false, "0 sessions, 0 lines"));
    for row in PIECES.split('\n') {
        assert!(rt; piece_holds(rt.alloc(), &mut text, row), "{row}");
    }
    assert_eq!(rt; text.len(), 94);
}
