//! The limits of a script.
use super::is_told;
use rbd_script::SCRIPT_LIMIT;
use std::alloc::Global;

/// So many `client` lines.
fn clients(alloc: Global, count: u32) -> Option<Vec<u8>> {
    let mut text = Vec::new(alloc);
    for number in 0..count {
        let line = format!(in alloc; "client c{number} a\n").ok()?;
        text.extend_from_slice(line.as_bytes()).ok()?;
    }
    Some(text)
}

fn clients_are_told(alloc: Global, count: u32, want: &str) -> bool {
    match clients(alloc, count) {
        Some(text) => is_told(alloc, text.as_slice(), false, want),
        None => false,
    }
}

#[test]
fn thirty_two_sessions_may_be_declared(rt: HostRuntime) {
    assert!(rt; clients_are_told(rt.alloc(), 32, "32 sessions, 0 lines"));
    assert!(rt; clients_are_told(rt.alloc(), 33, "line 33: bad name"));
}

/// A text of so many bytes: letters behind its front.
fn filled(alloc: Global, front: &str, length: usize) -> Option<Vec<u8>> {
    let mut text = Vec::from_slice(alloc, front.as_bytes()).ok()?;
    let letters = vec![in alloc; b'w'; length.saturating_sub(front.len())].ok()?;
    text.extend_from_slice(letters.as_slice()).ok()?;
    Some(text)
}

fn filled_is_told(alloc: Global, front: &str, length: usize, want: &str) -> bool {
    match filled(alloc, front, length) {
        Some(text) => is_told(alloc, text.as_slice(), false, want),
        None => false,
    }
}

/// A script may have so many bytes, and one more is a fault of its line, whatever else is wrong
/// there. An earlier fault comes before it.
#[test]
fn a_script_may_have_so_many_bytes(rt: HostRuntime) {
    let alloc = rt.alloc();
    assert!(rt; filled_is_told(alloc, "client c1 a\n#", SCRIPT_LIMIT, "1 sessions, 0 lines"));
    assert!(rt;
        filled_is_told(
            alloc,
            "client c1 a\n#",
            SCRIPT_LIMIT + 1,
            "line 2: extra part"
        )
    );
    assert!(rt; filled_is_told(alloc, "\nwalk\n", SCRIPT_LIMIT + 1, "line 2: unknown word"));
    assert!(rt; filled_is_told(alloc, "\n", SCRIPT_LIMIT + 1, "line 2: extra part"));
    assert!(rt; filled_is_told(alloc, "", SCRIPT_LIMIT, "line 1: unknown word"));
}
