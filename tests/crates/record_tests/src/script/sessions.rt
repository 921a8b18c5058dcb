//! Who asks for a command, and where.
use super::behind_client;
use rbd_kinds::SiteId;
use rbd_script::{Declared, Line, Said, read};
use std::alloc::Global;

/// The number of a line, the number of the session that asks in it, and whether it does so beside
/// the others.
fn asked(alloc: Global, line: &Line) -> Option<String> {
    match &line.said {
        Said::Command {
            session,
            beside,
            ..
        } => format!(in alloc; "{} {} {beside}", line.number, session.0).ok(),
        _ => None,
    }
}

/// The same of the last line of a script, the line given behind `client c1 a`.
fn last_asked(alloc: Global, line: &str) -> Option<String> {
    let text = behind_client(alloc, line)?;
    let script = read(alloc, text.as_slice(), false).ok()?;
    asked(alloc, script.lines.as_slice().last()?)
}

fn is_asked(alloc: Global, line: &str, want: &str) -> bool {
    match last_asked(alloc, line) {
        Some(text) => text.as_str() == want,
        None => false,
    }
}

#[test]
fn a_command_has_its_line_and_session(rt: HostRuntime) {
    assert!(rt; is_asked(rt.alloc(), "c1 ls", "2 0 false"));
    assert!(rt; is_asked(rt.alloc(), "& c1 ls", "2 0 true"));
    assert!(rt; is_asked(rt.alloc(), "client c2 b\nc2 ls", "3 1 false"));
    assert!(rt; is_asked(rt.alloc(), "\n# c1\nc1 ls", "4 0 false"));
}

fn is_declared(found: &Declared, line: u32, name: &str, home: SiteId) -> bool {
    found.line == line && found.name.as_slice() == name.as_bytes() && found.home == home
}

/// Whether the script declares `c1` at `a` on its first line and `z9` at `b` on this line, and
/// nothing else.
fn declares(alloc: Global, text: &str, line: u32) -> bool {
    let Ok(script) = read(alloc, text.as_bytes(), false) else {
        return false;
    };
    match script.sessions.as_slice() {
        [first, second] => is_declared(first, 1, "c1", SiteId::A)
            && is_declared(second, line, "z9", SiteId::B),
        _ => false,
    }
}

#[test]
fn a_session_knows_the_line_that_declares_it(rt: HostRuntime) {
    assert!(rt; declares(rt.alloc(), "client c1 a\nclient z9 b", 2));
    assert!(rt; declares(rt.alloc(), "client c1 a\n# c1\n\nclient z9 b", 4));
}
