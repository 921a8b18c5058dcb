//! Which instances are refused after some were listed, worked out by hand.
use rbd_fence::Blocklist;
use rbd_kinds::{Instance, SessionNo};
use std::process::Abort;
use std::test::Fail;

const fn instance(session: u8, life: u32) -> Instance {
    Instance {
        session: SessionNo(session),
        life,
    }
}

/// Sessions 1 and 2 with their first lives, session 1 also with its third; one is listed twice.
fn list(blocklist: &mut Blocklist) -> Result<(), Fail> {
    blocklist.add(instance(2, 0))?;
    blocklist.add(instance(1, 2))?;
    blocklist.add(instance(1, 0))?;
    blocklist.add(instance(2, 0))?;
    Ok(())
}

/// Lives that are looked up, and whether each is listed.
const LIVES: [(u8, u32, bool); 7] = [
    (0, 0, false),
    (1, 0, true),
    (1, 1, false),
    (1, 2, true),
    (2, 0, true),
    (2, 1, false),
    (31, 0, false),
];

fn are_listed(rt: &impl Abort, blocklist: &Blocklist) {
    for (session, life, listed) in LIVES {
        let has = blocklist.has(instance(session, life));
        assert!(rt; has == listed, "session {session}, life {life}");
    }
}

#[test]
fn only_listed_lives_are_refused(rt: HostRuntime) -> Result<(), Fail> {
    let mut blocklist = Blocklist::new(rt.alloc());
    assert!(rt; !blocklist.has(instance(1, 0)));
    list(&mut blocklist)?;
    are_listed(&rt, &blocklist);
    Ok(())
}
