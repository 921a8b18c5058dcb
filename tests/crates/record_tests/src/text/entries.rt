//! Each form of a history's line.
use super::{AGAIN, FIRST, name, sessions};
use crate::holds;
use rbd_flat::{Cause, Effect, Entry};
use rbd_kinds::{ImageId, NoMemory, Reply, SessionNo, Shared, SiteId};
use rbd_text::push_line;
use std::alloc::Global;
use std::process::Abort;
use std::test::Fail;

fn is_line(
    rt: &impl Abort,
    alloc: Global,
    place: usize,
    entry: &Entry,
    want: &str,
) -> Result<bool, NoMemory> {
    let sessions = sessions(rt, alloc)?;
    let mut text = Vec::new(alloc);
    push_line(&mut text, sessions.as_slice(), place, entry)?;
    Ok(text.as_slice() == want.as_bytes())
}

fn shows(rt: &impl Abort, alloc: Global, place: usize, entry: Entry, want: &str) -> bool {
    holds(is_line(rt, alloc, place, &entry, want))
}

#[test]
fn a_start_names_line_and_instance(rt: HostRuntime) -> Result<(), Fail> {
    let start = Entry::Start {
        line: 2,
        instance: AGAIN,
    };
    assert!(rt; shows(&rt, rt.alloc(), 1, start, "h 1 start 2 c2.1\n"));
    Ok(())
}

#[test]
fn an_effect_names_cause_operation_and_word(rt: HostRuntime) -> Result<(), Fail> {
    let effect = Effect::Name {
        name: name(&rt, rt.alloc(), b"disk")?,
        image: ImageId(1),
    };
    let entry = Entry::Effect {
        cause: Cause::Line(2),
        site: SiteId::A,
        number: 3,
        effect: Shared::new(rt.alloc(), effect)?,
    };
    assert!(rt; shows(&rt, rt.alloc(), 12, entry, "h 12 effect 2 a3 name\n"));
    Ok(())
}

fn look_shows(rt: &impl Abort, alloc: Global, cause: Cause, want: &str) -> bool {
    let look = Entry::Look {
        cause,
        site: SiteId::B,
        number: 10,
    };
    shows(rt, alloc, 7, look, want)
}

#[test]
fn a_look_names_its_cause(rt: HostRuntime) -> Result<(), Fail> {
    assert!(rt; look_shows(&rt, rt.alloc(), Cause::Line(4), "h 7 look 4 b10\n"));
    assert!(rt;
        look_shows(
            &rt,
            rt.alloc(),
            Cause::Late(FIRST),
            "h 7 look late:c1.0 b10\n"
        )
    );
    assert!(rt;
        look_shows(
            &rt,
            rt.alloc(),
            Cause::House(AGAIN),
            "h 7 look house:c2.1 b10\n"
        )
    );
    Ok(())
}

#[test]
fn a_replay_names_line_and_event(rt: HostRuntime) -> Result<(), Fail> {
    let cause = Cause::Replay { line: 13, seq: 2 };
    assert!(rt; look_shows(&rt, rt.alloc(), cause, "h 7 look replay:13:2 b10\n"));
    Ok(())
}

#[test]
fn a_fence_names_whom_it_lists(rt: HostRuntime) -> Result<(), Fail> {
    let fence = Entry::Fence {
        cause: Cause::Line(6),
        site: SiteId::A,
        number: 4,
        instance: FIRST,
    };
    assert!(rt; shows(&rt, rt.alloc(), 5, fence, "h 5 fence 6 a4 c1.0\n"));
    Ok(())
}

#[test]
fn a_reply_names_its_line(rt: HostRuntime) -> Result<(), Fail> {
    let reply = Entry::Reply {
        line: 9,
        reply: Reply::Done,
    };
    assert!(rt; shows(&rt, rt.alloc(), 3, reply, "h 3 reply 9\n"));
    Ok(())
}

#[test]
fn a_stop_names_the_session(rt: HostRuntime) -> Result<(), Fail> {
    let stop = Entry::Stop {
        session: SessionNo(1),
    };
    assert!(rt; shows(&rt, rt.alloc(), 4, stop, "h 4 stop c2\n"));
    assert!(rt; shows(&rt, rt.alloc(), 5, Entry::Lost { line: 8 }, "h 5 lost 8\n"));
    Ok(())
}
