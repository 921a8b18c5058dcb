//! Whole texts: replies, commands without a reply, and a trace.
use super::{AGAIN, FIRST, header, name, sessions};
use crate::holds;
use rbd_flat::{Cause, Effect, Entry};
use rbd_kinds::{
    Answer, Command, DirectoryOp, HeaderOp, ImageId, Instance, NoMemory, Op, Reply, Role,
    SessionNo, Shared, SiteId, Snaps,
};
use rbd_script::{Line, Lines, Said, Script, Sessions};
use rbd_site::{Done, DoneOp};
use rbd_text::{replies, trace, usage};
use std::alloc::Global;
use std::process::Abort;
use std::test::Fail;

fn command(alloc: Global, number: u32, session: u8) -> Result<Line, NoMemory> {
    Ok(Line {
        number,
        said: Said::Command {
            session: SessionNo(session),
            beside: false,
            command: Shared::new(alloc, Command::List)?,
        },
    })
}

fn push_commands(alloc: Global, lines: &mut Lines, commands: &[(u32, u8)]) -> Result<(), NoMemory> {
    for &(number, session) in commands {
        lines.push(command(alloc, number, session)?)?;
    }
    Ok(())
}

/// Commands of the sessions, by their lines.
fn script(rt: &impl Abort, alloc: Global, commands: &[(u32, u8)]) -> Result<Script, NoMemory> {
    let sessions = Sessions::from_vec(sessions(rt, alloc)?);
    let mut lines = Lines::new(alloc);
    push_commands(alloc, &mut lines, commands)?;
    Ok(Script { sessions, lines })
}

#[test]
fn the_usage_line_names_all_words(rt: HostRuntime) {
    let want =
        "usage: rbd_lab run [--trace] | threads [--trace] [--turns N] | gen --seed N --clients C --commands K\n";
    assert_eq!(rt; usage(), want);
}

/// Whether no reply tells a header.
fn are_shown(history: &[Entry]) -> bool {
    for entry in history {
        if !is_shown(entry) {
            return false;
        }
    }
    true
}

fn is_shown(entry: &Entry) -> bool {
    match entry {
        Entry::Reply { line: _, reply } => !tells_a_header(reply),
        _ => true,
    }
}

fn tells_a_header(reply: &Reply) -> bool {
    match reply {
        Reply::Info(_) => true,
        _ => false,
    }
}

/// What a run left: its history, and the logs of both sites.
#[derive(Clone, Copy)]
struct Left<'r> {
    history: &'r [Entry],
    a: &'r [Done],
    b: &'r [Done],
}

/// Whether the replies of a script are this text.
fn replies_show(
    rt: &impl Abort,
    alloc: Global,
    script: &Script,
    left: &Left,
    want: &str,
) -> Result<bool, NoMemory> {
    assert!(rt; are_shown(left.history));
    let text = replies(alloc, script, left.history, left.a, left.b)?;
    Ok(text.as_slice() == want.as_bytes())
}

/// Whether the trace of a script is this text.
fn trace_shows(
    rt: &impl Abort,
    alloc: Global,
    script: &Script,
    left: &Left,
    want: &str,
) -> Result<bool, NoMemory> {
    assert!(rt; are_shown(left.history));
    let text = trace(alloc, script, left.history, left.a, left.b)?;
    Ok(text.as_slice() == want.as_bytes())
}

#[test]
fn an_empty_script_prints_nothing(rt: HostRuntime) -> Result<(), Fail> {
    let script = script(&rt, rt.alloc(), &[])?;
    let left = Left {
        history: &[],
        a: &[],
        b: &[],
    };
    assert!(rt; holds(replies_show(&rt, rt.alloc(), &script, &left, "")));
    assert!(rt; holds(trace_shows(&rt, rt.alloc(), &script, &left, "")));
    Ok(())
}

fn effect(alloc: Global, number: u64, effect: Effect) -> Result<Entry, NoMemory> {
    Ok(Entry::Effect {
        cause: Cause::Line(2),
        site: SiteId::A,
        number,
        effect: Shared::new(alloc, effect)?,
    })
}

fn named(rt: &impl Abort, alloc: Global) -> Result<Effect, NoMemory> {
    Ok(Effect::Name {
        name: name(rt, alloc, b"disk")?,
        image: ImageId(1),
    })
}

fn created() -> Effect {
    Effect::Create {
        image: ImageId(1),
        size: 0,
        role: Role::Plain,
    }
}

/// What `create` adds to the history.
fn push_created(rt: &impl Abort, alloc: Global, history: &mut Vec<Entry>) -> Result<(), NoMemory> {
    history.push(start(2, FIRST))?;
    history.push(effect(alloc, 1, named(rt, alloc)?)?)?;
    history.push(effect(alloc, 2, created())?)?;
    history.push(replied(2, Reply::Done))?;
    Ok(())
}

fn done(number: u64, instance: Instance, op: Op, answer: Answer) -> Done {
    Done {
        number,
        instance: Some(instance),
        op: DoneOp::Op(op),
        answer,
    }
}

/// And to the log.
fn push_created_log(rt: &impl Abort, alloc: Global, log: &mut Vec<Done>) -> Result<(), NoMemory> {
    let name = name(rt, alloc, b"disk")?;
    let add = Op::Directory(DirectoryOp::Add { name });
    log.push(done(1, FIRST, add, Answer::Id(ImageId(1))))?;
    let view = header(Snaps::new(alloc));
    let create = Op::Header {
        image: ImageId(1),
        op: HeaderOp::Create {
            view: Shared::new(alloc, view)?,
        },
    };
    log.push(done(2, FIRST, create, Answer::Done))?;
    Ok(())
}

const CREATED: &str =
    "h 1 start 2 c1.0\nh 2 effect 2 a1 name\nh 3 effect 2 a2 create\nh 4 reply 2\no a1 c1.0 dir-add rbd_directory id\no a2 c1.0 header-create rbd_header.1 done\n2 c1 ok\n";

/// The script `client c1 a`, `c1 create disk 0`.
fn created_is_traced(
    rt: &impl Abort,
    alloc: Global,
    history: &[Entry],
    log: &[Done],
) -> Result<bool, NoMemory> {
    let script = script(rt, alloc, &[(2, 0)])?;
    let left = Left {
        history,
        a: log,
        b: &[],
    };
    trace_shows(rt, alloc, &script, &left, CREATED)
}

#[test]
fn a_trace_tells_history_log_and_replies(rt: HostRuntime) -> Result<(), Fail> {
    let alloc = rt.alloc();
    let mut history = Vec::new(alloc);
    push_created(&rt, alloc, &mut history)?;
    let mut log = Vec::new(alloc);
    push_created_log(&rt, alloc, &mut log)?;
    assert!(rt; holds(created_is_traced(&rt, alloc, history.as_slice(), log.as_slice())));
    Ok(())
}

const TWO_SITES: &str =
    "o a1 c1.0 lock-take rbd_header.1 done\no b1 c2.1 lock-take rbd_header.1 held\n";

fn logs_are_traced(
    rt: &impl Abort,
    alloc: Global,
    a: &[Done],
    b: &[Done],
) -> Result<bool, NoMemory> {
    let script = script(rt, alloc, &[])?;
    let left = Left { history: &[], a, b };
    trace_shows(rt, alloc, &script, &left, TWO_SITES)
}

#[test]
fn site_a_stands_before_site_b(rt: HostRuntime) {
    let a = [lock_take(1, FIRST, Answer::Done)];
    let b = [lock_take(1, AGAIN, Answer::Held(FIRST))];
    assert!(rt; holds(logs_are_traced(&rt, rt.alloc(), &a, &b)));
}

fn lock_take(number: u64, instance: Instance, answer: Answer) -> Done {
    let op = Op::Header {
        image: ImageId(1),
        op: HeaderOp::LockTake,
    };
    done(number, instance, op, answer)
}

fn start(line: u32, instance: Instance) -> Entry {
    Entry::Start { line, instance }
}

fn look(cause: Cause, site: SiteId) -> Entry {
    let number = 1;
    Entry::Look {
        cause,
        site,
        number,
    }
}

/// Line 3 has its reply, line 4 found the lock held, line 5 was lost, line 6 isn't in it.
fn push_stopped(history: &mut Vec<Entry>) -> Result<(), NoMemory> {
    history.push(start(3, FIRST))?;
    history.push(replied(3, Reply::Done))?;
    history.push(start(4, AGAIN))?;
    history.push(look(Cause::Line(4), SiteId::A))?;
    history.push(start(5, FIRST))?;
    history.push(Entry::Lost { line: 5 })?;
    Ok(())
}

fn replied(line: u32, reply: Reply) -> Entry {
    Entry::Reply { line, reply }
}

/// Whether the commands of lines 3 to 6, by two sessions in turn, have these replies.
fn commands_show(
    rt: &impl Abort,
    alloc: Global,
    left: &Left,
    want: &str,
) -> Result<bool, NoMemory> {
    let script = script(rt, alloc, &[(3, 0), (4, 1), (5, 0), (6, 1)])?;
    replies_show(rt, alloc, &script, left, want)
}

/// The same where an attempt at the lock was answered so at each site.
fn answered_show(
    rt: &impl Abort,
    alloc: Global,
    history: &[Entry],
    a: Answer,
    b: Answer,
    want: &str,
) -> bool {
    let a = [lock_take(1, AGAIN, a)];
    let b = [lock_take(1, AGAIN, b)];
    let left = Left {
        history,
        a: &a,
        b: &b,
    };
    holds(commands_show(rt, alloc, &left, want))
}

fn held_at_a(rt: &impl Abort, alloc: Global, history: &[Entry], want: &str) -> bool {
    answered_show(rt, alloc, history, Answer::Held(FIRST), Answer::Done, want)
}

fn held_at_b(rt: &impl Abort, alloc: Global, history: &[Entry], want: &str) -> bool {
    answered_show(rt, alloc, history, Answer::Done, Answer::Held(FIRST), want)
}

#[test]
fn commands_without_a_reply_stand_last(rt: HostRuntime) -> Result<(), Fail> {
    let alloc = rt.alloc();
    let mut history = Vec::new(alloc);
    push_stopped(&mut history)?;
    let waiting = "3 c1 ok\n4 c2 unfinished waiting c1.0\n5 c1 lost\n6 c2 unsent\n";
    assert!(rt; held_at_a(&rt, alloc, history.as_slice(), waiting));
    let unfinished = "3 c1 ok\n4 c2 unfinished\n5 c1 lost\n6 c2 unsent\n";
    assert!(rt; held_at_b(&rt, alloc, history.as_slice(), unfinished));
    Ok(())
}

/// Line 4 takes the lock at site a, and then, replaying an event, at site b.
fn push_replayed(history: &mut Vec<Entry>) -> Result<(), NoMemory> {
    history.push(start(4, AGAIN))?;
    history.push(look(Cause::Line(4), SiteId::A))?;
    history.push(look(Cause::Replay { line: 4, seq: 1 }, SiteId::B))?;
    history.push(look(Cause::Late(AGAIN), SiteId::A))?;
    Ok(())
}

#[test]
fn the_last_attempt_at_a_lock_decides(rt: HostRuntime) -> Result<(), Fail> {
    let alloc = rt.alloc();
    let mut history = Vec::new(alloc);
    push_replayed(&mut history)?;
    let waiting = "3 c1 unsent\n4 c2 unfinished waiting c1.0\n5 c1 unsent\n6 c2 unsent\n";
    assert!(rt; held_at_b(&rt, alloc, history.as_slice(), waiting));
    let unfinished = "3 c1 unsent\n4 c2 unfinished\n5 c1 unsent\n6 c2 unsent\n";
    assert!(rt; held_at_a(&rt, alloc, history.as_slice(), unfinished));
    Ok(())
}

/// The later line has its reply first.
fn push_crossed(history: &mut Vec<Entry>) -> Result<(), NoMemory> {
    history.push(replied(6, Reply::Done))?;
    history.push(replied(3, Reply::At(2)))?;
    Ok(())
}

#[test]
fn replies_stand_in_the_order_of_the_history(rt: HostRuntime) -> Result<(), Fail> {
    let alloc = rt.alloc();
    let mut history = Vec::new(alloc);
    push_crossed(&mut history)?;
    let want = "6 c2 ok\n3 c1 ok at 2\n4 c2 unsent\n5 c1 unsent\n";
    assert!(rt;
        answered_show(
            &rt,
            alloc,
            history.as_slice(),
            Answer::Done,
            Answer::Done,
            want
        )
    );
    Ok(())
}
