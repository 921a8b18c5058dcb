//! Two instances at one header, operation by operation: its lock, its watchers, their notices and
//! the blocklist. The wanted answers were worked out from the rules in prose.
use super::bench::{Bench, IMAGE, create, name};
use crate::holds;
use rbd_kinds::{
    Answer, ChildrenOp, DataOp, DirectoryOp, HeaderOp, Instance, NoMemory, Notice, NoticeKind, Op,
    Parts, SessionNo, SnapContext, SnapId, SnapIds,
};
use std::alloc::Global;
use std::process::Abort;
use std::test::Fail;

/// Who, what it does, the answer, who watches then (`-` where there is no header), and how many
/// notices stand then. 4 is the second life of 1, and the store, which lets a watch of its session
/// end, is 0. The lock that is broken is that of 1, and it is 1 that is listed.
const TWO_AT_ONE_HEADER: &str = "\
1|header-create|done||0
1|lock-take|done||0
2|lock-take|held 1||0
1|lock-take|done||0
2|lock-drop|changed||0
1|watchers-get|instances||0
1|watch|done|1|0
2|watch|done|12|0
1|watch|done|12|0
1|notify|done|12|1
2|notify|done|12|2
3|notify|done|12|4
2|lock-break|done|12|4
1|lock-take|done|12|4
2|block-add|done|12|4
1|dir-find|fenced|12|4
1|dir-add|fenced|12|4
1|child-list|fenced|12|4
1|child-add|fenced|12|4
1|block-add|fenced|12|4
1|header-get|fenced|12|4
1|header-detach|fenced|12|4
1|header-remove|fenced|12|4
1|lock-take|fenced|12|4
1|lock-drop|fenced|12|4
1|lock-break|fenced|12|4
1|watch|fenced|12|4
1|unwatch|fenced|12|4
1|watchers-get|fenced|12|4
1|notify|fenced|12|4
1|data-read|fenced|12|4
1|data-empty|fenced|12|4
2|lock-take|held 1|12|4
2|lock-break|done|12|4
2|lock-break|changed|12|4
2|lock-take|done|12|4
4|watch|done|124|4
0|expire|ended|24|4
4|lock-take|held 2|24|4
2|notify|done|24|5
0|expire|ended|2|5
0|expire|none|2|5
4|unwatch|done|2|5
4|notify|done|2|6
2|header-remove|done|-|6
2|watch|none|-|6
2|unwatch|none|-|6
2|watchers-get|none|-|6
2|notify|none|-|6
2|lock-take|none|-|6
0|expire|none|-|6
2|header-create|done||6";

/// The number of each notice, who sent it, and who gets it.
const NOTICES: &str = "\
1|1|2
2|2|1
3|3|1
4|3|2
5|2|4
6|4|2";

const fn instance(session: u8, life: u32) -> Instance {
    Instance {
        session: SessionNo(session),
        life,
    }
}

/// The instance that a row names.
fn who(word: &str) -> Instance {
    match word {
        "1" => instance(1, 0),
        "2" => instance(2, 0),
        "4" => instance(1, 1),
        _ => instance(3, 0),
    }
}

/// The digit by which rows name an instance.
fn digit(who: &Instance) -> char {
    if who.life == 1 {
        return '4';
    }
    match who.session.0 {
        1 => '1',
        2 => '2',
        _ => '3',
    }
}

/// An operation on the header, whatever it is.
fn on_header(word: &str) -> HeaderOp {
    let owner = instance(1, 0);
    match word {
        "header-get" => HeaderOp::Get,
        "header-detach" => HeaderOp::Detach,
        "header-remove" => HeaderOp::Remove,
        "lock-take" => HeaderOp::LockTake,
        "lock-drop" => HeaderOp::LockDrop,
        "lock-break" => HeaderOp::LockBreak { owner },
        "watch" => HeaderOp::Watch,
        "unwatch" => HeaderOp::Unwatch,
        "watchers-get" => HeaderOp::WatchersGet,
        _ => HeaderOp::Notify {
            kind: NoticeKind::RequestLock,
        },
    }
}

fn on_directory(rt: &impl Abort, alloc: Global, word: &str) -> Result<DirectoryOp, NoMemory> {
    let name = name(rt, alloc, b"d")?;
    Ok(match word {
        "dir-find" => DirectoryOp::Find { name },
        _ => DirectoryOp::Add { name },
    })
}

fn on_children(word: &str) -> ChildrenOp {
    let (parent, snap, child) = (IMAGE, SnapId(1), IMAGE);
    match word {
        "child-list" => ChildrenOp::List { parent, snap },
        _ => ChildrenOp::Add {
            parent,
            snap,
            child,
        },
    }
}

fn on_object(alloc: Global, word: &str) -> DataOp {
    match word {
        "data-read" => DataOp::Read {
            snap: None,
            parts: Parts::from_vec(Vec::new(alloc)),
        },
        _ => DataOp::Empty {
            context: SnapContext {
                seq: SnapId(0),
                snaps: SnapIds::from_vec(Vec::new(alloc)),
            },
        },
    }
}

fn apply(bench: &mut Bench, me: Instance, op: Op, want: &str) -> Result<bool, NoMemory> {
    Ok(is_answer(bench.apply(me, op)?, want))
}

/// Whether an operation on the directory is answered so.
fn asks_directory(
    rt: &impl Abort,
    alloc: Global,
    bench: &mut Bench,
    me: Instance,
    word: &str,
    want: &str,
) -> Result<bool, NoMemory> {
    let op = on_directory(rt, alloc, word)?;
    apply(bench, me, Op::Directory(op), want)
}

/// Whether an operation on anything else but the header is answered so.
fn asks_other(
    alloc: Global,
    bench: &mut Bench,
    me: Instance,
    word: &str,
    want: &str,
) -> Result<bool, NoMemory> {
    match word {
        "child-list" | "child-add" => apply(bench, me, Op::Children(on_children(word)), want),
        "block-add" => {
            let instance = instance(1, 0);
            apply(bench, me, Op::BlockAdd { instance }, want)
        }
        _ => {
            let op = Op::on_object(alloc, IMAGE, 0, on_object(alloc, word))?;
            apply(bench, me, op, want)
        }
    }
}

/// Whether an operation on the header is answered so.
fn asks_header(bench: &mut Bench, me: Instance, word: &str, want: &str) -> Result<bool, NoMemory> {
    let op = on_header(word);
    apply(bench, me, Op::Header { image: IMAGE, op }, want)
}

/// The word of an answer that tells who has the lock.
fn held_by(owner: &Instance) -> &'static str {
    match digit(owner) {
        '1' => "held 1",
        '2' => "held 2",
        _ => "held",
    }
}

fn word_of(answer: &Answer) -> &'static str {
    match answer {
        Answer::Held(owner) => held_by(owner),
        _ => answer.word(),
    }
}

/// Whether an answer is told so. It is let go here.
fn is_answer(answer: Answer, want: &str) -> bool {
    let same = word_of(&answer) == want;
    drop(answer);
    same
}

fn is_made(bench: &mut Bench, alloc: Global, me: Instance, want: &str) -> Result<bool, NoMemory> {
    Ok(is_answer(create(bench, me, alloc)?, want))
}

fn is_ended(bench: &mut Bench, want: &str) -> Result<bool, NoMemory> {
    let ended = bench.site.expire(IMAGE, SessionNo(1))?;
    Ok(want == if ended { "ended" } else { "none" })
}

/// Whether who does this is told so.
fn does(
    rt: &impl Abort,
    alloc: Global,
    bench: &mut Bench,
    me: Instance,
    word: &str,
    want: &str,
) -> Result<bool, NoMemory> {
    match word {
        "expire" => is_ended(bench, want),
        "header-create" => is_made(bench, alloc, me, want),
        "dir-find" | "dir-add" => asks_directory(rt, alloc, bench, me, word, want),
        "child-list" | "child-add" | "block-add" | "data-read" | "data-empty" => {
            asks_other(alloc, bench, me, word, want)
        }
        _ => asks_header(bench, me, word, want),
    }
}

fn are(list: &[Instance], want: &str) -> bool {
    list.len() == want.len()
        && list
            .iter()
            .zip(want.chars())
            .all(|(instance, wanted)| digit(instance) == wanted)
}

fn ask_who_watches(bench: &Bench) -> Result<Answer, NoMemory> {
    let op = Op::Header {
        image: IMAGE,
        op: HeaderOp::WatchersGet,
    };
    let told = bench.site.answer(instance(3, 0), &op);
    drop(op);
    told
}

/// Whether an answer tells these watchers. It is let go here.
fn are_told(answer: Answer, want: &str) -> bool {
    let same = match &answer {
        Answer::Instances(list) => are(list.as_slice(), want),
        _ => want == "-",
    };
    drop(answer);
    same
}

/// Whether these watch.
fn watch(bench: &Bench, want: &str) -> Result<bool, NoMemory> {
    Ok(are_told(ask_who_watches(bench)?, want))
}

fn number(word: &str) -> u64 {
    word.parse::<u64>().unwrap_or(0)
}

/// Whether so many notices stand, and these watch.
fn stand(bench: &Bench, rest: &str) -> Result<bool, NoMemory> {
    let Some((watchers, notices)) = rest.split_once('|') else {
        return Ok(false);
    };
    Ok(bench.mail.count() == number(notices) && watch(bench, watchers)?)
}

/// Whether a row holds behind who does it.
fn row_of(
    rt: &impl Abort,
    alloc: Global,
    bench: &mut Bench,
    me: Instance,
    row: &str,
) -> Result<bool, NoMemory> {
    let Some((word, rest)) = row.split_once('|') else {
        return Ok(false);
    };
    let Some((want, rest)) = rest.split_once('|') else {
        return Ok(false);
    };
    Ok(does(rt, alloc, bench, me, word, want)? && stand(bench, rest)?)
}

fn row_holds(
    rt: &impl Abort,
    alloc: Global,
    bench: &mut Bench,
    row: &str,
) -> Result<bool, NoMemory> {
    let Some((me, rest)) = row.split_once('|') else {
        return Ok(false);
    };
    row_of(rt, alloc, bench, who(me), rest)
}

fn run(rt: &impl Abort, alloc: Global, bench: &mut Bench) {
    for row in TWO_AT_ONE_HEADER.split('\n') {
        assert!(rt; holds(row_holds(rt, alloc, bench, row)), "{row}");
    }
}

/// Whether a notice goes from one of these to the other, and asks for the lock.
fn is_from(notice: &Notice, from: Instance, to: Instance) -> bool {
    notice.from == from
        && notice.to == to
        && notice.image == IMAGE
        && matches!(notice.kind, NoticeKind::RequestLock)
}

fn is_posted(bench: &Bench, row: &str) -> bool {
    let Some((at, rest)) = row.split_once('|') else {
        return false;
    };
    let Some((from, to)) = rest.split_once('|') else {
        return false;
    };
    match bench.mail.get(number(at)) {
        Some(notice) => is_from(notice, who(from), who(to)),
        None => false,
    }
}

/// How many operations were refused by the fence.
fn count_fenced(bench: &Bench) -> usize {
    let mut fenced = 0_usize;
    for line in bench.site.log() {
        if matches!(line.answer, Answer::Fenced) {
            fenced = fenced.wrapping_add(1);
        }
    }
    fenced
}

fn are_posted(rt: &impl Abort, bench: &Bench) {
    for row in NOTICES.split('\n') {
        assert!(rt; is_posted(bench, row), "{row}");
    }
}

#[test]
fn two_instances_share_a_header(rt: HostRuntime) -> Result<(), Fail> {
    let mut bench = Bench::new(rt.alloc())?;
    run(&rt, rt.alloc(), &mut bench);
    are_posted(&rt, &bench);
    assert!(rt; count_fenced(&bench) == 17);
    Ok(())
}
