//! Steps by their words: an operation with its answer, a notice, a quiesce and its end.
use rbd_kinds::{
    Answer, Bytes, HeaderOp, ImageAt, ImageId, Instance, NoMemory, Notice, NoticeKind, Op,
    SessionNo, Shared, SiteId,
};
use rbd_lock::Locks;
use std::alloc::Global;

const fn instance(session: u8) -> Instance {
    Instance {
        session: SessionNo(session),
        life: 0,
    }
}

fn on_header(image: ImageId, op: HeaderOp) -> Option<Op> {
    Some(Op::Header { image, op })
}

fn op_of(word: &str, image: ImageId) -> Option<Op> {
    match word {
        "lock-take" => on_header(image, HeaderOp::LockTake),
        "lock-drop" => on_header(image, HeaderOp::LockDrop),
        "lock-break" => on_header(image, HeaderOp::LockBreak { owner: instance(3) }),
        "watch" => on_header(image, HeaderOp::Watch),
        "unwatch" => on_header(image, HeaderOp::Unwatch),
        "header-get" => on_header(image, HeaderOp::Get),
        "header-remove" => on_header(image, HeaderOp::Remove),
        "block-add" => Some(Op::BlockAdd {
            instance: instance(3),
        }),
        _ => None,
    }
}

fn answer_of(word: &str) -> Option<Answer> {
    match word {
        "done" => Some(Answer::Done),
        "none" => Some(Answer::Absent),
        "held" => Some(Answer::Held(instance(3))),
        "changed" => Some(Answer::Changed),
        "fenced" => Some(Answer::Fenced),
        _ => None,
    }
}

/// Counts an operation by its answer. False where a word isn't known.
fn count(locks: &mut Locks, at: &ImageAt, op: &str, answer: &str) -> Result<bool, NoMemory> {
    locks.reserve()?;
    let Some(answer) = answer_of(answer) else {
        return Ok(false);
    };
    let Some(op) = op_of(op, at.image) else {
        return Ok(false);
    };
    locks.count(at.site, &op, &answer);
    Ok(true)
}

/// A notice of another session is heard.
fn hear(locks: &mut Locks, at: &ImageAt, kind: NoticeKind) -> Result<bool, NoMemory> {
    let notice = Notice {
        number: 7,
        to: instance(0),
        from: instance(3),
        site: at.site,
        image: at.image,
        kind,
    };
    locks.hear(&notice)?;
    Ok(true)
}

fn quiesce(locks: &mut Locks, at: &ImageAt) -> Result<bool, NoMemory> {
    locks.reserve()?;
    locks.quiesce(at);
    Ok(true)
}

fn resume(locks: &mut Locks, at: &ImageAt) -> Result<bool, NoMemory> {
    locks.resume(at);
    Ok(true)
}

/// Does a step of a course. False where its words aren't known.
pub fn step(alloc: Global, locks: &mut Locks, at: &ImageAt, words: &str) -> Result<bool, NoMemory> {
    match words {
        "RequestLock" => hear(locks, at, NoticeKind::RequestLock),
        "ReleasedLock" => hear(locks, at, NoticeKind::ReleasedLock),
        "Custom" => hear(
            locks,
            at,
            NoticeKind::Custom(Shared::new(alloc, Bytes::from_slice(alloc, b"lock")?)?),
        ),
        "quiesce" => quiesce(locks, at),
        "resume" => resume(locks, at),
        _ => match words.split_once(' ') {
            Some((op, answer)) => count(locks, at, op, answer),
            None => Ok(false),
        },
    }
}

/// An image at a site, by the number of its id.
pub fn image_at(site: SiteId, image: u32) -> ImageAt {
    ImageAt {
        site,
        image: ImageId(image),
    }
}
