//! Operations by their words.
use crate::fixtures::OWNER;
use rbd_kinds::{DataOp, HeaderOp, ImageId, MapOp, NoticeKind, Op};

/// The image of a number.
pub fn image(word: &str) -> ImageId {
    ImageId(word.parse::<u32>().unwrap_or(0))
}

/// Whether a notice that is posted has this word.
fn is_notice(kind: &NoticeKind, word: &str) -> bool {
    match kind {
        NoticeKind::RequestLock => word == "notify-RequestLock",
        NoticeKind::ReleasedLock => word == "notify-ReleasedLock",
        NoticeKind::Custom(bytes) => word == "notify-hello"
            && bytes.as_slice() == b"hello".as_slice(),
    }
}

fn is_on_header(op: &HeaderOp, word: &str) -> bool {
    match op {
        HeaderOp::Notify { kind } => is_notice(kind, word),
        HeaderOp::LockBreak { owner } => *owner == OWNER && word == "lock-break",
        _ => op.kind().word() == word,
    }
}

fn is_on_data(op: &DataOp, word: &str) -> bool {
    op.kind().word() == word
}

fn is_on_map(op: &MapOp, word: &str) -> bool {
    op.kind().word() == word
}

/// Whether an operation has this word: that of its kind, and of a notice also what it says. An
/// owner is the one of these tests. Behind an `@` the number of its image, where that isn't 7.
pub fn is_operation(op: &Op, words: &str) -> bool {
    let (word, place) = words.split_once('@').unwrap_or((words, "7"));
    match op {
        Op::Header { image: at, op } => *at == image(place) && is_on_header(op, word),
        Op::Data {
            image: at,
            object: _,
            op,
        } => *at == image(place) && is_on_data(op, word),
        Op::Map { image: at, op } => *at == image(place) && is_on_map(op, word),
        Op::BlockAdd { instance } => *instance == OWNER && word == "block-add",
        Op::Directory(op) => op.kind().word() == word,
        _ => false,
    }
}
