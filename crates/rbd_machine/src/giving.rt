//! Which answers an operation can give.
ghost use Rattle.std.specs.Prelude.{◌≡◌, true};
ghost use Rattle.rbd_machine.specs.Answers.{CanGive, IsHeaderToldInForm};
ghost use Rattle.rbd_machine.specs.Answers as of_answers;

use rbd_kinds::{Answer, ChildrenOp, DataOp, DirectoryOp, HeaderOp, JournalOp, MapOp, Op};

/// Whether an operation can give this answer, whose header, if it shows one, is in form. It is for
/// a caller who isn't the site itself. Bytes, bits, frames and spans aren't judged: an answer with
/// one of them is declined.
#[tactic(auto, using(crate::proofs::Fed::plain_in_form))]
pub fn can_give(op: &Op, answer: &Answer) -> bool
    requires { IsHeaderToldInForm answer.now }
    ensures can { result ≡ true → CanGive op.now answer.now }
    ensures plain { of_answers.is_plain op.now answer.now ≡ true → result ≡ of_answers.gives op.now answer.now }
{
    if !is_plain(op, answer) {
        return false;
    }
    gives(op, answer)
}

/// Whether the answer carries neither bytes nor bits, and no operation on a journal gave it.
fn is_plain(op: &Op, answer: &Answer) -> bool
    ensures { result ≡ of_answers.is_plain op.now answer.now }
{
    match (op, answer) {
        (
            Op::Data {
                image: _,
                object: _,
                op: _,
            },
            Answer::Bytes(_),
        ) => false,
        (Op::Map { image: _, op: _ }, Answer::Bits(_)) => false,
        (Op::Journal { image: _, op: _ }, _) => false,
        _ => true,
    }
}

/// Whether an operation can give an answer of this word. What the answer carries isn't looked at.
pub fn gives(op: &Op, answer: &Answer) -> bool
    ensures { result ≡ of_answers.gives op.now answer.now }
{
    if let Answer::Fenced = answer {
        return true;
    }
    match op {
        Op::Directory(op) => directory_gives(op, answer),
        Op::Children(op) => children_give(op, answer),
        Op::BlockAdd { instance: _ } => match answer {
            Answer::Done => true,
            _ => false,
        },
        Op::Header { image: _, op } => header_gives(op, answer),
        Op::Data {
            image: _,
            object: _,
            op,
        } => object_gives(op, answer),
        Op::Map { image: _, op } => map_gives(op, answer),
        Op::Journal { image: _, op } => journal_gives(op, answer),
    }
}

fn directory_gives(op: &DirectoryOp, answer: &Answer) -> bool
    ensures { result ≡ of_answers.directory_gives op.now answer.now }
{
    match (op, answer) {
        (DirectoryOp::Find { name: _ }, Answer::Id(_) | Answer::Absent) => true,
        (DirectoryOp::Add { name: _ }, Answer::Id(_) | Answer::Exists | Answer::Full) => true,
        (DirectoryOp::Remove { image: _ }, Answer::Done | Answer::Absent) => true,
        (DirectoryOp::Rename { from: _, to: _ }, Answer::Done | Answer::Absent | Answer::Exists) =>
            true,
        (DirectoryOp::List, Answer::Names(_)) => true,
        _ => false,
    }
}

fn children_give(op: &ChildrenOp, answer: &Answer) -> bool
    ensures { result ≡ of_answers.children_give op.now answer.now }
{
    match (op, answer) {
        (
            ChildrenOp::Add {
                parent: _,
                snap: _,
                child: _,
            },
            Answer::Done,
        ) => true,
        (
            ChildrenOp::Remove {
                parent: _,
                snap: _,
                child: _,
            },
            Answer::Done | Answer::Absent,
        ) => true,
        (ChildrenOp::List { parent: _, snap: _ }, Answer::Ids(_)) => true,
        _ => false,
    }
}

fn header_gives(op: &HeaderOp, answer: &Answer) -> bool
    ensures { result ≡ of_answers.header_gives op.now answer.now }
{
    match (op, answer) {
        (HeaderOp::Create { view: _ }, Answer::Done) => true,
        (HeaderOp::Create { view: _ }, _) => false,
        (HeaderOp::Get, Answer::Header(_) | Answer::Absent) => true,
        (HeaderOp::Get, _) => false,
        (HeaderOp::SnapAdd { name: _ }, Answer::Snap(_) | Answer::Absent) => true,
        (HeaderOp::SnapAdd { name: _ }, _) => false,
        (HeaderOp::LockTake, Answer::Held(_)) => true,
        (HeaderOp::LockDrop, Answer::Changed) => true,
        (HeaderOp::LockBreak { owner: _ }, Answer::Changed) => true,
        (HeaderOp::WatchersGet, Answer::Instances(_) | Answer::Absent) => true,
        (HeaderOp::WatchersGet, _) => false,
        _ => is_done_or_absent(answer),
    }
}

fn object_gives(op: &DataOp, answer: &Answer) -> bool
    ensures { result ≡ of_answers.object_gives op.now answer.now }
{
    match (op, answer) {
        (DataOp::Read { snap: _, parts: _ }, Answer::Bytes(_) | Answer::Absent) => true,
        (DataOp::Read { snap: _, parts: _ }, _) => false,
        (
            DataOp::Write {
                context: _,
                must: true,
                parts: _,
                bytes: _,
            },
            Answer::Absent,
        ) => true,
        (
            DataOp::Zero {
                context: _,
                must: true,
                parts: _,
            },
            Answer::Absent,
        ) => true,
        (DataOp::CopyUp { bytes: _ }, Answer::Exists) => true,
        (_, Answer::Done) => true,
        _ => false,
    }
}

fn map_gives(op: &MapOp, answer: &Answer) -> bool
    ensures { result ≡ of_answers.map_gives op.now answer.now }
{
    match (op, answer) {
        (MapOp::Get { snap: _ }, Answer::Bits(_) | Answer::Absent) => true,
        (MapOp::Get { snap: _ }, _) => false,
        (
            MapOp::Set {
                snap: None,
                object: _,
                state: _,
            },
            Answer::Absent,
        ) => true,
        (MapOp::Remove { snap: _ }, Answer::Absent) => true,
        (_, Answer::Done) => true,
        _ => false,
    }
}

fn journal_gives(op: &JournalOp, answer: &Answer) -> bool
    ensures { result ≡ of_answers.journal_gives op.now answer.now }
{
    match (op, answer) {
        (JournalOp::Create { spans: _ }, Answer::Done) => true,
        (JournalOp::Create { spans: _ }, _) => false,
        (JournalOp::Tag, Answer::Tag(_) | Answer::Absent) => true,
        (JournalOp::Tag, _) => false,
        (
            JournalOp::Read { seq: _ },
            Answer::Frame {
                position: _,
                frame: _,
            }
            | Answer::Absent,
        ) => true,
        (JournalOp::Read { seq: _ }, _) => false,
        (JournalOp::Spans, Answer::Spans(_) | Answer::Absent) => true,
        (JournalOp::Spans, _) => false,
        _ => is_done_or_absent(answer),
    }
}

fn is_done_or_absent(answer: &Answer) -> bool
    ensures { result ≡ of_answers.changes_or_not answer.now }
{
    match answer {
        Answer::Done | Answer::Absent => true,
        _ => false,
    }
}
