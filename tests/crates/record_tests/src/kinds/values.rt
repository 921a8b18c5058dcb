//! Headers, operations, commands and answers, and their copies.
use crate::holds;
use rbd_kinds::{
    Answer, AskedName, Bytes, Command, HeaderOp, HeaderView, Ids, ImageId, JournalEvent,
    JournalView, Layout, Name, NoMemory, Op, OpKind, Reply, Role, Shared, SnapId, SnapStatus,
    SnapView, Snaps, TryClone,
};
use std::alloc::Global;
use std::process::Abort;
use std::test::Fail;

/// Values of the type may be sent to another thread, and seen by several.
fn crosses_threads<T: Send + Sync>() {}

/// The bounds of `crosses_threads` are what it asserts: a type that doesn't meet them isn't built.
#[test]
fn values_cross_threads(_rt: HostRuntime) {
    crosses_threads::<Bytes>();
    crosses_threads::<Command>();
    crosses_threads::<HeaderView>();
    crosses_threads::<JournalView>();
    crosses_threads::<Op>();
    crosses_threads::<Answer>();
    crosses_threads::<JournalEvent>();
    crosses_threads::<Reply>();
}

fn name(rt: &impl Abort, alloc: Global, text: &[u8]) -> Result<Name, NoMemory> {
    Ok(Name::parse(Bytes::from_slice(alloc, text)?).expect(rt, "a name"))
}

fn snapshot(rt: &impl Abort, alloc: Global, id: u32, text: &[u8]) -> Result<SnapView, NoMemory> {
    Ok(SnapView {
        id: SnapId(id),
        name: name(rt, alloc, text)?,
        size: 4_096,
        status: SnapStatus::Unprotected,
        parent: None,
    })
}

fn push_two(rt: &impl Abort, alloc: Global, snaps: &mut Snaps) -> Result<(), NoMemory> {
    snaps.push(snapshot(rt, alloc, 1, b"monday")?)?;
    snaps.push(snapshot(rt, alloc, 2, b"tuesday")?)
}

fn header(snaps: Snaps) -> HeaderView {
    HeaderView {
        layout: Layout {
            object: 4_096,
            unit: 4_096,
            count: 1,
        },
        size: 8_192,
        generation: 2,
        snap_seq: 2,
        snaps,
        parent: None,
        depth: 0,
        born: 8_192,
        born_clone: false,
        journal: false,
        syncing: false,
        owner: None,
        global: None,
        role: Role::Plain,
    }
}

/// Whether a name is that of this snapshot, or of none.
fn named_is(
    rt: &impl Abort,
    alloc: Global,
    view: &HeaderView,
    text: &[u8],
    id: Option<SnapId>,
) -> Result<bool, NoMemory> {
    let name = name(rt, alloc, text)?;
    Ok(view.named(&name).map(|snap| snap.id) == id)
}

fn with_two(rt: &impl Abort, alloc: Global) -> Result<HeaderView, NoMemory> {
    let mut snaps = Snaps::new(alloc);
    push_two(rt, alloc, &mut snaps)?;
    Ok(header(snaps))
}

#[test]
fn a_snapshot_is_found_by_its_name(rt: HostRuntime) -> Result<(), Fail> {
    let alloc = rt.alloc();
    let view = with_two(&rt, alloc)?;
    assert!(rt; holds(named_is(&rt, alloc, &view, b"monday", Some(SnapId(1)))));
    assert!(rt; holds(named_is(&rt, alloc, &view, b"tuesday", Some(SnapId(2)))));
    assert!(rt; holds(named_is(&rt, alloc, &view, b"mon", None)));
    Ok(())
}

/// The kind of an operation, which is let go here.
fn kind_of(op: Op) -> OpKind {
    let kind = op.kind();
    drop(op);
    kind
}

fn kind_of_copy(op: &Op) -> Result<OpKind, NoMemory> {
    Ok(kind_of(op.try_clone()?))
}

fn is_copied_as(op: Op, kind: OpKind) -> bool {
    let copied = kind_of_copy(&op);
    kind_of(op) == kind && copied == Ok(kind)
}

#[test]
fn an_operation_and_its_copy_are_of_one_kind(rt: HostRuntime) -> Result<(), Fail> {
    let create = Op::Header {
        image: ImageId(7),
        op: HeaderOp::Create {
            view: Shared::new(rt.alloc(), header(Snaps::new(rt.alloc())))?,
        },
    };
    assert!(rt; is_copied_as(create, OpKind::HeaderCreate));
    Ok(())
}

/// How a command is told, which is let go here.
fn told(alloc: Global, command: Command) -> Option<String> {
    let text = format!(in alloc; "{command:?}").ok();
    drop(command);
    text
}

fn copy_told(alloc: Global, command: &Command) -> Option<String> {
    told(alloc, command.try_clone().ok()?)
}

fn are_same(one: Option<String>, other: Option<String>) -> bool {
    match (one, other) {
        (Some(one), Some(other)) => one.as_str() == other.as_str(),
        _ => false,
    }
}

fn is_copied(alloc: Global, command: Command) -> bool {
    let copied = copy_told(alloc, &command);
    are_same(told(alloc, command), copied)
}

fn asked(rt: &impl Abort, alloc: Global, text: &[u8]) -> Result<AskedName, NoMemory> {
    Ok(AskedName::parse(Bytes::from_slice(alloc, text)?).expect(rt, "a name"))
}

fn protect_is_copied(rt: &impl Abort, alloc: Global) -> Result<bool, NoMemory> {
    let image = asked(rt, alloc, b"disk")?;
    let snap = asked(rt, alloc, b"s1")?;
    Ok(is_copied(alloc, Command::SnapProtect { image, snap }))
}

#[test]
fn a_command_and_its_copy_are_alike(rt: HostRuntime) {
    assert!(rt; holds(protect_is_copied(&rt, rt.alloc())));
}

/// Whether an answer has a word. The answer is let go here.
fn has_word(answer: Answer, word: &str) -> bool {
    let same = answer.word() == word;
    drop(answer);
    same
}

fn copy_has_word(answer: &Answer, word: &str) -> Result<bool, NoMemory> {
    Ok(has_word(answer.try_clone()?, word))
}

fn is_told_by(answer: Answer, word: &str) -> bool {
    let copied = holds(copy_has_word(&answer, word));
    has_word(answer, word) && copied
}

fn ids_are_told(alloc: Global) -> Result<bool, NoMemory> {
    let ids = Ids::from_vec(Vec::from_slice(alloc, &[ImageId(3); 2])?);
    Ok(is_told_by(Answer::Ids(ids), "ids"))
}

#[test]
fn an_answer_has_its_word(rt: HostRuntime) {
    assert!(rt; holds(ids_are_told(rt.alloc())));
    assert!(rt; is_told_by(Answer::Absent, "none"));
    assert!(rt; is_told_by(Answer::Changed, "changed"));
    assert!(rt; is_told_by(Answer::Fenced, "fenced"));
    assert!(rt; is_told_by(Answer::Id(ImageId(1)), "id"));
}
