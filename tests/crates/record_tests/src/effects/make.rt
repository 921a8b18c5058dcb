//! One operation of each kind, and the answers.
//!
//! Changes of an object write two parts of object 1 and the bytes 1 to 8: offsets 4094 to 4097 go
//! from its first unit into its second, and offsets 7710 to 7713 are image bytes 19998 to 20001.
use super::{DISK, STRIPED};
use rbd_header::new_header;
use rbd_kinds::{
    Answer, Bytes, ChildrenOp, DataOp, DirectoryOp, HeaderOp, ImageId, Instance, JournalClient,
    JournalOp, MapOp, Name, NoMemory, NoticeKind, Op, OpKind, Part, Parts, Position, Role,
    SessionNo, Shared, SiteId, SnapContext, SnapId, SnapIds, SnapStatus, Spans, Tag,
};
use std::alloc::Global;
use std::process::Abort;

const SNAP: SnapId = SnapId(3);

const OTHER: Instance = Instance {
    session: SessionNo(1),
    life: 0,
};

const TAG: Tag = Tag {
    site: SiteId::A,
    image: DISK,
    no: 1,
};

const PARTS: [Part; 2] = [
    Part {
        offset: 4094,
        at: 8190,
        len: 4,
    },
    Part {
        offset: 7710,
        at: 19998,
        len: 4,
    },
];

fn name(rt: &impl Abort, alloc: Global, text: &[u8]) -> Result<Name, NoMemory> {
    Ok(Name::parse(Bytes::from_slice(alloc, text)?).expect(rt, "a name"))
}

fn directory(rt: &impl Abort, alloc: Global, kind: OpKind) -> Result<DirectoryOp, NoMemory> {
    let old = name(rt, alloc, b"old")?;
    Ok(match kind {
        OpKind::DirFind => DirectoryOp::Find { name: old },
        OpKind::DirAdd => DirectoryOp::Add { name: old },
        OpKind::DirRemove => DirectoryOp::Remove { image: DISK },
        OpKind::DirRename => DirectoryOp::Rename {
            from: old,
            to: Shared::new(alloc, name(rt, alloc, b"new")?)?,
        },
        _ => DirectoryOp::List,
    })
}

fn children(kind: OpKind) -> ChildrenOp {
    let (parent, snap, child) = (DISK, SNAP, ImageId(8));
    match kind {
        OpKind::ChildAdd => ChildrenOp::Add {
            parent,
            snap,
            child,
        },
        OpKind::ChildRemove => ChildrenOp::Remove {
            parent,
            snap,
            child,
        },
        _ => ChildrenOp::List { parent, snap },
    }
}

fn header(rt: &impl Abort, alloc: Global, kind: OpKind) -> Result<HeaderOp, NoMemory> {
    Ok(match kind {
        OpKind::HeaderCreate => HeaderOp::Create {
            view: Shared::new(alloc, new_header(alloc, STRIPED, 20000))?,
        },
        OpKind::HeaderGet => HeaderOp::Get,
        OpKind::HeaderSetSize => HeaderOp::SetSize { size: 5000 },
        OpKind::HeaderSnapAdd => HeaderOp::SnapAdd {
            name: name(rt, alloc, b"old")?,
        },
        OpKind::HeaderSnapRemove => HeaderOp::SnapRemove { snap: SNAP },
        OpKind::HeaderSnapStatus => HeaderOp::SnapStatus {
            snap: SNAP,
            status: SnapStatus::Protected,
        },
        OpKind::HeaderDetach => HeaderOp::Detach,
        OpKind::HeaderRole => HeaderOp::Role {
            role: Role::Secondary,
        },
        OpKind::HeaderMirror => HeaderOp::Mirror,
        OpKind::HeaderSynced => HeaderOp::Synced,
        OpKind::HeaderRemove => HeaderOp::Remove,
        kind => watch(kind),
    })
}

/// On the lock and the watchers of a header.
fn watch(kind: OpKind) -> HeaderOp {
    match kind {
        OpKind::LockTake => HeaderOp::LockTake,
        OpKind::LockDrop => HeaderOp::LockDrop,
        OpKind::LockBreak => HeaderOp::LockBreak { owner: OTHER },
        OpKind::Watch => HeaderOp::Watch,
        OpKind::Unwatch => HeaderOp::Unwatch,
        OpKind::WatchersGet => HeaderOp::WatchersGet,
        _ => HeaderOp::Notify {
            kind: NoticeKind::RequestLock,
        },
    }
}

fn context(alloc: Global) -> SnapContext {
    SnapContext {
        seq: SNAP,
        snaps: SnapIds::new(alloc),
    }
}

fn data(alloc: Global, kind: OpKind) -> Result<DataOp, NoMemory> {
    let parts = Parts::from_slice(alloc, &PARTS)?;
    Ok(match kind {
        OpKind::DataRead => DataOp::Read { snap: None, parts },
        OpKind::DataWrite => DataOp::Write {
            context: context(alloc),
            must: false,
            parts,
            bytes: Bytes::from_slice(alloc, &[1, 2, 3, 4, 5, 6, 7, 8])?,
        },
        OpKind::DataZero => DataOp::Zero {
            context: context(alloc),
            must: false,
            parts,
        },
        kind => whole(alloc, kind)?,
    })
}

/// Of a whole object.
fn whole(alloc: Global, kind: OpKind) -> Result<DataOp, NoMemory> {
    let context = context(alloc);
    Ok(match kind {
        OpKind::DataWriteFull => DataOp::WriteFull {
            context,
            bytes: Bytes::from_slice(alloc, &[1, 2, 3])?,
        },
        OpKind::DataEmpty => DataOp::Empty { context },
        OpKind::DataRemove => DataOp::Remove { context },
        _ => DataOp::CopyUp {
            bytes: Bytes::from_slice(alloc, &[1, 2, 3])?,
        },
    })
}

fn map(alloc: Global, kind: OpKind) -> MapOp {
    match kind {
        OpKind::MapResize => MapOp::Resize { count: 4 },
        OpKind::MapGet => MapOp::Get { snap: None },
        OpKind::MapPut => MapOp::Put {
            snap: None,
            bits: Bytes::new(alloc),
        },
        OpKind::MapSet => MapOp::Set {
            snap: None,
            object: 1,
            state: 1,
        },
        _ => MapOp::Remove { snap: None },
    }
}

fn journal(alloc: Global, kind: OpKind) -> Result<JournalOp, NoMemory> {
    Ok(match kind {
        OpKind::JournalCreate => JournalOp::Create {
            spans: Spans::new(alloc),
        },
        OpKind::JournalTag => JournalOp::Tag,
        OpKind::JournalAppend => JournalOp::Append {
            position: Position { tag: TAG, seq: 1 },
            frame: Shared::new(alloc, Bytes::new(alloc))?,
        },
        OpKind::JournalRead => JournalOp::Read { seq: 1 },
        OpKind::JournalSpans => JournalOp::Spans,
        OpKind::JournalRegister => JournalOp::Register,
        OpKind::JournalCommit => JournalOp::Commit {
            client: JournalClient::Local,
            seq: 1,
        },
        _ => JournalOp::Remove,
    })
}

/// An operation of a kind, by the begin of its word.
pub fn op(rt: &impl Abort, alloc: Global, kind: OpKind) -> Result<Op, NoMemory> {
    let word = kind.word();
    if word.starts_with("dir-") {
        return Ok(Op::Directory(directory(rt, alloc, kind)?));
    }
    if word.starts_with("data-") {
        return Op::on_object(alloc, DISK, 1, data(alloc, kind)?);
    }
    if word.starts_with("child-") {
        return Ok(Op::Children(children(kind)));
    }
    if word.starts_with("block-") {
        return Ok(Op::BlockAdd { instance: OTHER });
    }
    if word.starts_with("map-") {
        return Ok(Op::Map {
            image: DISK,
            op: map(alloc, kind),
        });
    }
    if word.starts_with("journal-") {
        return Ok(Op::Journal {
            image: DISK,
            op: journal(alloc, kind)?,
        });
    }
    Ok(Op::Header {
        image: DISK,
        op: header(rt, alloc, kind)?,
    })
}

/// An answer by its word: image 9, snapshot 4, or none of what is asked.
pub fn answer(word: &str) -> Answer {
    if word == "done" {
        return Answer::Done;
    }
    if word == "id" {
        return Answer::Id(ImageId(9));
    }
    if word == "snap" {
        return Answer::Snap(SnapId(4));
    }
    if word == "exists" {
        return Answer::Exists;
    }
    if word == "full" {
        return Answer::Full;
    }
    if word == "fenced" {
        return Answer::Fenced;
    }
    if word == "changed" {
        return Answer::Changed;
    }
    Answer::Absent
}
