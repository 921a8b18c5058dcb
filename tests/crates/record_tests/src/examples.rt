//! The examples of front pages, as they stand there: `scripts/quick` looks for each line of them. What
//! a page says of a value is asserted here.
use rbd_edge::{SureSink, SureSource, read_to, write_all};
use rbd_fence::Blocklist;
use rbd_flat::{Effect, Extents, FlatSite, Series};
use rbd_guard::Guard;
use rbd_header::{Header, new_header};
use rbd_journal::{Journal, decode, encode};
use rbd_kinds::{
    Answer, AskedName, AtMost, Bytes, Command, DataOp, DirectoryOp, Extent, HeaderOp, HeaderView,
    ImageId, Instance, JournalClient, JournalEvent, Layout, Name, NoMemory, NoticeKind, Op, OpKind,
    Part, Parts, Payload, Position, Refusal, Role, SessionNo, Shared, SiteId, SnapContext, SnapId,
    SnapIds, SnapStatus, Spans, TryClone,
};
use rbd_line_table::LineMap;
use rbd_map::ObjectMap;
use rbd_object::Object;
use rbd_pages::{Content, Sheaves};
use rbd_parts::{copy_window, gather, scatter};
use rbd_registry::{Children, Directory};
use rbd_site::Site;
use rbd_stands::effect_of;
use rbd_watch::{Mail, Watchers};
use std::alloc::Global;
use std::process::Abort;
use std::test::Fail;

fn instance(life: u32) -> Instance {
    Instance {
        session: SessionNo(0),
        life,
    }
}

fn name_of(rt: &impl Abort, alloc: Global, text: &[u8]) -> Result<Name, NoMemory> {
    Ok(Name::parse(Bytes::from_slice(alloc, text)?).expect(rt, "a name"))
}

fn asked_name(rt: &impl Abort, alloc: Global, text: &[u8]) -> Result<AskedName, NoMemory> {
    Ok(AskedName::parse(Bytes::from_slice(alloc, text)?).expect(rt, "a name"))
}

/// What a new header tells of an image of so many bytes, in objects of 4,096.
fn view_of(alloc: Global, size: u64) -> HeaderView {
    let layout = Layout {
        object: 4096,
        unit: 4096,
        count: 1,
    };
    new_header(alloc, layout, size)
}

/// The context of a change while there are no snapshots, or one.
fn context(alloc: Global, snaps: &[SnapId]) -> Result<SnapContext, NoMemory> {
    let seq = match snaps.first() {
        Some(snap) => *snap,
        None => SnapId(0),
    };
    let snaps = SnapIds::from_vec(Vec::from_slice(alloc, snaps)?);
    Ok(SnapContext { seq, snaps })
}

// ---- values and words

#[test]
fn values(rt: HostRuntime) -> Result<(), Fail> {
    let alloc = rt.alloc();
    assert!(rt; Name::parse(Bytes::from_slice(alloc, b".sync")?).is_some());
    assert!(rt; AskedName::parse(Bytes::from_slice(alloc, b".sync")?).is_none());
    assert!(rt; AskedName::parse(Bytes::from_slice(alloc, b"disk")?).is_some());
    assert!(rt; AtMost::<65536>::new(65537).is_none());
    Ok(())
}

#[test]
fn commands(rt: HostRuntime) -> Result<(), Fail> {
    let alloc = rt.alloc();
    let image = asked_name(&rt, alloc, b"disk")?;
    let copy = Command::Info { image }.try_clone()?;
    assert!(rt; matches!(&copy, Command::Info { .. }));
    assert!(rt; Payload::new(Bytes::new(alloc)).is_none());
    let text = format!(in alloc; "{}", Refusal::BadRange)?;
    assert!(rt; text.as_str() == "error 22 BadRange");
    Ok(())
}

#[test]
fn kinds(rt: HostRuntime) {
    assert!(rt; OpKind::DirFind.word() == "dir-find");
    assert!(rt; OpKind::from_word(b"dir-find") == Some(OpKind::DirFind));
}

#[test]
fn edge(rt: HostRuntime) -> Result<(), Fail> {
    let alloc = rt.alloc();
    let mut source = SureSource::new(Vec::from_slice(alloc, b"abc")?);
    let mut sink = SureSink::new();
    let limit = 2;
    let text = read_to(alloc, &mut source, limit)?;
    assert!(rt; text.as_slice() == b"ab".as_slice());
    write_all(&mut sink, text.as_slice())?;
    Ok(())
}

// ---- records

#[test]
fn fence(rt: HostRuntime) -> Result<(), Fail> {
    let alloc = rt.alloc();
    let (lost, restarted) = (instance(0), instance(1));
    let mut blocklist = Blocklist::new(alloc);
    blocklist.add(lost)?;
    assert!(rt; blocklist.has(lost));
    assert!(rt; !blocklist.has(restarted));
    Ok(())
}

#[test]
fn guard(rt: HostRuntime) -> Result<(), Fail> {
    let mut guard = Guard::new(rt.alloc());
    guard.reserve(2)?;
    let first = guard.enter(1, 7)?;
    let second = guard.enter(2, 7)?;
    assert!(rt; guard.first(7) == Some(first));
    guard.leave(first);
    assert!(rt; guard.first(7) == Some(second));
    assert!(rt; guard.leave_all(2) == 1);
    Ok(())
}

#[test]
fn header(rt: HostRuntime) -> Result<(), Fail> {
    let alloc = rt.alloc();
    let (view, instance) = (view_of(alloc, 8192), instance(0));
    let name = name_of(&rt, alloc, b"monday")?;
    let mut header = Header::make(view)?;
    header.lock(instance)?;
    let first = header.snap_add(&name)?;
    assert!(rt; first == SnapId(1));
    assert!(rt; header.snap_status(first, SnapStatus::Protected));
    header.set_size(4096);
    match header.named(&name) {
        Some(snap) => assert!(rt; snap.size == 8192),
        None => panic!(rt; "it is listed"),
    }
    assert!(rt; header.unlock(instance));
    Ok(())
}

#[test]
fn journal(rt: HostRuntime) -> Result<(), Fail> {
    let alloc = rt.alloc();
    let image = ImageId(1);
    let bytes = Bytes::from_slice(alloc, b"hello")?;
    let event = JournalEvent::Write { at: 4094, bytes };
    let mut journal = Journal::based(alloc, &Spans::new(alloc))?;
    let tag = journal.tag(SiteId::A, image);
    let frame = encode(alloc, &event)?;
    journal.append(Position { tag, seq: 1 }, &frame)?;
    let read = journal.read(1);
    assert!(rt; read.is_some());
    let (same, length) = decode(alloc, &frame)?;
    assert!(rt; matches!(&same, JournalEvent::Write { .. }));
    assert!(rt; length == 18);
    journal.commit(JournalClient::Local, 1);
    journal.trim();
    assert!(rt; journal.read(1).is_none());
    Ok(())
}

#[test]
fn lines(rt: HostRuntime) -> Result<(), Fail> {
    let alloc = rt.alloc();
    let mut begun: LineMap<()> = LineMap::new(alloc);
    begun.insert(7, ())?;
    let seventh = begun.has(7);
    let eighth = begun.has(8);
    assert!(rt; seventh && !eighth);
    begun.reserve(8)?;
    begun.put(8, ());
    assert!(rt; begun.has(8));
    Ok(())
}

#[test]
fn map(rt: HostRuntime) -> Result<(), Fail> {
    let alloc = rt.alloc();
    let mut map = ObjectMap::new(alloc);
    map.resize(5)?;
    map.set(1, 1);
    map.set(4, 2);
    assert!(rt; map.used(5) == 2);
    let bits = map.bits()?;
    assert!(rt; bits.as_slice() == [0x10, 0x80].as_slice());
    Ok(())
}

#[test]
fn registry(rt: HostRuntime) -> Result<(), Fail> {
    let alloc = rt.alloc();
    let (name, other) = (
        name_of(&rt, alloc, b"disk")?,
        name_of(&rt, alloc, b"other")?,
    );
    let mut directory = Directory::new(alloc);
    let disk = directory.add(&name)?;
    assert!(rt; disk == ImageId(1));
    directory.rename(&name, &other)?;
    assert!(rt; directory.remove(disk));

    let mut children = Children::new(alloc);
    children.add(disk, SnapId(3), ImageId(2))?;
    let found = children.of(disk, SnapId(3))?;
    assert!(rt; found.as_slice() == [ImageId(2)].as_slice());
    Ok(())
}

#[test]
fn watch(rt: HostRuntime) -> Result<(), Fail> {
    let alloc = rt.alloc();
    let (first, second) = (instance(0), instance(1));
    let (site, image, session) = (SiteId::A, ImageId(1), SessionNo(0));
    let mut watchers = Watchers::new(alloc);
    watchers.watch(first)?;
    watchers.watch(second)?;
    watchers.watch(first)?;
    let listed = watchers.list()?;
    assert!(rt; listed.as_slice() == [first, second].as_slice());
    let others = watchers.receivers(first)?;
    assert!(rt; others.as_slice() == [second].as_slice());
    assert!(rt; watchers.oldest(session) == Some(first));

    let mut mail = Mail::new(alloc);
    mail.post(site, image, first, &[second], &NoticeKind::RequestLock)?;
    match mail.get(1) {
        Some(notice) => assert!(rt; notice.to == second),
        None => panic!(rt; "it was posted"),
    }
    Ok(())
}

// ---- objects

#[test]
fn object(rt: HostRuntime) -> Result<(), Fail> {
    let alloc = rt.alloc();
    let (none, one) = (context(alloc, &[])?, context(alloc, &[SnapId(1)])?);
    let mut buffer = [0; 3];
    let mut object = Object::new(alloc);
    object.write(&none, 0, b"old")?;
    object.write(&one, 0, b"new")?;
    assert!(rt; object.read(None, 0, &mut buffer));
    assert!(rt; &buffer == b"new");
    assert!(rt; object.read(Some(SnapId(1)), 0, &mut buffer));
    assert!(rt; &buffer == b"old");
    object.trim(&[]);
    assert!(rt; !object.read(Some(SnapId(1)), 0, &mut buffer));
    Ok(())
}

#[test]
fn pages(rt: HostRuntime) -> Result<(), Fail> {
    let alloc = rt.alloc();
    let mut buffer = [0; 3];
    let mut sheaves = Sheaves::new(alloc);
    let mut head = Content::new(alloc);
    head.write(&mut sheaves, 0, b"old")?;
    let kept = head.share(&mut sheaves)?;
    head.write(&mut sheaves, 0, b"new")?;
    kept.read(&sheaves, 0, &mut buffer);
    assert!(rt; &buffer == b"old");
    kept.let_go(&mut sheaves);
    Ok(())
}

#[test]
fn parts(rt: HostRuntime) -> Result<(), Fail> {
    let alloc = rt.alloc();
    let mut bytes = *b"abcdef";
    let mut buffer = [1; 2];
    let parts = [
        Part {
            offset: 4,
            at: 0,
            len: 2,
        },
        Part {
            offset: 0,
            at: 2,
            len: 1,
        },
    ];
    let gathered = gather(alloc, b"abcdef", &parts)?;
    assert!(rt; gathered.as_slice() == b"efa".as_slice());
    scatter(&mut bytes, &parts, b"xyz");
    assert!(rt; &bytes == b"zbcdxy");
    copy_window(b"abc", 2, &mut buffer);
    assert!(rt; &buffer == b"c\0");
    Ok(())
}

// ---- sites

#[test]
fn flat(rt: HostRuntime) -> Result<(), Fail> {
    let alloc = rt.alloc();
    let image = ImageId(1);
    let mut at = Extents::with_capacity(alloc, 1)?;
    let first = Extent { at: 4094, len: 5 };
    at.push(Series {
        first,
        step: 0,
        count: 1,
    })?;
    let bytes = Bytes::from_slice(alloc, b"hello")?;
    let mut site = FlatSite::new(alloc);
    site.after(&Effect::Create {
        image,
        size: 8192,
        role: Role::Plain,
    })?;
    site.after(&Effect::Piece { image, at, bytes })?;
    let shown = site.read(image, None, &Extent { at: 4094, len: 5 })?;
    assert!(rt; shown.as_slice() == b"hello".as_slice());
    Ok(())
}

/// A write of four bytes at an offset of an object.
fn four_bytes(alloc: Global, offset: u64, at: u64) -> Result<Shared<DataOp>, NoMemory> {
    let part = Part { offset, at, len: 4 };
    let write = DataOp::Write {
        context: context(alloc, &[])?,
        must: false,
        parts: Parts::from_vec(Vec::from_slice(alloc, &[part])?),
        bytes: Bytes::from_slice(alloc, &[1, 2, 3, 4])?,
    };
    Shared::new(alloc, write)
}

#[test]
fn site(rt: HostRuntime) -> Result<(), Fail> {
    let alloc = rt.alloc();
    let (first, second) = (instance(0), instance(1));
    let image = ImageId(1);
    let name = name_of(&rt, alloc, b"disk")?;
    let view = Shared::new(alloc, view_of(alloc, 4096))?;
    let write = four_bytes(alloc, 0, 0)?;
    let mut site = Site::new(alloc, SiteId::A)?;
    let mut mail = Mail::new(alloc);
    let named = site.apply(first, Op::Directory(DirectoryOp::Add { name }), &mut mail)?;
    assert!(rt; matches!(&named, Answer::Id(ImageId(1))));
    let made = site.apply(
        first,
        Op::Header {
            image,
            op: HeaderOp::Create { view },
        },
        &mut mail,
    )?;
    assert!(rt; matches!(&made, Answer::Done));
    let taken = site.apply(
        first,
        Op::Header {
            image,
            op: HeaderOp::LockTake,
        },
        &mut mail,
    )?;
    assert!(rt; matches!(&taken, Answer::Done));
    let held = site.apply(
        second,
        Op::Header {
            image,
            op: HeaderOp::LockTake,
        },
        &mut mail,
    )?;
    assert!(rt; matches!(&held, Answer::Held(_)));
    let listed = site.apply(second, Op::BlockAdd { instance: first }, &mut mail)?;
    assert!(rt; matches!(&listed, Answer::Done));
    let fenced = site.apply(
        first,
        Op::Data {
            image,
            object: 0,
            op: write,
        },
        &mut mail,
    )?;
    assert!(rt; matches!(&fenced, Answer::Fenced));
    assert!(rt; !site.trim(image, 0)?);
    assert!(rt; site.log().len() == 6);
    Ok(())
}

/// Image bytes 16384 to 20479 are the second unit of object 1.
#[test]
fn stands(rt: HostRuntime) -> Result<(), Fail> {
    let alloc = rt.alloc();
    let layout = Layout {
        object: 8192,
        unit: 4096,
        count: 3,
    };
    let header = new_header(alloc, layout, 20_000);
    let image = ImageId(1);
    let write = four_bytes(alloc, 7710, 19998)?;
    let op = Op::Data {
        image,
        object: 1,
        op: write,
    };
    let effect = effect_of(alloc, &op, &Answer::Done, Some(&header))?;
    assert!(rt; matches!(&effect, Some(Effect::Piece { .. })));
    let effect = effect_of(alloc, &op, &Answer::Absent, Some(&header))?;
    assert!(rt; effect.is_none());
    let effect = effect_of(alloc, &op, &Answer::Done, None)?;
    assert!(rt; effect.is_none());
    Ok(())
}
