//! The examples of front pages, as they stand there: `scripts/quick` looks for each line of them. What
//! such a line leaves to its reader (`run`, `ask_site`, `what_it_answers`, `do_it`) is here what a site
//! with one image would answer.
use crate::fixtures::{asked, header as header_by, hello, name, read_length};
use rbd_catalog::{SessionRequest, is_built};
use rbd_change::{ExtentChange, ExtentRequest};
use rbd_client::Client;
use rbd_commands::Quiescing;
use rbd_data::{ReadRequest, discard_request, write_request};
use rbd_header::context_of;
use rbd_image::{CreateRequest, RemoveRequest, ResizeRequest};
use rbd_kinds::{
    Answer, Bytes, Command, Extent, Fed, Flow, HeaderOp, HeaderView, ImageId, Instance, Name,
    NoMemory, Notice, NoticeKind, Number, Op, OpKind, Refusal, Reply, SessionNo, Shape, Sharing,
    SiteId, Slot, SnapId, Want,
};
use rbd_layout::{Piece, pieces as pieces_of};
use rbd_lock::{Acquire, Locks, Release};
use rbd_machine::{Begun, Machine, Progress, Request, Seat};
use rbd_pieces::{Gather, WritePiece};
use rbd_queue::Line;
use rbd_session::CloseRequest;
use rbd_slots::Session;
use rbd_snap::{RollbackRequest, SnapRequest};
use std::alloc::Global;
use std::process::Abort;
use std::test::Fail;

// ---- what a reader brings

/// What a site answers that has the image 7, of which no object is there.
fn answer_of(op: &Op) -> Answer {
    match op {
        Op::Directory(_) => Answer::Id(ImageId(7)),
        _ if op.kind() == OpKind::DataRead => Answer::Absent,
        _ => Answer::Done,
    }
}

fn what_it_answers(_site: SiteId, op: &Op) -> Result<Answer, NoMemory> {
    Ok(answer_of(op))
}

fn do_it(_fed: &Fed) {}

/// Takes a request to its end, as the front page of `rbd_machine` does.
fn run<M: Machine + Drop>(alloc: Global, request: M) -> Result<Reply, NoMemory> {
    let mut request = request;
    let reply = loop {
        let fed = match request.wants() {
            Want::Op { site, .. } => {
                let op = request.next(alloc)?;
                Fed::Answer(what_it_answers(site, &op)?)
            }
            _ => Fed::Passed,
        };
        request.ready(alloc, &fed)?;
        do_it(&fed);
        match request.feed(&fed) {
            Flow::More => {}
            Flow::Done(reply) => break reply,
        }
    };
    Ok(reply)
}

/// Whether a request wants its look-up first.
fn looks_up<M: Machine + Drop>(request: &M) -> bool {
    match request.wants() {
        Want::Op { kind, .. } => kind == OpKind::DirFind,
        _ => false,
    }
}

// ---- commands

fn write_command(alloc: Global) -> Result<Command, Fail> {
    Ok(Command::Write {
        image: name(alloc, "disk")?,
        at: asked("4094")?,
        bytes: hello(alloc)?,
    })
}

fn discard_command(alloc: Global) -> Result<Command, Fail> {
    Ok(Command::Discard {
        image: name(alloc, "disk")?,
        at: asked("4000")?,
        len: asked("4192")?,
    })
}

fn snap_command(alloc: Global) -> Result<Command, Fail> {
    Ok(Command::SnapCreate {
        image: name(alloc, "disk")?,
        snap: name(alloc, "monday")?,
    })
}

// ---- machines

#[test]
fn machine(rt: HostRuntime) -> Result<(), Fail> {
    let alloc = rt.alloc();
    let command = Command::Resume {
        image: name(alloc, "disk")?,
    };
    let reply = run(alloc, CloseRequest::new(SiteId::A, command))?;
    assert!(rt; matches!(&reply, Reply::Done));
    Ok(())
}

/// The reply to a command, `None` where it isn't served.
fn served(alloc: Global, command: Command) -> Result<Option<Reply>, NoMemory> {
    if !is_built(&command) {
        return Ok(None);
    }
    let seat = Seat {
        session: SessionNo(0),
        home: SiteId::A,
    };
    let reply = match SessionRequest::begin(alloc, &seat, command)? {
        Begun::Refused(refusal) => Reply::Refused(refusal),
        Begun::Asks(request) => run(alloc, request)?,
    };
    Ok(Some(reply))
}

#[test]
fn catalog(rt: HostRuntime) -> Result<(), Fail> {
    let alloc = rt.alloc();
    let command = Command::Resume {
        image: name(alloc, "disk")?,
    };
    let reply = served(alloc, command)?;
    assert!(rt; matches!(&reply, Some(Reply::Done)));
    Ok(())
}

/// A request of any change that goes object by object.
fn extents<C: ExtentChange>(alloc: Global, disk: Name, write_change: C) {
    let request = ExtentRequest::new(alloc, SiteId::A, disk, Sharing::Shared, write_change);
    drop(request);
}

#[test]
fn change(rt: HostRuntime) -> Result<(), Fail> {
    let alloc = rt.alloc();
    let resize = Command::Resize {
        image: name(alloc, "disk")?,
        size: asked("6000")?,
    };
    let request = ResizeRequest::new(SiteId::A, resize);
    assert!(rt; looks_up(&request));
    Ok(())
}

#[test]
fn data(rt: HostRuntime) -> Result<(), Fail> {
    let alloc = rt.alloc();
    let (write_hello, discard_both) = (write_command(alloc)?, discard_command(alloc)?);
    let read_hello = Command::Read {
        image: name(alloc, "disk")?,
        snap: None,
        at: asked("4094")?,
        len: read_length(5)?,
    };
    let write = write_request(alloc, SiteId::A, write_hello)?;
    assert!(rt; looks_up(&write));
    let discard = discard_request(alloc, SiteId::A, discard_both);
    assert!(rt; looks_up(&discard));
    let read = ReadRequest::new(SiteId::A, read_hello);
    assert!(rt; looks_up(&read));
    Ok(())
}

/// The reply to a create whose shape is outside the limits.
fn refused(create_disk: Command) -> Result<Reply, NoMemory> {
    let create = CreateRequest::new(SiteId::A, create_disk);
    if let Some(refusal) = create.refusal() {
        return Ok(Reply::Refused(refusal));
    }
    Ok(Reply::Done)
}

#[test]
fn image(rt: HostRuntime) -> Result<(), Fail> {
    let alloc = rt.alloc();
    let create_disk = Command::Create {
        image: name(alloc, "disk")?,
        size: asked("8192")?,
        shape: Shape {
            object: Number::new(4096),
            unit: None,
            count: None,
            journal: false,
        },
    };
    let reply = refused(create_disk)?;
    assert!(rt; matches!(&reply, Reply::Done));
    let rm_disk = Command::Remove {
        image: name(alloc, "disk")?,
    };
    let rm = RemoveRequest::new(SessionNo(0), SiteId::A, rm_disk);
    assert!(rt; looks_up(&rm));
    Ok(())
}

#[test]
fn snap(rt: HostRuntime) -> Result<(), Fail> {
    let alloc = rt.alloc();
    let snap_create = snap_command(alloc)?;
    let snap_rollback = Command::SnapRollback {
        image: name(alloc, "disk")?,
        snap: name(alloc, "monday")?,
    };
    let take = SnapRequest::new(SiteId::A, snap_create);
    assert!(rt; looks_up(&take));
    let back = RollbackRequest::new(SiteId::A, snap_rollback);
    assert!(rt; looks_up(&back));
    Ok(())
}

#[test]
fn session(rt: HostRuntime) -> Result<(), Fail> {
    let alloc = rt.alloc();
    let close_disk = Command::Close {
        image: name(alloc, "disk")?,
    };
    let close = CloseRequest::new(SiteId::A, close_disk);
    let reply = run(alloc, close)?;
    assert!(rt; matches!(&reply, Reply::Done));
    Ok(())
}

// ---- parts

fn ask_one(op: &Op) -> Answer {
    answer_of(op)
}

/// What stands for no refusal.
const NONE: Refusal = Refusal::InUse;

/// Takes the lock of an image, or answers why not.
fn take_lock(image: ImageId) -> Result<Refusal, NoMemory> {
    let mut way = Acquire::new(SiteId::A, image, false);
    loop {
        let op = way.next();
        match way.feed(&ask_one(&op)) {
            Progress::More => {}
            Progress::Ended(()) => break,
            Progress::Refused(refusal) => return Ok(refusal),
        }
    }
    Ok(NONE)
}

/// A notice that asks for the lock of an image.
fn request_of(image: ImageId) -> Notice {
    let instance = |session: u8| Instance {
        session: SessionNo(session),
        life: 0,
    };
    Notice {
        number: 1,
        to: instance(0),
        from: instance(1),
        site: SiteId::A,
        image,
        kind: NoticeKind::RequestLock,
    }
}

#[test]
fn lock(rt: HostRuntime) -> Result<(), Fail> {
    let alloc = rt.alloc();
    let image = ImageId(7);
    assert!(rt; take_lock(image)? == NONE);
    let lock_take = Op::Header {
        image,
        op: HeaderOp::LockTake,
    };
    let request_lock = request_of(image);
    let mut locks = Locks::new(alloc);
    locks.reserve()?;
    locks.count(SiteId::A, &lock_take, &Answer::Done);
    locks.hear(&request_lock)?;
    let asked = locks.next_asked(None);
    assert!(rt; asked.is_some());
    let release = Release::new(SiteId::A, image);
    let op = release.next();
    assert!(rt; op.kind() == OpKind::LockDrop);
    let rest = release.answered(&Answer::Done);
    assert!(rt; rest.is_some());
    Ok(())
}

/// Writes a piece by a header.
fn write_piece(
    alloc: Global,
    image: ImageId,
    header: &HeaderView,
    piece: Piece,
    bytes: Bytes,
) -> Result<Refusal, NoMemory> {
    let context = context_of(alloc, header)?;
    let mut write = WritePiece::new(SiteId::A, image, context, piece, bytes);
    loop {
        let op = write.next(alloc)?;
        match write.feed(&ask_one(&op)) {
            Progress::More => {}
            Progress::Ended(()) => break,
            Progress::Refused(refusal) => return Ok(refusal),
        }
    }
    Ok(NONE)
}

/// Reads pieces, whose bytes a gather has then.
fn read_pieces(alloc: Global, gather: &mut Gather) -> Result<Refusal, NoMemory> {
    loop {
        let answer = ask_one(&gather.next(alloc)?);
        gather.ready(&answer)?;
        match gather.feed(&answer) {
            Progress::More => {}
            Progress::Ended(()) => break,
            Progress::Refused(refusal) => return Ok(refusal),
        }
    }
    Ok(NONE)
}

#[test]
fn parts(rt: HostRuntime) -> Result<(), Fail> {
    let alloc = rt.alloc();
    let (image, snap) = (ImageId(7), SnapId(1));
    let header = header_by(alloc, "size 8192")?.expect(&rt, "a header");
    let extent = Extent { at: 4094, len: 2 };
    let bytes = Bytes::from_slice(alloc, b"he")?;
    let piece = pieces_of(alloc, &header.layout, &extent)?
        .pop()
        .expect(&rt, "a piece");
    let context = context_of(alloc, &header)?;
    drop(context);
    assert!(rt; write_piece(alloc, image, &header, piece, bytes)? == NONE);

    let pieces = pieces_of(alloc, &header.layout, &extent)?;
    let mut gather = Gather::new(alloc, SiteId::A, image, Some(snap), pieces);
    assert!(rt; read_pieces(alloc, &mut gather)? == NONE);
    let bytes = gather.take_bytes();
    assert!(rt; bytes.as_slice() == [0, 0].as_slice());
    Ok(())
}

// ---- who goes beside whom

#[test]
fn queue(rt: HostRuntime) -> Result<(), Fail> {
    let alloc = rt.alloc();
    let mut line = Line::new(alloc)?;
    line.join(Slot(1), Sharing::Shared);
    line.join(Slot(2), Sharing::Shared);
    line.join(Slot(3), Sharing::Alone);
    line.hold(Slot(1));
    line.hold(Slot(2));
    let second = line.may_pass(Slot(2));
    assert!(rt; !second);
    line.reserve(2)?;
    line.pass(Slot(1));
    line.enter(Slot(1), 7);
    line.pass(Slot(2));
    line.enter(Slot(2), 7);
    let turn = line.has_turn(Slot(2), 7);
    assert!(rt; !turn);
    line.end_piece(Slot(1));
    assert!(rt; line.has_turn(Slot(2), 7));
    line.leave(Slot(1));
    line.leave(Slot(2));
    let third = line.may_pass(Slot(3));
    assert!(rt; third);
    Ok(())
}

fn ask_site(_site: SiteId, op: &Op) -> Answer {
    answer_of(op)
}

const FIRST: Instance = Instance {
    session: SessionNo(0),
    life: 0,
};

#[test]
fn slots(rt: HostRuntime) -> Result<(), Fail> {
    let alloc = rt.alloc();
    let c1 = FIRST;
    let (write, snap_create) = (write_command(alloc)?, snap_command(alloc)?);
    let mut session: Session<SessionRequest> = Session::new(alloc, c1, SiteId::A)?;
    let one = session.submit(alloc, 3, write)?;
    let two = session.submit(alloc, 4, snap_create)?;
    if let Some((site, op)) = session.next(alloc, one)? {
        let fed = Fed::Answer(ask_site(site, &op));
        session.ready(alloc, one, &fed)?;
        let reply = session.feed(one, &fed);
        assert!(rt; reply.is_none());
    }
    let kind = session.kind(two);
    assert!(rt; kind == Some((SiteId::A, OpKind::DirFind)));
    Ok(())
}

#[test]
fn client(rt: HostRuntime) -> Result<(), Fail> {
    let alloc = rt.alloc();
    let c1 = FIRST;
    let write = write_command(alloc)?;
    let request_lock = request_of(ImageId(7));
    let mut client: Client<SessionRequest> = Client::new(alloc, c1, SiteId::A)?;
    let one = client.submit(alloc, 3, write, Quiescing::Leaves)?;
    let actor = client.actor(one);
    if let Some((site, op)) = client.next(alloc, one, &actor)? {
        let fed = Fed::Answer(ask_site(site, &op));
        client.ready(alloc, one, &actor, &fed)?;
        let reply = client.feed(one, &actor, site, &op, &fed);
        assert!(rt; reply.is_none());
    }
    client.hear(&request_lock)?;
    let kind = client.kind(Slot(0));
    assert!(rt; kind.is_none());
    Ok(())
}
