//! Lines of an operation log: each kind of object, and the store's own steps.
use super::{AGAIN, FIRST, name, sessions};
use crate::holds;
use rbd_kinds::{
    Answer, Bytes, ChildrenOp, DataOp, DirectoryOp, HeaderOp, Ids, ImageId, Instance, JournalOp,
    MapOp, NoMemory, Op, Parts, SiteId, SnapId,
};
use rbd_site::{Done, DoneOp};
use rbd_text::push_log;
use std::alloc::Global;
use std::process::Abort;
use std::test::Fail;

fn is_log(rt: &impl Abort, alloc: Global, log: &[Done], want: &str) -> Result<bool, NoMemory> {
    let sessions = sessions(rt, alloc)?;
    let mut text = Vec::new(alloc);
    push_log(&mut text, sessions.as_slice(), SiteId::A, log)?;
    Ok(text.as_slice() == want.as_bytes())
}

fn shows(rt: &impl Abort, alloc: Global, done: Done, want: &str) -> bool {
    let log = [done];
    holds(is_log(rt, alloc, &log, want))
}

/// As the 17th operation, of the first session's first life.
fn op_shows(rt: &impl Abort, alloc: Global, op: Op, answer: Answer, want: &str) -> bool {
    let done = Done {
        number: 17,
        instance: Some(FIRST),
        op: DoneOp::Op(op),
        answer,
    };
    shows(rt, alloc, done, want)
}

#[test]
fn the_directory_has_no_id(rt: HostRuntime) -> Result<(), Fail> {
    let name = name(&rt, rt.alloc(), b"disk")?;
    let op = Op::Directory(DirectoryOp::Add { name });
    let want = "o a17 c1.0 dir-add rbd_directory id\n";
    assert!(rt; op_shows(&rt, rt.alloc(), op, Answer::Id(ImageId(1)), want));
    Ok(())
}

#[test]
fn the_children_have_no_id(rt: HostRuntime) -> Result<(), Fail> {
    let op = Op::Children(ChildrenOp::List {
        parent: ImageId(1),
        snap: SnapId(1),
    });
    let answer = Answer::Ids(Ids::new(rt.alloc()));
    assert!(rt;
        op_shows(
            &rt,
            rt.alloc(),
            op,
            answer,
            "o a17 c1.0 child-list rbd_children ids\n"
        )
    );
    Ok(())
}

#[test]
fn the_blocklist_has_no_id(rt: HostRuntime) -> Result<(), Fail> {
    let op = Op::BlockAdd { instance: AGAIN };
    assert!(rt;
        op_shows(
            &rt,
            rt.alloc(),
            op,
            Answer::Done,
            "o a17 c1.0 block-add blocklist done\n"
        )
    );
    Ok(())
}

#[test]
fn a_header_has_its_image_in_hexadecimal(rt: HostRuntime) -> Result<(), Fail> {
    let op = Op::Header {
        image: ImageId(26),
        op: HeaderOp::LockTake,
    };
    let want = "o a17 c1.0 lock-take rbd_header.1a held\n";
    assert!(rt; op_shows(&rt, rt.alloc(), op, Answer::Held(AGAIN), want));
    Ok(())
}

#[test]
fn a_data_object_has_sixteen_digits(rt: HostRuntime) -> Result<(), Fail> {
    let read = DataOp::Read {
        snap: None,
        parts: Parts::new(rt.alloc()),
    };
    let op = Op::on_object(rt.alloc(), ImageId(1), 4095, read)?;
    let want = "o a17 c1.0 data-read rbd_data.1.0000000000000fff none\n";
    assert!(rt; op_shows(&rt, rt.alloc(), op, Answer::Absent, want));
    Ok(())
}

fn map_shows(rt: &impl Abort, alloc: Global, op: MapOp, want: &str) -> bool {
    let image = ImageId(255);
    let answer = Answer::Bits(Bytes::new(alloc));
    op_shows(rt, alloc, Op::Map { image, op }, answer, want)
}

#[test]
fn a_map_has_its_snapshot_behind_it(rt: HostRuntime) -> Result<(), Fail> {
    let head = MapOp::Get { snap: None };
    assert!(rt;
        map_shows(
            &rt,
            rt.alloc(),
            head,
            "o a17 c1.0 map-get rbd_object_map.ff bits\n"
        )
    );
    let snap = Some(SnapId(18));
    let want = "o a17 c1.0 map-get rbd_object_map.ff.0000000000000012 bits\n";
    assert!(rt; map_shows(&rt, rt.alloc(), MapOp::Get { snap }, want));
    Ok(())
}

#[test]
fn a_journal_has_its_image(rt: HostRuntime) -> Result<(), Fail> {
    let op = Op::Journal {
        image: ImageId(16),
        op: JournalOp::Read { seq: 3 },
    };
    assert!(rt;
        op_shows(
            &rt,
            rt.alloc(),
            op,
            Answer::Absent,
            "o a17 c1.0 journal-read journal.10 none\n"
        )
    );
    Ok(())
}

/// A step of the store.
fn step_shows(rt: &impl Abort, alloc: Global, op: DoneOp, want: &str) -> bool {
    let done = Done {
        number: 2,
        instance: None,
        op,
        answer: Answer::Done,
    };
    shows(rt, alloc, done, want)
}

#[test]
fn the_store_does_its_own_steps(rt: HostRuntime) -> Result<(), Fail> {
    let image = ImageId(1);
    let trim = DoneOp::Trim { image, object: 0 };
    assert!(rt;
        step_shows(
            &rt,
            rt.alloc(),
            trim,
            "o a2 store trim rbd_data.1.0000000000000000 done\n"
        )
    );
    let instance: Instance = AGAIN;
    let expire = DoneOp::Expire { image, instance };
    assert!(rt;
        step_shows(
            &rt,
            rt.alloc(),
            expire,
            "o a2 store expire rbd_header.1 done\n"
        )
    );
    Ok(())
}
