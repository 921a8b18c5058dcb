//! Each form of a reply.
use super::{FIRST, header, name, sessions};
use crate::holds;
use rbd_kinds::{
    Bytes, HeaderView, Ids, ImageId, MirrorState, Names, NoMemory, ParentLink, Refusal, Reply,
    Role, Shared, SnapId, SnapStatus, SnapView, Snaps,
};
use rbd_text::push_reply;
use std::alloc::Global;
use std::process::Abort;
use std::test::Fail;

fn is_shown(rt: &impl Abort, alloc: Global, reply: &Reply, want: &str) -> Result<bool, NoMemory> {
    let sessions = sessions(rt, alloc)?;
    let mut text = Vec::new(alloc);
    push_reply(&mut text, sessions.as_slice(), reply)?;
    Ok(text.as_slice() == want.as_bytes())
}

fn shows(rt: &impl Abort, alloc: Global, reply: Reply, want: &str) -> bool {
    holds(is_shown(rt, alloc, &reply, want))
}

fn bytes_show(rt: &impl Abort, alloc: Global, bytes: &[u8], want: &str) -> Result<bool, NoMemory> {
    let bytes = Bytes::from_slice(alloc, bytes)?;
    Ok(shows(rt, alloc, Reply::Bytes(bytes), want))
}

#[test]
fn bytes_are_hexadecimal(rt: HostRuntime) -> Result<(), Fail> {
    assert!(rt; bytes_show(&rt, rt.alloc(), b"hello", "ok 68656c6c6f")?);
    assert!(rt; bytes_show(&rt, rt.alloc(), &[0, 255], "ok 00ff")?);
    assert!(rt; bytes_show(&rt, rt.alloc(), &[], "ok")?);
    Ok(())
}

#[test]
fn numbers_are_decimal(rt: HostRuntime) -> Result<(), Fail> {
    assert!(rt; shows(&rt, rt.alloc(), Reply::Done, "ok"));
    assert!(rt; shows(&rt, rt.alloc(), Reply::At(6), "ok at 6"));
    assert!(rt; shows(&rt, rt.alloc(), Reply::SplitBrain(5), "split-brain at 5"));
    let used = Reply::Used { used: 16, of: 256 };
    assert!(rt; shows(&rt, rt.alloc(), used, "ok used 16 of 256"));
    Ok(())
}

fn push_names(rt: &impl Abort, alloc: Global, names: &mut Names) -> Result<(), NoMemory> {
    names.push(name(rt, alloc, b"base")?)?;
    names.push(name(rt, alloc, b"mail")?)
}

#[test]
fn each_name_stands_after_a_space(rt: HostRuntime) -> Result<(), Fail> {
    let mut names = Names::new(rt.alloc());
    push_names(&rt, rt.alloc(), &mut names)?;
    assert!(rt; shows(&rt, rt.alloc(), Reply::Names(names), "ok base mail"));
    let none = Names::new(rt.alloc());
    assert!(rt; shows(&rt, rt.alloc(), Reply::Names(none), "ok"));
    Ok(())
}

#[test]
fn each_id_stands_after_a_space(rt: HostRuntime) -> Result<(), Fail> {
    let ids = Ids::from_vec(Vec::from_slice(rt.alloc(), &[ImageId(2), ImageId(14)])?);
    assert!(rt; shows(&rt, rt.alloc(), Reply::Ids(ids), "ok 2 14"));
    Ok(())
}

fn snap(
    rt: &impl Abort,
    alloc: Global,
    text: &[u8],
    size: u64,
    status: SnapStatus,
) -> Result<SnapView, NoMemory> {
    Ok(SnapView {
        id: SnapId(1),
        name: name(rt, alloc, text)?,
        size,
        status,
        parent: None,
    })
}

fn push_snaps(rt: &impl Abort, alloc: Global, snaps: &mut Snaps) -> Result<(), NoMemory> {
    snaps.push(snap(rt, alloc, b"mon", 4096, SnapStatus::Unprotected)?)?;
    snaps.push(snap(rt, alloc, b"tue", 0, SnapStatus::Unprotecting)?)?;
    snaps.push(snap(rt, alloc, b"wed", 10, SnapStatus::Protected)?)
}

#[test]
fn snapshots_stand_oldest_first(rt: HostRuntime) -> Result<(), Fail> {
    let mut snaps = Snaps::new(rt.alloc());
    push_snaps(&rt, rt.alloc(), &mut snaps)?;
    let want = "ok mon:4096:unprotected tue:0:unprotecting wed:10:protected";
    assert!(rt; shows(&rt, rt.alloc(), Reply::Snaps(snaps), want));
    Ok(())
}

fn push_snap(rt: &impl Abort, alloc: Global, snaps: &mut Snaps) -> Result<(), NoMemory> {
    snaps.push(snap(rt, alloc, b"t", 10_000, SnapStatus::Unprotected)?)
}

/// A header of three objects, with a snapshot and a parent.
fn clone_header(rt: &impl Abort, alloc: Global) -> Result<HeaderView, NoMemory> {
    let mut snaps = Snaps::new(alloc);
    push_snap(rt, alloc, &mut snaps)?;
    let mut view = header(snaps);
    view.size = 10_000;
    view.owner = Some(FIRST);
    view.parent = Some(ParentLink {
        image: ImageId(12),
        snap: SnapId(7),
        overlap: 5000,
    });
    Ok(view)
}

fn header_shows(rt: &impl Abort, alloc: Global, view: HeaderView, want: &str) -> bool {
    assert!(rt; rbd_layout::check(&view.layout).is_ok());
    assert!(rt; view.size < 1 << 62);
    match Shared::new(alloc, view) {
        Ok(view) => shows(rt, alloc, Reply::Info(view), want),
        Err(_) => false,
    }
}

#[test]
fn a_header_is_shown_part_by_part(rt: HostRuntime) -> Result<(), Fail> {
    let view = clone_header(&rt, rt.alloc())?;
    let want =
        "ok size 10000 objects 3 layout 4096/2048/1 snaps 1 parent 12@7 overlap 5000 lock c1.0 role none";
    assert!(rt; header_shows(&rt, rt.alloc(), view, want));
    Ok(())
}

#[test]
fn an_empty_image_has_no_objects(rt: HostRuntime) -> Result<(), Fail> {
    let mut view = header(Snaps::new(rt.alloc()));
    view.role = Role::Secondary;
    let want =
        "ok size 0 objects 0 layout 4096/2048/1 snaps 0 parent none lock none role secondary";
    assert!(rt; header_shows(&rt, rt.alloc(), view, want));
    Ok(())
}

#[test]
fn a_stuck_daemon_names_the_snapshot(rt: HostRuntime) -> Result<(), Fail> {
    let name = name(&rt, rt.alloc(), b"mon")?;
    assert!(rt; shows(&rt, rt.alloc(), Reply::Stuck(name), "stuck mon"));
    Ok(())
}

fn status_shows(
    rt: &impl Abort,
    alloc: Global,
    role: Role,
    state: MirrorState,
    want: &str,
) -> bool {
    shows(rt, alloc, Reply::Status { role, at: 5, state }, want)
}

#[test]
fn a_primary_has_no_state(rt: HostRuntime) -> Result<(), Fail> {
    assert!(rt;
        status_shows(
            &rt,
            rt.alloc(),
            Role::Primary,
            MirrorState::Dash,
            "ok primary 5 -"
        )
    );
    Ok(())
}

fn secondary_shows(rt: &impl Abort, alloc: Global, state: MirrorState, want: &str) -> bool {
    status_shows(rt, alloc, Role::Secondary, state, want)
}

#[test]
fn a_secondary_shows_how_it_follows(rt: HostRuntime) -> Result<(), Fail> {
    let alloc = rt.alloc();
    assert!(rt;
        secondary_shows(
            &rt,
            alloc,
            MirrorState::Following,
            "ok secondary 5 following"
        )
    );
    assert!(rt;
        secondary_shows(
            &rt,
            alloc,
            MirrorState::SplitBrain,
            "ok secondary 5 split-brain"
        )
    );
    assert!(rt; secondary_shows(&rt, alloc, MirrorState::Missing, "ok secondary 5 missing"));
    Ok(())
}

#[test]
fn a_stuck_secondary_names_the_snapshot(rt: HostRuntime) -> Result<(), Fail> {
    let state = MirrorState::Stuck(Shared::new(rt.alloc(), name(&rt, rt.alloc(), b"s")?)?);
    assert!(rt; secondary_shows(&rt, rt.alloc(), state, "ok secondary 5 stuck s"));
    Ok(())
}

#[test]
fn a_refusal_shows_errno_and_word(rt: HostRuntime) -> Result<(), Fail> {
    assert!(rt;
        shows(
            &rt,
            rt.alloc(),
            Reply::Refused(Refusal::BadRange),
            "error 22 BadRange"
        )
    );
    assert!(rt;
        shows(
            &rt,
            rt.alloc(),
            Reply::Refused(Refusal::Fenced),
            "error 108 Fenced"
        )
    );
    Ok(())
}
