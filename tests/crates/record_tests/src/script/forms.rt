//! Each form once, shown as Rust shows values. An image `d` has the byte 100.
use super::behind_client;
use rbd_script::{Line, Said, read};
use std::alloc::Global;
use std::process::Abort;

/// Commands of session `c1`, and how each is shown.
const COMMANDS: &str =
    "c1 create d 1 object 4096 unit 512 count 2 journal|Create { image: AskedName { name: Name { text: Bytes { bytes: [100] } } }, size: AtMost { value: 1 }, shape: Shape { object: Some(AtMost { value: 4096 }), unit: Some(AtMost { value: 512 }), count: Some(2), journal: true } }
c1 create d 1|Create { image: AskedName { name: Name { text: Bytes { bytes: [100] } } }, size: AtMost { value: 1 }, shape: Shape { object: None, unit: None, count: None, journal: false } }
c1 clone p@s c object 4096 unit 512 count 2 journal|Clone { parent: AskedName { name: Name { text: Bytes { bytes: [112] } } }, snap: AskedName { name: Name { text: Bytes { bytes: [115] } } }, image: AskedName { name: Name { text: Bytes { bytes: [99] } } }, shape: Shape { object: Some(AtMost { value: 4096 }), unit: Some(AtMost { value: 512 }), count: Some(2), journal: true } }
c1 clone p@s c|Clone { parent: AskedName { name: Name { text: Bytes { bytes: [112] } } }, snap: AskedName { name: Name { text: Bytes { bytes: [115] } } }, image: AskedName { name: Name { text: Bytes { bytes: [99] } } }, shape: Shape { object: None, unit: None, count: None, journal: false } }
c1 write d 7 00ff|Write { image: AskedName { name: Name { text: Bytes { bytes: [100] } } }, at: AtMost { value: 7 }, bytes: Payload { bytes: Bytes { bytes: [0, 255] } } }
c1 fill d 7 8 a0|Fill { image: AskedName { name: Name { text: Bytes { bytes: [100] } } }, at: AtMost { value: 7 }, len: AtMost { value: 8 }, byte: 160 }
c1 discard d 7 8|Discard { image: AskedName { name: Name { text: Bytes { bytes: [100] } } }, at: AtMost { value: 7 }, len: AtMost { value: 8 } }
c1 read d 7 8|Read { image: AskedName { name: Name { text: Bytes { bytes: [100] } } }, snap: None, at: AtMost { value: 7 }, len: AtMost { value: 8 } }
c1 read d@s 7 8|Read { image: AskedName { name: Name { text: Bytes { bytes: [100] } } }, snap: Some(AskedName { name: Name { text: Bytes { bytes: [115] } } }), at: AtMost { value: 7 }, len: AtMost { value: 8 } }
c1 resize d 9|Resize { image: AskedName { name: Name { text: Bytes { bytes: [100] } } }, size: AtMost { value: 9 } }
c1 rename d e|Rename { from: AskedName { name: Name { text: Bytes { bytes: [100] } } }, to: AskedName { name: Name { text: Bytes { bytes: [101] } } } }
c1 rm d|Remove { image: AskedName { name: Name { text: Bytes { bytes: [100] } } } }
c1 info d|Info { image: AskedName { name: Name { text: Bytes { bytes: [100] } } } }
c1 du d|Used { image: AskedName { name: Name { text: Bytes { bytes: [100] } } } }
c1 flatten d|Flatten { image: AskedName { name: Name { text: Bytes { bytes: [100] } } } }
c1 quiesce d|Quiesce { image: AskedName { name: Name { text: Bytes { bytes: [100] } } } }
c1 resume d|Resume { image: AskedName { name: Name { text: Bytes { bytes: [100] } } } }
c1 close d|Close { image: AskedName { name: Name { text: Bytes { bytes: [100] } } } }
c1 ls|List
c1 children d@s|Children { image: AskedName { name: Name { text: Bytes { bytes: [100] } } }, snap: AskedName { name: Name { text: Bytes { bytes: [115] } } } }
c1 tell d 68|Tell { image: AskedName { name: Name { text: Bytes { bytes: [100] } } }, bytes: Payload { bytes: Bytes { bytes: [104] } } }
c1 snap create d@s|SnapCreate { image: AskedName { name: Name { text: Bytes { bytes: [100] } } }, snap: AskedName { name: Name { text: Bytes { bytes: [115] } } } }
c1 snap rm d@s|SnapRemove { image: AskedName { name: Name { text: Bytes { bytes: [100] } } }, snap: AskedName { name: Name { text: Bytes { bytes: [115] } } } }
c1 snap protect d@s|SnapProtect { image: AskedName { name: Name { text: Bytes { bytes: [100] } } }, snap: AskedName { name: Name { text: Bytes { bytes: [115] } } } }
c1 snap unprotect d@s|SnapUnprotect { image: AskedName { name: Name { text: Bytes { bytes: [100] } } }, snap: AskedName { name: Name { text: Bytes { bytes: [115] } } } }
c1 snap rollback d@s|SnapRollback { image: AskedName { name: Name { text: Bytes { bytes: [100] } } }, snap: AskedName { name: Name { text: Bytes { bytes: [115] } } } }
c1 snap ls d|SnapList { image: AskedName { name: Name { text: Bytes { bytes: [100] } } } }
c1 mirror enable d|MirrorEnable { image: AskedName { name: Name { text: Bytes { bytes: [100] } } } }
c1 mirror demote d|MirrorDemote { image: AskedName { name: Name { text: Bytes { bytes: [100] } } } }
c1 mirror resync d|MirrorResync { image: AskedName { name: Name { text: Bytes { bytes: [100] } } } }
c1 mirror status d|MirrorStatus { image: AskedName { name: Name { text: Bytes { bytes: [100] } } } }
c1 mirror follow d|MirrorFollow { image: AskedName { name: Name { text: Bytes { bytes: [100] } } } }
c1 mirror promote d|MirrorPromote { image: AskedName { name: Name { text: Bytes { bytes: [100] } } }, force: false }
c1 mirror promote d force|MirrorPromote { image: AskedName { name: Name { text: Bytes { bytes: [100] } } }, force: true }";

/// Lines of a schedule.
const EVENTS: &str = "@poll c1 3|Poll { session: SessionNo(0), slot: Slot(3), times: 1 }
@poll c1 3 5|Poll { session: SessionNo(0), slot: Slot(3), times: 5 }
@until c1 3 dir-find|Until { session: SessionNo(0), slot: Slot(3), kind: DirFind }
@settle 3|Settle(AtMost { value: 3 })
@deliver 3|Deliver(AtMost { value: 3 })
@lose 3|Lose(AtMost { value: 3 })
@expire c1 b 3|Expire { session: SessionNo(0), site: B, image: ImageId(3) }
@trim b 3 4|Trim { site: B, image: ImageId(3), object: AtMost { value: 4 } }
@stop c1|Stop(SessionNo(0))
@restart c1|Restart(SessionNo(0))
@late c1 3|Late { session: SessionNo(0), slot: Slot(3) }";

/// How the last line of a script is shown, the line given behind `client c1 a`.
fn shown(alloc: Global, line: &str) -> Option<String> {
    let text = behind_client(alloc, line)?;
    let script = read(alloc, text.as_slice(), false).ok()?;
    line_shown(alloc, script.lines.as_slice().last()?)
}

/// A command alone, without its session, and an event whole.
fn line_shown(alloc: Global, line: &Line) -> Option<String> {
    match &line.said {
        Said::Command { command, .. } => format!(in alloc; "{command:?}").ok(),
        event => format!(in alloc; "{event:?}").ok(),
    }
}

fn is_shown(alloc: Global, row: &str) -> bool {
    let Some((line, want)) = row.split_once('|') else {
        return false;
    };
    match shown(alloc, line) {
        Some(text) => text.as_str() == want,
        None => false,
    }
}

fn each_is_shown(rt: &impl Abort, alloc: Global, rows: &str) {
    for row in rows.split('\n') {
        assert!(rt; is_shown(alloc, row), "{row}");
    }
}

#[test]
fn each_command_has_its_form(rt: HostRuntime) {
    each_is_shown(&rt, rt.alloc(), COMMANDS);
}

#[test]
fn each_line_of_a_schedule_has_its_form(rt: HostRuntime) {
    each_is_shown(&rt, rt.alloc(), EVENTS);
}
