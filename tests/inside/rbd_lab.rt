use crate::run::{Status, run, run_alone};
use rbd_edge::{MemSink, MemSource, SureSource};
use std::alloc::Global;
use std::process::Abort;
use std::test::Fail;

/// A session of one image.
const FIRST: &str =
    "client c1 a\nc1 create disk 10 object 4096\nc1 write disk 2 abcd\nc1 read disk 0 6\nc1 write disk 9 abcd\nc1 read none 0 1\nc1 create disk 10 object 4096\n";

const FIRST_REPLIES: &str =
    "2 c1 ok\n3 c1 ok\n4 c1 ok 0000abcd0000\n5 c1 error 22 BadRange\n6 c1 error 2 NoImage\n7 c1 error 17 ImageExists\n";

/// The write lies in two objects.
const TWO_PIECES: &str =
    "client c1 a\nc1 create disk 8192 object 4096\nc1 write disk 4095 abcd\nc1 read disk 4094 4\nc1 read disk 4096 2\n";

const TWO_PIECES_REPLIES: &str = "2 c1 ok\n3 c1 ok\n4 c1 ok 00abcd00\n5 c1 ok cd00\n";

const SNAPSHOTS: &str =
    "client c1 a\nc1 create d 4096 object 4096\nc1 write d 0 11\nc1 snap create d@s\nc1 write d 0 22\nc1 write d 0 33\nc1 read d@s 0 2\nc1 read d 0 2\nc1 snap create d@s\nc1 read d@t 0 1\nc1 snap rm d@s\nc1 read d 0 1\nc1 ls\n";

const SNAPSHOT_REPLIES: &str =
    "2 c1 ok\n3 c1 ok\n4 c1 ok\n5 c1 ok\n6 c1 ok\n7 c1 ok 1100\n8 c1 ok 3300\n9 c1 error 17 SnapExists\n10 c1 error 2 NoSnap\n11 c1 ok\n12 c1 ok 33\n13 c1 ok d\n";

/// The fourth poll is that of `ls`, so it comes before the other client has made its image.
const NEXT: &str =
    "client c2 a\nclient c1 a\nc1 create d 4096 object 4096\nc1 ls\n@poll c1 1 4\nc2 create e 4096 object 4096\n";

const NEXT_REPLIES: &str = "3 c1 ok\n4 c1 ok d\n6 c2 ok\n";

/// The `ls` with `&` comes behind the first operation of the `create`, and before the `info`.
const PASSED: &str = "client c1 a\nc1 create d 4096 object 4096\nc1 info d\n& c1 ls\n";

const PASSED_REPLIES: &str =
    "4 c1 ok d\n2 c1 ok\n3 c1 ok size 4096 objects 1 layout 4096/4096/1 snaps 0 parent none lock none role none\n";

/// The last `ls` waits for the read with `&`.
const BESIDE: &str =
    "client c1 a\nc1 create d 8192 object 4096\n@settle 100\n& c1 read d 4095 2\nc1 ls\n";

const BESIDE_REPLIES: &str = "2 c1 ok\n4 c1 ok 0000\n5 c1 ok d\n";

/// A round is one operation of the `create`, so the first `info` finds no header.
const ONE_ROUND: &str =
    "client c1 a\nclient c2 a\nc1 create d 4096 object 4096\n@settle 1\nc2 info d\n@poll c2 1 2\n@settle 1\nc2 info d\n";

const ONE_ROUND_REPLIES: &str =
    "5 c2 error 2 NoImage\n3 c1 ok\n8 c2 ok size 4096 objects 1 layout 4096/4096/1 snaps 0 parent none lock none role none\n";

/// The first `ls` comes before the name is added, and the second before the header is made.
const HALF_MADE: &str =
    "client c1 a\nclient c2 a\nc1 create d 4096 object 4096\n@until c1 1 dir-add\nc2 ls\n@poll c2 1\n@until c1 1 header-create\nc2 ls\n@poll c2 1\n";

const HALF_MADE_REPLIES: &str = "5 c2 ok\n8 c2 ok d\n3 c1 ok\n";

/// A read between the two pieces of a write.
const ONE_PIECE: &str =
    "client c1 a\nclient c2 a\nc1 create d 8192 object 4096\n@settle 1000\nc1 write d 4094 11223344\nc2 read d 4094 4\n@until c1 1 data-write\n@poll c1 1\n@poll c2 1 5\nc2 read d 4094 4\n";

const ONE_PIECE_REPLIES: &str = "3 c1 ok\n6 c2 ok 11220000\n5 c1 ok\n10 c2 ok 11223344\n";

/// The second write looks the name up first, so the first one writes after it.
const LOOKED_UP_FIRST: &str =
    "client c1 a\nc1 create d 4096 object 4096\n@settle 100\nc1 write d 0 11\n& c1 write d 0 22\n@poll c1 2\nc1 read d 0 1\n";

const LOOKED_UP_FIRST_REPLIES: &str = "2 c1 ok\n5 c1 ok\n4 c1 ok\n7 c1 ok 11\n";

/// The snapshot waits for the write before it, and the write behind it for the snapshot.
const ALONE: &str =
    "client c1 a\nc1 create d 8192 object 4096\n@settle 100\nc1 write d 4095 1111\n& c1 snap create d@s\n& c1 write d 4095 2222\nc1 read d@s 4095 2\nc1 read d 4095 2\n";

const ALONE_REPLIES: &str = "2 c1 ok\n4 c1 ok\n5 c1 ok\n6 c1 ok\n7 c1 ok 1111\n8 c1 ok 2222\n";

/// What `fill`, `info` and `snap ls` are refused.
const SHOWN: &str =
    "client c1 a\nc1 fill d 0 1 aa\nc1 info d\nc1 snap ls d\nc1 create d 4096 object 4096\nc1 fill d 0 0 aa\nc1 fill d 4096 0 aa\nc1 fill d 0 4097 aa\nc1 fill d 4095 2 aa\nc1 fill d 4095 1 aa\nc1 read d 4094 2\n";

const SHOWN_REPLIES: &str =
    "2 c1 error 2 NoImage\n3 c1 error 2 NoImage\n4 c1 error 2 NoImage\n5 c1 ok\n6 c1 error 22 BadRange\n7 c1 error 22 BadRange\n8 c1 error 22 BadRange\n9 c1 error 22 BadRange\n10 c1 ok\n11 c1 ok 00aa\n";

/// A snapshot is taken between the two looks of a read at the header.
const AGAIN: &str =
    "client c1 a\nclient c2 a\nc1 create d 4096 object 4096\nc1 write d 0 11\n@settle 100\nc2 read d 0 1\n@poll c2 1 3\nc1 snap create d@s\nc1 write d 0 22\n@poll c1 1 11\n@poll c2 1\n";

const AGAIN_TRACE: &str =
    "h 1 start 3 c1.0\nh 2 effect 3 a1 name\nh 3 look 3 a2\nh 4 effect 3 a3 create\nh 5 reply 3\nh 6 start 4 c1.0\nh 7 look 4 a4\nh 8 look 4 a5\nh 9 look 4 a6\nh 10 look 4 a7\nh 11 look 4 a8\nh 12 look 4 a9\nh 13 effect 4 a10 piece\nh 14 reply 4\nh 15 start 6 c2.0\nh 16 look 6 a11\nh 17 look 6 a12\nh 18 look 6 a13\nh 19 start 8 c1.0\nh 20 look 8 a14\nh 21 look 8 a15\nh 22 look 8 a16\nh 23 look 8 a17\nh 24 look 8 a18\nh 25 effect 8 a19 snap\nh 26 reply 8\nh 27 start 9 c1.0\nh 28 look 9 a20\nh 29 look 9 a21\nh 30 look 9 a22\nh 31 look 9 a23\nh 32 effect 9 a24 piece\nh 33 reply 9\nh 34 look 6 a25\nh 35 look 6 a26\nh 36 look 6 a27\nh 37 look 6 a28\nh 38 look 6 a29\nh 39 reply 6\no a1 c1.0 dir-add rbd_directory id\no a2 c1.0 map-resize rbd_object_map.1 done\no a3 c1.0 header-create rbd_header.1 done\no a4 c1.0 dir-find rbd_directory id\no a5 c1.0 header-get rbd_header.1 header\no a6 c1.0 watch rbd_header.1 done\no a7 c1.0 lock-take rbd_header.1 done\no a8 c1.0 header-get rbd_header.1 header\no a9 c1.0 map-set rbd_object_map.1 done\no a10 c1.0 data-write rbd_data.1.0000000000000000 done\no a11 c2.0 dir-find rbd_directory id\no a12 c2.0 header-get rbd_header.1 header\no a13 c2.0 data-read rbd_data.1.0000000000000000 bytes\no a14 c1.0 dir-find rbd_directory id\no a15 c1.0 header-get rbd_header.1 header\no a16 c1.0 header-get rbd_header.1 header\no a17 c1.0 map-get rbd_object_map.1 bits\no a18 c1.0 map-put rbd_object_map.1.0000000000000001 done\no a19 c1.0 header-snap-add rbd_header.1 snap\no a20 c1.0 dir-find rbd_directory id\no a21 c1.0 header-get rbd_header.1 header\no a22 c1.0 header-get rbd_header.1 header\no a23 c1.0 map-set rbd_object_map.1 done\no a24 c1.0 data-write rbd_data.1.0000000000000000 done\no a25 c2.0 header-get rbd_header.1 header\no a26 c2.0 dir-find rbd_directory id\no a27 c2.0 header-get rbd_header.1 header\no a28 c2.0 data-read rbd_data.1.0000000000000000 bytes\no a29 c2.0 header-get rbd_header.1 header\n3 c1 ok\n4 c1 ok\n8 c1 ok\n9 c1 ok\n6 c2 ok 22\n";

/// Each site has its own images and log.
const SITES: &str =
    "client c1 a\nclient c2 b\nc1 create d 4096 object 4096\nc2 create d 8192 object 4096\nc1 info d\nc2 info d\n";

const SITES_TRACE: &str =
    "h 1 start 3 c1.0\nh 2 start 4 c2.0\nh 3 effect 3 a1 name\nh 4 effect 4 b1 name\nh 5 look 3 a2\nh 6 look 4 b2\nh 7 effect 3 a3 create\nh 8 reply 3\nh 9 start 5 c1.0\nh 10 effect 4 b3 create\nh 11 reply 4\nh 12 start 6 c2.0\nh 13 look 5 a4\nh 14 look 6 b4\nh 15 look 5 a5\nh 16 reply 5\nh 17 look 6 b5\nh 18 reply 6\no a1 c1.0 dir-add rbd_directory id\no a2 c1.0 map-resize rbd_object_map.1 done\no a3 c1.0 header-create rbd_header.1 done\no a4 c1.0 dir-find rbd_directory id\no a5 c1.0 header-get rbd_header.1 header\no b1 c2.0 dir-add rbd_directory id\no b2 c2.0 map-resize rbd_object_map.1 done\no b3 c2.0 header-create rbd_header.1 done\no b4 c2.0 dir-find rbd_directory id\no b5 c2.0 header-get rbd_header.1 header\n3 c1 ok\n4 c2 ok\n5 c1 ok size 4096 objects 1 layout 4096/4096/1 snaps 0 parent none lock none role none\n6 c2 ok size 8192 objects 2 layout 4096/4096/1 snaps 0 parent none lock none role none\n";

/// The store trims the one object that is there.
const TRIMMED: &str =
    "client c1 a\nc1 create d 8192 object 4096\nc1 write d 0 11\nc1 snap create d@s\nc1 write d 0 22\nc1 snap rm d@s\n@settle 100\n@trim a 1 0\n@trim a 1 1\n@trim b 1 0\n@trim a 2 0\nc1 read d 0 1\n";

const TRIMMED_TRACE: &str =
    "h 1 start 2 c1.0\nh 2 effect 2 a1 name\nh 3 look 2 a2\nh 4 effect 2 a3 create\nh 5 reply 2\nh 6 start 3 c1.0\nh 7 look 3 a4\nh 8 look 3 a5\nh 9 look 3 a6\nh 10 look 3 a7\nh 11 look 3 a8\nh 12 look 3 a9\nh 13 effect 3 a10 piece\nh 14 reply 3\nh 15 start 4 c1.0\nh 16 look 4 a11\nh 17 look 4 a12\nh 18 look 4 a13\nh 19 look 4 a14\nh 20 look 4 a15\nh 21 effect 4 a16 snap\nh 22 reply 4\nh 23 start 5 c1.0\nh 24 look 5 a17\nh 25 look 5 a18\nh 26 look 5 a19\nh 27 look 5 a20\nh 28 effect 5 a21 piece\nh 29 reply 5\nh 30 start 6 c1.0\nh 31 look 6 a22\nh 32 look 6 a23\nh 33 look 6 a24\nh 34 effect 6 a25 unsnap\nh 35 look 6 a26\nh 36 reply 6\nh 37 start 12 c1.0\nh 38 look 12 a28\nh 39 look 12 a29\nh 40 look 12 a30\nh 41 look 12 a31\nh 42 reply 12\no a1 c1.0 dir-add rbd_directory id\no a2 c1.0 map-resize rbd_object_map.1 done\no a3 c1.0 header-create rbd_header.1 done\no a4 c1.0 dir-find rbd_directory id\no a5 c1.0 header-get rbd_header.1 header\no a6 c1.0 watch rbd_header.1 done\no a7 c1.0 lock-take rbd_header.1 done\no a8 c1.0 header-get rbd_header.1 header\no a9 c1.0 map-set rbd_object_map.1 done\no a10 c1.0 data-write rbd_data.1.0000000000000000 done\no a11 c1.0 dir-find rbd_directory id\no a12 c1.0 header-get rbd_header.1 header\no a13 c1.0 header-get rbd_header.1 header\no a14 c1.0 map-get rbd_object_map.1 bits\no a15 c1.0 map-put rbd_object_map.1.0000000000000001 done\no a16 c1.0 header-snap-add rbd_header.1 snap\no a17 c1.0 dir-find rbd_directory id\no a18 c1.0 header-get rbd_header.1 header\no a19 c1.0 header-get rbd_header.1 header\no a20 c1.0 map-set rbd_object_map.1 done\no a21 c1.0 data-write rbd_data.1.0000000000000000 done\no a22 c1.0 dir-find rbd_directory id\no a23 c1.0 header-get rbd_header.1 header\no a24 c1.0 header-get rbd_header.1 header\no a25 c1.0 header-snap-remove rbd_header.1 done\no a26 c1.0 map-remove rbd_object_map.1.0000000000000001 done\no a27 store trim rbd_data.1.0000000000000000 done\no a28 c1.0 dir-find rbd_directory id\no a29 c1.0 header-get rbd_header.1 header\no a30 c1.0 data-read rbd_data.1.0000000000000000 bytes\no a31 c1.0 header-get rbd_header.1 header\n2 c1 ok\n3 c1 ok\n4 c1 ok\n5 c1 ok\n6 c1 ok\n12 c1 ok 22\n";

/// A session is stopped with the lock and a write on its way, and another one takes over.
const STOPPED: &str =
    "client c1 a\nclient c2 a\nc1 create disk 8192 object 4096\nc1 write disk 0 11\n@settle 1000\nc1 write disk 0 22\n@until c1 1 data-write\n@stop c1\n@expire c1 a 1\nc2 write disk 1 33\n@settle 1000\n@late c1 1\n@restart c1\nc1 write disk 2 44\n@settle 1000\nc2 read disk 0 3\n";

const STOPPED_REPLIES: &str = "3 c1 ok\n4 c1 ok\n10 c2 ok\n14 c1 ok\n16 c2 ok 113344\n6 c1 lost\n";

const TRACE: &str =
    "h 1 start 2 c1.0\nh 2 effect 2 a1 name\nh 3 look 2 a2\nh 4 effect 2 a3 create\nh 5 reply 2\no a1 c1.0 dir-add rbd_directory id\no a2 c1.0 map-resize rbd_object_map.1 done\no a3 c1.0 header-create rbd_header.1 done\n2 c1 ok\n";

const TRACE_AT_B: &str =
    "h 1 start 2 c1.0\nh 2 look 2 b1\nh 3 reply 2\no b1 c1.0 dir-list rbd_directory names\n2 c1 ok\n";

const USAGE: &str =
    "usage: rbd_lab run [--trace] | threads [--trace] [--turns N] | gen --seed N --clients C --commands K\n";

fn words(alloc: Global, text: &str) -> Result<Vec<String>, Fail> {
    let mut words = Vec::new(alloc);
    for word in text.split_whitespace() {
        words.push(String::from_str(alloc, word)?)?;
    }
    Ok(words)
}

/// Runs with a source in blocks of seven bytes and a sink that takes five at a time: the status,
/// and the sink.
fn printed(alloc: Global, text: &str, script: &str) -> Result<(Status, MemSink), Fail> {
    let words = words(alloc, text)?;
    let bytes = Vec::from_slice(alloc, script.as_bytes())?;
    let mut source = MemSource::new(bytes, 7, Vec::new(alloc));
    let mut sink = MemSink::new(alloc, 4_096, 5, Vec::new(alloc))?;
    let status = run_alone(alloc, words.as_slice(), &mut source, &mut sink);
    Ok((status, sink))
}

/// A run with these words ends so, and prints this.
fn prints(
    rt: &impl Abort,
    alloc: Global,
    words: &str,
    script: &str,
    ended: Status,
    told: &str,
) -> Result<(), Fail> {
    let (status, sink) = printed(alloc, words, script)?;
    assert_eq!(rt; status, ended, "{words}: {script}");
    assert_eq!(rt; sink.held(), told.as_bytes(), "{words}: {script}");
    Ok(())
}

/// The same for each of some scripts, and what it prints.
fn all_print(
    rt: &impl Abort,
    alloc: Global,
    words: &str,
    ended: Status,
    rows: &[(&str, &str)],
) -> Result<(), Fail> {
    for &(script, told) in rows {
        prints(rt, alloc, words, script, ended, told)?;
    }
    Ok(())
}

#[test]
fn a_script_is_played(rt: HostRuntime) -> Result<(), Fail> {
    let rows = [
        (FIRST, FIRST_REPLIES),
        (TWO_PIECES, TWO_PIECES_REPLIES),
        ("", ""),
        ("# nothing\n\n", ""),
    ];
    all_print(&rt, rt.alloc(), "run", Status::Done, &rows)
}

#[test]
fn the_call_with_a_runtime_does_the_same(rt: HostRuntime) -> Result<(), Fail> {
    let words = words(rt.alloc(), "run")?;
    let bytes = Vec::from_slice(rt.alloc(), FIRST.as_bytes())?;
    let mut source = SureSource::new(bytes);
    let mut sink = MemSink::new(rt.alloc(), 4_096, 5, Vec::new(rt.alloc()))?;
    let status = run(&rt, rt.alloc(), words.as_slice(), &mut source, &mut sink);
    assert_eq!(rt; status, Status::Done);
    assert_eq!(rt; sink.held(), FIRST_REPLIES.as_bytes());
    Ok(())
}

#[test]
fn the_first_fault_is_told(rt: HostRuntime) -> Result<(), Fail> {
    let rows = [
        ("c", "line 1: unknown word\n"),
        ("client", "line 1: missing part\n"),
        ("client c1", "line 1: missing part\n"),
        ("client client a", "line 1: bad name\n"),
        ("client c1 a\nc1 wri", "line 2: unknown word\n"),
        (
            "client c1 a\n\n# c1\nc1 walk disk",
            "line 4: unknown word\n",
        ),
        (
            "client c1 a\nc1 read disk 00 1\nc1 walk",
            "line 2: bad number\n",
        ),
        ("client c1 a\nc1 read disk 1 65537", "line 2: bad number\n"),
        ("client c1 a\nc1 write disk 1 abc", "line 2: bad number\n"),
        ("client c1 a\nc1 ls x", "line 2: extra part\n"),
        ("client c1 a\nc2 ls", "line 2: unknown word\n"),
    ];
    all_print(&rt, rt.alloc(), "run", Status::BadLine, &rows)
}

#[test]
fn a_form_that_isnt_built_is_an_unknown_word(rt: HostRuntime) -> Result<(), Fail> {
    let rows = [
        (
            "client c1 a\nc1 children disk@s\n",
            "line 2: unknown word\n",
        ),
        (
            "client c1 a\n@late c1 1\nc1 flatten disk\n",
            "line 3: unknown word\n",
        ),
        (
            "client c1 a\nc1 create disk 1 journal\n",
            "line 2: unknown word\n",
        ),
        (
            "client c1 a\nc1 flatten disk\nc1 read disk 00 1\n",
            "line 3: bad number\n",
        ),
    ];
    all_print(&rt, rt.alloc(), "run", Status::BadLine, &rows)
}

#[test]
fn commands_start_when_they_may(rt: HostRuntime) -> Result<(), Fail> {
    let rows = [
        (NEXT, NEXT_REPLIES),
        (PASSED, PASSED_REPLIES),
        (BESIDE, BESIDE_REPLIES),
    ];
    all_print(&rt, rt.alloc(), "run", Status::Done, &rows)
}

#[test]
fn requests_go_on_as_the_schedule_says(rt: HostRuntime) -> Result<(), Fail> {
    let rows = [
        (ONE_ROUND, ONE_ROUND_REPLIES),
        (HALF_MADE, HALF_MADE_REPLIES),
        (ONE_PIECE, ONE_PIECE_REPLIES),
    ];
    all_print(&rt, rt.alloc(), "run", Status::Done, &rows)
}

#[test]
fn changes_go_in_line(rt: HostRuntime) -> Result<(), Fail> {
    let rows = [
        (LOOKED_UP_FIRST, LOOKED_UP_FIRST_REPLIES),
        (ALONE, ALONE_REPLIES),
        (SHOWN, SHOWN_REPLIES),
    ];
    all_print(&rt, rt.alloc(), "run", Status::Done, &rows)
}

#[test]
fn another_takes_over_from_who_is_stopped(rt: HostRuntime) -> Result<(), Fail> {
    let rows = [(STOPPED, STOPPED_REPLIES)];
    all_print(&rt, rt.alloc(), "run", Status::Done, &rows)
}

#[test]
fn a_trace_tells_who_did_what(rt: HostRuntime) -> Result<(), Fail> {
    let rows = [
        (AGAIN, AGAIN_TRACE),
        (SITES, SITES_TRACE),
        (TRIMMED, TRIMMED_TRACE),
    ];
    all_print(&rt, rt.alloc(), "run --trace", Status::Done, &rows)
}

#[test]
fn snapshots_show_what_was(rt: HostRuntime) -> Result<(), Fail> {
    prints(
        &rt,
        rt.alloc(),
        "run",
        SNAPSHOTS,
        Status::Done,
        SNAPSHOT_REPLIES,
    )
}

#[test]
fn a_trace_has_history_and_log(rt: HostRuntime) -> Result<(), Fail> {
    prints(
        &rt,
        rt.alloc(),
        "run --trace",
        "client c1 a\nc1 create disk 0\n",
        Status::Done,
        TRACE,
    )
}

#[test]
fn the_log_is_that_of_the_sessions_site(rt: HostRuntime) -> Result<(), Fail> {
    prints(
        &rt,
        rt.alloc(),
        "run --trace",
        "client c1 b\nc1 ls\n",
        Status::Done,
        TRACE_AT_B,
    )
}

#[test]
fn other_words_get_the_usage_line(rt: HostRuntime) -> Result<(), Fail> {
    for words in [
        "",
        "walk",
        "RUN",
        "run run",
        "run --help",
        "--trace run",
        "run --trace x",
    ] {
        prints(&rt, rt.alloc(), words, FIRST, Status::Usage, USAGE)?;
    }
    Ok(())
}

/// How a run into a sink ends.
fn ended(alloc: Global, script: &str, sink: &mut MemSink) -> Result<Status, Fail> {
    let words = words(alloc, "run")?;
    let bytes = Vec::from_slice(alloc, script.as_bytes())?;
    let mut source = SureSource::new(bytes);
    Ok(run_alone(alloc, words.as_slice(), &mut source, sink))
}

#[test]
fn a_sink_that_fails_has_a_first_part(rt: HostRuntime) -> Result<(), Fail> {
    let mut sink = MemSink::new(rt.alloc(), 1_024, 4, vec![in rt.alloc(); 3]?)?;
    let status = ended(rt.alloc(), TWO_PIECES, &mut sink)?;
    assert_eq!(rt; status, Status::WriteFault);
    assert_eq!(rt; sink.held(), b"2 c1 ok\n".as_slice());
    Ok(())
}

#[test]
fn a_full_sink_has_a_first_part(rt: HostRuntime) -> Result<(), Fail> {
    let mut sink = MemSink::new(rt.alloc(), 8, 4, Vec::new(rt.alloc()))?;
    let status = ended(rt.alloc(), TWO_PIECES, &mut sink)?;
    assert_eq!(rt; status, Status::WriteFault);
    assert_eq!(rt; sink.held(), b"2 c1 ok\n".as_slice());
    Ok(())
}

#[test]
fn a_source_that_fails_plays_nothing(rt: HostRuntime) -> Result<(), Fail> {
    let words = words(rt.alloc(), "run")?;
    let bytes = Vec::from_slice(rt.alloc(), FIRST.as_bytes())?;
    let mut source = MemSource::new(bytes, 7, vec![in rt.alloc(); 2]?);
    let mut sink = MemSink::new(rt.alloc(), 4_096, 5, Vec::new(rt.alloc()))?;
    let status = run_alone(rt.alloc(), words.as_slice(), &mut source, &mut sink);
    assert_eq!(rt; status, Status::ReadFault);
    assert_eq!(rt; sink.held(), b"".as_slice());
    Ok(())
}

#[test]
fn exit_statuses_are_those_of_the_page(rt: HostRuntime) {
    for (status, code) in [
        (Status::Done, 0),
        (Status::Usage, 1),
        (Status::BadLine, 2),
        (Status::ReadFault, 3),
        (Status::WriteFault, 4),
        (Status::NoMemory, 5),
    ] {
        assert_eq!(rt; status.code(), code);
    }
}
