//! An owner that doesn't watch is fenced, and loses the lock.
use super::rows::row_holds;

/// c1 stops when line 7 has written one of its two objects. As long as its watch is there c2 asks
/// it, in vain. Behind the end of the watch c2 fences it (a28), breaks the lock and takes it. What
/// line 7 wanted comes late, and changes nothing: the byte 4096 is c2's.
const STOPPED: &str = "goes 3 1.1>end 5 1.1>end 7 1.1*6 1.1=data-write stop:1
26 2.1>notify 2.1 deliver:1 expire:1.1 2.1*2 2.1=block-add 2.1 2.1=lock-break 2.1 2.1=lock-take
2.1>end late:1.1 6 2.1>end
|came slot1 a1 a2 a3! slot1 a4 a5 a6 a7 a8 a9 a10 a11 a12! slot1 a13 a14 a15 a16 a17 a18 stopped \
slot1 a19 a20 a21 a22~ a23~ a24~ nothing stored a26~ a27~ a28 a29 a30 a31 a32 a33 a34 a35! a36 \
slot1 a37 a38 a39 a40 a41!
|replies 3 ok;5 ok;26 ok;6 ok 11cccc44
|history+5 h 17 start 7 c1.0
h 18 look 7 a13
h 19 look 7 a14
h 20 look 7 a15
h 21 look 7 a16
h 22 effect 7 a17 piece
h 23 look 7 a18
h 24 stop c1
h 25 lost 7
h 26 start 26 c2.0
h 27 look 26 a19
h 28 look 26 a20
h 29 look 26 a21
h 30 look 26 a22
h 31 look 26 a23
h 32 look 26 a24
h 33 look 26 a26
h 34 look 26 a27
h 35 fence 26 a28 c1.0
h 36 look 26 a29
h 37 look 26 a30
h 38 look 26 a31
h 39 look 26 a32
h 40 effect 26 a33 piece
h 41 look 26 a34
h 42 effect 26 a35 piece
h 43 reply 26
h 44 look late:c1.0 a36
h 45 start 6 c2.0
h 46 look 6 a37
h 47 look 6 a38
h 48 look 6 a39
h 49 look 6 a40
h 50 look 6 a41
h 51 reply 6
|a+5 o a13 c1.0 dir-find rbd_directory id
o a14 c1.0 header-get rbd_header.1 header
o a15 c1.0 header-get rbd_header.1 header
o a16 c1.0 map-set rbd_object_map.1 done
o a17 c1.0 data-write rbd_data.1.0000000000000000 done
o a18 c1.0 map-set rbd_object_map.1 done
o a19 c2.0 dir-find rbd_directory id
o a20 c2.0 header-get rbd_header.1 header
o a21 c2.0 watch rbd_header.1 done
o a22 c2.0 lock-take rbd_header.1 held
o a23 c2.0 watchers-get rbd_header.1 instances
o a24 c2.0 notify rbd_header.1 done
o a25 store expire rbd_header.1 done
o a26 c2.0 lock-take rbd_header.1 held
o a27 c2.0 watchers-get rbd_header.1 instances
o a28 c2.0 block-add blocklist done
o a29 c2.0 lock-break rbd_header.1 done
o a30 c2.0 lock-take rbd_header.1 done
o a31 c2.0 header-get rbd_header.1 header
o a32 c2.0 map-set rbd_object_map.1 done
o a33 c2.0 data-write rbd_data.1.0000000000000000 done
o a34 c2.0 map-set rbd_object_map.1 done
o a35 c2.0 data-write rbd_data.1.0000000000000001 done
o a36 c1.0 data-write rbd_data.1.0000000000000001 fenced
o a37 c2.0 dir-find rbd_directory id
o a38 c2.0 header-get rbd_header.1 header
o a39 c2.0 data-read rbd_data.1.0000000000000000 bytes
o a40 c2.0 data-read rbd_data.1.0000000000000001 bytes
o a41 c2.0 header-get rbd_header.1 header
|b -
|mail 1 c2.0>c1.0 a1 RequestLock
";

#[test]
fn a_stopped_owner_is_fenced_and_its_late_write_changes_nothing(rt: HostRuntime) {
    row_holds(&rt, rt.alloc(), STOPPED);
}

/// c1 runs, and isn't told that its watch has ended. Its next command is refused at its first
/// operation.
const ALIVE: &str = "\
goes 3 1.1>end 5 1.1>end expire:1.1 26 2.1>end 12 1.1=dir-find 1.1 1.1=none 6 2.1>end
|came slot1 a1 a2 a3! slot1 a4 a5 a6 a7 a8 a9 a10 a11 a12! stored slot1 a14 a15 a16 a17~ a18~ a19 \
a20 a21 a22 a23 a24 a25 a26! slot1 a27! slot1 a28 a29 a30 a31 a32!
|replies 3 ok;5 ok;26 ok;12 error 108 Fenced;6 ok 11cccc44
";

#[test]
fn an_owner_that_runs_and_is_fenced_learns_it_by_its_next_operation(rt: HostRuntime) {
    row_holds(&rt, rt.alloc(), ALIVE);
}

/// c2 and c4 both find that c1 doesn't watch. c2 is faster: c4 finds the lock changed (a27), then
/// held by c2, and asks that.
const BOTH_BREAK: &str = "\
goes 3 1.1>end 5 1.1>end stop:1 expire:1.1 26 2.1>block-add 27 4.1>block-add
2.1*2 4.1*2 2.1 4.1*2 4.1=notify 2.1>end 4.1 deliver:1 2.0*2 4.1>end 28 4.1>end
|came slot1 a1 a2 a3! slot1 a4 a5 a6 a7 a8 a9 a10 a11 a12! stopped stored slot1 a14 a15 a16 a17~ \
a18~ slot1 a19 a20 a21 a22~ a23~ a24 a25 a26 a27 a28 a29~ a30~ a31 a32 a33 a34 a35! a36~ heard a37 \
a38 a39 a40 a41 a42! slot1 a43 a44 a45 a46 a47!
|replies 3 ok;5 ok;26 ok;27 ok;28 ok 11ccccee
|mail 1 c4.0>c2.0 a1 RequestLock;2 c2.0>c4.0 a1 ReleasedLock
";

#[test]
fn who_breaks_a_lock_second_asks_who_was_faster(rt: HostRuntime) {
    row_holds(&rt, rt.alloc(), BOTH_BREAK);
}
