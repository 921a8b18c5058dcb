//! The lock of an image goes from one client to another that asks for it: by a notice, which may be
//! lost, come late, or come again.
use super::rows::row_holds;

/// c1 has the lock, and line 7 is past its look under the lock when c2 asks. So c1 lets the lock go
/// behind the last piece of line 7 (a25): it drops it, and tells that. Line 26 was on its way, and
/// takes it.
const HANDED_OVER: &str = "goes 3 1.1>end 5 1.1>end 7 1.1*3 26 2.1>notify 2.1 1.0=none
deliver:1 1.0=none 1.0 1.1*4 1.0=lock-drop 1.0 1.0=notify 1.0 1.0=none 1.0
2.1=lock-take 2.1>end 6 2.1>end
|came slot1 a1 a2 a3! slot1 a4 a5 a6 a7 a8 a9 a10 a11 a12! slot1 a13 a14 a15 slot1 a16 a17 a18 \
a19~ a20~ a21~ heard waits a22 a23 a24 a25! a26 a27 waits a28 a29 a30 a31 a32 a33! slot1 a34 a35 \
a36 a37 a38!
|replies 3 ok;5 ok;7 ok;26 ok;6 ok 11cccc44
|history+5 h 17 start 7 c1.0
h 18 look 7 a13
h 19 look 7 a14
h 20 look 7 a15
h 21 start 26 c2.0
h 22 look 26 a16
h 23 look 26 a17
h 24 look 26 a18
h 25 look 26 a19
h 26 look 26 a20
h 27 look 26 a21
h 28 look 7 a22
h 29 effect 7 a23 piece
h 30 look 7 a24
h 31 effect 7 a25 piece
h 32 reply 7
h 33 look house:c1.0 a26
h 34 look house:c1.0 a27
h 35 look 26 a28
h 36 look 26 a29
h 37 look 26 a30
h 38 effect 26 a31 piece
h 39 look 26 a32
h 40 effect 26 a33 piece
h 41 reply 26
h 42 start 6 c2.0
h 43 look 6 a34
h 44 look 6 a35
h 45 look 6 a36
h 46 look 6 a37
h 47 look 6 a38
h 48 reply 6
|a+5 o a13 c1.0 dir-find rbd_directory id
o a14 c1.0 header-get rbd_header.1 header
o a15 c1.0 header-get rbd_header.1 header
o a16 c2.0 dir-find rbd_directory id
o a17 c2.0 header-get rbd_header.1 header
o a18 c2.0 watch rbd_header.1 done
o a19 c2.0 lock-take rbd_header.1 held
o a20 c2.0 watchers-get rbd_header.1 instances
o a21 c2.0 notify rbd_header.1 done
o a22 c1.0 map-set rbd_object_map.1 done
o a23 c1.0 data-write rbd_data.1.0000000000000000 done
o a24 c1.0 map-set rbd_object_map.1 done
o a25 c1.0 data-write rbd_data.1.0000000000000001 done
o a26 c1.0 lock-drop rbd_header.1 done
o a27 c1.0 notify rbd_header.1 done
o a28 c2.0 lock-take rbd_header.1 done
o a29 c2.0 header-get rbd_header.1 header
o a30 c2.0 map-set rbd_object_map.1 done
o a31 c2.0 data-write rbd_data.1.0000000000000000 done
o a32 c2.0 map-set rbd_object_map.1 done
o a33 c2.0 data-write rbd_data.1.0000000000000001 done
o a34 c2.0 dir-find rbd_directory id
o a35 c2.0 header-get rbd_header.1 header
o a36 c2.0 data-read rbd_data.1.0000000000000000 bytes
o a37 c2.0 data-read rbd_data.1.0000000000000001 bytes
o a38 c2.0 header-get rbd_header.1 header
|b -
|mail 1 c2.0>c1.0 a1 RequestLock;2 c1.0>c2.0 a1 ReleasedLock
";

#[test]
fn a_lock_that_is_asked_for_is_handed_over_behind_the_last_write(rt: HostRuntime) {
    row_holds(&rt, rt.alloc(), HANDED_OVER);
}

/// The notices 1 and 2 come to nobody at first, and c2 asks for the lock again and again. c1 keeps
/// it meanwhile, and writes line 7. Then the notice 3 comes, and the first one late, and twice. The
/// lock is let go once.
const ASKED_AGAIN: &str = "goes 3 1.1>end 5 1.1>end 26 2.1>notify 2.1*7 1.0=none 1.0 7 1.1>end
2.1*3 deliver:3 deliver:1 deliver:1 1.0*3 2.1>end 6 2.1>end
|came slot1 a1 a2 a3! slot1 a4 a5 a6 a7 a8 a9 a10 a11 a12! slot1 a13 a14 a15 a16~ a17~ a18~ a19~ \
a20~ a21~ a22~ a23~ a24~ waits slot1 a25 a26 a27 a28 a29 a30 a31! a32~ a33~ a34~ heard heard heard \
a35 a36 waits a37 a38 a39 a40 a41 a42! slot1 a43 a44 a45 a46 a47!
|replies 3 ok;5 ok;7 ok;26 ok;6 ok 11cccc44
|mail 1 c2.0>c1.0 a1 RequestLock;2 c2.0>c1.0 a1 RequestLock;3 c2.0>c1.0 a1 RequestLock;\
4 c2.0>c1.0 a1 RequestLock;5 c1.0>c2.0 a1 ReleasedLock
";

#[test]
fn who_wants_a_lock_asks_again_where_its_notice_is_lost(rt: HostRuntime) {
    row_holds(&rt, rt.alloc(), ASKED_AGAIN);
}

/// The notice 1 comes again behind the handover, when c1 hasn't the lock, and that is passed over.
/// It comes again when line 12 has taken the lock back, and c1 lets it go, though c2 wants it no
/// more.
const TOLD_AGAIN: &str = "goes 3 1.1>end 5 1.1>end 26 2.1>notify 2.1 deliver:1 1.0*2 2.1>end
deliver:1 1.0=none 1.0 12 1.1=dir-find 1.1>notify 1.1 deliver:3 2.0*2 1.1>end 1.0
deliver:1 1.0*3 10 2.1>end
|came slot1 a1 a2 a3! slot1 a4 a5 a6 a7 a8 a9 a10 a11 a12! slot1 a13 a14 a15 a16~ a17~ a18~ heard \
a19 a20 a21 a22 a23 a24 a25 a26! heard waits slot1 a27 a28 a29~ a30~ a31~ heard a32 a33 a34 a35 \
a36 a37 a38 a39! waits heard a40 a41 waits slot1 a42 a43 a44 a45 a46!
|replies 3 ok;5 ok;26 ok;12 ok;10 ok 55667788
";

#[test]
fn a_wish_that_comes_again_asks_for_the_lock_that_its_hearer_has_then(rt: HostRuntime) {
    row_holds(&rt, rt.alloc(), TOLD_AGAIN);
}
