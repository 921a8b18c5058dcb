//! What a slot wanted when its client was stopped comes late, once, or never.
use super::rows::row_holds;

/// Line 7 is about to write the object 0 when c1 stops. Only its slot had wanted something, and
/// that comes once.
const ONCE: &str = "goes 3 1.1>end 5 1.1>end 7 1.1*4 late:1.1 stop:1
late:1.2 late:1.0 late:1.65 late:2.1 late:5.1 late:1.1 late:1.1 6 2.1>end
|came slot1 a1 a2 a3! slot1 a4 a5 a6 a7 a8 a9 a10 a11 a12! slot1 a13 a14 a15 a16 nothing stopped \
nothing nothing nothing nothing nothing a17 nothing slot1 a18 a19 a20 a21 a22!
|replies 3 ok;5 ok;6 ok 11aa3344
|history+5 h 17 start 7 c1.0
h 18 look 7 a13
h 19 look 7 a14
h 20 look 7 a15
h 21 look 7 a16
h 22 stop c1
h 23 lost 7
h 24 effect late:c1.0 a17 piece
h 25 start 6 c2.0
h 26 look 6 a18
h 27 look 6 a19
h 28 look 6 a20
h 29 look 6 a21
h 30 look 6 a22
h 31 reply 6
";

#[test]
fn a_late_operation_comes_once_and_none_of_an_empty_slot(rt: HostRuntime) {
    row_holds(&rt, rt.alloc(), ONCE);
}

/// Line 12 waits behind line 7 at the object 0, and wants nothing.
const WAITED: &str = "\
goes 3 1.1>end 5 1.1>end 7 1.1*4 12 1.2*3 1.2=none stop:1 late:1.2 late:1.1 6 2.1>end
|came slot1 a1 a2 a3! slot1 a4 a5 a6 a7 a8 a9 a10 a11 a12! slot1 a13 a14 a15 a16 slot2 a17 a18 a19 \
stopped nothing a20 slot1 a21 a22 a23 a24 a25!
|replies 3 ok;5 ok;6 ok 11aa3344
";

#[test]
fn what_waits_at_a_stop_sends_nothing(rt: HostRuntime) {
    row_holds(&rt, rt.alloc(), WAITED);
}

/// Line 7 is about to write the object 1, and line 12 behind it the object 0. Their operations come
/// in the other order.
const ANY_ORDER: &str = "\
goes 3 1.1>end 5 1.1>end 7 1.1*3 12 1.2*3 1.1*3 1.2 1.1=data-write 1.2=data-write
stop:1 late:1.2 late:1.1 late:1.2 6 2.1>end
|came slot1 a1 a2 a3! slot1 a4 a5 a6 a7 a8 a9 a10 a11 a12! slot1 a13 a14 a15 slot2 a16 a17 a18 a19 \
a20 a21 a22 stopped a23 a24 nothing slot1 a25 a26 a27 a28 a29!
|replies 3 ok;5 ok;6 ok 5566bb44
";

#[test]
fn what_several_slots_wanted_comes_in_any_order(rt: HostRuntime) {
    row_holds(&rt, rt.alloc(), ANY_ORDER);
}

/// c1 is about to let its lock go, in slot 0. The drop comes late, and nobody is told of it. Line
/// 26 was on its way, and takes the lock without a fence.
const RELEASE: &str = "goes 3 1.1>end 5 1.1>end 26 2.1>notify 2.1 deliver:1 1.0=lock-drop stop:1
late:1.0 late:1.0 2.1=lock-take 2.1>end 6 2.1>end
|came slot1 a1 a2 a3! slot1 a4 a5 a6 a7 a8 a9 a10 a11 a12! slot1 a13 a14 a15 a16~ a17~ a18~ heard \
stopped a19 nothing a20 a21 a22 a23 a24 a25! slot1 a26 a27 a28 a29 a30!
|replies 3 ok;5 ok;26 ok;6 ok 11cccc44
|mail 1 c2.0>c1.0 a1 RequestLock
";

#[test]
fn a_release_may_come_late_too(rt: HostRuntime) {
    row_holds(&rt, rt.alloc(), RELEASE);
}

/// What the first life wanted comes while the second runs. Then the second stops, and what that
/// wanted comes.
const NEXT_LIFE: &str = "goes 3 1.1>end 5 1.1>end 7 1.1*4 stop:1 restart:1 late:1.1 late:1.1
34 1.1 1.1=header-get stop:1 late:1.1 late:1.1 6 2.1>end
|came slot1 a1 a2 a3! slot1 a4 a5 a6 a7 a8 a9 a10 a11 a12! slot1 a13 a14 a15 a16 stopped restarted \
a17 nothing slot1 a18 stopped a19 nothing slot1 a20 a21 a22 a23 a24!
|replies 3 ok;5 ok;6 ok 11aa3344
|history+5 h 17 start 7 c1.0
h 18 look 7 a13
h 19 look 7 a14
h 20 look 7 a15
h 21 look 7 a16
h 22 stop c1
h 23 lost 7
h 24 effect late:c1.0 a17 piece
h 25 start 34 c1.1
h 26 look 34 a18
h 27 stop c1
h 28 lost 34
h 29 look late:c1.1 a19
h 30 start 6 c2.0
h 31 look 6 a20
h 32 look 6 a21
h 33 look 6 a22
h 34 look 6 a23
h 35 look 6 a24
h 36 reply 6
";

#[test]
fn what_a_life_wanted_may_come_beside_the_next_one(rt: HostRuntime) {
    row_holds(&rt, rt.alloc(), NEXT_LIFE);
}

/// The second life stops, too, and wanted nothing. What the first one wanted comes no more.
const NO_MORE: &str = "goes 3 1.1>end 5 1.1>end 7 1.1*4 stop:1 restart:1 stop:1 late:1.1 6 2.1>end
|came slot1 a1 a2 a3! slot1 a4 a5 a6 a7 a8 a9 a10 a11 a12! slot1 a13 a14 a15 a16 stopped restarted \
stopped nothing slot1 a17 a18 a19 a20 a21!
|replies 3 ok;5 ok;6 ok 11223344
";

#[test]
fn what_a_life_wanted_comes_no_more_behind_the_next_stop(rt: HostRuntime) {
    row_holds(&rt, rt.alloc(), NO_MORE);
}
