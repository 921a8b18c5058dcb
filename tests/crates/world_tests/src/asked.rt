//! Who waits while a client is asked for its lock, and who goes on.
use super::rows::row_holds;

/// Line 7 is past its look under the lock when c1 is asked, and line 12 at its own: it waits until
/// the lock was dropped (a28). c2 is faster then, and line 12 asks for the lock in its turn.
const AT_OWN_LOOK: &str = "\
goes 3 1.1>end 5 1.1>end 7 1.1*3 12 1.2*2 1.2=header-get 26 2.1>notify 2.1
deliver:1 1.2=none 1.2 1.0=none 1.0 1.1=map-set 1.1*2 1.0 1.1*2 1.2=none 1.2
1.0=lock-drop 1.0 1.2=lock-take 1.0 2.1>end 1.2>notify 1.2 deliver:3 2.0*2 1.2>end 6 2.1>end
|came slot1 a1 a2 a3! slot1 a4 a5 a6 a7 a8 a9 a10 a11 a12! slot1 a13 a14 a15 slot2 a16 a17 slot1 \
a18 a19 a20 a21~ a22~ a23~ heard waits waits a24 a25 waits a26 a27! waits a28 a29 a30 a31 a32 a33 \
a34 a35! a36~ a37~ a38~ heard a39 a40 a41 a42 a43 a44 a45 a46! slot1 a47 a48 a49 a50 a51!
|replies 3 ok;5 ok;7 ok;26 ok;12 ok;6 ok 55667788
|mail 1 c2.0>c1.0 a1 RequestLock;2 c1.0>c2.0 a1 ReleasedLock;3 c1.0>c2.0 a1 RequestLock;\
4 c2.0>c1.0 a1 ReleasedLock
";

#[test]
fn a_write_past_its_look_under_lock_ends_first_and_one_at_its_look_under_lock_waits(
    rt: HostRuntime,
) {
    row_holds(&rt, rt.alloc(), AT_OWN_LOOK);
}

/// Line 5 has taken the lock itself (a7), and goes on to its look under the lock though c1 is
/// asked.
const TAKEN: &str = "goes 3 1.1>end 5 1.1*4 26 2.1>notify 2.1 deliver:1 1.0=none 1.0
1.1=header-get 1.1>end 1.0*2 2.1>end 6 2.1>end
|came slot1 a1 a2 a3! slot1 a4 a5 a6 a7 slot1 a8 a9 a10 a11~ a12~ a13~ heard waits a14 a15 a16 a17 \
a18! a19 a20 a21 a22 a23 a24 a25 a26! slot1 a27 a28 a29 a30 a31!
|replies 3 ok;5 ok;26 ok;6 ok 11cccc44
";

#[test]
fn a_write_that_took_the_lock_itself_goes_on_though_it_is_asked_for(rt: HostRuntime) {
    row_holds(&rt, rt.alloc(), TAKEN);
}

/// c4's wish goes to both others that watch. c2 hears it (the notice 3) on its own way to the lock,
/// and isn't asked by that when it has it later. c4 asks again, and then c2 is.
const WITHOUT_IT: &str = "goes 3 1.1>end 5 1.1>end 26 2.1>notify 2.1 27 4.1>notify 4.1
deliver:3 2.0=none 2.0 deliver:1 1.0*2 2.1>end 2.0=none 2.0 4.1*3
deliver:7 2.0=lock-drop 2.0*2 4.1>end 28 4.1>end
|came slot1 a1 a2 a3! slot1 a4 a5 a6 a7 a8 a9 a10 a11 a12! slot1 a13 a14 a15 a16~ a17~ a18~ slot1 \
a19 a20 a21 a22~ a23~ a24~ heard waits heard a25 a26 a27 a28 a29 a30 a31 a32! waits a33~ a34~ a35~ \
heard a36 a37 a38 a39 a40 a41! slot1 a42 a43 a44 a45 a46!
|replies 3 ok;5 ok;26 ok;27 ok;28 ok 11ccccee
|mail 1 c2.0>c1.0 a1 RequestLock;2 c4.0>c1.0 a1 RequestLock;3 c4.0>c2.0 a1 RequestLock;\
4 c1.0>c2.0 a1 ReleasedLock;5 c1.0>c4.0 a1 ReleasedLock;6 c4.0>c1.0 a1 RequestLock;\
7 c4.0>c2.0 a1 RequestLock;8 c2.0>c1.0 a1 ReleasedLock;9 c2.0>c4.0 a1 ReleasedLock
";

#[test]
fn a_wish_that_is_heard_without_the_lock_asks_for_nothing(rt: HostRuntime) {
    row_holds(&rt, rt.alloc(), WITHOUT_IT);
}
