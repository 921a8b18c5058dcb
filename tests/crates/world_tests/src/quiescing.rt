//! `quiesce` holds the changes of its own client back, and `resume` lets them go on.
use super::rows::row_holds;

/// Line 5 waits at its look under the lock, and the read of line 33 doesn't wait. Line 26 is
/// another client's, and goes its way to the lock.
const HELD: &str = "goes 3 1.1>end 29 1.1>end 5 1.1*2 1.1=none 1.1 33 1.2>end
26 2.1*2 2.1=watch 2.1>notify 30 1.2>end 1.1=header-get 1.1>end
|came slot1 a1 a2 a3! slot1 a4 a5 a6 a7 a8! slot1 a9 a10 waits slot2 a11 a12 a13 a14 a15! slot1 \
a16 a17 a18 a19~ a20~ slot2 a21! a22 a23 a24 a25 a26!
|replies 3 ok;29 ok;33 ok 00000000;30 ok;5 ok
";

#[test]
fn a_quiesce_holds_its_own_clients_changes_until_a_resume(rt: HostRuntime) {
    row_holds(&rt, rt.alloc(), HELD);
}

/// c1 is asked for the lock of the quiesced image, and keeps it until line 30. Then it lets it go,
/// and line 5 asks for it anew.
const KEPT: &str = "goes 3 1.1>end 29 1.1>end 26 2.1>notify 2.1 deliver:1 1.0=none 1.0 2.1*3
5 1.1*2 1.1=none 1.1 30 1.2>end 1.1=none 1.1 1.0=lock-drop 1.0*2 2.1>end
1.1=lock-take 1.1>notify 1.1 deliver:4 2.0*2 1.1>end 10 2.1>end
|came slot1 a1 a2 a3! slot1 a4 a5 a6 a7 a8! slot1 a9 a10 a11 a12~ a13~ a14~ heard waits a15~ a16~ \
a17~ slot1 a18 a19 waits slot2 a20! waits a21 a22 a23 a24 a25 a26 a27 a28! a29~ a30~ a31~ heard \
a32 a33 a34 a35 a36 a37 a38 a39! slot1 a40 a41 a42 a43 a44!
|replies 3 ok;29 ok;30 ok;26 ok;5 ok;10 ok 11223344
";

#[test]
fn the_lock_of_a_quiesced_image_is_kept_until_a_resume(rt: HostRuntime) {
    row_holds(&rt, rt.alloc(), KEPT);
}

/// c1's watch ends, and c2 breaks the lock. c1's quiesce is nothing to it.
const BROKEN: &str = "goes 3 1.1>end 29 1.1>end expire:1.1 26 2.1>end 6 2.1>end
|came slot1 a1 a2 a3! slot1 a4 a5 a6 a7 a8! stored slot1 a10 a11 a12 a13~ a14~ a15 a16 a17 a18 a19 \
a20 a21 a22! slot1 a23 a24 a25 a26 a27!
|replies 3 ok;29 ok;26 ok;6 ok 00cccc00
";

#[test]
fn a_quiesce_holds_back_no_other_client(rt: HostRuntime) {
    row_holds(&rt, rt.alloc(), BROKEN);
}
