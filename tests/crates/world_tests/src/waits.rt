//! Requests that wait: a poll then is a call, and adds nothing to history and logs.
use super::rows::row_holds;

/// Line 13 waits before its look under the lock until line 9 has its reply.
const SECOND_SNAP: &str = "\
goes 3 1.1>end 9 13 1.1 1.2*2 1.2=none 1.2*2 1.1>header-snap-add 1.2=none 1.2 1.1 1.2=header-get
1.2>end
|came slot1 a1 a2 a3! slot1 slot2 a4 a5 a6 waits waits a7 a8 a9 a10 a11 a12 waits a13! a14 a15 a16 \
a17!
|replies 3 ok;9 ok;13 ok
|history+3 h 6 start 9 c1.0
h 7 start 13 c1.0
h 8 look 9 a4
h 9 look 13 a5
h 10 look 13 a6
h 11 look 9 a7
h 12 look 9 a8
h 13 look 9 a9
h 14 look 9 a10
h 15 look 9 a11
h 16 look 9 a12
h 17 effect 9 a13 snap
h 18 reply 9
h 19 look 13 a14
h 20 look 13 a15
h 21 look 13 a16
h 22 effect 13 a17 snap
h 23 reply 13
";

#[test]
fn a_second_snapshot_waits_behind_the_first(rt: HostRuntime) {
    row_holds(&rt, rt.alloc(), SECOND_SNAP);
}

/// Line 9 waits until line 5 has its reply, also between the pieces.
const BEHIND_A_WRITE: &str = "goes 3 1.1>end 5 9 1.1 1.2*3 1.1*6 1.2 1.1*2 1.2>end
|came slot1 a1 a2 a3! slot1 slot2 a4 a5 a6 waits a7 a8 a9 a10 a11 a12 waits a13 a14! a15 a16 a17 \
a18!
|replies 3 ok;5 ok;9 ok
";

#[test]
fn a_snapshot_waits_behind_a_write(rt: HostRuntime) {
    row_holds(&rt, rt.alloc(), BEHIND_A_WRITE);
}
