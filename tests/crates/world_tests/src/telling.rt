//! What clients tell each other: a notice to each other one that watches, which is heard as often
//! as it is delivered.
use super::rows::row_holds;

/// c1, c2 and c4 watch. c1 tells hi, and c2 yo.
const EACH: &str = "goes 3 1.1>end 5 1.1>end 26 2.1>lock-take 27 4.1>lock-take 31 1.1>end
heard:2= deliver:1 heard:2=hi heard:4= deliver:2 deliver:1 heard:2=hi+hi heard:4=hi
32 2.2>end deliver:4 heard:4=hi+yo heard:1= deliver:3 heard:1=yo heard:2=hi+hi heard:3=
|came slot1 a1 a2 a3! slot1 a4 a5 a6 a7 a8 a9 a10 a11 a12! slot1 a13 a14 a15 slot1 a16 a17 a18 \
slot1 a19 a20! heard heard heard slot2 a21 a22! heard heard
|replies 3 ok;5 ok;31 ok;32 ok
|mail 1 c1.0>c2.0 a1 hi;2 c1.0>c4.0 a1 hi;3 c2.0>c1.0 a1 yo;4 c2.0>c4.0 a1 yo
";

#[test]
fn each_other_client_that_watches_hears_what_is_told_as_often_as_it_comes(rt: HostRuntime) {
    row_holds(&rt, rt.alloc(), EACH);
}

/// Nobody watches when c4 tells something first, and c1 when it does so again. c3 tells its own at
/// the other site, whose image 1 nobody watches.
const NOBODY: &str = "goes 3 1.1>end 35 4.1>end 5 1.1>end 19 3.1>end 36 3.1>end deliver:1 heard:1=
|came slot1 a1 a2 a3! slot1 a4 a5! slot1 a6 a7 a8 a9 a10 a11 a12 a13 a14! slot1 b1 b2 b3! slot1 b4 \
b5! nothing
|replies 3 ok;35 ok;5 ok;19 ok;36 ok
|mail -
";

#[test]
fn what_is_told_where_nobody_watches_comes_to_nobody(rt: HostRuntime) {
    row_holds(&rt, rt.alloc(), NOBODY);
}

/// c4 tells me, and doesn't watch. c1 hears it once, and stops. Its next life hears it no more.
const STOPPED: &str = "goes 3 1.1>end 5 1.1>end 35 4.1>end deliver:1 heard:1=me heard:4= deliver:2
stop:1 heard:1= deliver:1 restart:1 deliver:1 heard:1=
|came slot1 a1 a2 a3! slot1 a4 a5 a6 a7 a8 a9 a10 a11 a12! slot1 a13 a14! heard nothing stopped \
nothing restarted nothing
|replies 3 ok;5 ok;35 ok
|mail 1 c4.0>c1.0 a1 me
";

#[test]
fn a_stopped_life_hears_nothing_and_its_next_one_nothing_of_its(rt: HostRuntime) {
    row_holds(&rt, rt.alloc(), STOPPED);
}

/// Line 31 is told, and line 5 is in the middle of its pieces: neither waits for the other.
const BESIDE: &str = "goes 3 1.1>end 5 1.1*7 31 1.2>end 1.1>end
|came slot1 a1 a2 a3! slot1 a4 a5 a6 a7 a8 a9 a10 slot2 a11 a12! a13 a14!
|replies 3 ok;31 ok;5 ok
";

#[test]
fn a_tell_waits_for_no_write(rt: HostRuntime) {
    row_holds(&rt, rt.alloc(), BESIDE);
}
