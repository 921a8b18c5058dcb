//! The store ends the watch of an instance: of several lives of a client that watch, the oldest's.
use super::rows::row_holds;

/// Both lives of c1 watch, and the first has the lock. The first end is that one's: the second
/// finds it not watching, and fences it. The second end is the second life's own, which c2 then
/// fences. There is no third. Nor has c2 a watch at first, nor c1 one of another image.
const LIVES: &str = "\
goes 3 1.1>end 5 1.1>end expire:2.1 expire:1.2 stop:1 restart:1 34 1.1>notify 1.1 expire:1.1 1.1*2
1.1=block-add expire:1.1 expire:1.1 1.1>end 26 2.1>block-add 2.1>end 6 2.1>end
|came slot1 a1 a2 a3! slot1 a4 a5 a6 a7 a8 a9 a10 a11 a12! nothing nothing stopped restarted slot1 \
a13 a14 a15 a16~ a17~ a18~ stored a20~ a21~ stored nothing a23 a24 a25 a26 a27 a28! slot1 a29 a30 \
a31 a32~ a33~ a34 a35 a36 a37 a38 a39 a40 a41! slot1 a42 a43 a44 a45 a46!
|replies 3 ok;5 ok;34 ok;26 ok;6 ok 11cccc44
";

#[test]
fn the_oldest_watch_of_a_client_ends_first(rt: HostRuntime) {
    row_holds(&rt, rt.alloc(), LIVES);
}

/// The first life's watch comes late (a13), behind that of the second life, which has the lock. It
/// is the oldest all the same: behind its end c2 finds the second life watching, and asks it alone.
/// Behind the next end c2 fences that.
const LATE_WATCH: &str = "\
goes 3 1.1>end 5 1.1*2 1.1=watch stop:1 restart:1 34 1.1>end late:1.1 expire:1.1
26 2.1>notify 2.1 expire:1.1 expire:1.1 2.1*2 2.1=block-add 2.1>end
|came slot1 a1 a2 a3! slot1 a4 a5 stopped restarted slot1 a6 a7 a8 a9 a10 a11 a12! a13 stored \
slot1 a15 a16 a17 a18~ a19~ a20~ stored nothing a22~ a23~ a24 a25 a26 a27 a28 a29 a30 a31!
|replies 3 ok;34 ok;26 ok
|mail 1 c2.0>c1.1 a1 RequestLock
";

#[test]
fn the_oldest_is_the_one_of_the_least_life(rt: HostRuntime) {
    row_holds(&rt, rt.alloc(), LATE_WATCH);
}
