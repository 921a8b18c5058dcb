//! A client stops, and begins its next life.
use super::rows::row_holds;

/// The lines 12, 5, 9 and 7 are begun in this order, and line 5 has its reply when c1 stops. The
/// others are lost, by their numbers. Nothing comes then of its slots, and no line is begun, until
/// c1 is there again: with its next life, and all slots free. What was lost isn't begun again.
const LOSES: &str = "goes 3 1.1>end 12 5 9 7 1.2>end stop:1 1.1 1.3 1.0 1.1=none 33 stop:1
restart:1 1.1 12 restart:1 33 1.1>end
|came slot1 a1 a2 a3! slot1 slot2 slot3 slot4 a4 a5 a6 a7 a8 a9 a10 a11 a12! stopped nothing \
nothing nothing nothing nothing restarted nothing nothing nothing slot1 a13 a14 a15 a16 a17!
|replies 3 ok;5 ok;33 ok 11223344
|history+3 h 6 start 12 c1.0
h 7 start 5 c1.0
h 8 start 9 c1.0
h 9 start 7 c1.0
h 10 look 5 a4
h 11 look 5 a5
h 12 look 5 a6
h 13 look 5 a7
h 14 look 5 a8
h 15 look 5 a9
h 16 effect 5 a10 piece
h 17 look 5 a11
h 18 effect 5 a12 piece
h 19 reply 5
h 20 stop c1
h 21 lost 7
h 22 lost 9
h 23 lost 12
h 24 start 33 c1.1
h 25 look 33 a13
h 26 look 33 a14
h 27 look 33 a15
h 28 look 33 a16
h 29 look 33 a17
h 30 reply 33
";

#[test]
fn a_stop_loses_the_lines_without_a_reply_in_their_order(rt: HostRuntime) {
    row_holds(&rt, rt.alloc(), LOSES);
}

/// A client that was never stopped isn't restarted, and one that was stopped isn't stopped again.
const NO_LINES: &str = "goes restart:1 stop:1 stop:1 late:1.1 late:1.0 restart:1 restart:1 stop:1
3 restart:1 3 1.1>end
|came nothing stopped nothing nothing nothing restarted nothing stopped nothing restarted slot1 a1 \
a2 a3!
|replies 3 ok
|history h 1 stop c1
h 2 stop c1
h 3 start 3 c1.2
h 4 effect 3 a1 name
h 5 look 3 a2
h 6 effect 3 a3 create
h 7 reply 3
";

#[test]
fn a_client_without_lines_loses_none(rt: HostRuntime) {
    row_holds(&rt, rt.alloc(), NO_LINES);
}

/// c2 is in the middle of line 6.
const OTHERS: &str = "goes 3 1.1>end 5 1.1>end 6 2.1*2 7 1.1 stop:1 2.1>end
|came slot1 a1 a2 a3! slot1 a4 a5 a6 a7 a8 a9 a10 a11 a12! slot1 a13 a14 slot1 a15 stopped a16 a17 \
a18!
|replies 3 ok;5 ok;6 ok 11223344
";

#[test]
fn a_stop_leaves_the_other_clients(rt: HostRuntime) {
    row_holds(&rt, rt.alloc(), OTHERS);
}

/// The first life has the lock, watches, and has quiesced the image. The second knows nothing of
/// it: line 34 isn't held back, watches, and goes the whole way to the lock. It asks the first
/// life, which hears no notice any more (nor does the second hear it), and then fences it.
const KNOWS_NOTHING: &str = "goes 3 1.1>end 5 1.1>end 29 1.1>end stop:1 restart:1 34 1.1*2 1.1=watch
1.1>notify 1.1 deliver:1 1.0=none 1.0 expire:1.1 1.1*2 1.1=block-add 1.1>end 33 1.1>end
|came slot1 a1 a2 a3! slot1 a4 a5 a6 a7 a8 a9 a10 a11 a12! slot1 a13 a14 a15! stopped restarted \
slot1 a16 a17 a18 a19~ a20~ a21~ nothing waits stored a23~ a24~ a25 a26 a27 a28 a29 a30! slot1 a31 \
a32 a33 a34 a35!
|replies 3 ok;5 ok;29 ok;34 ok;33 ok 1122dd44
|mail 1 c1.1>c1.0 a1 RequestLock
";

#[test]
fn a_next_life_knows_nothing_of_the_one_before(rt: HostRuntime) {
    row_holds(&rt, rt.alloc(), KNOWS_NOTHING);
}
