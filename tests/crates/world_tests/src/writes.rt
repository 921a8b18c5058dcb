//! Writes over both objects, and reads beside them: a read shows of each object the bytes that
//! there are at the moment at which it reads it.
//!
//! A write finds its image, looks at the header, looks again, and then raises the state of each
//! object in the head's object map, and writes it: three operations and four. Before the second
//! look the first change of a client watches the image and takes its lock: two more. A read finds
//! it, looks at the header, reads each object, and looks again. A state alone shows in no read.
use super::rows::row_holds;
use super::script::SCRIPT;
use super::tables::table_holds;

/// c1 has written two of the four bytes when c2 reads, which are the object 0's.
const ONE_PIECE: &str = "goes 3 1.1>end 5 1.1>data-write 1.1 6 2.1>end 1.1>end 10 2.1>end
|came slot1 a1 a2 a3! slot1 a4 a5 a6 a7 a8 a9 a10 slot1 a11 a12 a13 a14 a15! a16 a17! slot1 a18 \
a19 a20 a21 a22!
|replies 3 ok;6 ok 11220000;5 ok;10 ok 11223344
|history+3 h 6 start 5 c1.0
h 7 look 5 a4
h 8 look 5 a5
h 9 look 5 a6
h 10 look 5 a7
h 11 look 5 a8
h 12 look 5 a9
h 13 effect 5 a10 piece
h 14 start 6 c2.0
h 15 look 6 a11
h 16 look 6 a12
h 17 look 6 a13
h 18 look 6 a14
h 19 look 6 a15
h 20 reply 6
h 21 look 5 a16
h 22 effect 5 a17 piece
h 23 reply 5
h 24 start 10 c2.0
h 25 look 10 a18
h 26 look 10 a19
h 27 look 10 a20
h 28 look 10 a21
h 29 look 10 a22
h 30 reply 10
";

#[test]
fn a_read_shows_one_piece_of_a_write(rt: HostRuntime) {
    row_holds(&rt, rt.alloc(), ONE_PIECE);
}

/// Both writes are about to change the object 0, line 5 ahead of line 7, and both reads are about
/// to read it.
const FIFTH_AHEAD: &str = "goes 3 1.1>end 5 7 1.1*5 1.2*3 6 10 2.1*2 2.2*2 $0$
|replies $1$
";

/// The bytes 4094 to 4097 are at first 0000 0000, the first two of them the object 0's. Line 5
/// makes them 1122 3344, object by object, and line 7 the two in the middle aa and bb: behind line
/// 5 the object 0 has 11aa, and the object 1 bb44. A third poll of a read is its last look.
const MIXED_BEHIND_FIFTH: &str = "\
1.1 2.1 1.1*3 2.1*2 1.2 2.2 1.2*3 2.2*2|3 ok;5 ok;6 ok 00003344;7 ok;10 ok 1122bb44
2.1*3 1.1*4 1.2*4 2.2*3|3 ok;6 ok 00000000;5 ok;7 ok;10 ok 11aabb44
1.1*2 2.1 1.1*2 2.1*2 1.2*2 2.2 1.2*2 2.2*2|3 ok;5 ok;6 ok 11223344;7 ok;10 ok 11aabb44
2.1 1.1*2 1.2*2 1.1*2 1.2*2 2.1*2 2.2*3|3 ok;5 ok;7 ok;6 ok 0000bb44;10 ok 11aabb44
1.1*2 2.1 1.2*2 2.2 2.1 1.1*2 2.2 1.2*2 2.1 2.2|3 ok;5 ok;7 ok;6 ok 11220000;10 ok 11aa3344
1.2*2 1.1*2 1.2*4 1.1*2 1.2*2 2.1*3 2.2*3|3 ok;5 ok;7 ok;6 ok 11aabb44;10 ok 11aabb44
1.1*2 1.2*2 2.1 2.2*3 1.1*2 2.1*2 1.2*2|3 ok;10 ok 11aa0000;5 ok;6 ok 11aa3344;7 ok
1.1*4 2.1*2 1.2*4 2.2*2 2.2 2.1|3 ok;5 ok;7 ok;10 ok 11aabb44;6 ok 11223344";

#[test]
fn reads_show_each_object_between_two_writes(rt: HostRuntime) {
    table_holds(&rt, rt.alloc(), SCRIPT, FIFTH_AHEAD, MIXED_BEHIND_FIFTH);
}

/// The same, with line 7 ahead of line 5.
const SEVENTH_AHEAD: &str = "goes 3 1.1>end 5 7 1.2*5 1.1*3 6 10 2.1*2 2.2*2 $0$
|replies $1$
";

/// Line 7 makes the bytes 00aa bb00, object by object, and line 5 behind it 1122 3344.
const MIXED_BEHIND_SEVENTH: &str = "\
1.1*2 1.2*2 1.1*2 2.1 1.1*2 1.2*2 2.1 1.1*2 2.1 2.2*3|3 ok;7 ok;5 ok;6 ok 1122bb00;10 ok 11223344
1.2*2 2.1 2.2 1.2*2 1.1*2 2.1 2.2 1.1*2 2.1 2.2|3 ok;7 ok;5 ok;6 ok 00aabb00;10 ok 00aabb00
1.2*2 1.1*2 1.2*2 2.1*2 1.1*2 2.2*3 2.1|3 ok;7 ok;5 ok;10 ok 11223344;6 ok 1122bb00
1.2*4 2.1 1.1*2 2.2 2.1 1.1*2 2.2 2.1 2.2|3 ok;7 ok;5 ok;6 ok 00aabb00;10 ok 11223344";

#[test]
fn writes_change_each_object_in_the_order_in_which_they_joined(rt: HostRuntime) {
    table_holds(&rt, rt.alloc(), SCRIPT, SEVENTH_AHEAD, MIXED_BEHIND_SEVENTH);
}

/// Line 7 waits at each object until line 5 has written it, also where its state is raised.
const TURNS: &str = "\
goes 3 1.1>end 5 7 1.1*5 1.2*3 1.2 1.2=none 1.1 1.2=none 1.1=data-write 1.1 1.2=map-set 1.2*3
1.1*2 1.2*2
|came slot1 a1 a2 a3! slot1 slot2 a4 a5 a6 a7 a8 a9 a10 a11 waits a12 a13 a14 a15 waits a16 a17! \
a18 a19!
|replies 3 ok;5 ok;7 ok
|history+3 h 6 start 5 c1.0
h 7 start 7 c1.0
h 8 look 5 a4
h 9 look 5 a5
h 10 look 5 a6
h 11 look 5 a7
h 12 look 5 a8
h 13 look 7 a9
h 14 look 7 a10
h 15 look 7 a11
h 16 look 5 a12
h 17 effect 5 a13 piece
h 18 look 7 a14
h 19 effect 7 a15 piece
h 20 look 5 a16
h 21 effect 5 a17 piece
h 22 reply 5
h 23 look 7 a18
h 24 effect 7 a19 piece
h 25 reply 7
";

#[test]
fn a_write_waits_for_its_turn_at_each_object(rt: HostRuntime) {
    row_holds(&rt, rt.alloc(), TURNS);
}

/// Line 7 waits before its look under the lock until line 5 has had its own, which is its second.
/// Line 5 goes the way to the lock for both.
const OWN_LOOKS: &str = "goes 3 1.1>end 5 7 1.1*2 1.2*2 1.2=none 1.2 1.1=watch 1.1*2 1.2=none 1.2
1.1=header-get 1.1 1.2=header-get 1.2*2 1.1>end 1.2>end
|came slot1 a1 a2 a3! slot1 slot2 a4 a5 a6 a7 waits a8 a9 waits a10 a11 waits a12 a13 a14 a15! a16 \
a17 a18 a19!
|replies 3 ok;5 ok;7 ok
";

#[test]
fn a_write_looks_behind_the_look_under_lock_of_the_one_ahead(rt: HostRuntime) {
    row_holds(&rt, rt.alloc(), OWN_LOOKS);
}
