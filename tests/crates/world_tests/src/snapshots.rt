//! Reads across a change of the snapshots, and of a snapshot.
//!
//! A snapshot is taken by six operations: it finds the image, looks at the header, looks again,
//! gets the head's object map and puts it as the snapshot's, and changes the header, which then has
//! another generation. It is removed by five: the first three, the header's change, and the end of
//! its map.
use super::rows::row_holds;
use super::script::SCRIPT;
use super::tables::table_holds;

/// c2 has read the object 0 when line 9 takes the snapshot, and begins again at its look (a23).
/// Line 12 was begun before, and does its operations behind that. The snapshot then shows the old
/// bytes.
const ACROSS: &str = "\
goes 3 1.1>end 5 1.1>end 6 2.1*3 12 9 1.2>end 2.1>end 1.1>end 11 2.1>end 10 2.1>end
|came slot1 a1 a2 a3! slot1 a4 a5 a6 a7 a8 a9 a10 a11 a12! slot1 a13 a14 a15 slot1 slot2 a16 a17 \
a18 a19 a20 a21! a22 a23 a24 a25 a26 a27 a28! a29 a30 a31 a32 a33 a34 a35! slot1 a36 a37 a38 a39 \
a40! slot1 a41 a42 a43 a44 a45!
|replies 3 ok;5 ok;9 ok;6 ok 11223344;12 ok;11 ok 11223344;10 ok 55667788
|history+5 h 17 start 6 c2.0
h 18 look 6 a13
h 19 look 6 a14
h 20 look 6 a15
h 21 start 12 c1.0
h 22 start 9 c1.0
h 23 look 9 a16
h 24 look 9 a17
h 25 look 9 a18
h 26 look 9 a19
h 27 look 9 a20
h 28 effect 9 a21 snap
h 29 reply 9
h 30 look 6 a22
h 31 look 6 a23
h 32 look 6 a24
h 33 look 6 a25
h 34 look 6 a26
h 35 look 6 a27
h 36 look 6 a28
h 37 reply 6
h 38 look 12 a29
h 39 look 12 a30
h 40 look 12 a31
h 41 look 12 a32
h 42 effect 12 a33 piece
h 43 look 12 a34
h 44 effect 12 a35 piece
h 45 reply 12
h 46 start 11 c2.0
h 47 look 11 a36
h 48 look 11 a37
h 49 look 11 a38
h 50 look 11 a39
h 51 look 11 a40
h 52 reply 11
h 53 start 10 c2.0
h 54 look 10 a41
h 55 look 10 a42
h 56 look 10 a43
h 57 look 10 a44
h 58 look 10 a45
h 59 reply 10
";

#[test]
fn a_read_across_a_snapshot_begins_again(rt: HostRuntime) {
    row_holds(&rt, rt.alloc(), ACROSS);
}

/// The bytes 4094 to 4097 are 1122 3344.
const WRITTEN: &str = "goes 3 1.1>end 5 1.1>end $0$
|replies $1$
";

/// Line 9 takes the snapshot, line 12 makes the bytes 5566 7788, and line 11 reads the snapshot
/// behind both. Line 6 reads the image by five operations, the third and the fourth of which are at
/// the objects. It begins again where the snapshot is taken between its second and its fifth. In
/// the last row line 12 has written the object 0 when line 9 begins, which waits for it.
const BESIDE: &str = "\
6 9 1.1>end 12 1.1>end 2.1>end 11 2.1>end|3 ok;5 ok;9 ok;12 ok;6 ok 55667788;11 ok 11223344
6 2.1 9 1.1>end 12 1.1>end 2.1>end 11 2.1>end|3 ok;5 ok;9 ok;12 ok;6 ok 55667788;11 ok 11223344
6 2.1*2 9 1.1>end 12 1.1>end 2.1>end 11 2.1>end|3 ok;5 ok;9 ok;12 ok;6 ok 55667788;11 ok 11223344
6 2.1*3 9 1.1>end 12 1.1>end 2.1>end 11 2.1>end|3 ok;5 ok;9 ok;12 ok;6 ok 55667788;11 ok 11223344
6 2.1*4 9 1.1>end 12 1.1>end 2.1>end 11 2.1>end|3 ok;5 ok;9 ok;12 ok;6 ok 55667788;11 ok 11223344
6 2.1*5 9 1.1>end 12 1.1>end 11 2.1>end|3 ok;5 ok;6 ok 11223344;9 ok;12 ok;11 ok 11223344
9 1.1*5 6 2.1*4 1.1 12 1.1>end 2.1>end 11 2.1>end|3 ok;5 ok;9 ok;12 ok;6 ok 55667788;11 ok 11223344
9 1.1*5 6 2.1>end 1.1 12 1.1>end 11 2.1>end|3 ok;5 ok;6 ok 11223344;9 ok;12 ok;11 ok 11223344
12 1.1*5 9 1.2*2 6 2.1*3 1.1>end 1.2>end 2.1>end 11 2.1>end|\
3 ok;5 ok;12 ok;9 ok;6 ok 55667788;11 ok 55667788";

#[test]
fn a_read_shows_what_was_there_before_a_snapshot_or_behind_it(rt: HostRuntime) {
    table_holds(&rt, rt.alloc(), SCRIPT, WRITTEN, BESIDE);
}

/// Line 11 has read the object 0 of the snapshot when line 14 removes it. It begins again at its
/// look (a28), and doesn't find the snapshot then.
const REMOVED: &str = "goes 3 1.1>end 5 1.1>end 9 1.1>end 11 2.1*3 14 1.1>end 2.1>end
|came slot1 a1 a2 a3! slot1 a4 a5 a6 a7 a8 a9 a10 a11 a12! slot1 a13 a14 a15 a16 a17 a18! slot1 \
a19 a20 a21 slot1 a22 a23 a24 a25 a26! a27 a28 a29 a30!
|replies 3 ok;5 ok;9 ok;14 ok;11 error 2 NoSnap
";

#[test]
fn a_read_of_a_snapshot_that_goes_is_refused(rt: HostRuntime) {
    row_holds(&rt, rt.alloc(), REMOVED);
}

/// The snapshot is taken between the lines 5 and 12. Line 12 has written the object 0 when c2 reads
/// the snapshot and then the image.
const BETWEEN_PIECES: &str = "\
goes 3 1.1>end 5 1.1>end 9 1.1>end 12 1.1*5 11 2.1>end 10 2.1>end 1.1*2
|came slot1 a1 a2 a3! slot1 a4 a5 a6 a7 a8 a9 a10 a11 a12! slot1 a13 a14 a15 a16 a17 a18! slot1 \
a19 a20 a21 a22 a23 slot1 a24 a25 a26 a27 a28! slot1 a29 a30 a31 a32 a33! a34 a35!
|replies 3 ok;5 ok;9 ok;11 ok 11223344;10 ok 55663344;12 ok
";

#[test]
fn a_snapshot_shows_no_piece_of_a_later_write(rt: HostRuntime) {
    row_holds(&rt, rt.alloc(), BETWEEN_PIECES);
}
