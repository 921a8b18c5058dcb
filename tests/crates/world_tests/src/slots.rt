//! A client has 64 slots.
use super::rows::named_row_holds;

/// The lines 2 to 67 list the images, each of them.
const LISTINGS: &str = "client c1 a\n\
c1 ls\nc1 ls\nc1 ls\nc1 ls\nc1 ls\nc1 ls\nc1 ls\nc1 ls\nc1 ls\nc1 ls\nc1 ls\n\
c1 ls\nc1 ls\nc1 ls\nc1 ls\nc1 ls\nc1 ls\nc1 ls\nc1 ls\nc1 ls\nc1 ls\nc1 ls\n\
c1 ls\nc1 ls\nc1 ls\nc1 ls\nc1 ls\nc1 ls\nc1 ls\nc1 ls\nc1 ls\nc1 ls\nc1 ls\n\
c1 ls\nc1 ls\nc1 ls\nc1 ls\nc1 ls\nc1 ls\nc1 ls\nc1 ls\nc1 ls\nc1 ls\nc1 ls\n\
c1 ls\nc1 ls\nc1 ls\nc1 ls\nc1 ls\nc1 ls\nc1 ls\nc1 ls\nc1 ls\nc1 ls\nc1 ls\n\
c1 ls\nc1 ls\nc1 ls\nc1 ls\nc1 ls\nc1 ls\nc1 ls\nc1 ls\nc1 ls\nc1 ls\nc1 ls\n";

/// The line 2 has slot 1, and so on to the line 65 and slot 64. The line 66 finds no slot until
/// slot 17 is free, and the line 67 none behind it.
const FULL: &str = "\
goes 2 3 4 5 6 7 8 9 10 11 12 13 14 15 16 17 18 19 20 21 22 23 24 25 26 27 28 29 30 31 32 33 34
35 36 37 38 39 40 41 42 43 44 45 46 47 48 49 50 51 52 53 54 55 56 57 58 59 60 61 62 63 64 65 66
entries:64
1.17>end 1.17=none 66 67 entries:67
|came slot1 slot2 slot3 slot4 slot5 slot6 slot7 slot8 slot9 slot10 slot11 slot12 slot13 slot14 \
slot15 slot16 slot17 slot18 slot19 slot20 slot21 slot22 slot23 slot24 slot25 slot26 slot27 \
slot28 slot29 slot30 slot31 slot32 slot33 slot34 slot35 slot36 slot37 slot38 slot39 slot40 \
slot41 slot42 slot43 slot44 slot45 slot46 slot47 slot48 slot49 slot50 slot51 slot52 slot53 \
slot54 slot55 slot56 slot57 slot58 slot59 slot60 slot61 slot62 slot63 slot64 nothing a1! slot17 \
nothing
";

#[test]
fn no_line_is_begun_where_64_slots_are_held(rt: HostRuntime) {
    named_row_holds(&rt, rt.alloc(), LISTINGS, FULL, FULL);
}
