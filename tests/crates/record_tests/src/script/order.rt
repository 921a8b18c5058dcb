//! The first fault decides: from the left in a line, and from the first line on.
use super::each_row_holds;
use rbd_script::LineCause;

/// The first fault from the left decides.
const FIRST: &str = "line 2: bad name|client c1 a;c1 info .d x
line 2: bad name|client c1 a;c1 read .d x
line 2: bad number|client c1 a;c1 write d x
line 2: bad name|client c1 a;c1 fill .d
line 2: unknown word|client c1 a;c2 foo
line 2: bad number|client c1 a;c1 resize d x y
line 2: bad number|client c1 a;c1 create d 1 object x y
line 2: unknown word|client c1 a;@poll c2 65
line 2: bad number|client c1 a;@poll c1 65 x
line 2: unknown word|client c1 a;@trim c x
line 2: bad name|client c1 a;client .c
line 2: unknown word|client c1 a;client c2 c x
line 2: bad name|client c1 a;client c1 c
line 2: bad name|client c1 a;c1 clone p .c x
line 2: bad name|client c1 a;c1 rename d .e f";

/// The first line with a fault decides.
const LINES: &str = "line 1: unknown word|c1 ls;client c1 a
line 2: extra part|client c1 a;c1 ls x;c1 walk
line 4: unknown word|client c1 a;;# c1;c1 walk
line 5: unknown word|;;;;walk;
line 3: missing part|# a;# b;client
line 4: unknown word|client c1 a;client c2 b;c2 ls;c3 ls
line 2: unknown word|client c1 a;@stop c2;client c2 a
line 3: bad name|client c1 a;client c2 a;client c1 b";

/// The faults as they are listed.
const TABLE: &str = "line 1: missing part|client c1
line 1: bad name|client client a
line 1: unknown word|client c1 c
line 2: unknown word|client c1 a;c2 ls
line 2: extra part|client c1 a;c1 ls x
line 2: bad number|client c1 a;c1 read d 0 65537
line 2: bad number|client c1 a;c1 read d 00 1
line 2: bad number|client c1 a;c1 write d 0 a
line 2: bad name|client c1 a;c1 info .d";

#[test]
fn the_first_fault_decides(rt: HostRuntime) {
    each_row_holds(&rt, rt.alloc(), false, FIRST);
    each_row_holds(&rt, rt.alloc(), false, LINES);
    each_row_holds(&rt, rt.alloc(), false, TABLE);
}

#[test]
fn a_schedule_is_a_fault_with_threads(rt: HostRuntime) {
    each_row_holds(
        &rt,
        rt.alloc(),
        true,
        "line 2: schedule line|client c1 a;@settle 1",
    );
}

#[test]
fn causes_are_printed_in_words(rt: HostRuntime) {
    assert_eq!(rt; LineCause::UnknownWord.text(), "unknown word");
    assert_eq!(rt; LineCause::MissingPart.text(), "missing part");
    assert_eq!(rt; LineCause::ExtraPart.text(), "extra part");
    assert_eq!(rt; LineCause::BadNumber.text(), "bad number");
    assert_eq!(rt; LineCause::BadName.text(), "bad name");
    assert_eq!(rt; LineCause::ScheduleLine.text(), "schedule line");
}
