//! Odd lines that are lines of a script.
use super::{behind_client, each_row_holds};
use rbd_script::read;
use std::alloc::Global;

/// Behind `client c1 a` each is a line without a fault.
const TAKEN: &str = "
  \x20
# c1 walk
#
#@settle
c1 ls
  c1   ls \x20
& c1 ls
 & c1 ls
c1 resize d 0
c1 resize d 9223372036854775807
c1 read d 0 65536
c1 read d 0 0
c1 fill d 0 1048576 00
c1 fill d 0 0 ff
c1 create d 0 count 4294967295
c1 create d 1 unit 0 journal
@poll c1 64 1000000
@poll c1 0 1
@settle 0
@until c1 64 journal-remove
@expire c1 b 4294967295
c1 info A-z_0.9
c1 info _
c1 info aaaaaaaaaaaaaaaaaaaaaaaaaaaaaaaaaaaaaaaaaaaaaaaaaaaaaaaaaaaaaaaa
client z9 b
client cccccccccccccccccccccccccccccccc b
c1 rename d d
c1 read d@s 0 1";

fn is_taken(alloc: Global, line: &str) -> bool {
    match behind_client(alloc, line) {
        Some(text) => read(alloc, text.as_slice(), false).is_ok(),
        None => false,
    }
}

#[test]
fn odd_lines_are_taken(rt: HostRuntime) {
    for line in TAKEN.split('\n') {
        assert!(rt; is_taken(rt.alloc(), line), "{line}");
    }
}

/// Lines without tokens and comments say nothing, and the last line may lack its line feed.
const ENDS: &str = "1 sessions, 1 lines|;  ;# client c1 a;#;client c1 a;;c1 ls;;
1 sessions, 1 lines|client c1 a;c1 ls
1 sessions, 1 lines|client c1 a;c1 ls;
0 sessions, 0 lines|";

#[test]
fn what_says_nothing_is_passed_over(rt: HostRuntime) {
    each_row_holds(&rt, rt.alloc(), false, ENDS);
}

/// With threads a line of a schedule is a fault, and the other lines are as ever.
const WITH_THREADS: &str = "line 1: schedule line|@settle 1
line 1: schedule line|  @settle 1
line 1: schedule line|@
line 1: schedule line|@walk
line 1: schedule line|@poll c9
1 sessions, 1 lines|client c1 a;#@settle 1;& c1 ls
line 1: unknown word|& @settle 1
line 2: extra part|client c1 a;c1 ls @";

#[test]
fn with_threads_there_is_no_schedule(rt: HostRuntime) {
    each_row_holds(&rt, rt.alloc(), true, WITH_THREADS);
}
