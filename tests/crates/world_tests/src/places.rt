//! A client is stopped at each place of one write, which goes its way to the lock: what is lost,
//! what its slot wants, and what is there behind it.
//!
//! c2 has the lock of the image, has written the bytes 4095 and 4096 as cc, and was stopped. Line 5
//! of c1 then does 16 operations: it finds the image and looks at it, watches it, finds the lock
//! held and c2 watching, asks, and finds the lock held again. There the watch of c2 ends. So it
//! finds c2 not watching, fences it, breaks its lock and takes it, looks, and writes both objects,
//! each behind its state in the object map.
//!
//! ```text
//! 1 dir-find   2 header-get   3 watch   4 lock-take   5 watchers-get   6 notify   7 lock-take
//! 8 watchers-get   9 block-add   10 lock-break   11 lock-take   12 header-get
//! 13 map-set   14 data-write   15 map-set   16 data-write
//! ```
//!
//! Behind the stop both watches end. c4 writes the byte 4097 as ee by line 27, on a way of its own,
//! and then reads all four bytes by line 28. A fence of c2 is c1's or c4's, whoever finds it first
//! as owner, and perhaps both; a fence of c1 is c4's.
use super::script::SCRIPT;
use super::tables::table_holds;

// ---- nothing comes late

/// c2 has the lock, and is stopped. c1 begins line 5, and goes to the place. Behind its stop both
/// watches end, c4 writes, and c4 reads.
const STOPPED: &str = "goes 3 1.1>end 26 2.1>end stop:2 5 $1$ 1.1=$2$ stop:1
expire:1.1 expire:2.1 27 4.1>end 28 4.1>end
|lost $3$
|fenced $4$
|replies 3 ok;26 ok;$6$27 ok;28 ok $5$
";

/// Place, the way there, what the slot wants, the lost line, who is fenced, and the bytes. At the
/// last place line 5 has its reply.
const NEVER: &str = "0|1.1*0|dir-find|5|c2.0|00ccccee
1|1.1*1|header-get|5|c2.0|00ccccee
2|1.1*2|watch|5|c2.0|00ccccee
3|1.1*3|lock-take|5|c2.0|00ccccee
4|1.1*4|watchers-get|5|c2.0|00ccccee
5|1.1*5|notify|5|c2.0|00ccccee
6|1.1*6|lock-take|5|c2.0|00ccccee
7|1.1*7|watchers-get|5|c2.0|00ccccee
8|1.1*7 expire:2.1 1.1*1|block-add|5|c2.0|00ccccee
9|1.1*7 expire:2.1 1.1*2|lock-break|5|c2.0,c2.0|00ccccee
10|1.1*7 expire:2.1 1.1*3|lock-take|5|c2.0|00ccccee
11|1.1*7 expire:2.1 1.1*4|header-get|5|c2.0,c1.0|00ccccee
12|1.1*7 expire:2.1 1.1*5|map-set|5|c2.0,c1.0|00ccccee
13|1.1*7 expire:2.1 1.1*6|data-write|5|c2.0,c1.0|00ccccee
14|1.1*7 expire:2.1 1.1*7|map-set|5|c2.0,c1.0|1122ccee
15|1.1*7 expire:2.1 1.1*8|data-write|5|c2.0,c1.0|1122ccee
16|1.1*7 expire:2.1 1.1*9|none|-|c2.0,c1.0|112233ee|5 ok;";

#[test]
fn a_write_that_is_stopped_leaves_what_it_had_done(rt: HostRuntime) {
    table_holds(&rt, rt.alloc(), SCRIPT, STOPPED, NEVER);
}

// ---- what the slot wanted comes at once

/// The same, and what the slot wanted comes right behind the stop.
const LATE_AT_ONCE: &str = "goes 3 1.1>end 26 2.1>end stop:2 5 $1$ stop:1 late:1.1 answer:$2$
expire:1.1 expire:2.1 27 4.1>end 28 4.1>end
|fenced $3$
|replies 3 ok;26 ok;$5$27 ok;28 ok $4$
";

/// Place, the way there, what its operation is answered, who is fenced, and the bytes. At 8 the
/// fence comes, and c4 fences c2 again; at 9 c2's lock is broken; and at 10 c1 has the lock, though
/// it doesn't run.
const AT_ONCE: &str = "0|1.1*0|id|c2.0|00ccccee
1|1.1*1|header|c2.0|00ccccee
2|1.1*2|done|c2.0|00ccccee
3|1.1*3|held|c2.0|00ccccee
4|1.1*4|instances|c2.0|00ccccee
5|1.1*5|done|c2.0|00ccccee
6|1.1*6|held|c2.0|00ccccee
7|1.1*7|instances|c2.0|00ccccee
8|1.1*7 expire:2.1 1.1*1|done|c2.0,c2.0|00ccccee
9|1.1*7 expire:2.1 1.1*2|done|c2.0|00ccccee
10|1.1*7 expire:2.1 1.1*3|done|c2.0,c1.0|00ccccee
11|1.1*7 expire:2.1 1.1*4|header|c2.0,c1.0|00ccccee
12|1.1*7 expire:2.1 1.1*5|done|c2.0,c1.0|00ccccee
13|1.1*7 expire:2.1 1.1*6|done|c2.0,c1.0|1122ccee
14|1.1*7 expire:2.1 1.1*7|done|c2.0,c1.0|1122ccee
15|1.1*7 expire:2.1 1.1*8|done|c2.0,c1.0|112233ee
16|1.1*7 expire:2.1 1.1*9|-|c2.0,c1.0|112233ee|5 ok;";

#[test]
fn what_a_stopped_write_wanted_may_come_before_another_client_takes_the_lock(rt: HostRuntime) {
    table_holds(&rt, rt.alloc(), SCRIPT, LATE_AT_ONCE, AT_ONCE);
}

// ---- what the slot wanted comes behind the write of c4

/// The same, and what the slot wanted comes between the write of c4 and its read.
const LATE_BEHIND: &str = "goes 3 1.1>end 26 2.1>end stop:2 5 $1$ stop:1
expire:1.1 expire:2.1 27 4.1>end late:1.1 answer:$2$ 28 4.1>end
|fenced $3$
|replies 3 ok;26 ok;$5$27 ok;28 ok $4$
";

/// The same. Whoever had the lock when c4 came was fenced by it: c1 from place 11 on, and then
/// nothing of it changes anything any more. Before that c1 isn't fenced, and finds c4's lock.
const BEHIND: &str = "0|1.1*0|id|c2.0|00ccccee
1|1.1*1|header|c2.0|00ccccee
2|1.1*2|done|c2.0|00ccccee
3|1.1*3|held|c2.0|00ccccee
4|1.1*4|instances|c2.0|00ccccee
5|1.1*5|done|c2.0|00ccccee
6|1.1*6|held|c2.0|00ccccee
7|1.1*7|instances|c2.0|00ccccee
8|1.1*7 expire:2.1 1.1*1|done|c2.0,c2.0|00ccccee
9|1.1*7 expire:2.1 1.1*2|changed|c2.0,c2.0|00ccccee
10|1.1*7 expire:2.1 1.1*3|held|c2.0|00ccccee
11|1.1*7 expire:2.1 1.1*4|fenced|c2.0,c1.0|00ccccee
12|1.1*7 expire:2.1 1.1*5|fenced|c2.0,c1.0|00ccccee
13|1.1*7 expire:2.1 1.1*6|fenced|c2.0,c1.0|00ccccee
14|1.1*7 expire:2.1 1.1*7|fenced|c2.0,c1.0|1122ccee
15|1.1*7 expire:2.1 1.1*8|fenced|c2.0,c1.0|1122ccee
16|1.1*7 expire:2.1 1.1*9|-|c2.0,c1.0|112233ee|5 ok;";

#[test]
fn what_a_fenced_write_wanted_changes_nothing(rt: HostRuntime) {
    table_holds(&rt, rt.alloc(), SCRIPT, LATE_BEHIND, BEHIND);
}
