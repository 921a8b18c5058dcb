//! What a new world does, as a row: parts with `|` before all but the first. Each part is a word, a
//! space and a text, and ends with its line.
//!
//! | part | what it says |
//! |---|---|
//! | `goes 3 1.1>end` | a schedule: what happens (`schedule`) |
//! | `came slot1 a1` | what came of each event so far |
//! | `events 3:c1 1.1` | the events so far |
//! | `replies 3 ok;6 ok 1122` | the replies so far, each behind its line, in their order |
//! | `history`, `a`, `b` | the history, or the log of a site, a line for each entry (`rbd_text`) |
//! | `mail` | the notices that were posted (`mail`) |
//! | `lost 5,7`, `fenced c2.0` | the lines that were lost, and the instances that were fenced |
//! | `maps`, `bits` | what site A was asked of object maps, and what it told last (`map_texts`) |
//! | `not came slot1` | the other part isn't so |
//!
//! A text is `-` where there is nothing. Where a `history+5` or an `a+5` stands, what lines 3 and 5
//! add where they are played alone is left out (`begins`), and line 3 alone with `+3`.
//!
//! | outcome | what came of an event |
//! |---|---|
//! | `nothing` | it named nothing that is there |
//! | `slot1` | the command has slot 1 |
//! | `waits` | the request waits |
//! | `a5` | the operation 5 of site A was done |
//! | `a5~` | the same, on the way to a lock, and it asks again |
//! | `a5!` | the same, and the request has its reply |
//! | `heard` | an instance heard a notice |
//! | `stored` | the store did a step of its own |
//! | `stopped`, `restarted` | the client was stopped, or began its next life |
use super::drive::{Driven, new_world};
use super::schedule::play;
use super::script::{SCRIPT, script};
use super::tables::table_holds;
use super::told::is_told;
use rbd_kinds::NoMemory;
use rbd_script::Script;
use std::alloc::Global;
use std::process::Abort;

/// Stops the test where what a part or a word of a row says isn't so.
pub fn is_so(rt: &impl Abort, row: &str, what: &str, found_out: Result<bool, NoMemory>) {
    assert!(rt; found_out.unwrap_or(false), "{what} in {row}");
}

fn part_holds(
    rt: &impl Abort,
    alloc: Global,
    driven: &mut Driven,
    script: &Script,
    row: &str,
    part: &str,
) -> Result<bool, NoMemory> {
    let (kind, told) = part.split_once(' ').unwrap_or((part, ""));
    match kind {
        "goes" => {
            play(rt, alloc, driven, script.lines.as_slice(), row, told);
            Ok(true)
        }
        "not" => Ok(!is_told(alloc, driven, script.sessions.as_slice(), told)?),
        _ => is_told(alloc, driven, script.sessions.as_slice(), part),
    }
}

fn parts_hold(
    rt: &impl Abort,
    alloc: Global,
    driven: &mut Driven,
    script: &Script,
    name: &str,
    row: &str,
) {
    for part in row.split('|') {
        is_so(
            rt,
            name,
            part,
            part_holds(rt, alloc, driven, script, name, part),
        );
    }
}

/// A new world with the clients of a script goes by a row.
pub fn named_row_holds(rt: &impl Abort, alloc: Global, text: &str, name: &str, row: &str) {
    let script = script(rt, alloc, text.as_bytes());
    let mut driven = new_world(rt, alloc);
    parts_hold(rt, alloc, &mut driven, &script, name, row);
    driven.close();
    drop(script);
}

/// The same with the clients of `SCRIPT`.
pub fn row_holds(rt: &impl Abort, alloc: Global, row: &str) {
    named_row_holds(rt, alloc, SCRIPT, row, row);
}

/// What isn't so of a world in which line 3 has had its first poll. Each word has a world of its
/// own, since a poll changes it.
const NOT_SO: &str = "goes 3 1.1 !$0$
";

const NOT_SO_WORDS: &str = "4
2
99
1.1=dir-add
1.1=none
2.1=header-create
1.2>end
1.2>data-read
trims:1.0
1.1>ls
heard:1=hi
heard:1=+
told:1=
client:1=runs,0,1,3,new
client:2=runs,0,2,3,new
answer:done
answer:-
entries:1
entries:3
filled:0.0.0";

/// And what didn't come of that.
const NOT_CAME: &str = "goes 3 1.1 answer:id entries:2
|not came slot1
|not came slot1 a1 a2!
|not came slot1 a2
|not came slot1 b1
|not came slot1 a1!
|not came slot1 a1~
|not came slot1 heard
|not came slot1 stopped
|not came slot2 a1
|not came a1 slot1
|not came nothing a1
|not replies 3 ok
|not slot1 a1
|not events 3:c1 1.2
|not history h 1 start 3 c1.0
|not a -
|not b o b1 c1.0 dir-add rbd_directory id
|not mail 1 c1.0>c2.0 a1 hi
|not lost 3
|not fenced c1.0
|not maps resize 2 done
|not bits 00
|came slot1 a1
";

#[test]
fn what_is_not_so_does_not_hold(rt: HostRuntime) {
    table_holds(&rt, rt.alloc(), SCRIPT, NOT_SO, NOT_SO_WORDS);
    row_holds(&rt, rt.alloc(), NOT_CAME);
}
