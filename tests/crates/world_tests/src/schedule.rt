//! A schedule: words, with spaces or line ends between them.
//!
//! | word | what happens |
//! |---|---|
//! | `3` | the client of line 3 begins its command |
//! | `1.2` | the slot 2 of the client c1 is polled |
//! | `1.2*3` | it is polled three times |
//! | `1.2>data-write` | it is polled until it wants this |
//! | `1.2>end` | it is polled until its request has its reply |
//! | `1.2=none` | nothing: this is what it wants |
//! | `stop:1`, and others with a colon | see `others` |
//! | `!1.2=none` | what the word behind the `!` says isn't so |
use super::drive::{Driven, comes, wanted};
use super::others::other_goes;
use super::rows::is_so;
use rbd_kinds::{NoMemory, SessionNo, Slot, TryClone};
use rbd_script::{Line, Said};
use rbd_world::{Event, Outcome};
use std::alloc::Global;
use std::process::Abort;

/// More polls than any request of these tests has operations.
const ENOUGH: u32 = 100;

/// The number that a word spells, and 0 where it spells none.
pub fn number(word: &str) -> u32 {
    word.parse::<u32>().unwrap_or(0)
}

/// The same below 256.
pub fn small_number(word: &str) -> u8 {
    word.parse::<u8>().unwrap_or(0)
}

/// The client of a word: `1` is c1.
pub fn session_of(client: &str) -> SessionNo {
    SessionNo(small_number(client).wrapping_sub(1))
}

/// What the line says is begun, where it is a command.
fn begin(
    rt: &impl Abort,
    alloc: Global,
    driven: &mut Driven,
    line: &Line,
) -> Result<bool, NoMemory> {
    let Said::Command {
        session,
        beside: _,
        command,
    } = &line.said
    else {
        return Ok(false);
    };
    let event = Event::Submit {
        session: *session,
        line: line.number,
        command: command.try_clone()?,
    };
    comes(rt, alloc, driven, event)?;
    Ok(true)
}

/// The line of this number is begun, where there is such a line.
fn begin_line(
    rt: &impl Abort,
    alloc: Global,
    driven: &mut Driven,
    lines: &[Line],
    wanted: u32,
) -> Result<bool, NoMemory> {
    for line in lines {
        if line.number == wanted {
            return begin(rt, alloc, driven, line);
        }
    }
    Ok(false)
}

fn poll(
    rt: &impl Abort,
    alloc: Global,
    driven: &mut Driven,
    at: &(SessionNo, Slot),
) -> Result<Outcome, NoMemory> {
    let event = Event::Poll {
        session: at.0,
        slot: at.1,
    };
    comes(rt, alloc, driven, event)
}

fn poll_times(
    rt: &impl Abort,
    alloc: Global,
    driven: &mut Driven,
    at: &(SessionNo, Slot),
    times: u32,
) -> Result<bool, NoMemory> {
    for _ in 0..times {
        poll(rt, alloc, driven, at)?;
    }
    Ok(true)
}

fn has_replied(outcome: Outcome) -> bool {
    match outcome {
        Outcome::Step {
            site: _,
            number: _,
            waiting: _,
            replied,
        } => replied,
        _ => false,
    }
}

/// Polls a slot until it wants an operation of this kind, or, where that is `end`, until its
/// request has its reply. It is false where the other comes first, or neither does.
fn poll_to(
    rt: &impl Abort,
    alloc: Global,
    driven: &mut Driven,
    at: &(SessionNo, Slot),
    kind: &str,
) -> Result<bool, NoMemory> {
    for _ in 0..ENOUGH {
        if wanted(&driven.world, at.0, at.1) == kind {
            return Ok(true);
        }
        if has_replied(poll(rt, alloc, driven, at)?) {
            return Ok(kind == "end");
        }
    }
    Ok(false)
}

/// A word about a slot, behind the client's number. It is false where what it says isn't so.
fn slot_goes(
    rt: &impl Abort,
    alloc: Global,
    driven: &mut Driven,
    client: &str,
    rest: &str,
) -> Result<bool, NoMemory> {
    let session = session_of(client);
    if let Some((slot, kind)) = rest.split_once('=') {
        return Ok(wanted(&driven.world, session, Slot(small_number(slot))) == kind);
    }
    if let Some((slot, kind)) = rest.split_once('>') {
        return poll_to(
            rt,
            alloc,
            driven,
            &(session, Slot(small_number(slot))),
            kind,
        );
    }
    let (slot, times) = rest.split_once('*').unwrap_or((rest, "1"));
    poll_times(
        rt,
        alloc,
        driven,
        &(session, Slot(small_number(slot))),
        number(times),
    )
}

/// What a word says happens. It is false where what it says isn't so.
fn goes(
    rt: &impl Abort,
    alloc: Global,
    driven: &mut Driven,
    lines: &[Line],
    word: &str,
) -> Result<bool, NoMemory> {
    if let Some((kind, rest)) = word.split_once(':') {
        return other_goes(rt, alloc, driven, kind, rest);
    }
    if let Some((client, rest)) = word.split_once('.') {
        return slot_goes(rt, alloc, driven, client, rest);
    }
    begin_line(rt, alloc, driven, lines, number(word))
}

/// The same, where a word with a `!` may stand too.
fn goes_or_not(
    rt: &impl Abort,
    alloc: Global,
    driven: &mut Driven,
    lines: &[Line],
    word: &str,
) -> Result<bool, NoMemory> {
    match word.split_once('!') {
        Some((_, word)) => Ok(!goes(rt, alloc, driven, lines, word)?),
        None => goes(rt, alloc, driven, lines, word),
    }
}

/// All that the schedule of a row says happens.
pub fn play(
    rt: &impl Abort,
    alloc: Global,
    driven: &mut Driven,
    lines: &[Line],
    row: &str,
    schedule: &str,
) {
    for word in schedule.split_whitespace() {
        is_so(rt, row, word, goes_or_not(rt, alloc, driven, lines, word));
    }
}
