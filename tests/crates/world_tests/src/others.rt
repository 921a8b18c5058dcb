//! The words of a schedule with a colon: events that aren't a poll or the beginning of a line, and
//! what is so of clients, of the history and of the last step.
//!
//! | word | what happens |
//! |---|---|
//! | `trim:1.0` | the store of site A trims the object 0 of the image 1 |
//! | `expire:2.1` | it ends a watch of the image 1 by the client c2 |
//! | `deliver:3` | the notice 3 is delivered |
//! | `stop:1` | the client c1 stops |
//! | `late:1.2` | what the slot 2 of c1 wanted then comes |
//! | `restart:1` | c1 begins its next life |
//! | `heard:2=hi+yo` | nothing: c2 heard these words, one after another |
//! | `heard:2=` | nothing: it heard none |
//! | `client:1=runs,0,2,3,new` | nothing: see `clients` |
//! | `answer:held` | nothing: site A answered the last step so, or `-` if it was no operation |
//! | `entries:64` | nothing: the history has so many entries |
//! | `filled:9.4.2` | nothing: the last reply has 9 bytes, of which two from 4 on are a fill's |
use super::clients::is_client;
use super::drive::{Driven, comes};
use super::fills::shows_fill;
use super::schedule::{number, session_of, small_number};
use rbd_kinds::{ImageId, NoMemory, Notice, NoticeKind, SessionNo, SiteId, Slot};
use rbd_world::{Event, Outcome, World};
use std::alloc::Global;
use std::process::Abort;

/// The event of a word, by its kind and its numbers, where it is one.
fn event_of(kind: &str, first: &str, second: &str) -> Option<Event> {
    match kind {
        "trim" => Some(Event::Trim {
            site: SiteId::A,
            image: ImageId(number(first)),
            object: u64::from(number(second)),
        }),
        "expire" => Some(Event::Expire {
            session: session_of(first),
            site: SiteId::A,
            image: ImageId(number(second)),
        }),
        "deliver" => Some(Event::Deliver {
            number: u64::from(number(first)),
        }),
        "stop" => Some(Event::Stop {
            session: session_of(first),
        }),
        "late" => Some(Event::Late {
            session: session_of(first),
            slot: Slot(small_number(second)),
        }),
        "restart" => Some(Event::Restart {
            session: session_of(first),
        }),
        _ => None,
    }
}

/// Appends what a notice tells, and a `+` between any two.
fn push_told(text: &mut Vec<u8>, notice: &Notice) -> Result<(), NoMemory> {
    if !text.is_empty() {
        text.push(b'+')?;
    }
    match &notice.kind {
        NoticeKind::Custom(bytes) => text.extend_from_slice(bytes.as_slice())?,
        _ => text.push(b'?')?,
    }
    Ok(())
}

/// Whether a client heard these words, one after another.
fn has_heard(
    alloc: Global,
    world: &World,
    session: SessionNo,
    words: &str,
) -> Result<bool, NoMemory> {
    let mut text = Vec::new(alloc);
    for notice in world.heard(session) {
        push_told(&mut text, notice)?;
    }
    Ok(text.as_slice() == words.as_bytes())
}

/// What site A answered last, where the last step was an operation.
fn answered(driven: &Driven) -> &'static str {
    match (
        driven.calls.last(),
        driven.world.operations(SiteId::A).last(),
    ) {
        (Some(call), Some(done)) if matches!(&call.outcome, Outcome::Step { .. }) => {
            done.answer.word()
        }
        _ => "-",
    }
}

/// Whether what a word says is so.
fn holds_now(alloc: Global, driven: &Driven, kind: &str, rest: &str) -> Result<bool, NoMemory> {
    let world = &driven.world;
    let (client, words) = rest.split_once('=').unwrap_or(("", rest));
    match kind {
        "heard" => has_heard(alloc, world, session_of(client), words),
        "client" => is_client(alloc, world, session_of(client), words),
        "answer" => Ok(answered(driven) == rest),
        "filled" => Ok(shows_fill(world.history(), rest)),
        "entries" => Ok(world.history().len() as u64 == u64::from(number(rest))),
        _ => Ok(false),
    }
}

/// What a word says happens, by its parts before and behind the colon. It is false where what it
/// says isn't so.
pub fn other_goes(
    rt: &impl Abort,
    alloc: Global,
    driven: &mut Driven,
    kind: &str,
    rest: &str,
) -> Result<bool, NoMemory> {
    let (first, second) = rest.split_once('.').unwrap_or((rest, ""));
    match event_of(kind, first, second) {
        Some(event) => {
            comes(rt, alloc, driven, event)?;
            Ok(true)
        }
        None => holds_now(alloc, driven, kind, rest),
    }
}
