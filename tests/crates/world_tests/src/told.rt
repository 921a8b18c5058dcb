//! What is told of a world, as a text for each part of a row.
use super::begins::begin_of;
use super::drive::Driven;
use super::mail::push_mail;
use super::map_texts::{push_bits, push_maps};
use super::numbers::numbers_are_of_logs;
use super::texts::{push_answered, push_event, push_fenced, push_lost, push_outcome};
use rbd_flat::Entry;
use rbd_kinds::{NoMemory, SiteId};
use rbd_script::Declared;
use rbd_text::{push_line, push_log};
use rbd_world::{Call, World};
use std::alloc::Global;

/// Appends an event, or else what came of it.
fn push_call(alloc: Global, text: &mut Vec<u8>, kind: &str, call: &Call) -> Result<(), NoMemory> {
    if !text.is_empty() {
        text.push(b' ')?;
    }
    if kind == "events" {
        return push_event(alloc, text, &call.event);
    }
    push_outcome(alloc, text, &call.outcome)
}

fn push_calls(
    alloc: Global,
    text: &mut Vec<u8>,
    kind: &str,
    calls: &[Call],
) -> Result<(), NoMemory> {
    for call in calls {
        push_call(alloc, text, kind, call)?;
    }
    Ok(())
}

/// Appends what an entry adds to its history's text, or to what is told of it.
fn push_entry(
    alloc: Global,
    text: &mut Vec<u8>,
    kind: &str,
    entry: &Entry,
) -> Result<(), NoMemory> {
    match kind {
        "replies" => push_answered(alloc, text, entry),
        "lost" => push_lost(alloc, text, entry),
        _ => push_fenced(alloc, text, entry),
    }
}

fn push_entries(
    alloc: Global,
    text: &mut Vec<u8>,
    kind: &str,
    history: &[Entry],
) -> Result<(), NoMemory> {
    for entry in history {
        push_entry(alloc, text, kind, entry)?;
    }
    Ok(())
}

fn push_history(
    text: &mut Vec<u8>,
    sessions: &[Declared],
    history: &[Entry],
) -> Result<(), NoMemory> {
    for (index, entry) in history.iter().enumerate() {
        push_line(text, sessions, index + 1, entry)?;
    }
    Ok(())
}

/// Appends the replies, and a `?` where an operation of the history isn't in the log of its site.
fn push_replies(alloc: Global, text: &mut Vec<u8>, world: &World) -> Result<(), NoMemory> {
    let (a, b) = (world.operations(SiteId::A), world.operations(SiteId::B));
    push_entries(alloc, text, "replies", world.history())?;
    if !numbers_are_of_logs(world.history(), a, b) {
        text.push(b'?')?;
    }
    Ok(())
}

fn push_told(
    alloc: Global,
    text: &mut Vec<u8>,
    driven: &Driven,
    sessions: &[Declared],
    kind: &str,
) -> Result<(), NoMemory> {
    let world = &driven.world;
    match kind {
        "came" => push_calls(alloc, text, kind, driven.calls.as_slice()),
        "events" => push_calls(alloc, text, kind, driven.calls.as_slice()),
        "replies" => push_replies(alloc, text, world),
        "lost" => push_entries(alloc, text, kind, world.history()),
        "fenced" => push_entries(alloc, text, kind, world.history()),
        "history" => push_history(text, sessions, world.history()),
        "a" => push_log(text, sessions, SiteId::A, world.operations(SiteId::A)),
        "b" => push_log(text, sessions, SiteId::B, world.operations(SiteId::B)),
        "mail" => push_mail(alloc, text, world),
        "maps" => push_maps(alloc, text, world.operations(SiteId::A)),
        "bits" => push_bits(text, world.operations(SiteId::A)),
        _ => Ok(text.push(b'?')?),
    }
}

/// Ends what is told with its line, and tells that there is nothing.
fn end(text: &mut Vec<u8>) -> Result<(), NoMemory> {
    if text.is_empty() {
        text.push(b'-')?;
    }
    if !text.as_slice().ends_with(b"\n") {
        text.push(b'\n')?;
    }
    Ok(())
}

/// Whether what a part says is told of a world.
pub fn is_told(
    alloc: Global,
    driven: &Driven,
    sessions: &[Declared],
    part: &str,
) -> Result<bool, NoMemory> {
    let (key, want) = part.split_once(' ').unwrap_or((part, ""));
    let (kind, _) = key.split_once('+').unwrap_or((key, ""));
    let mut text = Vec::new(alloc);
    push_told(alloc, &mut text, driven, sessions, kind)?;
    end(&mut text)?;
    match text.as_slice().strip_prefix(begin_of(key).as_bytes()) {
        Some(told) => Ok(told == want.as_bytes()),
        None => Ok(false),
    }
}
