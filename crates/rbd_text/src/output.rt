//! The whole text.
ghost use Rattle.std.specs.Prelude.{◌≡◌, ◌++◌, OnOk, IfOk};
ghost use Rattle.std.specs.List.{flat_map};
ghost use Rattle.rbd_text.specs.Text.{reply_line, replies_text, trace_text, usage_text, AreShown};
ghost use Rattle.rbd_text.specs.Unanswered.{unanswered_line};

use crate::entries::push_history;
use crate::lines::{push_reply_line, push_unanswered};
use crate::operations::push_log;
use crate::progress::Progresses;
use crate::room;
use crate::speakers::Speakers;
use rbd_flat::Entry;
use rbd_kinds::{NoMemory, SiteId};
use rbd_script::Script;
use rbd_site::Done;
use std::alloc::Global;

/// The line that tells the words of the program, with its line feed.
pub fn usage() -> &'static str
    ensures { result.now ≡ usage_text }
{
    "usage: rbd_lab run [--trace] | threads [--trace] [--turns N] | gen --seed N --clients C --commands K\n"
}

/// A line for each reply of a history, in its order, and then one for each command without a reply.
///
/// `history` tells of the commands of `script`, and `a` and `b` are the operation logs of the two
/// sites. Each Info of the history tells a layout within the limits and a size below 2^63.
pub fn replies(
    alloc: Global,
    script: &Script,
    history: &[Entry],
    a: &[Done],
    b: &[Done],
) -> Result<Vec<u8>, NoMemory>
    requires { AreShown history.now }
    ensures { IfOk result (λ text. text.items ≡ replies_text script.now history.now a.now b.now) }
{
    let mut text = Vec::new(alloc);
    text.reserve(room::of_replies(history))?;
    push_commands(&mut text, script, history, a, b)?;
    Ok(text)
}

/// The history, the operation logs of site a and of site b, and then what [`replies`] gives, under
/// its condition.
pub fn trace(
    alloc: Global,
    script: &Script,
    history: &[Entry],
    a: &[Done],
    b: &[Done],
) -> Result<Vec<u8>, NoMemory>
    requires { AreShown history.now }
    ensures { IfOk result (λ text. text.items ≡ trace_text script.now history.now a.now b.now) }
{
    let mut text = Vec::new(alloc);
    let events = room::of_events(history, a, b);
    text.reserve(events.saturating_add(room::of_replies(history)))?;
    let sessions = script.sessions.as_slice();
    push_history(&mut text, sessions, history)?;
    push_log(&mut text, sessions, SiteId::A, a)?;
    push_log(&mut text, sessions, SiteId::B, b)?;
    push_commands(&mut text, script, history, a, b)?;
    Ok(text)
}

fn push_commands(
    text: &mut Vec<u8>,
    script: &Script,
    history: &[Entry],
    a: &[Done],
    b: &[Done],
) -> Result<(), NoMemory>
    requires { AreShown history.now }
    ensures { OnOk result (text.new.items ≡ text.old.items ++ replies_text script.now history.now a.now b.now) }
{
    push_replied(text, script, history)?;
    push_unreplied(text, script, history, a, b)
}

fn push_replied(text: &mut Vec<u8>, script: &Script, history: &[Entry]) -> Result<(), NoMemory>
    requires { AreShown history.now }
    ensures { OnOk result (text.new.items ≡ text.old.items
        ++ flat_map (reply_line script.now.sessions script.now.lines) history.now) }
{
    let speakers = Speakers::of(*text.allocator(), script.lines.as_slice())?;
    let sessions = script.sessions.as_slice();
    for entry in history {
        push_reply_line(text, sessions, &speakers, entry)?;
    }
    Ok(())
}

fn push_unreplied(
    text: &mut Vec<u8>,
    script: &Script,
    history: &[Entry],
    a: &[Done],
    b: &[Done],
) -> Result<(), NoMemory>
    ensures { OnOk result (text.new.items ≡ text.old.items
        ++ flat_map (unanswered_line script.now.sessions a.now b.now history.now) script.now.lines) }
{
    let all = Progresses::of(*text.allocator(), history, a, b)?;
    let sessions = script.sessions.as_slice();
    for line in script.lines.as_slice() {
        push_unanswered(text, sessions, &all, line.number, &line.said)?;
    }
    Ok(())
}
