//! The lines of a history.
ghost use Rattle.std.specs.Prelude.{◌≡◌, ◌++◌, OnOk, codes, decimal};
ghost use Rattle.rbd_text.specs.Names.{instance_text};
ghost use Rattle.rbd_text.specs.Entries.{cause_text, effect_word, entry_text, entry_line, history_text};

use crate::names::{push_instance, push_numbered, push_session};
use crate::numbers::push_number;
use rbd_flat::{Cause, Effect, Entry};
use rbd_kinds::{Instance, NoMemory, SessionNo, SiteId};
use rbd_script::Declared;

/// Appends a history, a line for each entry, numbered from 1.
pub fn push_history(
    text: &mut Vec<u8>,
    sessions: &[Declared],
    history: &[Entry],
) -> Result<(), NoMemory>
    ensures { OnOk result (text.new.items ≡ text.old.items ++ history_text sessions.now history.now) }
{
    for (index, entry) in history.iter().enumerate() {
        push_line(text, sessions, index + 1, entry)?;
    }
    Ok(())
}

/// Appends the line of an entry by its place, from 1: `h 1 start 2 c1.0`
pub fn push_line(
    text: &mut Vec<u8>,
    sessions: &[Declared],
    place: usize,
    entry: &Entry,
) -> Result<(), NoMemory>
    ensures { OnOk result (text.new.items ≡ text.old.items ++ entry_line sessions.now place entry.now) }
{
    text.extend_from_slice(b"h ")?;
    push_number(text, place)?;
    text.push(b' ')?;
    push_entry(text, sessions, entry)?;
    text.push(b'\n')?;
    Ok(())
}

fn push_entry(text: &mut Vec<u8>, sessions: &[Declared], entry: &Entry) -> Result<(), NoMemory>
    ensures { OnOk result (text.new.items ≡ text.old.items ++ entry_text sessions.now entry.now) }
{
    match entry {
        Entry::Start { line, instance } => push_start(text, sessions, *line, *instance),
        Entry::Effect {
            cause,
            site,
            number,
            effect,
        } => push_effect(text, sessions, *cause, *site, *number, effect),
        Entry::Look {
            cause,
            site,
            number,
        } => push_look(text, sessions, *cause, *site, *number),
        Entry::Fence {
            cause,
            site,
            number,
            instance,
        } => push_fence(text, sessions, *cause, *site, *number, *instance),
        Entry::Reply { line, reply: _ } => push_answered(text, *line),
        Entry::Stop { session } => push_stop(text, sessions, *session),
        Entry::Lost { line } => push_lost(text, *line),
    }
}

fn push_start(
    text: &mut Vec<u8>,
    sessions: &[Declared],
    line: u32,
    instance: Instance,
) -> Result<(), NoMemory>
    ensures { OnOk result (text.new.items ≡ text.old.items ++ entry_text sessions.now (Entry.Start line instance)) }
{
    text.extend_from_slice(b"start ")?;
    push_number(text, line)?;
    text.push(b' ')?;
    push_instance(text, sessions, instance)
}

fn push_effect(
    text: &mut Vec<u8>,
    sessions: &[Declared],
    cause: Cause,
    site: SiteId,
    number: u64,
    effect: &Effect,
) -> Result<(), NoMemory>
    ensures { OnOk result (text.new.items ≡ text.old.items ++ entry_text sessions.now
        (Entry.Effect cause site number effect.now)) }
{
    text.extend_from_slice(b"effect ")?;
    push_cause(text, sessions, cause)?;
    text.push(b' ')?;
    push_numbered(text, site, number)?;
    text.push(b' ')?;
    text.extend_from_slice(word(effect).as_bytes())?;
    Ok(())
}

fn push_look(
    text: &mut Vec<u8>,
    sessions: &[Declared],
    cause: Cause,
    site: SiteId,
    number: u64,
) -> Result<(), NoMemory>
    ensures { OnOk result (text.new.items ≡ text.old.items ++ entry_text sessions.now (Entry.Look cause site number)) }
{
    text.extend_from_slice(b"look ")?;
    push_cause(text, sessions, cause)?;
    text.push(b' ')?;
    push_numbered(text, site, number)
}

fn push_fence(
    text: &mut Vec<u8>,
    sessions: &[Declared],
    cause: Cause,
    site: SiteId,
    number: u64,
    instance: Instance,
) -> Result<(), NoMemory>
    ensures { OnOk result (text.new.items ≡ text.old.items ++ entry_text sessions.now
        (Entry.Fence cause site number instance)) }
{
    text.extend_from_slice(b"fence ")?;
    push_cause(text, sessions, cause)?;
    text.push(b' ')?;
    push_numbered(text, site, number)?;
    text.push(b' ')?;
    push_instance(text, sessions, instance)
}

fn push_answered(text: &mut Vec<u8>, line: u32) -> Result<(), NoMemory>
    ensures { OnOk result (text.new.items ≡ text.old.items ++ (codes "reply " ++ decimal line)) }
{
    text.extend_from_slice(b"reply ")?;
    push_number(text, line)
}

fn push_stop(text: &mut Vec<u8>, sessions: &[Declared], session: SessionNo) -> Result<(), NoMemory>
    ensures { OnOk result (text.new.items ≡ text.old.items ++ entry_text sessions.now (Entry.Stop session)) }
{
    text.extend_from_slice(b"stop ")?;
    push_session(text, sessions, session)
}

fn push_lost(text: &mut Vec<u8>, line: u32) -> Result<(), NoMemory>
    ensures { OnOk result (text.new.items ≡ text.old.items ++ (codes "lost " ++ decimal line)) }
{
    text.extend_from_slice(b"lost ")?;
    push_number(text, line)
}

fn push_cause(text: &mut Vec<u8>, sessions: &[Declared], cause: Cause) -> Result<(), NoMemory>
    ensures { OnOk result (text.new.items ≡ text.old.items ++ cause_text sessions.now cause) }
{
    match cause {
        Cause::Line(line) => push_number(text, line),
        Cause::Late(instance) => push_by(text, sessions, b"late:", instance),
        Cause::Replay { line, seq } => push_replay(text, line, seq),
        Cause::House(instance) => push_by(text, sessions, b"house:", instance),
    }
}

fn push_by(
    text: &mut Vec<u8>,
    sessions: &[Declared],
    why: &[u8],
    instance: Instance,
) -> Result<(), NoMemory>
    ensures { OnOk result (text.new.items ≡ text.old.items ++ (why.now ++ instance_text sessions.now instance)) }
{
    text.extend_from_slice(why)?;
    push_instance(text, sessions, instance)
}

fn push_replay(text: &mut Vec<u8>, line: u32, seq: u64) -> Result<(), NoMemory>
    ensures { OnOk result (text.new.items ≡ text.old.items
        ++ (codes "replay:" ++ decimal line ++ codes ":" ++ decimal seq)) }
{
    text.extend_from_slice(b"replay:")?;
    push_number(text, line)?;
    text.push(b':')?;
    push_number(text, seq)
}

fn word(effect: &Effect) -> &'static str
    ensures { result.now ≡ effect_word effect.now }
{
    match effect {
        Effect::Name { name: _, image: _ } => "name",
        Effect::NameFree { image: _ } => "namefree",
        Effect::Rename { from: _, to: _ } => "rename",
        Effect::Create {
            image: _,
            size: _,
            role: _,
        } => "create",
        Effect::Clone {
            image: _,
            parent: _,
            snap: _,
        } => "clone",
        Effect::Piece {
            image: _,
            at: _,
            bytes: _,
        } => "piece",
        Effect::Zero { image: _, at: _ } => "zero",
        Effect::Size { image: _, size: _ } => "size",
        Effect::Snap {
            image: _,
            snap: _,
            name: _,
        } => "snap",
        Effect::Unsnap { image: _, snap: _ } => "unsnap",
        Effect::Status {
            image: _,
            snap: _,
            status: _,
        } => "status",
        Effect::Link {
            parent: _,
            snap: _,
            child: _,
        } => "link",
        Effect::Unlink {
            parent: _,
            snap: _,
            child: _,
        } => "unlink",
        Effect::Role { image: _, role: _ } => "role",
        Effect::Gone { image: _ } => "gone",
    }
}
