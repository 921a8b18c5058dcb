//! The summary of a run.
ghost use Rattle.std.specs.Prelude.{◌≡◌, ◌++◌, ◌||◌, ℕ, count_by, sum_by, IfOk, OnOk};
ghost use Rattle.rbd_line_table.specs.Known.{is_known};
ghost use Rattle.rbd_text.specs.Unanswered.{answers};
ghost use Rattle.rbd_generate.specs.Summary.{HasRepliesFor, bytes_of_reply, command_count, is_granted, is_command, is_open, is_refusal, refuses, bytes_shown_by, summary_text};

use itoa::{Buffer, Integer};
use rbd_flat::Entry;
use rbd_kinds::{NoMemory, Reply};
use rbd_line_table::LineMap;
use rbd_script::{Line, Said, Script};
use std::alloc::Global;

/// One line that counts what a history tells of a script: the commands, the replies that aren't
/// refusals, the refusals, the commands without a reply, and the bytes that reads showed.
pub fn summary(alloc: Global, script: &Script, history: &[Entry]) -> Result<Vec<u8>, NoMemory>
    ensures { IfOk result (λ text. text.items ≡ summary_text script.now history.now) }
{
    let lines = script.lines.as_slice();
    let unfinished = unfinished_in(lines, &answered(alloc, history)?);
    let mut text = Vec::new(alloc);
    push_count(&mut text, b"commands ", commands_in(lines))?;
    push_count(&mut text, b" ok ", granted_in(history))?;
    push_count(&mut text, b" refused ", refused_in(history))?;
    push_count(&mut text, b" unfinished ", unfinished)?;
    push_count(&mut text, b" read ", shown_in(history))?;
    text.push(b'\n')?;
    Ok(text)
}

/// How many commands the lines have.
fn commands_in(lines: &[Line]) -> u64
    ensures { result ≡ command_count lines.now }
{
    let mut count = 0u64;
    for line in lines {
        count += u64::from(is_command(&line.said));
    }
    count
}

fn is_command(said: &Said) -> bool
    ensures { result ≡ is_command said.now }
{
    matches!(
        said,
        Said::Command {
            session: _,
            beside: _,
            command: _,
        }
    )
}

/// How many replies aren't refusals.
fn granted_in(history: &[Entry]) -> u64
    ensures { result ≡ count_by is_granted history.now }
{
    let mut count = 0u64;
    for entry in history {
        count += u64::from(grants(entry));
    }
    count
}

fn grants(entry: &Entry) -> bool
    ensures { result ≡ is_granted entry.now }
{
    match entry {
        Entry::Reply { line: _, reply } => !is_refusal(reply),
        _ => false,
    }
}

/// How many replies are refusals.
fn refused_in(history: &[Entry]) -> u64
    ensures { result ≡ count_by refuses history.now }
{
    let mut count = 0u64;
    for entry in history {
        count += u64::from(refuses(entry));
    }
    count
}

fn refuses(entry: &Entry) -> bool
    ensures { result ≡ refuses entry.now }
{
    match entry {
        Entry::Reply { line: _, reply } => is_refusal(reply),
        _ => false,
    }
}

fn is_refusal(reply: &Reply) -> bool
    ensures { result ≡ is_refusal reply.now }
{
    matches!(reply, Reply::Refused(_))
}

/// How many bytes reads showed.
fn shown_in(history: &[Entry]) -> u128
    ensures { result ≡ sum_by bytes_shown_by history.now }
{
    let mut bytes = 0u128;
    for entry in history {
        bytes += shown_by(entry) as u128;
    }
    bytes
}

fn shown_by(entry: &Entry) -> usize
    ensures { result ≡ bytes_shown_by entry.now }
{
    match entry {
        Entry::Reply { line: _, reply } => bytes_in(reply),
        _ => 0,
    }
}

fn bytes_in(reply: &Reply) -> usize
    ensures { result ≡ bytes_of_reply reply.now }
{
    match reply {
        Reply::Bytes(bytes) => bytes.len(),
        _ => 0,
    }
}

/// The lines that a history has replies for.
fn answered(alloc: Global, history: &[Entry]) -> Result<LineMap<()>, NoMemory>
    ensures { IfOk result (λ lines. HasRepliesFor history.now lines) }
{
    let mut lines = LineMap::new(alloc);
    for entry in history {
        note(&mut lines, entry)?;
    }
    Ok(lines)
}

fn note(lines: &mut LineMap<()>, entry: &Entry) -> Result<(), NoMemory>
    ensures { OnOk result ((line : ℕ) → is_known lines.new line ≡ (answers line entry.now || is_known lines.old line)) }
{
    match entry {
        Entry::Reply { line, reply: _ } => lines.insert(*line, ()),
        _ => Ok(()),
    }
}

/// How many commands of the lines have no reply.
fn unfinished_in(lines: &[Line], answered: &LineMap<()>) -> u64
    ensures { result ≡ count_by (is_open answered.now) lines.now }
{
    let mut count = 0u64;
    for line in lines {
        count += u64::from(is_open(line, answered));
    }
    count
}

fn is_open(line: &Line, answered: &LineMap<()>) -> bool
    ensures { result ≡ is_open answered.now line.now }
{
    is_command(&line.said) && !answered.has(line.number)
}

/// Adds a word and a number.
fn push_count<I: Integer>(text: &mut Vec<u8>, word: &[u8], count: I) -> Result<(), NoMemory>
    ensures { OnOk result (text.new.items ≡ text.old.items ++ word.now ++ I.text count) }
{
    text.extend_from_slice(word)?;
    text.extend_from_slice(Buffer::new().format(count).as_bytes())?;
    Ok(())
}
