//! The lines of commands: of those with a reply, and of those without.
ghost use Rattle.std.specs.Prelude.{◌≡◌, ◌++◌, List, OnOk};
ghost use Rattle.rbd_script.specs.declared.script.Line.{Line};
ghost use Rattle.rbd_text.specs.Replies.{IsShowable};
ghost use Rattle.rbd_text.specs.Speakers.{AreSpeakersOf};
ghost use Rattle.rbd_text.specs.Text.{spoken_line, reply_line, speaker_name, IsShownEntry};
ghost use Rattle.rbd_text.specs.Unanswered.{said_line, progress_line, progress_text, waiting_text};
ghost use Rattle.rbd_text.specs.Progress.{progress_at};

use crate::names::{push_instance, push_session};
use crate::numbers::push_number;
use crate::progress::{CommandProgress, Progresses};
use crate::reply::push_reply;
use crate::speakers::{Speakers, session_of};
use rbd_flat::Entry;
use rbd_kinds::{Instance, NoMemory, Reply, SessionNo};
use rbd_script::{Declared, Said};

/// Appends the line of a reply, and nothing for another entry.
pub fn push_reply_line(
    text: &mut Vec<u8>,
    sessions: &[Declared],
    speakers: &Speakers,
    entry: &Entry,
) -> Result<(), NoMemory>
    requires { IsShownEntry entry.now }
    ensures { (lines : List Line) → AreSpeakersOf lines speakers.now
        → OnOk result (text.new.items ≡ text.old.items ++ reply_line sessions.now lines entry.now) }
{
    match entry {
        Entry::Reply { line, reply } => push_spoken(
            text,
            sessions,
            speakers.at(*line),
            *line,
            reply,
        ),
        _ => Ok(()),
    }
}

/// `4 c1 ok 68656c6c6f`
fn push_spoken(
    text: &mut Vec<u8>,
    sessions: &[Declared],
    session: Option<SessionNo>,
    line: u32,
    reply: &Reply,
) -> Result<(), NoMemory>
    requires { IsShowable reply.now }
    ensures { OnOk result (text.new.items ≡ text.old.items ++ spoken_line sessions.now session line reply.now) }
{
    push_number(text, line)?;
    text.push(b' ')?;
    push_speaker(text, sessions, session)?;
    text.push(b' ')?;
    push_reply(text, sessions, reply)?;
    text.push(b'\n')?;
    Ok(())
}

fn push_speaker(
    text: &mut Vec<u8>,
    sessions: &[Declared],
    session: Option<SessionNo>,
) -> Result<(), NoMemory>
    ensures { OnOk result (text.new.items ≡ text.old.items ++ speaker_name sessions.now session) }
{
    match session {
        None => Ok(()),
        Some(session) => push_session(text, sessions, session),
    }
}

/// Appends the line of a command without a reply, and nothing for another line of a script.
pub fn push_unanswered(
    text: &mut Vec<u8>,
    sessions: &[Declared],
    all: &Progresses,
    line: u32,
    said: &Said,
) -> Result<(), NoMemory>
    ensures { OnOk result (text.new.items ≡ text.old.items ++ said_line sessions.now line said.now
        (progress_at all.now line)) }
{
    match session_of(said) {
        None => Ok(()),
        Some(session) => push_progress(text, sessions, line, session, all.at(line)),
    }
}

/// `6 c2 unfinished waiting c1.0`
fn push_progress(
    text: &mut Vec<u8>,
    sessions: &[Declared],
    line: u32,
    session: SessionNo,
    progress: CommandProgress,
) -> Result<(), NoMemory>
    ensures { OnOk result (text.new.items ≡ text.old.items ++ progress_line sessions.now line session progress) }
{
    if progress.answered {
        return Ok(());
    }
    push_number(text, line)?;
    text.push(b' ')?;
    push_session(text, sessions, session)?;
    text.push(b' ')?;
    push_how_far(text, sessions, progress)?;
    text.push(b'\n')?;
    Ok(())
}

fn push_how_far(
    text: &mut Vec<u8>,
    sessions: &[Declared],
    progress: CommandProgress,
) -> Result<(), NoMemory>
    ensures { OnOk result (text.new.items ≡ text.old.items ++ progress_text sessions.now progress) }
{
    if progress.lost {
        text.extend_from_slice(b"lost")?;
        return Ok(());
    }
    if progress.started {
        return push_waiting(text, sessions, progress.holder);
    }
    text.extend_from_slice(b"unsent")?;
    Ok(())
}

fn push_waiting(
    text: &mut Vec<u8>,
    sessions: &[Declared],
    holder: Option<Instance>,
) -> Result<(), NoMemory>
    ensures { OnOk result (text.new.items ≡ text.old.items ++ waiting_text sessions.now holder) }
{
    let Some(holder) = holder else {
        text.extend_from_slice(b"unfinished")?;
        return Ok(());
    };
    text.extend_from_slice(b"unfinished waiting ")?;
    push_instance(text, sessions, holder)?;
    Ok(())
}
