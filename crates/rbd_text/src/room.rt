//! How much room a text is given before it is printed, so that a long one doesn't grow in steps. It
//! is about what the text takes: the usual length of each line, and what reads and lists show.
ghost use Rattle.std.specs.Prelude.{◌≤◌, ◌+◌, ◌*◌, length};
ghost use Rattle.rbd_text.specs.Room.{all_shown, shown_by, shown_by_reply};

use rbd_flat::Entry;
use rbd_kinds::Reply;
use rbd_site::Done;

/// The usual length of a line in bytes, without what a read or a list shows.
const LINE: usize = 32;

/// The usual length of an operation's line in bytes.
const OPERATION: usize = 64;

/// The usual length of a name in bytes, with the space before it.
const NAME: usize = 16;

/// Room for the lines of replies, in bytes.
pub fn of_replies(history: &[Entry]) -> usize
    ensures { result ≤ 32 * length history.now + all_shown history.now }
{
    let mut room = 0usize;
    for entry in history {
        room = room.saturating_add(of_reply_line(entry));
    }
    room
}

/// Room for the lines of a history and of both logs, in bytes.
pub fn of_events(history: &[Entry], a: &[Done], b: &[Done]) -> usize
    ensures { result ≤ 32 * length history.now + 64 * (length a.now + length b.now) }
{
    let operations = a.len().saturating_add(b.len());
    history
        .len()
        .saturating_mul(LINE)
        .saturating_add(operations.saturating_mul(OPERATION))
}

fn of_reply_line(entry: &Entry) -> usize
    ensures { result ≤ 32 + shown_by entry.now }
{
    match entry {
        Entry::Reply { line: _, reply } => of_reply(reply).saturating_add(LINE),
        _ => 0,
    }
}

/// What a reply shows: two digits for each byte of a read, and each name of a list.
fn of_reply(reply: &Reply) -> usize
    ensures { result ≤ shown_by_reply reply.now }
{
    match reply {
        Reply::Bytes(bytes) => bytes.len().saturating_mul(2),
        Reply::Names(names) => names.len().saturating_mul(NAME),
        _ => 0,
    }
}
