//! What is noted of an event, in the history and among the calls.
ghost use Rattle.std.specs.Prelude.{◌≡◌, ◌+◌, ◌^◌, ◌<◌, ◌≤◌, ◌∷◌, ◌++◌, [], length, map, OnErr, OnOk};
ghost use Rattle.std.specs.Vec.{vec_len, vec_capacity};
ghost use Rattle.rbd_flat.specs.declared.entry.Entry.TheVariants as of_entry;
ghost use Rattle.rbd_world.specs.Run.{ending_entries, entry_by, entry_unfenced, reply_entries};
ghost use Rattle.rbd_world.specs.Sending.{doer_of};
ghost use Rattle.rbd_world.specs.declared.event.Event.TheVariants as of_event;

use crate::calls::Calls;
use crate::event::{Event, Outcome};
use crate::sender::Sender;
use rbd_flat::{Cause, Effect, Entry};
use rbd_kinds::{Instance, NoMemory, Reply, SessionNo, Shared, SiteId, Slot};

/// What happened, and by which calls.
#[derive(Drop)]
pub struct Book {
    pub history: Vec<Entry>,
    pub calls: Calls,
}

/// Makes room for all that one event adds, but for the lines that a stop loses.
pub fn reserve(book: &mut Book) -> Result<(), NoMemory>
    ensures history { book.new.history.items ≡ book.old.history.items }
    ensures calls { book.new.calls ≡ book.old.calls }
    ensures ok { OnOk result ((vec_len book.new.history + 2 ≤ vec_capacity book.new.history)
        × (length book.new.calls + 1 < 2 ^ 59)) }
{
    book.history.reserve(2)?;
    book.calls.reserve()?;
    Ok(())
}

/// The same for an event of which the history has nothing.
pub fn reserve_call(book: &mut Book) -> Result<(), NoMemory>
    ensures history { book.new.history.items ≡ book.old.history.items }
    ensures calls { book.new.calls ≡ book.old.calls }
    ensures ok { OnOk result (length book.new.calls + 1 < 2 ^ 59) }
{
    book.calls.reserve()
}

/// Keeps the call of an event, where there is room. It takes no memory.
pub fn keep_call(book: &mut Book, event: &Event, outcome: &Outcome)
    requires { length book.old.calls + 1 < 2 ^ 59 }
    ensures calls { book.new.calls ≡ book.old.calls ++ record { event = event.now; outcome = outcome.now } ∷ [] }
    ensures history { book.new.history ≡ book.old.history }
{
    book.calls.keep(event, outcome);
}

/// The same of a poll, for who has no event at hand.
pub fn keep_poll(book: &mut Book, session: SessionNo, slot: Slot, outcome: &Outcome)
    requires { length book.old.calls + 1 < 2 ^ 59 }
    ensures calls { book.new.calls ≡ book.old.calls
        ++ record { event = of_event.Poll session slot; outcome = outcome.now } ∷ [] }
    ensures history { book.new.history ≡ book.old.history }
{
    let event = Event::Poll { session, slot };
    keep_call(book, &event, outcome);
}

/// The same of a delivery, for who has no event at hand.
pub fn keep_delivery(book: &mut Book, number: u64, outcome: &Outcome)
    requires { length book.old.calls + 1 < 2 ^ 59 }
    ensures calls { book.new.calls
        ≡ book.old.calls ++ record { event = of_event.Deliver number; outcome = outcome.now } ∷ [] }
    ensures history { book.new.history ≡ book.old.history }
{
    let event = Event::Deliver { number };
    keep_call(book, &event, outcome);
}

/// Notes an operation that was done, and the reply where its command has it. It takes no memory.
pub fn note(history: &mut Vec<Entry>, by: &Sender, entry: Entry, reply: Option<Reply>)
    requires { vec_len history.old + 2 ≤ vec_capacity history.old }
    ensures { history.new.items ≡ history.old.items ++ entry ∷ ending_entries (doer_of by.now) reply }
{
    history.push_reserved(entry);
    match by {
        Sender::Itself(line) => push_reply(history, *line, reply),
        Sender::OnWay(line) => push_reply(history, *line, reply),
        _ => drop(reply),
    }
}

/// Notes a reply, where there is one.
fn push_reply(history: &mut Vec<Entry>, line: u32, reply: Option<Reply>)
    requires { vec_len history.old + 1 ≤ vec_capacity history.old }
    ensures { history.new.items ≡ history.old.items ++ reply_entries line reply }
{
    if let Some(reply) = reply {
        history.push_reserved(Entry::Reply { line, reply });
    }
}

/// The entry of an operation: an instance that it put into its site's blocklist, or its effect
/// where it has one.
pub fn entry_by(
    cause: Cause,
    site: SiteId,
    number: u64,
    fence: Option<Instance>,
    effect: Option<Shared<Effect>>,
) -> Entry
    ensures { result ≡ entry_by cause site number fence effect }
{
    match fence {
        Some(instance) => Entry::Fence {
            cause,
            site,
            number,
            instance,
        },
        None => unfenced(cause, site, number, effect),
    }
}

/// The entry of an operation that fenced nobody.
fn unfenced(cause: Cause, site: SiteId, number: u64, effect: Option<Shared<Effect>>) -> Entry
    ensures { result ≡ entry_unfenced cause site number effect }
{
    match effect {
        Some(effect) => Entry::Effect {
            cause,
            site,
            number,
            effect,
        },
        None => Entry::Look {
            cause,
            site,
            number,
        },
    }
}

/// Notes a stop, and each line that it lost. NoMemory where memory is refused; then nothing is
/// noted.
pub fn note_stop(history: &mut Vec<Entry>, who: &Instance, lost: &[u32]) -> Result<(), NoMemory>
    ensures ok { OnOk result (history.new.items ≡ history.old.items
        ++ of_entry.Stop who.now.session ∷ map of_entry.Lost lost.now) }
    ensures err { OnErr result (history.new.items ≡ history.old.items) }
{
    history.reserve(1 + lost.len())?;
    history.push_reserved(Entry::Stop {
        session: who.session,
    });
    for index in 0..lost.len() {
        history.push_reserved(Entry::Lost { line: lost[index] });
    }
    Ok(())
}
