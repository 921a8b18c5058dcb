//! What events, outcomes and entries are, as texts.
use rbd_flat::Entry;
use rbd_kinds::{Instance, NoMemory, Reply, SessionNo, SiteId};
use rbd_text::push_reply;
use rbd_world::{Event, Outcome};
use std::alloc::Global;

/// Appends a word and a number.
pub fn push_numbered(
    alloc: Global,
    text: &mut Vec<u8>,
    word: &str,
    number: u64,
) -> Result<(), NoMemory> {
    let told = format!(in alloc; "{word}{number}")?;
    text.extend_from_slice(told.as_bytes())?;
    Ok(())
}

/// Appends a word and a number, and once more.
pub fn push_pair(
    alloc: Global,
    text: &mut Vec<u8>,
    word: &str,
    number: u64,
    next: &str,
    second: u64,
) -> Result<(), NoMemory> {
    push_numbered(alloc, text, word, number)?;
    push_numbered(alloc, text, next, second)
}

/// The number of a client's name: 1 for c1.
fn client(session: SessionNo) -> u64 {
    u64::from(session.0) + 1
}

/// The letter of a site.
pub fn letter(site: SiteId) -> &'static str {
    match site {
        SiteId::A => "a",
        SiteId::B => "b",
    }
}

/// Appends a word that ends with a `c`, and an instance: `c1.0`.
pub fn push_instance(
    alloc: Global,
    text: &mut Vec<u8>,
    word: &str,
    who: &Instance,
) -> Result<(), NoMemory> {
    let life = u64::from(who.life);
    push_pair(alloc, text, word, client(who.session), ".", life)
}

// ---- calls

fn push_step(
    alloc: Global,
    text: &mut Vec<u8>,
    site: SiteId,
    number: u64,
    waiting: bool,
    replied: bool,
) -> Result<(), NoMemory> {
    push_numbered(alloc, text, letter(site), number)?;
    if waiting {
        text.push(b'~')?;
    }
    if replied {
        text.push(b'!')?;
    }
    Ok(())
}

/// Appends what came of an event: `nothing`, `waits`, `slot1`, `a5`, one that asks again `a5~`,
/// with its reply `a5!`, `heard`, `stored`, `stopped` or `restarted`.
pub fn push_outcome(alloc: Global, text: &mut Vec<u8>, outcome: &Outcome) -> Result<(), NoMemory> {
    match outcome {
        Outcome::Nothing => text.extend_from_slice(b"nothing")?,
        Outcome::Submitted(slot) => push_numbered(alloc, text, "slot", u64::from(slot.0))?,
        Outcome::Waits => text.extend_from_slice(b"waits")?,
        Outcome::Step {
            site,
            number,
            waiting,
            replied,
        } => push_step(alloc, text, *site, *number, *waiting, *replied)?,
        Outcome::Heard => text.extend_from_slice(b"heard")?,
        Outcome::Stored => text.extend_from_slice(b"stored")?,
        Outcome::Stopped => text.extend_from_slice(b"stopped")?,
        Outcome::Restarted => text.extend_from_slice(b"restarted")?,
    }
    Ok(())
}

fn push_expired(
    alloc: Global,
    text: &mut Vec<u8>,
    session: SessionNo,
    site: SiteId,
    image: u32,
) -> Result<(), NoMemory> {
    push_numbered(alloc, text, "expire:c", client(session))?;
    text.push(b'.')?;
    push_numbered(alloc, text, letter(site), u64::from(image))
}

fn push_trimmed(
    alloc: Global,
    text: &mut Vec<u8>,
    site: SiteId,
    image: u32,
    object: u64,
) -> Result<(), NoMemory> {
    text.extend_from_slice(b"trim:")?;
    push_pair(alloc, text, letter(site), u64::from(image), ".", object)
}

/// Appends an event: `3:c1`, `1.2`, `deliver:1`, `expire:c1.a1`, `stop:c1`, `late:1.2`,
/// `restart:c1` or `trim:a1.0`.
pub fn push_event(alloc: Global, text: &mut Vec<u8>, event: &Event) -> Result<(), NoMemory> {
    match event {
        Event::Submit {
            session,
            line,
            command: _,
        } => push_pair(alloc, text, "", u64::from(*line), ":c", client(*session)),
        Event::Poll { session, slot } => {
            push_pair(alloc, text, "", client(*session), ".", u64::from(slot.0))
        }
        Event::Deliver { number } => push_numbered(alloc, text, "deliver:", *number),
        Event::Expire {
            session,
            site,
            image,
        } => push_expired(alloc, text, *session, *site, image.0),
        Event::Stop { session } => push_numbered(alloc, text, "stop:c", client(*session)),
        Event::Late { session, slot } => {
            push_pair(
                alloc,
                text,
                "late:",
                client(*session),
                ".",
                u64::from(slot.0),
            )
        }
        Event::Restart { session } => push_numbered(alloc, text, "restart:c", client(*session)),
        Event::Trim {
            site,
            image,
            object,
        } => push_trimmed(alloc, text, *site, image.0, *object),
    }
}

// ---- entries

/// What stands between a text and what is appended to it.
pub fn between<'a>(text: &[u8], mark: &'a str) -> &'a str {
    if text.is_empty() { "" } else { mark }
}

/// Appends a reply: done, bytes, names or a refusal. Of others only that there is one.
fn push_plain(text: &mut Vec<u8>, reply: &Reply) -> Result<(), NoMemory> {
    match reply {
        Reply::Done => push_reply(text, &[], reply)?,
        Reply::Bytes(_) => push_reply(text, &[], reply)?,
        Reply::Names(_) => push_reply(text, &[], reply)?,
        Reply::Refused(_) => push_reply(text, &[], reply)?,
        _ => text.push(b'?')?,
    }
    Ok(())
}

fn push_line_reply(
    alloc: Global,
    text: &mut Vec<u8>,
    line: u32,
    reply: &Reply,
) -> Result<(), NoMemory> {
    let mark = between(text.as_slice(), ";");
    push_numbered(alloc, text, mark, u64::from(line))?;
    text.push(b' ')?;
    push_plain(text, reply)
}

/// Appends the reply of an entry behind its line, and a `;` between any two.
pub fn push_answered(alloc: Global, text: &mut Vec<u8>, entry: &Entry) -> Result<(), NoMemory> {
    match entry {
        Entry::Reply { line, reply } => push_line_reply(alloc, text, *line, reply),
        _ => Ok(()),
    }
}

/// Appends the line that an entry loses, and a `,` between any two.
pub fn push_lost(alloc: Global, text: &mut Vec<u8>, entry: &Entry) -> Result<(), NoMemory> {
    match entry {
        Entry::Lost { line } => {
            let mark = between(text.as_slice(), ",");
            push_numbered(alloc, text, mark, u64::from(*line))
        }
        _ => Ok(()),
    }
}

/// Appends who an entry fences, and a `,` between any two.
pub fn push_fenced(alloc: Global, text: &mut Vec<u8>, entry: &Entry) -> Result<(), NoMemory> {
    match entry {
        Entry::Fence {
            cause: _,
            site: _,
            number: _,
            instance,
        } => {
            let word = if text.is_empty() { "c" } else { ",c" };
            push_instance(alloc, text, word, instance)
        }
        _ => Ok(()),
    }
}
