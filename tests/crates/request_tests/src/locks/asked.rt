//! The requests of these tests, and how each ends at a site, by the rows of a table:
//! `REQUEST|SITE|END|WHAT IT DID`.
//!
//! The site is spelled by the words of `site`; `owned` is one of which the instance of these tests
//! has the lock and watches, as another one does, and `lost` one of which that other one has it.
//! The end is the reply, `more` where there is none within 20 steps, and words on what is there
//! then:
//!
//! | words | what they say |
//! |---|---|
//! | `waits 3` | how many operations are marked as waiting |
//! | `operations 20` | how many were done |
//! | `owner c1`, `blocked c2` | who has the lock, or is fenced; `none` for nobody |
//! | `watched`, `unwatched` | whether the instance of these tests watches |
//!
//! What it did is what the site wrote down, exactly. Where it is left out it isn't looked at.
use super::site::{HERE, Site, instance};
use crate::fixtures::{IMAGE, RowError, behind, has, hello, holds, name, number, play};
use rbd_kinds::Command;
use rbd_lock::{Acquire, Release};
use rbd_machine::Reason;
use rbd_session::CloseRequest;
use std::alloc::Global;
use std::process::Abort;

// ---- requests

fn take(alloc: Global, watched: bool, site: &mut Site, end: &mut String) -> Result<(), RowError> {
    let mut way = Acquire::new(HERE, IMAGE, watched);
    play(alloc, &mut way, site, 20, end)?;
    Ok(())
}

fn release(alloc: Global, site: &mut Site, end: &mut String) -> Result<(), RowError> {
    let mut release = Release::new(HERE, IMAGE);
    play(alloc, &mut release, site, 20, end)?;
    Ok(())
}

fn command(
    alloc: Global,
    command: Command,
    site: &mut Site,
    end: &mut String,
) -> Result<(), RowError> {
    let mut request = CloseRequest::new(HERE, command);
    let played = play(alloc, &mut request, site, 20, end);
    drop(request);
    played?;
    Ok(())
}

/// A `tell` of `hello`.
fn tell(alloc: Global, site: &mut Site, end: &mut String) -> Result<(), RowError> {
    let bytes = hello(alloc)?;
    let image = name(alloc, "disk")?;
    command(alloc, Command::Tell { image, bytes }, site, end)
}

/// The request of a command that has the image `disk` alone.
fn of_name(alloc: Global, word: &str, site: &mut Site, end: &mut String) -> Result<(), RowError> {
    let image = name(alloc, "disk")?;
    match word {
        "close" => command(alloc, Command::Close { image }, site, end),
        "quiesce" => command(alloc, Command::Quiesce { image }, site, end),
        "resume" => command(alloc, Command::Resume { image }, site, end),
        _ => {
            drop(image);
            Err(RowError::UnknownWord)
        }
    }
}

/// Plays the request of a word at a site, 20 steps at most, and writes down its reply.
fn play_at(alloc: Global, word: &str, site: &mut Site, end: &mut String) -> Result<(), RowError> {
    match word {
        "take" => take(alloc, false, site, end),
        "take-watching" => take(alloc, true, site, end),
        "release" => release(alloc, site, end),
        "tell" => tell(alloc, site, end),
        _ => of_name(alloc, word, site, end),
    }
}

// ---- their ends

/// Whether a number is the one behind a word, where that is there.
fn counts(words: &str, key: &str, count: u8) -> bool {
    match behind(words, key) {
        Some(word) => number(word) == u64::from(count),
        None => true,
    }
}

/// Whether what is said of the site's clients is so.
fn is_left(site: &Site, words: &str) -> bool {
    let owner = behind(words, "owner");
    if owner.is_some() && site.owner != instance(owner.unwrap_or("")) {
        return false;
    }
    let blocked = behind(words, "blocked");
    if blocked.is_some() && site.blocked != instance(blocked.unwrap_or("")) {
        return false;
    }
    !(has(words, "watched") && !site.watched || has(words, "unwatched") && site.watched)
}

/// Whether a request ended so at a site.
fn has_ended(site: &Site, reply: &str, end: &str) -> bool {
    let (wanted, words) = end.split_once(' ').unwrap_or((end, ""));
    let reply = if reply.is_empty() { "more" } else { reply };
    reply == wanted
        && counts(words, "waits", site.waits)
        && counts(words, "operations", site.done)
        && is_left(site, words)
}

fn reason_of(request: &str) -> Reason {
    match request {
        "take" => Reason::Acquiring,
        "take-watching" => Reason::Acquiring,
        _ => Reason::Own,
    }
}

fn ends(
    alloc: Global,
    request: &str,
    site: &mut Site,
    end: &str,
    did: &str,
) -> Result<bool, RowError> {
    let mut reply = String::new(alloc);
    play_at(alloc, request, site, &mut reply)?;
    let did_so = did.is_empty() || site.log.as_str() == did;
    Ok(did_so && has_ended(site, reply.as_str(), end))
}

fn words_of(site: &str) -> &str {
    match site {
        "owned" => "owner c1 watcher c3 watched",
        "lost" => "owner c3 watcher c3 watched",
        _ => site,
    }
}

/// The next part of a row.
fn part<'t>(rest: &mut &'t str) -> &'t str {
    let (part, left) = rest.split_once('|').unwrap_or((*rest, ""));
    *rest = left;
    part
}

fn row_holds(alloc: Global, row: &str) -> Result<bool, RowError> {
    let mut rest = row;
    let request = part(&mut rest);
    let words = words_of(part(&mut rest));
    let end = part(&mut rest);
    let mut site = Site::new(alloc, reason_of(request), words);
    ends(alloc, request, &mut site, end, rest)
}

/// Each row of a table holds.
pub fn table_holds(rt: &impl Abort, alloc: Global, rows: &str) {
    for row in rows.split('\n') {
        assert!(rt; holds(row_holds(alloc, row)), "{row}");
    }
}
