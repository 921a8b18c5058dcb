//! Notices that the client hears, and what it keeps of them.
use super::operations::image;
use crate::fixtures::{ME, OWNER};
use rbd_client::Client;
use rbd_kinds::{Bytes, NoMemory, Notice, NoticeKind, Shared, SiteId};
use rbd_machine::Request;
use std::alloc::Global;

/// What a notice of a word says: a word that is none of the lock's is told as it is.
fn said(alloc: Global, word: &str) -> Result<NoticeKind, NoMemory> {
    Ok(match word {
        "RequestLock" => NoticeKind::RequestLock,
        "ReleasedLock" => NoticeKind::ReleasedLock,
        _ => NoticeKind::Custom(Shared::new(alloc, Bytes::from_slice(alloc, word.as_bytes())?)?),
    })
}

/// The client hears a notice of the other one. Behind an `@` the number of its image, where that
/// isn't 7.
pub fn hears<R: Request>(
    alloc: Global,
    client: &mut Client<R>,
    words: &str,
) -> Result<bool, NoMemory> {
    let (word, place) = words.split_once('@').unwrap_or((words, "7"));
    let notice = Notice {
        number: 1,
        to: ME,
        from: OWNER,
        site: SiteId::A,
        image: image(place),
        kind: said(alloc, word)?,
    };
    client.hear(&notice)?;
    Ok(true)
}

/// Whether a notice of the other one about the image 7 says this.
fn says(notice: &Notice, word: &str) -> bool {
    let NoticeKind::Custom(bytes) = &notice.kind else {
        return false;
    };
    bytes.as_slice() == word.as_bytes()
        && notice.from == OWNER
        && notice.to == ME
        && notice.site == SiteId::A
        && notice.image == image("7")
        && notice.number == 1
}

/// Whether these notices say these words, one after another.
fn say(notices: &[Notice], words: &str) -> bool {
    let mut count = 0;
    for word in words.split(' ') {
        match notices.get(count) {
            Some(notice) if says(notice, word) => count += 1,
            _ => return false,
        }
    }
    count == notices.len()
}

/// Whether the client was told these words, one after another, or nothing.
pub fn was_told<R: Request>(client: &Client<R>, words: &str) -> bool {
    let notices = client.heard();
    if words == "nothing" {
        return notices.is_empty();
    }
    say(notices, words)
}
