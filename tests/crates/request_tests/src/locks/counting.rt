//! What is counted of three images behind each step of a course.
use super::steps::{image_at, step};
use rbd_kinds::{ImageAt, NoMemory, SiteId};
use rbd_lock::{LockState, Locks};
use std::alloc::Global;
use std::process::Abort;

/// In each row the image, the step, and behind it the states of `a1`, `b1` and `a2`: `o` where the
/// lock counts as owned, `w` watched, `a` asked, `q` quiesced.
const COURSE: &str = "a1|RequestLock|---- ---- ----
a1|watch none|---- ---- ----
a1|watch done|-w-- ---- ----
a1|lock-take held|-w-- ---- ----
a1|RequestLock|-w-- ---- ----
a1|lock-take done|ow-- ---- ----
a1|ReleasedLock|ow-- ---- ----
a1|Custom|ow-- ---- ----
b1|RequestLock|ow-- ---- ----
a2|RequestLock|ow-- ---- ----
a1|RequestLock|owa- ---- ----
a1|RequestLock|owa- ---- ----
a1|lock-take done|ow-- ---- ----
a1|RequestLock|owa- ---- ----
a1|quiesce|owaq ---- ----
a1|resume|owa- ---- ----
a1|lock-drop changed|-w-- ---- ----
a1|lock-take none|-w-- ---- ----
a1|lock-take done|ow-- ---- ----
a1|quiesce|ow-q ---- ----
a1|header-get done|ow-q ---- ----
a1|lock-take held|ow-q ---- ----
a1|lock-break done|ow-q ---- ----
a1|block-add done|ow-q ---- ----
a1|header-remove none|ow-q ---- ----
a1|header-remove fenced|ow-q ---- ----
a1|unwatch done|o--q ---- ----
a1|watch fenced|o--q ---- ----
b1|lock-drop done|o--q ---- ----
b1|resume|o--q ---- ----
a1|header-remove done|---- ---- ----
a1|lock-take done|o--- ---- ----
a1|watch done|ow-- ---- ----
a1|RequestLock|owa- ---- ----
a1|header-remove done|-w-- ---- ----
a1|unwatch done|---- ---- ----
a1|lock-take done|o--- ---- ----
a1|lock-drop done|---- ---- ----
b1|lock-take done|---- o--- ----
a2|lock-take done|---- o--- o---
b1|RequestLock|---- o-a- o---
a2|quiesce|---- o-a- o--q
b1|lock-drop none|---- ---- o--q
a2|RequestLock|---- ---- o-aq
a2|watch done|---- ---- owaq
b1|watch done|---- -w-- owaq
a2|lock-drop fenced|---- -w-- -w--
b1|unwatch none|---- ---- -w--
a2|lock-take fenced|---- ---- -w--
a2|unwatch fenced|---- ---- ----
a1|resume|---- ---- ----
a1|lock-drop changed|---- ---- ----";

fn named(word: &str) -> Option<ImageAt> {
    match word {
        "a1" => Some(image_at(SiteId::A, 1)),
        "b1" => Some(image_at(SiteId::B, 1)),
        "a2" => Some(image_at(SiteId::A, 2)),
        _ => None,
    }
}

fn letter(holds: bool, letter: u8) -> u8 {
    if holds { letter } else { b'-' }
}

/// Whether these letters tell a state.
fn tells(state: &LockState, wanted: &str) -> bool {
    let letters = [
        letter(state.owned, b'o'),
        letter(state.watched, b'w'),
        letter(state.asked, b'a'),
        letter(state.quiesced, b'q'),
    ];
    wanted.as_bytes() == letters.as_slice()
}

/// Whether these are the states of the three images.
fn are_told(locks: &Locks, wanted: &str) -> bool {
    let Some((first, others)) = wanted.split_once(' ') else {
        return false;
    };
    let Some((second, third)) = others.split_once(' ') else {
        return false;
    };
    tells(&locks.state(&image_at(SiteId::A, 1)), first)
        && tells(&locks.state(&image_at(SiteId::B, 1)), second)
        && tells(&locks.state(&image_at(SiteId::A, 2)), third)
}

/// Does the step of a row, and looks at what is counted behind it.
fn comes_out(alloc: Global, locks: &mut Locks, row: &str) -> Result<bool, NoMemory> {
    let Some((image, rest)) = row.split_once('|') else {
        return Ok(false);
    };
    let Some((words, wanted)) = rest.split_once('|') else {
        return Ok(false);
    };
    let Some(at) = named(image) else {
        return Ok(false);
    };
    Ok(step(alloc, locks, &at, words)? && are_told(locks, wanted))
}

fn go_through(rt: &impl Abort, alloc: Global, locks: &mut Locks) {
    for row in COURSE.split('\n') {
        let holds = comes_out(alloc, locks, row).unwrap_or(false);
        assert!(rt; holds, "{row}");
    }
}

#[test]
fn states_are_counted(rt: HostRuntime) {
    let mut locks = Locks::new(rt.alloc());
    go_through(&rt, rt.alloc(), &mut locks);
}
