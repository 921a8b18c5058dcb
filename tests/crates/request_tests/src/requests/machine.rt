//! The way of a change, to its look under the lock and to a refusal at each look. What it has to
//! want was worked out from its diagram.
use super::commands::first_row;
use crate::fixtures::{IMAGE, holds, plays};
use rbd_kinds::{
    Answer, Bytes, Fed, Flow, HeaderView, Name, NoMemory, Op, Refusal, Reply, Role, Sharing,
    SiteId, Want,
};
use rbd_machine::{
    Approach, Machine, Progress, Reason, Refuses, non_primary, told_done, told_header, told_image,
};
use std::alloc::Global;
use std::process::Abort;

/// Refuses an image of any other size with BadRange.
#[derive(Debug, Drop)]
struct OnlySize {
    size: u64,
}

impl Refuses for OnlySize {
    ghost refuses = { ? };

    fn refusal(&self, header: &HeaderView) -> Option<Refusal> {
        if header.size == self.size {
            return None;
        }
        Some(Refusal::BadRange)
    }
}

const RULE: OnlySize = OnlySize { size: 4096 };

/// A change that does nothing once its look under the lock told a header.
#[derive(Drop)]
struct Change {
    way: Approach,
    /// Of each step whether the way was at its look under the lock: `o`, and else `-`.
    own: String,
}

impl Machine for Change {
    ghost stands = { ? };

    ghost is_ready = { ? };

    fn wants(&self) -> Want {
        self.way.wants()
    }

    fn next(&self, _alloc: Global) -> Result<Op, NoMemory> {
        self.way.next()
    }

    fn reason(&self) -> Reason {
        Reason::Own
    }

    fn ready(&mut self, _alloc: Global, _fed: &Fed) -> Result<(), NoMemory> {
        let is_own = self.way.under_lock() == Some(IMAGE);
        self.own.push(if is_own { 'o' } else { '-' })?;
        Ok(())
    }

    fn feed(&mut self, fed: &Fed) -> Flow {
        match self.way.feed(&RULE, fed) {
            Progress::More => Flow::More,
            Progress::Ended(_) => Flow::Done(Reply::Done),
            Progress::Refused(refusal) => Flow::Done(Reply::Refused(refusal)),
        }
    }
}

/// A change of the image `disk`.
fn made(alloc: Global, sharing: Sharing) -> Result<Option<Change>, NoMemory> {
    let Some(name) = Name::parse(Bytes::from_slice(alloc, b"disk")?) else {
        return Ok(None);
    };
    let way = Approach::new(SiteId::A, name, sharing);
    let own = String::new(alloc);
    Ok(Some(Change { way, own }))
}

/// Whether a change wants these rows, and stands at its look under the lock at these steps.
fn goes(alloc: Global, sharing: Sharing, own: &str, rows: &str) -> Result<bool, NoMemory> {
    let Some(mut change) = made(alloc, sharing)? else {
        return Ok(false);
    };
    let played = plays(alloc, &mut change, rows);
    let is_own = change.own.as_str() == own;
    drop(change);
    Ok(is_own && played?)
}

/// The same of a row with `alone` or `beside`, and the steps.
fn case_goes(alloc: Global, first: &str, rows: &str) -> Result<bool, NoMemory> {
    match first.split_once(' ') {
        Some(("alone", own)) => goes(alloc, Sharing::Alone, own, rows),
        Some(("beside", own)) => goes(alloc, Sharing::Shared, own, rows),
        _ => Ok(false),
    }
}

fn cases_go(rt: &impl Abort, alloc: Global, cases: &str) {
    for case in cases.split("\n\n") {
        let (title, rest) = first_row(case);
        let (first, rows) = first_row(rest);
        assert!(rt; holds(case_goes(alloc, first, rows)), "{title}");
    }
}

/// Whether a change is alone or beside others, and of each of its steps whether it is at its look
/// under the lock, stands in front of its rows.
const CASES: &str = "a change looks before the lock and under it
alone ----o
dir-find disk => id-7
join alone
header-get => header size 4096
hold
header-get => header size 4096
done

the first look refuses
beside ---
dir-find disk => id-7
join
header-get => header size 8192
BadRange

the look under the lock refuses
alone ----o
dir-find disk => id-7
join alone
header-get => header size 4096
hold
header-get => header size 8192
BadRange

no such name is no image
alone -
dir-find disk => none
NoImage

the fence ends a look
alone ---
dir-find disk => id-7
join alone
header-get => fenced
Fenced";

#[test]
fn changes_go_to_their_look_under_lock(rt: HostRuntime) {
    cases_go(&rt, rt.alloc(), CASES);
}

fn told_no_image(answer: Answer) -> Option<Refusal> {
    told_image(&answer).err()
}

fn told_no_header(answer: Answer) -> Option<Refusal> {
    match told_header(&answer) {
        Ok(_) => None,
        Err(refusal) => Some(refusal),
    }
}

fn told_not_done(answer: Answer) -> Option<Refusal> {
    told_done(&answer).err()
}

#[test]
fn answers_tell_or_end_a_request(rt: HostRuntime) {
    assert!(rt; told_no_image(Answer::Id(IMAGE)).is_none());
    assert!(rt; told_no_image(Answer::Fenced) == Some(Refusal::Fenced));
    assert!(rt; told_no_header(Answer::Absent) == Some(Refusal::NoImage));
    assert!(rt; told_not_done(Answer::Done).is_none());
    assert!(rt; told_not_done(Answer::Absent) == Some(Refusal::NoImage));
}

#[test]
fn only_a_secondary_is_no_primary(rt: HostRuntime) {
    assert!(rt; non_primary(Role::Secondary) == Some(Refusal::NonPrimary));
    assert!(rt; non_primary(Role::Primary).is_none());
    assert!(rt; non_primary(Role::Plain).is_none());
}
