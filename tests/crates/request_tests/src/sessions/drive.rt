//! A session as what has requests in slots. Its own rows, beside those of others that have slots:
//!
//! | row | it holds where |
//! |---|---|
//! | `1 looks 7` | slot 1 stands at its look under the lock of the image 7, and may go on |
//! | `1 looks none` | it stands at no look under the lock, or waits there |
//! | `1 gives up` | what runs in slot 1 is given up, and the slot wants nothing more |
//!
//! Whether a request may go on, and wants an operation that can give an answer, is looked at before
//! it is fed: nothing proves that the rows of a test keep to that.
use crate::fixtures::{ME, Slots, can_give, number, served};
use rbd_catalog::SessionRequest;
use rbd_kinds::{Answer, Command, Fed, Flow, ImageAt, ImageId, NoMemory, Op, Reply, SiteId, Slot};
use rbd_machine::Request;
use rbd_slots::Session;
use std::alloc::Global;

/// What plays rows by the requests of all commands.
pub type Tested = TestedBy<SessionRequest>;

/// What plays rows by requests of a type.
#[derive(Drop)]
pub struct TestedBy<R: Request> {
    session: Session<R>,
}

/// A command takes a slot, where one is free and a request serves it.
fn submit<R: Request<Work = Command>>(
    alloc: Global,
    session: &mut Session<R>,
    command: Command,
) -> Result<Option<Slot>, NoMemory> {
    if session.free().is_none() {
        drop(command);
        return Ok(None);
    }
    match served(command) {
        Some(command) => Ok(Some(session.submit(alloc, 1, command)?)),
        None => Ok(None),
    }
}

/// Whether there is no operation. It goes with the call.
fn is_none(op: Option<(SiteId, Op)>) -> bool {
    let is = op.is_none();
    drop(op);
    is
}

/// Whether the request in a slot wants no operation: it waits, or there is none that runs.
fn wants_none<R: Request>(
    alloc: Global,
    session: &Session<R>,
    slot: Slot,
) -> Result<bool, NoMemory> {
    let has_none = is_none(session.next(alloc, slot)?);
    Ok(has_none && session.kind(slot).is_none())
}

/// Whether the request in a slot may go on, and wants an operation that can give this answer.
fn wants_it<R: Request>(
    alloc: Global,
    session: &Session<R>,
    slot: Slot,
    answer: &Answer,
) -> Result<bool, NoMemory> {
    let Some((_, op)) = session.next(alloc, slot)? else {
        return Ok(false);
    };
    let can = can_give(&op, answer);
    drop(op);
    Ok(can)
}

/// What comes of what the request in a slot is fed, which may go on.
fn feed<R: Request>(
    alloc: Global,
    session: &mut Session<R>,
    slot: Slot,
    fed: &Fed,
) -> Result<Option<Flow>, NoMemory> {
    session.ready(alloc, slot, fed)?;
    match session.feed(slot, fed) {
        Some(reply) => Ok(Some(Flow::Done(reply))),
        None => Ok(Some(Flow::More)),
    }
}

/// The same, where the request wants what can give it.
fn tell<R: Request>(
    alloc: Global,
    session: &mut Session<R>,
    slot: Slot,
    fed: &Fed,
) -> Result<Option<Flow>, NoMemory> {
    let Fed::Answer(answer) = fed else {
        return Ok(None);
    };
    if !wants_it(alloc, session, slot, answer)? {
        return Ok(None);
    }
    feed(alloc, session, slot, fed)
}

/// Whether a slot stands at the look under the lock of the image of this number, or at none.
fn looks_at<R: Request>(session: &Session<R>, slot: Slot, word: &str) -> bool {
    match session.look_under_lock(slot) {
        Some(at) => at.site == SiteId::A && u64::from(at.image.0) == number(word),
        None => word == "none",
    }
}

/// Whether a slot wants nothing once what runs in it was given up.
fn is_given_up<R: Request>(
    alloc: Global,
    session: &mut Session<R>,
    slot: Slot,
) -> Result<bool, NoMemory> {
    session.give_up(slot);
    wants_none(alloc, session, slot)
}

impl<R: Request<Work = Command>> Slots for TestedBy<R> {
    fn begin(alloc: Global) -> Result<Self, NoMemory> {
        let session = Session::new(alloc, ME, SiteId::A)?;
        Ok(TestedBy { session })
    }

    fn free(&self) -> Option<Slot> {
        self.session.free()
    }

    fn is_at_rest(&self, at: &ImageAt) -> bool {
        self.session.is_at_rest(at)
    }

    fn next(&self, alloc: Global, slot: Slot) -> Result<Option<(SiteId, Op)>, NoMemory> {
        self.session.next(alloc, slot)
    }

    fn wants(&self, _alloc: Global, slot: Slot, words: &str) -> Result<bool, NoMemory> {
        match self.session.kind(slot) {
            Some((SiteId::A, kind)) => Ok(kind.word() == words),
            _ => Ok(false),
        }
    }

    fn is_still(&self, alloc: Global, slot: Slot) -> Result<bool, NoMemory> {
        wants_none(alloc, &self.session, slot)
    }

    fn is_left(&self, alloc: Global, slot: Slot) -> Result<bool, NoMemory> {
        wants_none(alloc, &self.session, slot)
    }

    fn take(&mut self, alloc: Global, command: Command) -> Result<Option<Slot>, NoMemory> {
        submit(alloc, &mut self.session, command)
    }

    fn refuse(&mut self, slot: Slot) -> Option<Reply> {
        self.session.refuse(slot)
    }

    fn tell(&mut self, alloc: Global, slot: Slot, fed: &Fed) -> Result<Option<Flow>, NoMemory> {
        tell(alloc, &mut self.session, slot, fed)
    }

    fn own_row(
        &mut self,
        alloc: Global,
        slot: Slot,
        word: &str,
        rest: &str,
    ) -> Result<Option<bool>, NoMemory> {
        match word {
            "looks" => Ok(Some(looks_at(&self.session, slot, rest))),
            "gives" => Ok(Some(rest == "up" && is_given_up(alloc, &mut self.session, slot)?)),
            _ => Ok(None),
        }
    }
}
