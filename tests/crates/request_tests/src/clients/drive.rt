//! A client as what has requests in slots. Its own rows, beside those of others that have slots:
//!
//! | row | it holds where |
//! |---|---|
//! | `1 line 1` | the request in slot 1 is that of line 1, which is the number of its slot |
//! | `1 line none` | slot 1 is free |
//! | `0 lock-drop@8 done` | at slot 0 the lock of the image 8 is dropped; other rows are of image 7 |
//! | `hears RequestLock@8` | the client hears this notice of the image 8; other rows are of image 7 |
//! | `heard hello there` | these words were told, one after another |
//! | `heard nothing` | none were |
//!
//! That an image moves is that a request of it is past its look under the lock, or has taken the
//! lock itself.
//!
//! Whether who acts at a slot may go on, and wants an operation that can give an answer, is looked
//! at before it is fed: nothing proves that the rows of a test keep to that.
use super::notices::{hears, was_told};
use super::operations::is_operation;
use crate::fixtures::{ME, Slots, can_give, number, served};
use rbd_catalog::SessionRequest;
use rbd_client::Client;
use rbd_kinds::{
    Answer, Command, Fed, Flow, HeaderOp, ImageAt, ImageId, Instance, NoMemory, Op, Reply, SiteId,
    Slot,
};
use rbd_machine::Request;
use std::alloc::Global;

/// What a client does that takes the lock of the image 7, and leaves it at rest.
pub const OWNS: &str =
    "1 takes write-0, dir-find id-7, header-get header, watch done, lock-take done, header-get header
1 map-set done, data-write done done";

/// What plays rows by the requests of all commands.
pub type Tested = TestedBy<SessionRequest>;

/// What plays rows by requests of a type.
#[derive(Drop)]
pub struct TestedBy<R: Request> {
    client: Client<R>,
}

impl<R: Request> TestedBy<R> {
    /// Whether it is this instance, at this site.
    pub fn is(&self, instance: Instance, site: SiteId) -> bool {
        self.client.instance() == instance && self.client.home() == site
    }
}

/// A command takes a slot, where one is free and a request serves it: that of the line of the
/// slot's number.
fn submit<R: Request<Work = Command>>(
    alloc: Global,
    client: &mut Client<R>,
    command: Command,
) -> Result<Option<Slot>, NoMemory> {
    let Some(Slot(line)) = client.free() else {
        drop(command);
        return Ok(None);
    };
    let quiescing = command.quiescing();
    match served(command) {
        Some(command) => Ok(Some(client.submit(alloc, u32::from(line), command, quiescing)?)),
        None => Ok(None),
    }
}

/// Whether an operation is the one of these words at the home site, and of the kind that is wanted
/// at a slot.
fn is_wanted<R: Request>(
    client: &Client<R>,
    slot: Slot,
    site: SiteId,
    op: &Op,
    words: &str,
) -> bool {
    site == SiteId::A && client.kind(slot) == Some((site, op.kind())) && is_operation(op, words)
}

/// Whether the operation of these words is wanted at a slot.
fn wants<R: Request>(
    alloc: Global,
    client: &Client<R>,
    slot: Slot,
    words: &str,
) -> Result<bool, NoMemory> {
    let Some((site, op)) = client.next(alloc, slot, &client.actor(slot))? else {
        return Ok(false);
    };
    let is = is_wanted(client, slot, site, &op, words);
    drop(op);
    Ok(is)
}

/// Whether there is no operation. It goes with the call.
fn is_none(op: Option<(SiteId, Op)>) -> bool {
    let is = op.is_none();
    drop(op);
    is
}

/// Whether no operation is wanted at a slot: it waits, or nothing runs in it.
fn wants_none<R: Request>(alloc: Global, client: &Client<R>, slot: Slot) -> Result<bool, NoMemory> {
    let has_none = is_none(client.next(alloc, slot, &client.actor(slot))?);
    Ok(has_none && client.kind(slot).is_none())
}

// ---- answers

/// Whether an operation drops no lock that a request relies on.
fn is_at_rest<R: Request>(client: &Client<R>, site: SiteId, op: &Op) -> bool {
    let Op::Header { image, op } = op else {
        return true;
    };
    let image = *image;
    match op {
        HeaderOp::LockDrop => client.is_at_rest(&ImageAt { site, image }),
        HeaderOp::Remove => client.is_at_rest(&ImageAt { site, image }),
        _ => true,
    }
}

/// Who acts at a slot is fed an answer.
fn feed<R: Request>(
    alloc: Global,
    client: &mut Client<R>,
    slot: Slot,
    site: SiteId,
    op: &Op,
    fed: &Fed,
) -> Result<Option<Reply>, NoMemory> {
    let actor = client.actor(slot);
    client.ready(alloc, slot, &actor, fed)?;
    Ok(client.feed(slot, &actor, site, op, fed))
}

/// Whether what is wanted at a slot may be answered so.
fn may_give<R: Request>(client: &Client<R>, site: SiteId, op: &Op, answer: &Answer) -> bool {
    can_give(op, answer) && is_at_rest(client, site, op)
}

fn turn_of(reply: Option<Reply>) -> Flow {
    match reply {
        Some(reply) => Flow::Done(reply),
        None => Flow::More,
    }
}

/// What comes of an answer to what is wanted at a slot: `None` where it can't be answered so.
fn tell<R: Request>(
    alloc: Global,
    client: &mut Client<R>,
    slot: Slot,
    fed: &Fed,
) -> Result<Option<Flow>, NoMemory> {
    let Fed::Answer(answer) = fed else {
        return Ok(None);
    };
    let Some((site, op)) = client.next(alloc, slot, &client.actor(slot))? else {
        return Ok(None);
    };
    if !may_give(client, site, &op, answer) {
        drop(op);
        return Ok(None);
    }
    let reply = feed(alloc, client, slot, site, &op, fed);
    drop(op);
    Ok(Some(turn_of(reply?)))
}

// ---- rows

/// Whether the request in a slot is that of the line of this number.
fn is_of_line<R: Request>(client: &Client<R>, slot: Slot, word: &str) -> bool {
    match client.line(slot) {
        Some(line) => u64::from(line) == number(word),
        None => word == "none",
    }
}

impl<R: Request<Work = Command>> Slots for TestedBy<R> {
    fn begin(alloc: Global) -> Result<Self, NoMemory> {
        let client = Client::new(alloc, ME, SiteId::A)?;
        Ok(TestedBy { client })
    }

    fn free(&self) -> Option<Slot> {
        self.client.free()
    }

    fn is_at_rest(&self, at: &ImageAt) -> bool {
        self.client.is_at_rest(at)
    }

    fn next(&self, alloc: Global, slot: Slot) -> Result<Option<(SiteId, Op)>, NoMemory> {
        self.client.next(alloc, slot, &self.client.actor(slot))
    }

    fn wants(&self, alloc: Global, slot: Slot, words: &str) -> Result<bool, NoMemory> {
        wants(alloc, &self.client, slot, words)
    }

    fn is_still(&self, alloc: Global, slot: Slot) -> Result<bool, NoMemory> {
        wants_none(alloc, &self.client, slot)
    }

    fn is_left(&self, _alloc: Global, slot: Slot) -> Result<bool, NoMemory> {
        Ok(self.client.line(slot).is_none())
    }

    fn take(&mut self, alloc: Global, command: Command) -> Result<Option<Slot>, NoMemory> {
        submit(alloc, &mut self.client, command)
    }

    fn refuse(&mut self, slot: Slot) -> Option<Reply> {
        self.client.refuse(slot)
    }

    fn tell(&mut self, alloc: Global, slot: Slot, fed: &Fed) -> Result<Option<Flow>, NoMemory> {
        tell(alloc, &mut self.client, slot, fed)
    }

    fn own_row(
        &mut self,
        alloc: Global,
        slot: Slot,
        word: &str,
        rest: &str,
    ) -> Result<Option<bool>, NoMemory> {
        match word {
            "line" => Ok(Some(is_of_line(&self.client, slot, rest))),
            "hears" => Ok(Some(hears(alloc, &mut self.client, rest)?)),
            "heard" => Ok(Some(was_told(&self.client, rest))),
            _ => Ok(None),
        }
    }
}
