//! A site with one image, as far as its lock, its watchers and its header go. It writes down what
//! it is asked and what it answers, and what a request waits for.
use crate::fixtures::{
    Answers, IMAGE, LATER, ME, OTHER, OWNER, behind, can_give, client_into, has, header,
    operation_into, wait_into,
};
use rbd_kinds::{
    Answer, DirectoryOp, HeaderOp, Instance, Instances, NoMemory, NoticeKind, Op, Shared, SiteId,
    Want,
};
use rbd_lock::is_waiting;
use rbd_machine::Reason;
use std::alloc::Global;

/// The site of these tests.
pub const HERE: SiteId = SiteId::B;

/// What the site knows, and what its other clients will do.
#[derive(Drop)]
pub struct Site {
    alloc: Global,
    /// Why its operations are asked for.
    reason: Reason,
    pub owner: Option<Instance>,
    /// Whether the instance of these tests watches.
    pub watched: bool,
    /// Who else watches.
    watcher: Option<Instance>,
    /// Who is in the blocklist.
    pub blocked: Option<Instance>,
    /// How often the owner has to be asked before it lets go.
    patience: u8,
    /// Once the owner was asked, no watch is left.
    expires: bool,
    /// Who takes the lock while another's is being broken.
    faster: Option<Instance>,
    /// The operation of this number, from 1, is answered `none`.
    gone: u8,
    /// The operation of this number, from 1, is answered `fenced`.
    fenced: u8,
    /// How many operations were done.
    pub done: u8,
    /// How many of them are marked as waiting.
    pub waits: u8,
    /// Each operation with its answer, and what else a request waited for.
    pub log: String,
}

// ---- sites

/// The instance of a word, and none where there is no word for one.
pub fn instance(word: &str) -> Option<Instance> {
    match word {
        "c1" => Some(ME),
        "c2" => Some(OWNER),
        "c2.1" => Some(LATER),
        "c3" => Some(OTHER),
        _ => None,
    }
}

fn instance_behind(words: &str, key: &str) -> Option<Instance> {
    instance(behind(words, key)?)
}

fn small_behind(words: &str, key: &str, usual: u8) -> u8 {
    match behind(words, key) {
        Some(word) => word.parse::<u8>().unwrap_or(0),
        None => usual,
    }
}

impl Site {
    /// The site of these words: `owner c2`, who has the lock; `watched`, where the instance of
    /// these tests watches; `watcher c3`, who else does; `patience 2`, how often the owner has to
    /// be asked; `expires`, where no watch is left then; `faster c3`, who takes the lock while
    /// another's is being broken; `gone 3` and `fenced 3`, which operation is answered so. Without
    /// words nobody has the lock, watches, or is in the blocklist.
    pub fn new(alloc: Global, reason: Reason, words: &str) -> Self {
        Site {
            alloc,
            reason,
            owner: instance_behind(words, "owner"),
            watched: has(words, "watched"),
            watcher: instance_behind(words, "watcher"),
            blocked: None,
            patience: small_behind(words, "patience", 1),
            expires: has(words, "expires"),
            faster: instance_behind(words, "faster"),
            gone: small_behind(words, "gone", 0),
            fenced: small_behind(words, "fenced", 0),
            done: 0,
            waits: 0,
            log: String::new(alloc),
        }
    }
}

// ---- what it is asked

/// Writes an answer behind its operation, as `: held c2`.
fn answer_into(log: &mut String, answer: &Answer) -> Result<(), NoMemory> {
    log.push_str(": ")?;
    log.push_str(answer.word())?;
    if let Answer::Held(owner) = answer {
        client_into(log, owner)?;
    }
    Ok(())
}

/// Whether it is this site of which something is wanted.
fn is_here(want: &Want) -> bool {
    match want {
        Want::Join {
            site,
            image: _,
            sharing: _,
        } => *site == HERE,
        Want::Hold { site, image: _ } => *site == HERE,
        _ => false,
    }
}

impl Answers for Site {
    /// It does an operation of the instance of these tests, and writes it down.
    fn ask(&mut self, want: &Want, reason: Reason, op: &Op) -> Result<Option<Answer>, NoMemory> {
        self.done = self.done.saturating_add(1);
        let answer = self.answer(op)?;
        self.note(want, reason, op, answer)
    }

    /// It writes down what a request waits for.
    fn pass(&mut self, want: &Want) -> Result<bool, NoMemory> {
        wait_into(&mut self.log, want)?;
        Ok(is_here(want))
    }
}

impl Site {
    /// Writes an operation down with its answer, and tells that, where it is of the kind that was
    /// told, at this site, for the reason of its request.
    fn note(
        &mut self,
        want: &Want,
        reason: Reason,
        op: &Op,
        answer: Answer,
    ) -> Result<Option<Answer>, NoMemory> {
        let written = self.write(op, &answer);
        let kind = op.kind();
        if is_waiting(reason, kind, &answer) {
            self.waits = self.waits.saturating_add(1);
        }
        let is_wanted = *want == (Want::Op { site: HERE, kind }) && reason == self.reason;
        if written.is_ok() && is_wanted && can_give(op, &answer) {
            Ok(Some(answer))
        } else {
            drop(answer);
            Ok(None)
        }
    }

    fn write(&mut self, op: &Op, answer: &Answer) -> Result<(), NoMemory> {
        operation_into(&mut self.log, op)?;
        answer_into(&mut self.log, answer)
    }

    fn answer(&mut self, op: &Op) -> Result<Answer, NoMemory> {
        if self.done == self.gone {
            return Ok(Answer::Absent);
        }
        if self.done == self.fenced {
            return Ok(Answer::Fenced);
        }
        match op {
            Op::Directory(DirectoryOp::Find { name: _ }) => Ok(Answer::Id(IMAGE)),
            Op::BlockAdd { instance } => {
                self.blocked = Some(*instance);
                Ok(Answer::Done)
            }
            Op::Header { image, op } => {
                if *image == IMAGE {
                    self.header(op)
                } else {
                    Ok(Answer::Absent)
                }
            }
            _ => Ok(Answer::Absent),
        }
    }

    fn header(&mut self, op: &HeaderOp) -> Result<Answer, NoMemory> {
        match op {
            HeaderOp::Get => secondary(self.alloc),
            HeaderOp::Watch => Ok(self.watch(true)),
            HeaderOp::Unwatch => Ok(self.watch(false)),
            HeaderOp::LockTake => Ok(self.take()),
            HeaderOp::WatchersGet => self.list(),
            HeaderOp::Notify { kind } => Ok(self.hear(kind)),
            HeaderOp::LockBreak { owner } => Ok(self.break_lock(owner)),
            HeaderOp::LockDrop => Ok(self.drop_lock()),
            _ => Ok(Answer::Absent),
        }
    }

    fn watch(&mut self, watches: bool) -> Answer {
        self.watched = watches;
        Answer::Done
    }

    /// The watchers, the instance of these tests first.
    fn list(&self) -> Result<Answer, NoMemory> {
        let mut list = Vec::new(self.alloc);
        if self.watched {
            list.push(ME)?;
        }
        if let Some(watcher) = &self.watcher {
            list.push(*watcher)?;
        }
        Ok(Answer::Instances(Instances::from_vec(list)))
    }

    fn take(&mut self) -> Answer {
        match &self.owner {
            Some(owner) => Answer::Held(*owner),
            None => {
                self.owner = Some(ME);
                Answer::Done
            }
        }
    }

    /// The owner lets the lock go once it has lost its patience.
    fn hear(&mut self, kind: &NoticeKind) -> Answer {
        if let NoticeKind::RequestLock = kind {
            self.patience = self.patience.saturating_sub(1);
            if self.expires {
                self.watcher = None;
            }
            if self.patience == 0 {
                self.owner = None;
            }
        }
        Answer::Done
    }

    fn break_lock(&mut self, owner: &Instance) -> Answer {
        if let Some(faster) = self.faster.take() {
            self.owner = Some(faster);
        }
        if self.owner == Some(*owner) {
            self.owner = None;
            return Answer::Done;
        }
        Answer::Changed
    }

    fn drop_lock(&mut self) -> Answer {
        if self.owner == Some(ME) {
            self.owner = None;
            return Answer::Done;
        }
        Answer::Changed
    }
}

/// The header of a secondary, which clients don't change: of 4,096 bytes, without snapshots.
fn secondary(alloc: Global) -> Result<Answer, NoMemory> {
    match header(alloc, "size 4096 generation 1 secondary")? {
        Some(header) => Ok(Answer::Header(Shared::new(alloc, header)?)),
        None => Ok(Answer::Absent),
    }
}
