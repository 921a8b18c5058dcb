//! How far each command of a script has come.
ghost use Rattle.std.specs.Prelude.{◌≡◌, ◌==◌, ◌||◌, ℕ, None, OnOk, IfOk, option_copied};
ghost use Rattle.std.specs.Option.{unwrap_or};
ghost use Rattle.rbd_line_table.specs.Known.{is_known, known_at};
ghost use Rattle.rbd_text.specs.Unanswered.{line_of_cause, log_of, logged, is_lock_take, holder_told, found_by, where_for};
ghost use Rattle.rbd_text.specs.Progress.{progress_at, progress_after, AreProgressesOf};

use rbd_flat::{Cause, Entry};
use rbd_kinds::{Answer, HeaderOp, Instance, NoMemory, Op, SiteId};
use rbd_line_table::LineMap;
use rbd_site::{Done, DoneOp};
use std::alloc::Global;

/// What a history tells of one command.
#[derive(Clone, Copy)]
pub struct CommandProgress {
    /// It was begun.
    pub started: bool,
    /// It has its reply.
    pub answered: bool,
    /// It was under way in a session that was stopped.
    pub lost: bool,
    /// Whom its last attempt at a lock found to have it.
    pub holder: Option<Instance>,
}

/// What a history tells of all commands, by their lines.
#[derive(Drop)]
pub struct Progresses {
    started: LineMap<()>,
    answered: LineMap<()>,
    lost: LineMap<()>,
    /// Whom the last attempt of each line at a lock found to have it.
    holders: LineMap<Option<Instance>>,
}

impl Progresses {
    /// Goes over a history once. An operation is found in its site's log by its number.
    pub fn of(alloc: Global, history: &[Entry], a: &[Done], b: &[Done]) -> Result<Self, NoMemory>
        ensures { IfOk result (λ all. AreProgressesOf a.now b.now history.now all) }
    {
        let mut all = Progresses {
            started: LineMap::new(alloc),
            answered: LineMap::new(alloc),
            lost: LineMap::new(alloc),
            holders: LineMap::new(alloc),
        };
        for entry in history {
            all.hear(a, b, entry)?;
        }
        Ok(all)
    }

    /// What the history tells of the command of a line.
    pub fn at(&self, line: u32) -> CommandProgress
        ensures { result ≡ progress_at self.now line }
    {
        CommandProgress {
            started: self.started.has(line),
            answered: self.answered.has(line),
            lost: self.lost.has(line),
            holder: self.holders.get(line).unwrap_or(None),
        }
    }

    fn hear(&mut self, a: &[Done], b: &[Done], entry: &Entry) -> Result<(), NoMemory>
        ensures { OnOk result ((line : ℕ) → progress_at self.new line ≡ progress_after a.now b.now line entry.now
            (progress_at self.old line)) }
    {
        match entry {
            Entry::Start { line, instance: _ } => note(&mut self.started, *line),
            Entry::Effect {
                cause,
                site,
                number,
                effect: _,
            } => find(&mut self.holders, *cause, operation(a, b, *site, *number)),
            Entry::Look {
                cause,
                site,
                number,
            } => find(&mut self.holders, *cause, operation(a, b, *site, *number)),
            Entry::Fence {
                cause,
                site,
                number,
                instance: _,
            } => find(&mut self.holders, *cause, operation(a, b, *site, *number)),
            Entry::Reply { line, reply: _ } => note(&mut self.answered, *line),
            Entry::Stop { session: _ } => Ok(()),
            Entry::Lost { line } => note(&mut self.lost, *line),
        }
    }
}

fn note(lines: &mut LineMap<()>, line: u32) -> Result<(), NoMemory>
    ensures { OnOk result ((q : ℕ) → is_known lines.new q ≡ ((line == q) || is_known lines.old q)) }
{
    lines.insert(line, ())
}

/// Keeps whom an operation found to have the lock, where it was an attempt at one for a line.
fn find(
    holders: &mut LineMap<Option<Instance>>,
    cause: Cause,
    done: Option<&Done>,
) -> Result<(), NoMemory>
    ensures { OnOk result ((q : ℕ)
        → unwrap_or (known_at holders.new q) None
        ≡ unwrap_or (where_for q (line_of_cause cause) (found_by (option_copied done.entry)))
        (unwrap_or (known_at holders.old q) None)) }
{
    let Some(line) = line(cause) else {
        return Ok(());
    };
    let Some(holder) = found(done) else {
        return Ok(());
    };
    holders.insert(line, holder)
}

/// For which line an operation was done.
fn line(cause: Cause) -> Option<u32>
    ensures { result ≡ line_of_cause cause }
{
    match cause {
        Cause::Line(line) => Some(line),
        Cause::Late(_) => None,
        Cause::Replay { line, seq: _ } => Some(line),
        Cause::House(_) => None,
    }
}

/// An operation of a site's log, by its number.
fn operation<'l>(a: &'l [Done], b: &'l [Done], site: SiteId, number: u64) -> Option<&'l Done>
    ensures { option_copied result ≡ logged (log_of a.now b.now site) number }
{
    let log = match site {
        SiteId::A => a,
        SiteId::B => b,
    };
    if number == 0 {
        return None;
    }
    log.get((number - 1) as usize)
}

/// Whom an attempt at a lock found to have it, where the operation was one.
fn found(done: Option<&Done>) -> Option<Option<Instance>>
    ensures { result ≡ found_by (option_copied done.entry) }
{
    let done = done?;
    if takes_lock(&done.op) {
        Some(holder(&done.answer))
    } else {
        None
    }
}

fn takes_lock(op: &DoneOp) -> bool
    ensures { result ≡ is_lock_take op.now }
{
    match op {
        DoneOp::Op(
            Op::Header {
                image: _,
                op: HeaderOp::LockTake,
            },
        ) => true,
        _ => false,
    }
}

fn holder(answer: &Answer) -> Option<Instance>
    ensures { result ≡ holder_told answer.now }
{
    match answer {
        Answer::Held(owner) => Some(*owner),
        _ => None,
    }
}
