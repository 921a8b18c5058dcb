//! The journal of one image.
ghost use Rattle.std.specs.Prelude.{◌≡◌, ◌+◌, ◌-◌, ◌<◌, ◌≤◌, ◌^◌, IfOk, OnOk, OnErr, option_map};
ghost use Rattle.rbd_kinds.specs.Spans.{RunFrom};
ghost use Rattle.rbd_journal.specs.Records.{IsSoundJournal, appended, based_on, committed, first_held, frame_at, mirror_registered, tag_drawn, frames_trimmed, journal_view};

use crate::entry::{HeldFrame, drop_front};
use crate::span::{end_of, extend};
use rbd_kinds::{
    Bytes, ImageId, JournalClient, JournalView, NoMemory, Position, SiteId, Span, Spans, Tag,
    TryClone,
};
use std::alloc::Global;
use std::collections::VecDeque;
use std::marker::Model;

/// A journal: spans of positions, the frames that are held, and commit positions (Ceph: RBD
/// journaling). Contracts see it as `JournalRecords`.
#[derive(Drop)]
pub struct Journal {
    alloc: Global,
    spans: Vec<Span>,
    /// The same spans, as views of the journal share them: once they were asked for, and until they
    /// change.
    told: Option<Spans>,
    /// The last number of the spans, or 0.
    end: u64,
    /// The last one stands at the end.
    held: VecDeque<HeldFrame>,
    local: u64,
    mirror: Option<u64>,
    drawn: u64,
}

impl Model for Journal {
    ghost use Rattle.std.specs.Prelude.{◌≡◌, IfSome};
    ghost use Rattle.rbd_journal.specs.Records.{IsSoundJournal, JournalRecords};

    ghost Value = { JournalRecords };

    ghost view = { λ j. record {
      spans = j.spans.items;
      end = j.end;
      held = j.held.items;
      local = j.local;
      mirror = j.mirror;
      drawn = j.drawn;
    } };

    ghost invariant = { λ j. IsSoundJournal
        (record {
          spans = j.spans.items;
          end = j.end;
          held = j.held.items;
          local = j.local;
          mirror = j.mirror;
          drawn = j.drawn;
        })
        × IfSome j.told (λ told. told ≡ j.spans.items) };
}

impl Journal {
    /// A journal on these spans, which run from 1 without gaps. It ends where they end, holds no
    /// frame, and the owner's commit position is that end. It has drawn no tag. NoMemory where the
    /// copy of the spans is refused.
    pub fn based(alloc: Global, spans: &Spans) -> Result<Self, NoMemory>
        requires { RunFrom 1 spans.now }
        ensures { IfOk result (λ journal. journal ≡ based_on spans.now) }
    {
        let end = end_of(spans.as_slice());
        Ok(Journal {
            alloc,
            spans: Vec::from_slice(alloc, spans.as_slice())?,
            told: None,
            end,
            held: VecDeque::new(alloc),
            local: end,
            mirror: None,
            drawn: 0,
        })
    }

    /// A new tag, numbered one above the last that this journal drew. It takes no memory.
    pub fn tag(&mut self, site: SiteId, image: ImageId) -> Tag
        requires { self.old.drawn < 2 ^ 64 - 1 }
        ensures tag { result ≡ record { site = site; image = image; no = self.old.drawn + 1 } }
        ensures drawn { self.new ≡ tag_drawn self.old }
    {
        self.drawn += 1;
        Tag {
            site,
            image,
            no: self.drawn,
        }
    }

    /// Records a frame at the next position, which may be the last that 64 bits count. NoMemory
    /// where memory for it is refused; then nothing changes.
    pub fn append(&mut self, position: Position, frame: &[u8]) -> Result<(), NoMemory>
        requires next { position.seq ≡ self.old.end + 1 }
        ensures ok { OnOk result (self.new ≡ appended position frame.now self.old) }
        ensures err { OnErr result (self.new ≡ self.old) }
    {
        let entry = HeldFrame {
            tag: position.tag,
            frame: Bytes::from_slice(self.alloc, frame)?,
        };
        self.held.reserve(1)?;
        extend(&mut self.spans, position)?;
        self.told = None;
        self.held.push_back(entry).unwrap();
        self.end = position.seq;
        Ok(())
    }

    /// The frame that is held with a number, and its position: None exactly where none is held. It
    /// takes no memory.
    pub fn read(&self, seq: u64) -> Option<(Position, &[u8])>
        ensures { option_map (λ x. (x.0, x.1.now)) result ≡ frame_at self.now seq }
    {
        let before = self.before_held();
        if seq <= before {
            return None;
        }
        let entry = self.held.get((seq - before - 1) as usize)?;
        let position = Position {
            tag: entry.tag,
            seq,
        };
        Some((position, entry.frame.as_slice()))
    }

    /// From now on, until the spans change, `view` copies no spans. It copies them once, unless
    /// they were shared already. NoMemory where that is refused; then all is as before.
    pub fn share(&mut self) -> Result<(), NoMemory>
        ensures { self.new ≡ self.old }
    {
        if self.told.is_none() {
            self.told = Some(self.told_spans()?.share()?);
        }
        Ok(())
    }

    fn told_spans(&self) -> Result<Spans, NoMemory>
        ensures { IfOk result (λ spans. spans ≡ self.now.spans) }
    {
        match &self.told {
            Some(told) => told.try_clone(),
            None => Spans::from_slice(self.alloc, self.spans.as_slice()),
        }
    }

    /// What the journal tells of itself, with a copy of its spans, or, after [`Journal::share`],
    /// with spans that share their memory. `first` is one more than the end where no frame is held,
    /// or `u64::MAX` where that is the end. NoMemory where the copy is refused.
    pub fn view(&self) -> Result<JournalView, NoMemory>
        ensures view { IfOk result (λ view. view ≡ journal_view self.now) }
        ensures sound { IsSoundJournal self.now }
    {
        Ok(JournalView {
            local: self.local,
            mirror: self.mirror,
            drawn: self.drawn,
            first: self.before_held().saturating_add(1),
            spans: self.told_spans()?,
        })
    }

    /// Gives the mirror daemon the commit position 0, where it has none. It takes no memory.
    pub fn register(&mut self)
        ensures { self.new ≡ mirror_registered self.old }
    {
        self.mirror = Some(self.mirror.unwrap_or(0));
    }

    /// Raises a client's commit position to a number up to the end. An unregistered mirror daemon
    /// is registered by it. It takes no memory.
    pub fn commit(&mut self, client: JournalClient, seq: u64)
        requires { seq ≤ self.old.end }
        ensures { self.new ≡ committed client seq self.old }
    {
        match client {
            JournalClient::Local => self.local = self.local.max(seq),
            JournalClient::Mirror => self.mirror = Some(self.mirror.unwrap_or(0).max(seq)),
        }
    }

    /// Drops the frames up to the least commit position. It takes no memory.
    pub fn trim(&mut self)
        ensures { self.new ≡ frames_trimmed self.old }
    {
        let least = self.local.min(self.mirror.unwrap_or(self.local));
        let before = self.before_held();
        if least > before {
            drop_front(&mut self.held, (least - before) as usize);
        }
    }

    /// The last number before those that are held.
    fn before_held(&self) -> u64
        ensures first { result + 1 ≡ first_held self.now }
        ensures within { result ≤ self.now.end }
    {
        self.end - self.held.len() as u64
    }
}
