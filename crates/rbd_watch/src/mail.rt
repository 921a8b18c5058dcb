//! The notices of both sites.
ghost use Rattle.std.specs.Prelude.{◌≡◌, ◌+◌, [], ◌++◌, length, IfOk, OnOk, OnErr, option_copied, slice_get};
ghost use Rattle.rbd_watch.specs.Posting.{AreNumberedFrom, notices, notice_numbered};

use rbd_kinds::{ImageId, Instance, NoMemory, Notice, NoticeKind, SiteId, TryClone};
use std::alloc::Global;
use std::marker::Model;

/// What was told to watchers, at either site: one numbering serves both (Ceph: notify). Contracts
/// see the list of notices, oldest first.
#[derive(Drop)]
pub struct Mail {
    alloc: Global,
    /// Numbered from 1 without gaps.
    notices: Vec<Notice>,
}

impl Model for Mail {
    ghost use Rattle.std.specs.Prelude.{List};
    ghost use Rattle.rbd_kinds.specs.declared.notice.Notice.{Notice};
    ghost use Rattle.rbd_watch.specs.Posting.{AreNumberedFrom};

    ghost Value = { List Notice };

    ghost view = { λ m. m.notices.items };

    ghost invariant = { λ m. AreNumberedFrom 1 m.notices.items };
}

impl Mail {
    /// No notices. It takes no memory.
    pub fn new(alloc: Global) -> Self
        ensures { result ≡ [] }
    {
        Mail {
            alloc,
            notices: Vec::new(alloc),
        }
    }

    /// Tells each receiver: one notice for each, in their order, numbered on from the last, from 1.
    /// Refused memory, nothing changes.
    pub fn post(
        &mut self,
        site: SiteId,
        image: ImageId,
        from: Instance,
        to: &[Instance],
        kind: &NoticeKind,
    ) -> Result<(), NoMemory>
        ensures ok { OnOk result (self.new ≡ self.old
            ++ notices (length self.old + 1) site image from to.now kind.now) }
        ensures err { OnErr result (self.new ≡ self.old) }
    {
        let mut posted = self.notices_to(site, image, from, to, kind)?;
        self.notices.append(&mut posted)?;
        Ok(())
    }

    /// One notice for each receiver, numbered on from the last.
    fn notices_to(
        &self,
        site: SiteId,
        image: ImageId,
        from: Instance,
        receivers: &[Instance],
        kind: &NoticeKind,
    ) -> Result<Vec<Notice>, NoMemory>
        ensures { IfOk result (λ made. made.items
            ≡ notices (length self.now + 1) site image from receivers.now kind.now) }
    {
        let first = self.notices.len() as u64 + 1;
        let mut made = Vec::with_capacity(self.alloc, receivers.len())?;
        for to in receivers {
            made.push(Notice {
                number: first + made.len() as u64,
                to: *to,
                from,
                site,
                image,
                kind: kind.try_clone()?,
            })?;
        }
        Ok(made)
    }

    /// The notice that has a number: `None` exactly where none has. It takes no memory.
    pub fn get(&self, number: u64) -> Option<&Notice>
        ensures { option_copied result ≡ notice_numbered number self.now }
    {
        let notices = self.notices.as_slice();
        let index = number.checked_sub(1)?;
        notice_at(notices, index as usize)
    }

    /// How many notices stand, which is also the number of the last. It takes no memory.
    pub fn count(&self) -> u64
        ensures count { result ≡ length self.now }
        ensures numbered { AreNumberedFrom 1 self.now }
    {
        self.notices.len() as u64
    }
}

fn notice_at(notices: &[Notice], index: usize) -> Option<&Notice>
    ensures { option_copied result ≡ slice_get notices.now index }
{
    notices.get(index)
}
