//! How an exclusive lock is let go.
ghost use Rattle.std.specs.Prelude.{◌≡◌};
ghost use Rattle.rbd_machine.specs.Plan.{without_labels};
ghost use Rattle.rbd_lock.specs.Release.{begun_release, release, release_after, release_op, rest_of_release};

use rbd_kinds::{
    Answer, Fed, Flow, HeaderOp, ImageId, NoMemory, NoticeKind, Op, OpKind, Reply, SiteId, Want,
};
use rbd_machine::{Machine, Reason};
use std::alloc::Global;

/// Lets an image's exclusive lock go, and tells the image's watchers (Ceph: librbd's
/// `ReleaseRequest`, and its notification `ReleasedLock`).
///
/// ```text
/// Dropping   lock-drop ──changed, none, fenced──▶ the end
///    │ done
///    ▼
/// Telling    notify ReleasedLock
///    │ any answer
///    ▼
/// the end
/// ```
///
/// It isn't refused: whatever its `lock-drop` is answered, the client counts the lock as let go,
/// and so it ends with Done. No request waits for it, and none goes on behind it. So it is a
/// machine by itself, and no part of a request: a client holds it in slot 0, beside its requests.
#[derive(Clone, Copy)]
pub struct Release {
    site: SiteId,
    image: ImageId,
    stage: Stage,
}

/// A step of it.
#[derive(Clone, Copy)]
enum Stage {
    Dropping,
    Telling,
}

impl Release {
    /// Lets the lock of an image go. It takes no memory.
    pub fn new(site: SiteId, image: ImageId) -> Self
        ensures begun { result ≡ begun_release site image }
        ensures plan { rest_of_release result ≡ release site image }
    {
        Release {
            site,
            image,
            stage: Stage::Dropping,
        }
    }

    /// The site of the image.
    pub fn site(&self) -> SiteId
        ensures { result ≡ self.now.site }
    {
        self.site
    }

    /// The operation that it wants. It takes no memory.
    pub fn next(&self) -> Op
        ensures { result ≡ release_op self.now }
    {
        let op = match &self.stage {
            Stage::Dropping => HeaderOp::LockDrop,
            Stage::Telling => HeaderOp::Notify {
                kind: NoticeKind::ReleasedLock,
            },
        };
        Op::Header {
            image: self.image,
            op,
        }
    }

    /// What is left of it behind an answer: `None` where it has ended. It takes no memory.
    pub fn answered(self, answer: &Answer) -> Option<Release>
        ensures { result ≡ release_after self answer.now }
    {
        match (&self.stage, answer) {
            (Stage::Dropping, Answer::Done) => Some(Release {
                stage: Stage::Telling,
                ..self
            }),
            _ => None,
        }
    }
}

impl Machine for Release {
    ghost stands = { λ r. without_labels (rest_of_release r) };

    ghost is_ready = { λ r answer. Unit {0} };

    fn wants(&self) -> Want {
        let kind = match &self.stage {
            Stage::Dropping => OpKind::LockDrop,
            Stage::Telling => OpKind::Notify,
        };
        Want::Op {
            site: self.site,
            kind,
        }
    }

    fn next(&self, _alloc: Global) -> Result<Op, NoMemory> {
        Ok(Release::next(self))
    }

    fn reason(&self) -> Reason {
        Reason::Own
    }

    fn ready(&mut self, _alloc: Global, _fed: &Fed) -> Result<(), NoMemory> {
        Ok(())
    }

    fn feed(&mut self, fed: &Fed) -> Flow {
        let Fed::Answer(answer) = fed else {
            unreachable!()
        };
        match self.answered(answer) {
            Some(rest) => {
                *self = rest;
                Flow::More
            }
            None => Flow::Done(Reply::Done),
        }
    }
}
