//! What a client counts of the lock of one image.
ghost use Rattle.std.specs.Prelude.{◌≡◌};
ghost use Rattle.rbd_lock.specs.Comings.{owns_after};
ghost use Rattle.rbd_lock.specs.States.{answered, blank_state, may_change_lock as counts, let_go, quieted, resumed};

use rbd_kinds::{Answer, HeaderOp, Op};

/// What a client counts of the lock of an image at a site.
#[derive(Clone, Copy, PartialEq, Eq)]
pub struct LockState {
    /// The lock counts as the client's own.
    pub owned: bool,
    /// The client's instance watches the image.
    pub watched: bool,
    /// Another client wants the lock.
    pub asked: bool,
    /// A `quiesce` of this client holds changes of the image back.
    pub quiesced: bool,
}

/// Whether an operation on a header may change what is counted of the image's lock.
pub fn is_counted(op: &HeaderOp) -> bool
    ensures { result ≡ counts op.now }
{
    match op {
        HeaderOp::LockTake => true,
        HeaderOp::LockDrop => true,
        HeaderOp::Remove => true,
        HeaderOp::Watch => true,
        HeaderOp::Unwatch => true,
        _ => false,
    }
}

/// Whether a client counts the lock of an image as its own behind one more operation of its own on
/// that image. It does so from a `lock-take` that is done up to the next answer of a `lock-drop`,
/// whatever that is, or up to a `header-remove` that is done, with which the lock goes (own).
pub fn owns_lock_after(owned: bool, op: &Op, answer: &Answer) -> bool
    ensures { result ≡ owns_after owned op.now answer.now }
{
    let Op::Header { image: _, op } = op else {
        return owned;
    };
    match (op, answer) {
        (HeaderOp::LockTake, Answer::Done) => true,
        (HeaderOp::LockDrop, _) => false,
        (HeaderOp::Remove, Answer::Done) => false,
        _ => owned,
    }
}

impl LockState {
    /// What is counted of an image of which nothing is known.
    pub fn blank() -> Self
        ensures { result ≡ blank_state }
    {
        LockState {
            owned: false,
            watched: false,
            asked: false,
            quiesced: false,
        }
    }

    /// Behind an operation of the client on the header, by its answer.
    pub(crate) fn answered(&self, op: &HeaderOp, answer: &Answer) -> Self
        ensures { result ≡ answered op.now answer.now self.now }
    {
        match (op, answer) {
            (HeaderOp::LockTake, Answer::Done) => LockState {
                owned: true,
                asked: false,
                ..*self
            },
            (HeaderOp::LockDrop, _) => self.let_go(),
            (HeaderOp::Remove, Answer::Done) => self.let_go(),
            (HeaderOp::Watch, Answer::Done) => LockState {
                watched: true,
                ..*self
            },
            (HeaderOp::Unwatch, _) => LockState {
                watched: false,
                ..*self
            },
            _ => *self,
        }
    }

    /// Behind what ends its lock.
    fn let_go(&self) -> Self
        ensures { result ≡ let_go self.now }
    {
        LockState {
            owned: false,
            asked: false,
            quiesced: false,
            ..*self
        }
    }

    /// Behind the look under the lock of a `quiesce`.
    pub(crate) fn quieted(&self) -> Self
        ensures { result ≡ quieted self.now }
    {
        LockState {
            quiesced: true,
            ..*self
        }
    }

    /// Behind a `resume`.
    pub(crate) fn resumed(&self) -> Self
        ensures { result ≡ resumed self.now }
    {
        LockState {
            quiesced: false,
            ..*self
        }
    }
}
