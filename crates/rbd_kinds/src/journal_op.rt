//! Operations on an image's journal.
ghost use Rattle.std.specs.Prelude.{◌≡◌};
ghost use Rattle.rbd_kinds.specs.OperationKind.{journal_kind};

use crate::journal::{JournalClient, Position, Spans};
use crate::operation_kind::OpKind;
use rbd_values::{Bytes, NoMemory, Shared, TryClone};

/// An operation on an image's journal (Ceph: `journal.<id>`). Positions are sequence numbers.
#[derive(Drop)]
pub enum JournalOp {
    /// Makes a journal that goes on behind these spans.
    Create {
        spans: Spans,
    },
    /// Draws a tag.
    Tag,
    Append {
        position: Position,
        frame: Shared<Bytes>,
    },
    Read {
        seq: u64,
    },
    /// What the journal tells of itself.
    Spans,
    /// Gives the mirror daemon a commit position.
    Register,
    Commit {
        client: JournalClient,
        seq: u64,
    },
    Remove,
}

impl JournalOp {
    /// Which operation it is, without its parts.
    pub fn kind(&self) -> OpKind
        ensures { result ≡ journal_kind self.now }
    {
        match self {
            JournalOp::Create { spans: _ } => OpKind::JournalCreate,
            JournalOp::Tag => OpKind::JournalTag,
            JournalOp::Append {
                position: _,
                frame: _,
            } => OpKind::JournalAppend,
            JournalOp::Read { seq: _ } => OpKind::JournalRead,
            JournalOp::Spans => OpKind::JournalSpans,
            JournalOp::Register => OpKind::JournalRegister,
            JournalOp::Commit { client: _, seq: _ } => OpKind::JournalCommit,
            JournalOp::Remove => OpKind::JournalRemove,
        }
    }
}

impl TryClone for JournalOp {
    fn try_clone(&self) -> Result<Self, NoMemory> {
        Ok(match self {
            JournalOp::Create { spans } => JournalOp::Create {
                spans: spans.try_clone()?,
            },
            JournalOp::Append { position, frame } => JournalOp::Append {
                position: *position,
                frame: frame.try_clone()?,
            },
            JournalOp::Tag => JournalOp::Tag,
            JournalOp::Read { seq } => JournalOp::Read { seq: *seq },
            JournalOp::Spans => JournalOp::Spans,
            JournalOp::Register => JournalOp::Register,
            JournalOp::Commit { client, seq } => JournalOp::Commit {
                client: *client,
                seq: *seq,
            },
            JournalOp::Remove => JournalOp::Remove,
        })
    }
}
