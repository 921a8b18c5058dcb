//! What operations are answered.
ghost use Rattle.std.specs.Prelude.{◌≡◌};
ghost use Rattle.rbd_kinds.specs.Answer.{answer_word};

use crate::header::HeaderView;
use crate::id::{Ids, ImageId, Instance, Instances, SnapId};
use crate::journal::{JournalView, Position, Tag};
use rbd_values::{Bytes, Names, NoMemory, Shared, TryClone};

/// The answer to an operation. What a header or a journal tells is large, and shared: so an answer
/// is no larger than a few words, whatever it is.
#[derive(Drop)]
pub enum Answer {
    Done,
    /// The image of a name, or the id that was drawn.
    Id(ImageId),
    /// It isn't there. The word is `none`.
    Absent,
    Exists,
    Full,
    Names(Names),
    Ids(Ids),
    Instances(Instances),
    Header(Shared<HeaderView>),
    /// The snapshot that was made.
    Snap(SnapId),
    /// Who has the lock.
    Held(Instance),
    /// Another instance has the lock, or none.
    Changed,
    Bytes(Bytes),
    /// The states of an object map, two bits an object.
    Bits(Bytes),
    Tag(Tag),
    Frame {
        position: Position,
        frame: Shared<Bytes>,
    },
    Spans(Shared<JournalView>),
    /// The instance is in the site's blocklist.
    Fenced,
}

impl Answer {
    /// Its word, as a trace shows it.
    pub fn word(&self) -> &'static str
        ensures { result.now ≡ answer_word self.now }
    {
        match self {
            Answer::Done => "done",
            Answer::Id(_) => "id",
            Answer::Absent => "none",
            Answer::Exists => "exists",
            Answer::Full => "full",
            Answer::Names(_) => "names",
            Answer::Ids(_) => "ids",
            Answer::Instances(_) => "instances",
            Answer::Header(_) => "header",
            Answer::Snap(_) => "snap",
            Answer::Held(_) => "held",
            Answer::Changed => "changed",
            Answer::Bytes(_) => "bytes",
            Answer::Bits(_) => "bits",
            Answer::Tag(_) => "tag",
            Answer::Frame {
                position: _,
                frame: _,
            } => "frame",
            Answer::Spans(_) => "spans",
            Answer::Fenced => "fenced",
        }
    }
}

impl TryClone for Answer {
    fn try_clone(&self) -> Result<Self, NoMemory> {
        Ok(match self {
            Answer::Names(names) => Answer::Names(names.try_clone()?),
            Answer::Ids(ids) => Answer::Ids(ids.try_clone()?),
            Answer::Instances(instances) => Answer::Instances(instances.try_clone()?),
            Answer::Header(view) => Answer::Header(view.try_clone()?),
            Answer::Bytes(bytes) => Answer::Bytes(bytes.try_clone()?),
            Answer::Bits(bits) => Answer::Bits(bits.try_clone()?),
            Answer::Frame { position, frame } => Answer::Frame {
                position: *position,
                frame: frame.try_clone()?,
            },
            Answer::Spans(view) => Answer::Spans(view.try_clone()?),
            Answer::Id(image) => Answer::Id(*image),
            Answer::Snap(snap) => Answer::Snap(*snap),
            Answer::Held(owner) => Answer::Held(*owner),
            Answer::Tag(tag) => Answer::Tag(*tag),
            Answer::Done => Answer::Done,
            Answer::Absent => Answer::Absent,
            Answer::Exists => Answer::Exists,
            Answer::Full => Answer::Full,
            Answer::Changed => Answer::Changed,
            Answer::Fenced => Answer::Fenced,
        })
    }
}
