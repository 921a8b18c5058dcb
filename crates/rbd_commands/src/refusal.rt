//! Why a command may be refused.
ghost use Rattle.std.specs.Prelude.{◌≡◌, Some};
ghost use Rattle.rbd_commands.specs.Refusal.{errno_of, number_of, word_of, refusal_text};

use std::fmt;

/// Why a command is refused. The numbers, words and conditions are this project's own; the errno is
/// the one that users of `rbd` see. Which refusal comes where is told by the command's rules; where
/// several hold at one look, they are tried in an order of their own.
#[derive(Clone, Copy, Debug, PartialEq, Eq)]
pub enum Refusal {
    /// The extent is empty, or ends past the size in the header that was read.
    BadRange,
    /// The directory has no such name; or the header, the journal or the head's object map is gone;
    /// or the other site's journal holds no frame that `follow` needs.
    NoImage,
    /// The directory has the name. For `follow`: the local image of the name has no header, or
    /// bears another global name or none.
    ImageExists,
    /// The header that was read lists no such snapshot.
    NoSnap,
    /// The header that was read lists a snapshot of that name.
    SnapExists,
    /// For `snap rm` and `resync`, a snapshot concerned isn't unprotected; for `protect`, it is
    /// protected.
    SnapProtected,
    /// For `clone`, the parent's snapshot isn't protected at one of the two looks; for `unprotect`,
    /// it is unprotected.
    NotProtected,
    /// For `unprotect`, the snapshot has clones.
    HasChildren,
    /// For `rm`, the header that was read lists a snapshot.
    HasSnaps,
    /// For `rm`, another session watches the image.
    InUse,
    /// The image is secondary, at a change or at `demote`; for a synchronisation, the other site's
    /// image is.
    NonPrimary,
    /// The instance is in the site's blocklist.
    Fenced,
    /// A layout, or a count of objects, images or snapshots, passes a limit; or the last id of an
    /// image, or of a snapshot of this image, is drawn (`u32::MAX`).
    BadShape,
    /// The image isn't mirrored: its header has no global name.
    NotMirrored,
    /// For `promote`, `resync` and `follow`, the local image is primary.
    IsPrimary,
    /// For `promote`, the image is being synchronised; or, without `force`, the last event of its
    /// own journal isn't a `Demote` that is held.
    NotDemoted,
    /// For `clone`, the parent is 16 clones deep, as deep as a chain may be.
    TooDeep,
    /// For `mirror enable`, the image has no journal.
    NotJournaled,
    /// For `flatten`, the head has no parent.
    NoParent,
}

impl Refusal {
    /// Its number, from 1.
    pub fn number(self) -> u8
        ensures { result ≡ number_of self }
    {
        match self {
            Refusal::BadRange => 1,
            Refusal::NoImage => 2,
            Refusal::ImageExists => 3,
            Refusal::NoSnap => 4,
            Refusal::SnapExists => 5,
            Refusal::SnapProtected => 6,
            Refusal::NotProtected => 7,
            Refusal::HasChildren => 8,
            Refusal::HasSnaps => 9,
            Refusal::InUse => 10,
            Refusal::NonPrimary => 11,
            Refusal::Fenced => 12,
            Refusal::BadShape => 13,
            Refusal::NotMirrored => 14,
            Refusal::IsPrimary => 15,
            Refusal::NotDemoted => 16,
            Refusal::TooDeep => 17,
            Refusal::NotJournaled => 18,
            Refusal::NoParent => 19,
        }
    }

    /// The errno that users of `rbd` see.
    pub fn errno(self) -> u8
        ensures { result ≡ errno_of self }
    {
        match self {
            Refusal::NoImage | Refusal::NoSnap => 2,
            Refusal::SnapProtected | Refusal::HasChildren | Refusal::InUse | Refusal::NotDemoted =>
                16,
            Refusal::ImageExists | Refusal::SnapExists => 17,
            Refusal::NonPrimary => 30,
            Refusal::HasSnaps => 39,
            Refusal::Fenced => 108,
            Refusal::BadRange
            | Refusal::NotProtected
            | Refusal::BadShape
            | Refusal::NotMirrored
            | Refusal::IsPrimary
            | Refusal::TooDeep
            | Refusal::NotJournaled
            | Refusal::NoParent => 22,
        }
    }

    /// Its word.
    pub fn word(self) -> &'static str
        ensures { result.now ≡ word_of self }
    {
        match self {
            Refusal::BadRange => "BadRange",
            Refusal::NoImage => "NoImage",
            Refusal::ImageExists => "ImageExists",
            Refusal::NoSnap => "NoSnap",
            Refusal::SnapExists => "SnapExists",
            Refusal::SnapProtected => "SnapProtected",
            Refusal::NotProtected => "NotProtected",
            Refusal::HasChildren => "HasChildren",
            Refusal::HasSnaps => "HasSnaps",
            Refusal::InUse => "InUse",
            Refusal::NonPrimary => "NonPrimary",
            Refusal::Fenced => "Fenced",
            Refusal::BadShape => "BadShape",
            Refusal::NotMirrored => "NotMirrored",
            Refusal::IsPrimary => "IsPrimary",
            Refusal::NotDemoted => "NotDemoted",
            Refusal::TooDeep => "TooDeep",
            Refusal::NotJournaled => "NotJournaled",
            Refusal::NoParent => "NoParent",
        }
    }
}

/// As it is printed: `error 22 BadRange`.
impl fmt::Display for Refusal {
    ghost output = { λ r. Some (refusal_text r) };

    fn fmt<W: fmt::Write>(&self, f: &mut fmt::Formatter<W>) -> fmt::Result {
        let (errno, word) = (self.errno(), self.word());
        write!(f, "error {errno} {word}")
    }
}
