//! The kinds of frames: their bytes and the lengths of their bodies.
ghost use Rattle.std.specs.Prelude.{◌≡◌};
ghost use Rattle.rbd_journal.specs.Faults.{frame_kind_at, allows_length, frame_kind_byte};

/// Which event a frame records. Its byte has the version, 1, in the high half.
#[derive(Clone, Copy, PartialEq, Eq)]
pub enum FrameKind {
    Write,
    Discard,
    Resize,
    SnapCreate,
    SnapRemove,
    SnapRollback,
    Demote,
}

impl FrameKind {
    /// The kind that a byte means, or `None` where it means none.
    pub fn from_byte(byte: u8) -> Option<Self>
        ensures { result ≡ frame_kind_at byte }
    {
        match byte {
            0x11 => Some(FrameKind::Write),
            0x12 => Some(FrameKind::Discard),
            0x13 => Some(FrameKind::Resize),
            0x14 => Some(FrameKind::SnapCreate),
            0x15 => Some(FrameKind::SnapRemove),
            0x16 => Some(FrameKind::SnapRollback),
            0x17 => Some(FrameKind::Demote),
            _ => None,
        }
    }

    /// The byte that means the kind.
    pub fn byte(self) -> u8
        ensures { result ≡ frame_kind_byte self }
    {
        match self {
            FrameKind::Write => 0x11,
            FrameKind::Discard => 0x12,
            FrameKind::Resize => 0x13,
            FrameKind::SnapCreate => 0x14,
            FrameKind::SnapRemove => 0x15,
            FrameKind::SnapRollback => 0x16,
            FrameKind::Demote => 0x17,
        }
    }

    /// Whether a body of this kind may have this length, in bytes.
    pub fn allows_length(self, length: u32) -> bool
        ensures { result ≡ allows_length self length }
    {
        match self {
            FrameKind::Write => (9..=1_048_584).contains(&length),
            FrameKind::Discard => length == 16,
            FrameKind::Resize => length == 8,
            FrameKind::SnapCreate | FrameKind::SnapRemove | FrameKind::SnapRollback =>
                (1..=64).contains(&length),
            FrameKind::Demote => length == 0,
        }
    }
}
