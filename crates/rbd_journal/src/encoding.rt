//! From an event to its frame.
ghost use Rattle.std.specs.Prelude.{◌≡◌, ◌+◌, ◌<◌, ◌^◌, ◌++◌, ◌∷◌, length, IfOk};
ghost use Rattle.std.specs.Int.{w32, to_be_bytes};
ghost use Rattle.rbd_journal.specs.Faults.{frame_kind_byte};
ghost use Rattle.rbd_kinds.specs.Frame.{IsInRange, frame};

use crate::frame_layout::HEADER;
use crate::kind::FrameKind;
use byteorder::{BigEndian, ByteOrder};
use rbd_kinds::{JournalEvent, NoMemory};
use std::alloc::Global;

/// The frame of an event, its one spelling (own).
///
/// The event is in the ranges of the format: a write has 1 to 1,048,576 bytes, a discard at least
/// 1, neither ends past byte 2^63, and no size is above it. NoMemory where memory for the frame is
/// refused.
pub fn encode(alloc: Global, event: &JournalEvent) -> Result<Vec<u8>, NoMemory>
    requires { IsInRange event.now }
    ensures { IfOk result (λ written. written.items ≡ frame event.now) }
{
    match event {
        JournalEvent::Write { at, bytes } => {
            framed(alloc, FrameKind::Write, &at.to_be_bytes(), bytes.as_slice())
        }
        JournalEvent::Discard { at, len } => {
            framed(
                alloc,
                FrameKind::Discard,
                &at.to_be_bytes(),
                &len.to_be_bytes(),
            )
        }
        JournalEvent::Resize { size } => framed(alloc, FrameKind::Resize, &size.to_be_bytes(), &[]),
        JournalEvent::SnapCreate { name } => framed(
            alloc,
            FrameKind::SnapCreate,
            name.as_slice(),
            &[],
        ),
        JournalEvent::SnapRemove { name } => framed(
            alloc,
            FrameKind::SnapRemove,
            name.as_slice(),
            &[],
        ),
        JournalEvent::SnapRollback { name } => framed(
            alloc,
            FrameKind::SnapRollback,
            name.as_slice(),
            &[],
        ),
        JournalEvent::Demote => framed(alloc, FrameKind::Demote, &[], &[]),
    }
}

/// The frame of a body that comes in two parts.
fn framed(alloc: Global, kind: FrameKind, front: &[u8], back: &[u8]) -> Result<Vec<u8>, NoMemory>
    requires { length front.now + length back.now < 2 ^ 32 }
    ensures { let body = front.now ++ back.now in
        IfOk result (λ frame. frame.items ≡ frame_kind_byte kind ∷ to_be_bytes w32 (length body) ++ body) }
{
    let length = front.len() + back.len();
    let mut header = [kind.byte(), 0, 0, 0, 0];
    BigEndian::write_u32(&mut header[1..], length as u32);
    let mut frame = Vec::with_capacity(alloc, HEADER + length)?;
    frame.extend_from_slice(&header)?;
    frame.extend_from_slice(front)?;
    frame.extend_from_slice(back)?;
    Ok(frame)
}
