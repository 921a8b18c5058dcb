//! From the front of some bytes to the event of the frame there.
ghost use Rattle.std.specs.Prelude.{◌≡◌, ℕ, ◌++◌, List, length, drop, IfOk, IfErr, MatchResult, Err, Some, None};
ghost use Rattle.rbd_kinds.specs.declared.journal.JournalEvent.{JournalEvent};
ghost use Rattle.rbd_journal.specs.Faults.{IsNoMemory, body_fault, fault_after, first_fault};
ghost use Rattle.rbd_journal.specs.Parts.{HasBodyAfter, HasHeader};
ghost use Rattle.rbd_kinds.specs.Frame.{IsInRange, frame};
ghost use Rattle.rbd_journal.specs.declared.fault.FrameFault.{FrameFault};

use crate::body::event_of;
use crate::fault::FrameFault;
use crate::frame_layout::HEADER;
use crate::kind::FrameKind;
use byteorder::{BigEndian, ByteOrder};
use rbd_kinds::JournalEvent;
use std::alloc::Global;

/// The event of the frame at the front of the bytes, and the frame's length. What follows isn't
/// looked at.
///
/// A fault is the first that applies, from left to right. Memory is taken only where there is none;
/// NoMemory where it is refused.
pub fn decode(alloc: Global, bytes: &[u8]) -> Result<(JournalEvent, usize), FrameFault>
    // What is decoded stands there.
    ensures found { IfOk result (λ x. IsInRange x.0 × (bytes.now ≡ frame x.0 ++ drop x.1 bytes.now)) }
    ensures length { IfOk result (λ x. x.1 ≡ length (frame x.0)) }

    // What stands there is decoded, unless memory runs out.
    ensures only { (event : JournalEvent) (rest : List ℕ) → IsInRange event → bytes.now ≡ frame event ++ rest
        → MatchResult result (λ x. x.0 ≡ event) IsNoMemory }

    // Else it is this fault.
    ensures fault { (fault : FrameFault) → first_fault bytes.now ≡ Some fault → result ≡ Err fault }
    ensures no_fault { first_fault bytes.now ≡ None → IfErr result IsNoMemory }
{
    let (kind, body) = parts(bytes)?;
    let event = event_of(alloc, kind, body)?;
    Ok((event, HEADER + body.len()))
}

/// The kind and the body of the frame at the front. A fault is the first, where it is none of the
/// body.
fn parts(bytes: &[u8]) -> Result<(FrameKind, &[u8]), FrameFault>
    ensures header { IfOk result (λ x. HasHeader bytes.now x.0 x.1.now) }
    ensures fault { IfOk result (λ x. first_fault bytes.now ≡ body_fault x.0 x.1.now) }
    ensures err { IfErr result (λ fault. first_fault bytes.now ≡ Some fault) }
{
    let [byte, rest @ ..] = bytes else {
        return Err(FrameFault::Short);
    };
    let Some(kind) = FrameKind::from_byte(*byte) else {
        return Err(FrameFault::BadKind(*byte));
    };
    let body = body_after(kind, rest)?;
    Ok((kind, body))
}

/// The body, from what follows the byte of its kind.
fn body_after(kind: FrameKind, rest: &[u8]) -> Result<&[u8], FrameFault>
    ensures header { IfOk result (λ body. HasBodyAfter rest.now kind body.now) }
    ensures fault { IfOk result (λ body. fault_after kind rest.now ≡ body_fault kind body.now) }
    ensures err { IfErr result (λ fault. fault_after kind rest.now ≡ Some fault) }
{
    if rest.len() < 4 {
        return Err(FrameFault::Short);
    }
    let (field, rest) = rest.split_at(4);
    let length = BigEndian::read_u32(field);
    if !kind.allows_length(length) {
        return Err(FrameFault::BadLength(length as u64));
    }
    let length = length as usize;
    if rest.len() < length {
        return Err(FrameFault::Short);
    }
    Ok(&rest[..length])
}
