//! From the body of a frame to the event. Each function finds the first fault of its kind, if there
//! is one.
ghost use Rattle.std.specs.Prelude.{◌≡◌, ◌≤◌, length, IfOk, IfErr, Err, Some, None, IsTrue, not, ◌==◌, ◌||◌};
ghost use Rattle.rbd_journal.specs.Faults.{IsNoMemory, allows_length, body_fault, ends_too_far, misplaced, name_fault};
ghost use Rattle.rbd_journal.specs.Parts.{HasBody};
ghost use Rattle.rbd_values.specs.Name.{IsName};
ghost use Rattle.rbd_journal.specs.declared.fault.FrameFault.{FrameFault};
ghost use Rattle.rbd_journal.specs.declared.kind.FrameKind.TheVariants.{Write, Discard, Resize};

use crate::fault::FrameFault;
use crate::frame_layout::{FURTHEST, HEADER};
use crate::kind::FrameKind;
use byteorder::{BigEndian, ByteOrder};
use rbd_kinds::{Bytes, JournalEvent, Name, is_name_byte};
use std::alloc::Global;

/// The event of a body whose length its kind allows, or the body's first fault: BadLength, BadText,
/// or NoMemory.
pub fn event_of(alloc: Global, kind: FrameKind, body: &[u8]) -> Result<JournalEvent, FrameFault>
    requires { IsTrue (allows_length kind (length body.now)) }
    ensures found { IfOk result (HasBody kind body.now) }
    ensures fault { (fault : FrameFault) → body_fault kind body.now ≡ Some fault → result ≡ Err fault }
    ensures no_fault { body_fault kind body.now ≡ None → IfErr result IsNoMemory }
{
    match kind {
        FrameKind::Write => write_of(alloc, body),
        FrameKind::Discard => discard_of(body),
        FrameKind::Resize => resize_of(body),
        FrameKind::SnapCreate => match name_of(alloc, body) {
            Ok(name) => Ok(JournalEvent::SnapCreate { name }),
            Err(fault) => Err(fault),
        },
        FrameKind::SnapRemove => match name_of(alloc, body) {
            Ok(name) => Ok(JournalEvent::SnapRemove { name }),
            Err(fault) => Err(fault),
        },
        FrameKind::SnapRollback => match name_of(alloc, body) {
            Ok(name) => Ok(JournalEvent::SnapRollback { name }),
            Err(fault) => Err(fault),
        },
        FrameKind::Demote => Ok(JournalEvent::Demote),
    }
}

fn write_of(alloc: Global, body: &[u8]) -> Result<JournalEvent, FrameFault>
    requires { IsTrue (allows_length Write (length body.now)) }
    ensures found { IfOk result (HasBody Write body.now) }
    ensures fault { (fault : FrameFault) → body_fault Write body.now ≡ Some fault → result ≡ Err fault }
    ensures no_fault { body_fault Write body.now ≡ None → IfErr result IsNoMemory }
{
    let (field, bytes) = body.split_at(8);
    let at = BigEndian::read_u64(field);
    if ends_too_far(at, bytes.len() as u64) {
        return Err(FrameFault::BadLength(body.len() as u64));
    }
    let bytes = Bytes::from_slice(alloc, bytes)?;
    Ok(JournalEvent::Write { at, bytes })
}

fn discard_of(body: &[u8]) -> Result<JournalEvent, FrameFault>
    requires { IsTrue (allows_length Discard (length body.now)) }
    ensures found { IfOk result (HasBody Discard body.now) }
    ensures fault { (fault : FrameFault) → body_fault Discard body.now ≡ Some fault → result ≡ Err fault }
    ensures no_fault { body_fault Discard body.now ≡ None → IfErr result IsNoMemory }
{
    let (at, len) = body.split_at(8);
    let at = BigEndian::read_u64(at);
    let len = BigEndian::read_u64(len);
    if !is_discard(at, len) {
        return Err(FrameFault::BadLength(len));
    }
    Ok(JournalEvent::Discard { at, len })
}

fn resize_of(body: &[u8]) -> Result<JournalEvent, FrameFault>
    requires { IsTrue (allows_length Resize (length body.now)) }
    ensures found { IfOk result (HasBody Resize body.now) }
    ensures fault { (fault : FrameFault) → body_fault Resize body.now ≡ Some fault → result ≡ Err fault }
    ensures no_fault { body_fault Resize body.now ≡ None → IfErr result IsNoMemory }
{
    let size = BigEndian::read_u64(body);
    if size > FURTHEST {
        return Err(FrameFault::BadLength(size));
    }
    Ok(JournalEvent::Resize { size })
}

fn name_of(alloc: Global, text: &[u8]) -> Result<Name, FrameFault>
    requires some { 1 ≤ length text.now }
    requires few { length text.now ≤ 64 }
    ensures found { IfOk result (λ name. name ≡ text.now) }
    ensures name { IfOk result IsName }
    ensures fault { (fault : FrameFault) → name_fault text.now ≡ Some fault → result ≡ Err fault }
    ensures no_fault { name_fault text.now ≡ None → IfErr result IsNoMemory }
{
    match misplaced(text) {
        Some(place) => Err(FrameFault::BadText(HEADER + place)),
        None => {
            let text = Bytes::from_slice(alloc, text)?;
            Ok(Name::parse(text).unwrap())
        }
    }
}

/// The place of the first byte that isn't of a name.
fn misplaced(text: &[u8]) -> Option<usize>
    ensures { result ≡ misplaced text.now }
{
    text.iter().position(|&byte| !is_name_byte(byte))
}

/// Whether there are bytes to discard, and none passes the furthest byte of an image.
fn is_discard(at: u64, len: u64) -> bool
    ensures { result ≡ not (len == 0 || ends_too_far at len) }
{
    len > 0 && !ends_too_far(at, len)
}

/// Whether `len` bytes from `at` on pass the furthest byte of an image.
fn ends_too_far(at: u64, len: u64) -> bool
    ensures { result ≡ ends_too_far at len }
{
    at > FURTHEST || len > FURTHEST - at
}
