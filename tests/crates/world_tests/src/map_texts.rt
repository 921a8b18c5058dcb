//! Object maps, by what a site was asked of them and answered.
//!
//! Each is a word, what it is about, and the answer, with `;` between any two: `resize 3 done;set
//! 0:1 done;get bits 1010;put 1 1010 done;remove 1 done`. The states of a map are digits, one for
//! each object, and zeros up to the next multiple of four. They are the head's where no snapshot is
//! named.
use super::texts::{push_numbered, push_pair};
use rbd_kinds::{Answer, MapOp, NoMemory, Op, SnapId};
use rbd_site::{Done, DoneOp};
use std::alloc::Global;

/// Appends the four states of each byte.
fn push_states(text: &mut Vec<u8>, bits: &[u8]) -> Result<(), NoMemory> {
    for byte in bits {
        let first = b'0' + *byte / 64;
        let second = b'0' + *byte / 16 % 4;
        let third = b'0' + *byte / 4 % 4;
        let fourth = b'0' + *byte % 4;
        text.extend_from_slice(&[first, second, third, fourth])?;
    }
    Ok(())
}

/// Appends a word, and the snapshot's number where it isn't about the head.
fn push_view(
    alloc: Global,
    text: &mut Vec<u8>,
    word: &str,
    snap: &Option<SnapId>,
) -> Result<(), NoMemory> {
    text.extend_from_slice(word.as_bytes())?;
    match snap {
        Some(snap) => push_numbered(alloc, text, " ", u64::from(snap.0)),
        None => Ok(()),
    }
}

/// Appends the operation that puts a map.
fn push_put(
    alloc: Global,
    text: &mut Vec<u8>,
    snap: &Option<SnapId>,
    bits: &[u8],
) -> Result<(), NoMemory> {
    push_view(alloc, text, "put", snap)?;
    text.push(b' ')?;
    push_states(text, bits)
}

/// Appends the operation that sets a state.
fn push_set(
    alloc: Global,
    text: &mut Vec<u8>,
    snap: &Option<SnapId>,
    object: u64,
    state: u8,
) -> Result<(), NoMemory> {
    push_view(alloc, text, "set", snap)?;
    push_pair(alloc, text, " ", object, ":", u64::from(state))
}

fn push_asked(alloc: Global, text: &mut Vec<u8>, op: &MapOp) -> Result<(), NoMemory> {
    match op {
        MapOp::Resize { count } => push_numbered(alloc, text, "resize ", *count),
        MapOp::Get { snap } => push_view(alloc, text, "get", snap),
        MapOp::Put { snap, bits } => push_put(alloc, text, snap, bits.as_slice()),
        MapOp::Set {
            snap,
            object,
            state,
        } => push_set(alloc, text, snap, *object, *state),
        MapOp::Remove { snap } => push_view(alloc, text, "remove", snap),
    }
}

fn push_answered(text: &mut Vec<u8>, answer: &Answer) -> Result<(), NoMemory> {
    text.push(b' ')?;
    text.extend_from_slice(answer.word().as_bytes())?;
    match answer {
        Answer::Bits(bits) => {
            text.push(b' ')?;
            push_states(text, bits.as_slice())
        }
        _ => Ok(()),
    }
}

/// Appends a line of a log, where it is about a map.
fn push_done(alloc: Global, text: &mut Vec<u8>, done: &Done) -> Result<(), NoMemory> {
    match &done.op {
        DoneOp::Op(Op::Map { image: _, op }) => {
            if !text.is_empty() {
                text.push(b';')?;
            }
            push_asked(alloc, text, op)?;
            push_answered(text, &done.answer)
        }
        _ => Ok(()),
    }
}

/// Appends what a log has of maps.
pub fn push_maps(alloc: Global, text: &mut Vec<u8>, log: &[Done]) -> Result<(), NoMemory> {
    for done in log {
        push_done(alloc, text, done)?;
    }
    Ok(())
}

/// Appends the states that a log's last look at a map was told.
pub fn push_bits(text: &mut Vec<u8>, log: &[Done]) -> Result<(), NoMemory> {
    for done in log {
        if let Answer::Bits(bits) = &done.answer {
            text.clear();
            push_states(text, bits.as_slice())?;
        }
    }
    Ok(())
}
