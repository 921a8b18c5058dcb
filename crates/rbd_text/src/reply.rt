//! Replies, as they are printed.
ghost use Rattle.std.specs.Prelude.{◌≡◌, ◌++◌, OnOk, codes, decimal};
ghost use Rattle.rbd_commands.specs.Refusal.{refusal_text};
ghost use Rattle.rbd_text.specs.Replies.{reply_text, bytes_text, names_text, ids_text, used_text, stuck_text, mirror_text, state_text, IsShowable};

use crate::info::{push_info, role};
use crate::numbers::push_number;
use crate::snaps::push_snaps;
use crate::word::push_word;
use rbd_kinds::{ImageId, MirrorState, Name, NoMemory, Refusal, Reply, Role};
use rbd_script::Declared;

/// Appends a reply.
pub fn push_reply(text: &mut Vec<u8>, sessions: &[Declared], reply: &Reply) -> Result<(), NoMemory>
    requires { IsShowable reply.now }
    ensures { OnOk result (text.new.items ≡ text.old.items ++ reply_text sessions.now reply.now) }
{
    match reply {
        Reply::Done => push_word(text, b"ok"),
        Reply::Bytes(bytes) => push_bytes(text, bytes.as_slice()),
        Reply::Names(names) => push_names(text, names.as_slice()),
        Reply::Ids(ids) => push_ids(text, ids.as_slice()),
        Reply::Snaps(snaps) => push_snaps(text, snaps.as_slice()),
        Reply::Info(view) => push_info(text, sessions, view),
        Reply::Used { used, of } => push_used(text, *used, *of),
        Reply::At(at) => push_at(text, *at),
        Reply::SplitBrain(at) => push_split_brain(text, *at),
        Reply::Stuck(name) => push_stuck(text, name),
        Reply::Status { role, at, state } => push_status(text, *role, *at, state),
        Reply::Refused(refusal) => push_refusal(text, *refusal),
    }
}

/// No bytes print no space either.
fn push_bytes(text: &mut Vec<u8>, bytes: &[u8]) -> Result<(), NoMemory>
    ensures { OnOk result (text.new.items ≡ text.old.items ++ bytes_text bytes.now) }
{
    if bytes.is_empty() {
        text.extend_from_slice(b"ok")?;
        return Ok(());
    }
    text.extend_from_slice(b"ok ")?;
    let digits = hex::encode(*text.allocator(), bytes)?;
    text.extend_from_slice(digits.as_bytes())?;
    Ok(())
}

fn push_names(text: &mut Vec<u8>, names: &[Name]) -> Result<(), NoMemory>
    ensures { OnOk result (text.new.items ≡ text.old.items ++ names_text names.now) }
{
    text.extend_from_slice(b"ok")?;
    for name in names {
        text.push(b' ')?;
        text.extend_from_slice(name.as_slice())?;
    }
    Ok(())
}

fn push_ids(text: &mut Vec<u8>, ids: &[ImageId]) -> Result<(), NoMemory>
    ensures { OnOk result (text.new.items ≡ text.old.items ++ ids_text ids.now) }
{
    text.extend_from_slice(b"ok")?;
    for id in ids {
        text.push(b' ')?;
        push_number(text, id.0)?;
    }
    Ok(())
}

fn push_used(text: &mut Vec<u8>, used: u64, of: u64) -> Result<(), NoMemory>
    ensures { OnOk result (text.new.items ≡ text.old.items ++ used_text used of) }
{
    text.extend_from_slice(b"ok used ")?;
    push_number(text, used)?;
    text.extend_from_slice(b" of ")?;
    push_number(text, of)
}

fn push_at(text: &mut Vec<u8>, at: u64) -> Result<(), NoMemory>
    ensures { OnOk result (text.new.items ≡ text.old.items ++ codes "ok at " ++ decimal at) }
{
    text.extend_from_slice(b"ok at ")?;
    push_number(text, at)
}

fn push_split_brain(text: &mut Vec<u8>, at: u64) -> Result<(), NoMemory>
    ensures { OnOk result (text.new.items ≡ text.old.items ++ codes "split-brain at " ++ decimal at) }
{
    text.extend_from_slice(b"split-brain at ")?;
    push_number(text, at)
}

fn push_stuck(text: &mut Vec<u8>, name: &Name) -> Result<(), NoMemory>
    ensures { OnOk result (text.new.items ≡ text.old.items ++ stuck_text name.now) }
{
    text.extend_from_slice(b"stuck ")?;
    text.extend_from_slice(name.as_slice())?;
    Ok(())
}

fn push_status(text: &mut Vec<u8>, part: Role, at: u64, state: &MirrorState) -> Result<(), NoMemory>
    ensures { OnOk result (text.new.items ≡ text.old.items ++ mirror_text part at state.now) }
{
    text.extend_from_slice(b"ok ")?;
    text.extend_from_slice(role(part).as_bytes())?;
    text.push(b' ')?;
    push_number(text, at)?;
    text.push(b' ')?;
    push_state(text, state)
}

fn push_state(text: &mut Vec<u8>, state: &MirrorState) -> Result<(), NoMemory>
    ensures { OnOk result (text.new.items ≡ text.old.items ++ state_text state.now) }
{
    match state {
        MirrorState::Dash => push_word(text, b"-"),
        MirrorState::Following => push_word(text, b"following"),
        MirrorState::SplitBrain => push_word(text, b"split-brain"),
        MirrorState::Stuck(name) => push_stuck(text, name),
        MirrorState::Missing => push_word(text, b"missing"),
    }
}

fn push_refusal(text: &mut Vec<u8>, refusal: Refusal) -> Result<(), NoMemory>
    ensures { OnOk result (text.new.items ≡ text.old.items ++ refusal_text refusal) }
{
    text.extend_from_slice(b"error ")?;
    push_number(text, refusal.errno())?;
    text.push(b' ')?;
    text.extend_from_slice(refusal.word().as_bytes())?;
    Ok(())
}
