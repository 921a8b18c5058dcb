//! The lines of an operation log.
ghost use Rattle.std.specs.Prelude.{◌≡◌, ◌++◌, OnOk};
ghost use Rattle.rbd_text.specs.Operations.{done_word, done_object, operation_text, done_line, log_text};

use crate::names::{push_doer, push_numbered};
use crate::objects::{push_data, push_header, push_object};
use rbd_kinds::{NoMemory, SiteId};
use rbd_script::Declared;
use rbd_site::{Done, DoneOp};

/// Appends a site's log, a line for each operation.
pub fn push_log(
    text: &mut Vec<u8>,
    sessions: &[Declared],
    site: SiteId,
    log: &[Done],
) -> Result<(), NoMemory>
    ensures { OnOk result (text.new.items ≡ text.old.items ++ log_text sessions.now site log.now) }
{
    for done in log {
        push_done(text, sessions, site, done)?;
    }
    Ok(())
}

/// `o a1 c1.0 dir-add rbd_directory id`
fn push_done(
    text: &mut Vec<u8>,
    sessions: &[Declared],
    site: SiteId,
    done: &Done,
) -> Result<(), NoMemory>
    ensures { OnOk result (text.new.items ≡ text.old.items ++ done_line sessions.now site done.now) }
{
    text.extend_from_slice(b"o ")?;
    push_numbered(text, site, done.number)?;
    text.push(b' ')?;
    push_doer(text, sessions, done.instance)?;
    text.push(b' ')?;
    push_operation(text, done)?;
    text.push(b'\n')?;
    Ok(())
}

/// `dir-add rbd_directory id`
fn push_operation(text: &mut Vec<u8>, done: &Done) -> Result<(), NoMemory>
    ensures { OnOk result (text.new.items ≡ text.old.items ++ operation_text done.now) }
{
    text.extend_from_slice(word(&done.op).as_bytes())?;
    text.push(b' ')?;
    push_done_object(text, &done.op)?;
    text.push(b' ')?;
    text.extend_from_slice(done.answer.word().as_bytes())?;
    Ok(())
}

fn word(op: &DoneOp) -> &'static str
    ensures { result.now ≡ done_word op.now }
{
    match op {
        DoneOp::Op(op) => op.kind().word(),
        DoneOp::Trim {
            image: _,
            object: _,
        } => "trim",
        DoneOp::Expire {
            image: _,
            instance: _,
        } => "expire",
    }
}

fn push_done_object(text: &mut Vec<u8>, op: &DoneOp) -> Result<(), NoMemory>
    ensures { OnOk result (text.new.items ≡ text.old.items ++ done_object op.now) }
{
    match op {
        DoneOp::Op(op) => push_object(text, op),
        DoneOp::Trim { image, object } => push_data(text, *image, *object),
        DoneOp::Expire { image, instance: _ } => push_header(text, *image),
    }
}
