//! Sessions, their lives, sites and operations, as they are called.
ghost use Rattle.std.specs.Prelude.{◌≡◌, ◌++◌, OnOk};
ghost use Rattle.rbd_text.specs.Names.{session_name, instance_text, doer_text, numbered};

use crate::numbers::push_number;
use crate::word::push_word;
use rbd_kinds::{Instance, NoMemory, SessionNo, SiteId};
use rbd_script::Declared;

/// Appends a session's name, and nothing where no session has the number.
pub fn push_session(
    text: &mut Vec<u8>,
    sessions: &[Declared],
    session: SessionNo,
) -> Result<(), NoMemory>
    ensures { OnOk result (text.new.items ≡ text.old.items ++ session_name sessions.now session) }
{
    let Some(declared) = sessions.get(usize::from(session.0)) else {
        return Ok(());
    };
    text.extend_from_slice(declared.name.as_slice())?;
    Ok(())
}

/// Appends one life of a session: `c1.0`.
pub fn push_instance(
    text: &mut Vec<u8>,
    sessions: &[Declared],
    instance: Instance,
) -> Result<(), NoMemory>
    ensures { OnOk result (text.new.items ≡ text.old.items ++ instance_text sessions.now instance) }
{
    push_session(text, sessions, instance.session)?;
    text.push(b'.')?;
    push_number(text, instance.life)
}

/// Appends who did an operation: an instance, or the store itself.
pub fn push_doer(
    text: &mut Vec<u8>,
    sessions: &[Declared],
    doer: Option<Instance>,
) -> Result<(), NoMemory>
    ensures { OnOk result (text.new.items ≡ text.old.items ++ doer_text sessions.now doer) }
{
    match doer {
        None => push_word(text, b"store"),
        Some(instance) => push_instance(text, sessions, instance),
    }
}

/// Appends an operation by its number in its site's log: `a1`.
pub fn push_numbered(text: &mut Vec<u8>, site: SiteId, number: u64) -> Result<(), NoMemory>
    ensures { OnOk result (text.new.items ≡ text.old.items ++ numbered site number) }
{
    text.push(match site {
        SiteId::A => b'a',
        SiteId::B => b'b',
    })?;
    push_number(text, number)
}
