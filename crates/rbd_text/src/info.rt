//! What an image's header tells, as it is printed.
ghost use Rattle.std.specs.Prelude.{◌≡◌, ◌++◌, ◌^◌, ◌<◌, OnOk};
ghost use Rattle.rbd_kinds.specs.Striping.{IsLayout};
ghost use Rattle.rbd_text.specs.Replies.{info_text, extent_text, standing_text, layout_text, parent_text, lock_text, role_word, objects_below};

use crate::names::push_instance;
use crate::numbers::push_number;
use crate::word::push_word;
use rbd_kinds::{HeaderView, Instance, Layout, NoMemory, ParentLink, Role};
use rbd_script::Declared;

/// Appends what a header tells.
pub fn push_info(
    text: &mut Vec<u8>,
    sessions: &[Declared],
    view: &HeaderView,
) -> Result<(), NoMemory>
    requires layout { IsLayout view.now.layout }
    requires size { view.now.size < 2 ^ 63 }
    ensures { OnOk result (text.new.items ≡ text.old.items ++ info_text sessions.now view.now) }
{
    text.extend_from_slice(b"ok ")?;
    push_extent(text, view)?;
    text.push(b' ')?;
    push_standing(text, sessions, view)
}

/// `size 10000 objects 3 layout 4096/4096/1 snaps 1`
fn push_extent(text: &mut Vec<u8>, view: &HeaderView) -> Result<(), NoMemory>
    requires layout { IsLayout view.now.layout }
    requires size { view.now.size < 2 ^ 63 }
    ensures { OnOk result (text.new.items ≡ text.old.items ++ extent_text view.now) }
{
    text.extend_from_slice(b"size ")?;
    push_number(text, view.size)?;
    text.extend_from_slice(b" objects ")?;
    push_number(text, objects(&view.layout, view.size))?;
    text.extend_from_slice(b" layout ")?;
    push_layout(text, &view.layout)?;
    text.extend_from_slice(b" snaps ")?;
    push_number(text, view.snaps.len())
}

fn objects(layout: &Layout, size: u64) -> u64
    requires layout { IsLayout layout.now }
    requires size { size < 2 ^ 63 }
    ensures { result ≡ objects_below layout.now size }
{
    rbd_layout::objects(layout, size)
}

/// `4194304/4194304/1`
fn push_layout(text: &mut Vec<u8>, layout: &Layout) -> Result<(), NoMemory>
    ensures { OnOk result (text.new.items ≡ text.old.items ++ layout_text layout.now) }
{
    push_number(text, layout.object)?;
    text.push(b'/')?;
    push_number(text, layout.unit)?;
    text.push(b'/')?;
    push_number(text, layout.count)
}

/// `parent 1@1 overlap 5000 lock c1.0 role none`
fn push_standing(
    text: &mut Vec<u8>,
    sessions: &[Declared],
    view: &HeaderView,
) -> Result<(), NoMemory>
    ensures { OnOk result (text.new.items ≡ text.old.items ++ standing_text sessions.now view.now) }
{
    text.extend_from_slice(b"parent ")?;
    push_parent(text, view.parent)?;
    text.extend_from_slice(b" lock ")?;
    push_owner(text, sessions, view.owner)?;
    text.extend_from_slice(b" role ")?;
    text.extend_from_slice(role(view.role).as_bytes())?;
    Ok(())
}

fn push_parent(text: &mut Vec<u8>, parent: Option<ParentLink>) -> Result<(), NoMemory>
    ensures { OnOk result (text.new.items ≡ text.old.items ++ parent_text parent) }
{
    let Some(link) = parent else {
        text.extend_from_slice(b"none")?;
        return Ok(());
    };
    push_number(text, link.image.0)?;
    text.push(b'@')?;
    push_number(text, link.snap.0)?;
    text.extend_from_slice(b" overlap ")?;
    push_number(text, link.overlap)
}

fn push_owner(
    text: &mut Vec<u8>,
    sessions: &[Declared],
    owner: Option<Instance>,
) -> Result<(), NoMemory>
    ensures { OnOk result (text.new.items ≡ text.old.items ++ lock_text sessions.now owner) }
{
    match owner {
        None => push_word(text, b"none"),
        Some(owner) => push_instance(text, sessions, owner),
    }
}

/// The word of an image's part in mirroring.
pub fn role(role: Role) -> &'static str
    ensures { result.now ≡ role_word role }
{
    match role {
        Role::Plain => "none",
        Role::Primary => "primary",
        Role::Secondary => "secondary",
    }
}
