//! The snapshots of an image, as they are printed.
ghost use Rattle.std.specs.Prelude.{◌≡◌, ◌++◌, OnOk};
ghost use Rattle.rbd_text.specs.Replies.{snap_text, snaps_text, status_word};

use crate::numbers::push_number;
use rbd_kinds::{NoMemory, SnapStatus, SnapView};

/// Appends the snapshots in the order in which the header lists them, oldest first.
pub fn push_snaps(text: &mut Vec<u8>, snaps: &[SnapView]) -> Result<(), NoMemory>
    ensures { OnOk result (text.new.items ≡ text.old.items ++ snaps_text snaps.now) }
{
    text.extend_from_slice(b"ok")?;
    for snap in snaps {
        push_snap(text, snap)?;
    }
    Ok(())
}

/// ` s1:4096:unprotected`
fn push_snap(text: &mut Vec<u8>, snap: &SnapView) -> Result<(), NoMemory>
    ensures { OnOk result (text.new.items ≡ text.old.items ++ snap_text snap.now) }
{
    text.push(b' ')?;
    text.extend_from_slice(snap.name.as_slice())?;
    text.push(b':')?;
    push_number(text, snap.size)?;
    text.push(b':')?;
    text.extend_from_slice(status(snap.status).as_bytes())?;
    Ok(())
}

fn status(status: SnapStatus) -> &'static str
    ensures { result.now ≡ status_word status }
{
    match status {
        SnapStatus::Unprotected => "unprotected",
        SnapStatus::Unprotecting => "unprotecting",
        SnapStatus::Protected => "protected",
    }
}
