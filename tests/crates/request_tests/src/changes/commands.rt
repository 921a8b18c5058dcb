//! The requests of the commands that a row spells.
use super::removal::removing;
use crate::fixtures::{RowError, Scene, asked, name, play};
use rbd_data::discard_request;
use rbd_image::{ListRequest, RemoveRequest, ResizeRequest};
use rbd_kinds::{Command, SessionNo, SiteId};
use rbd_machine::Machine;
use rbd_snap::RollbackRequest;
use std::alloc::Global;

/// Who removes.
const ME: SessionNo = SessionNo(0);

/// A request is fed to its end, forty steps at most. It goes with the call.
fn played<M: Machine + Drop>(
    alloc: Global,
    request: M,
    scene: &mut Scene<'_>,
    reply: &mut String,
) -> Result<(), RowError> {
    let mut request = request;
    let played = play(alloc, &mut request, scene, 40, reply);
    drop(request);
    played?;
    Ok(())
}

/// A `discard`: where it begins, and how many bytes.
fn play_discard(
    alloc: Global,
    extent: &str,
    scene: &mut Scene<'_>,
    reply: &mut String,
) -> Result<(), RowError> {
    let (at, len) = extent.split_once(' ').unwrap_or((extent, ""));
    let (at, len) = (asked(at)?, asked(len)?);
    let image = name(alloc, "disk")?;
    let request = discard_request(alloc, SiteId::A, Command::Discard { image, at, len });
    played(alloc, request, scene, reply)
}

/// A `resize` to a size.
fn play_resize(
    alloc: Global,
    size: &str,
    scene: &mut Scene<'_>,
    reply: &mut String,
) -> Result<(), RowError> {
    let size = asked(size)?;
    let image = name(alloc, "disk")?;
    let request = ResizeRequest::new(SiteId::A, Command::Resize { image, size });
    played(alloc, request, scene, reply)
}

/// A `snap rollback` to a snapshot of a name.
fn play_rollback(
    alloc: Global,
    snap: &str,
    scene: &mut Scene<'_>,
    reply: &mut String,
) -> Result<(), RowError> {
    let image = name(alloc, "disk")?;
    let snap = name(alloc, snap)?;
    let request = RollbackRequest::new(SiteId::A, Command::SnapRollback { image, snap });
    played(alloc, request, scene, reply)
}

fn play_remove(alloc: Global, scene: &mut Scene<'_>, reply: &mut String) -> Result<(), RowError> {
    let image = name(alloc, "disk")?;
    let request = RemoveRequest::new(ME, SiteId::A, Command::Remove { image });
    played(alloc, request, scene, reply)
}

/// A `du`, or a `rename` from a name to another.
fn play_listing(
    alloc: Global,
    command: Command,
    scene: &mut Scene<'_>,
    reply: &mut String,
) -> Result<(), RowError> {
    let request = ListRequest::new(SiteId::A, command);
    played(alloc, request, scene, reply)
}

fn play_used(alloc: Global, scene: &mut Scene<'_>, reply: &mut String) -> Result<(), RowError> {
    let image = name(alloc, "disk")?;
    play_listing(alloc, Command::Used { image }, scene, reply)
}

fn play_rename(
    alloc: Global,
    names: &str,
    scene: &mut Scene<'_>,
    reply: &mut String,
) -> Result<(), RowError> {
    let (from, to) = names.split_once(' ').unwrap_or((names, ""));
    let from = name(alloc, from)?;
    let to = name(alloc, to)?;
    play_listing(alloc, Command::Rename { from, to }, scene, reply)
}

/// The part alone, by the header of the first look.
fn play_removal(
    alloc: Global,
    look: &str,
    scene: &mut Scene<'_>,
    reply: &mut String,
) -> Result<(), RowError> {
    let Some(request) = removing(alloc, look)? else {
        return Ok(());
    };
    played(alloc, request, scene, reply)
}

/// Feeds the request of a command to its end. A removal alone goes by the header of a look.
pub fn play_command(
    alloc: Global,
    command: &str,
    look: &str,
    scene: &mut Scene<'_>,
    reply: &mut String,
) -> Result<(), RowError> {
    let (word, rest) = command.split_once(' ').unwrap_or((command, ""));
    if word == "discard" {
        return play_discard(alloc, rest, scene, reply);
    }
    if word == "resize" {
        return play_resize(alloc, rest, scene, reply);
    }
    if word == "rollback" {
        return play_rollback(alloc, rest, scene, reply);
    }
    if word == "rm" {
        return play_remove(alloc, scene, reply);
    }
    if word == "du" {
        return play_used(alloc, scene, reply);
    }
    if word == "rename" {
        return play_rename(alloc, rest, scene, reply);
    }
    play_removal(alloc, look, scene, reply)
}
