//! The versions of an object, newest first.
ghost use Rattle.std.specs.Prelude.{◌≡◌, ℕ, ◌+◌, ◌<◌, ◌≤◌, ◌++◌, OnOk, IsTrue, IsSome, find, option_copied, option_map, option_to_list};
ghost use Rattle.std.specs.VecDeque.{deque_len, deque_capacity};
ghost use Rattle.rbd_object.specs.Kept.{is_listed};
ghost use Rattle.rbd_pages.specs.Paging.{AreCounted};
ghost use Rattle.rbd_object.specs.Shared.{AreNamed, dead_named, dead_sheaves, live_versions};
ghost use Rattle.rbd_pages.specs.Sheaves.{IsSame};
ghost use Rattle.rbd_pages.specs.Places.{NoneTaken};
ghost use Rattle.rbd_pages.specs.Sheets.{count_at, in_use};

use crate::version::Version;
use rbd_kinds::{NoMemory, SnapId};
use rbd_pages::{Content, Sheaves};
use std::collections::VecDeque;

/// The newest version that is kept for a snapshot.
fn version_for(versions: &VecDeque<Version>, snap: SnapId) -> Option<&Version>
    ensures { option_copied result ≡ find (λ v. is_listed v.snaps snap) versions.now.items }
{
    versions.iter().find(|version| version.is_for(snap))
}

/// What is kept for a snapshot.
pub fn kept_for(versions: &VecDeque<Version>, snap: SnapId) -> Option<&Content>
    ensures { option_copied result ≡ option_map (λ v. v.content)
        (find (λ v. is_listed v.snaps snap) versions.now.items) }
{
    match version_for(versions, snap) {
        Some(version) => Some(version.content()),
        None => None,
    }
}

/// The version that keeps a content for these snapshots, if there is one.
pub fn version_of(kept: Option<Content>, snaps: Vec<SnapId>) -> Option<Version>
    ensures { result ≡ option_map (λ c. record { snaps = snaps.items; content = c }) kept }
{
    match kept {
        Some(content) => Some(Version::new(snaps, content)),
        None => None,
    }
}

/// Takes the memory for one more version, if one is wanted.
pub fn make_room(versions: &mut VecDeque<Version>, wanted: bool) -> Result<(), NoMemory>
    ensures same { versions.new.items ≡ versions.old.items }
    ensures ok { OnOk result (IsTrue wanted → deque_len versions.new < deque_capacity versions.new) }
{
    if wanted {
        versions.reserve(1)?;
    }
    Ok(())
}

/// Adds a version, if there is one, for which there has to be room.
pub fn add(versions: &mut VecDeque<Version>, version: Option<Version>)
    requires { IsSome version → deque_len versions.old < deque_capacity versions.old }
    ensures { versions.new.items ≡ option_to_list version ++ versions.old.items }
{
    if let Some(version) = version {
        versions.push_front_reserved(version);
    }
}

/// Drops the versions that are kept for no live snapshot, and the snapshots that aren't live.
pub fn keep_live(versions: &mut VecDeque<Version>, live: &[SnapId])
    ensures { versions.new.items ≡ live_versions live.now versions.old.items }
{
    versions.retain_mut(|version| {
        let stays = version.is_live(live);
        version.keep_live(live);
        stays
    });
}

/// Lets the sheaves of versions go that are kept for no live snapshot.
pub fn let_go(versions: &VecDeque<Version>, sheaves: &mut Sheaves, live: &[SnapId])
    requires { AreNamed sheaves.old versions.now.items }
    ensures counts { (s : ℕ) → count_at sheaves.new.sheaves s + dead_named live.now s versions.now.items
        ≡ count_at sheaves.old.sheaves s }
    ensures kept { (s : ℕ) → 0 < count_at sheaves.new.sheaves s → IsSame sheaves.old sheaves.new s }
    ensures used { in_use sheaves.new.sheets ≤ in_use sheaves.old.sheets }
    ensures places { NoneTaken sheaves.old sheaves.new }
{
    for i in 0..versions.len() {
        let_go_of(&versions[i], sheaves, live);
    }
}

fn let_go_of(version: &Version, sheaves: &mut Sheaves, live: &[SnapId])
    requires { AreCounted sheaves.old.sheaves version.now.content.sheaves }
    ensures counts { (s : ℕ) → count_at sheaves.new.sheaves s + dead_sheaves live.now s version.now
        ≡ count_at sheaves.old.sheaves s }
    ensures kept { (s : ℕ) → 0 < count_at sheaves.new.sheaves s → IsSame sheaves.old sheaves.new s }
    ensures used { in_use sheaves.new.sheets ≤ in_use sheaves.old.sheets }
    ensures places { NoneTaken sheaves.old sheaves.new }
{
    if !version.is_live(live) {
        version.content().let_go(sheaves);
    }
}
