//! One version of an object.
ghost use Rattle.std.specs.Prelude.{◌≡◌};
ghost use Rattle.rbd_object.specs.Kept.{is_listed};
ghost use Rattle.rbd_object.specs.Shared.{is_live, live_stored};

use rbd_kinds::SnapId;
use rbd_pages::Content;
use std::marker::Model;

/// What the head was when it was kept, and the snapshots that it is kept for.
#[derive(Drop)]
pub struct Version {
    snaps: Vec<SnapId>,
    content: Content,
}

impl Model for Version {
    ghost use Rattle.rbd_object.specs.Shared.{Stored};

    ghost Value = { Stored };

    ghost view = { λ v. record { snaps = v.snaps.items; content = v.content } };
}

impl Version {
    /// A content that is kept for these snapshots.
    pub fn new(snaps: Vec<SnapId>, content: Content) -> Self
        ensures { result ≡ record { snaps = snaps.items; content = content } }
    {
        Version { snaps, content }
    }

    /// Whether a snapshot shows it.
    pub fn is_for(&self, snap: SnapId) -> bool
        ensures { result ≡ is_listed self.now.snaps snap }
    {
        self.snaps.contains(&snap)
    }

    /// What these snapshots show.
    pub fn content(&self) -> &Content
        ensures { result.now ≡ self.now.content }
    {
        &self.content
    }

    /// Whether it is kept for a live snapshot.
    pub fn is_live(&self, live: &[SnapId]) -> bool
        ensures { result ≡ is_live live.now self.now }
    {
        self.snaps.iter().any(|snap| live.contains(snap))
    }

    /// Drops the snapshots that aren't live.
    pub fn keep_live(&mut self, live: &[SnapId])
        ensures { self.new ≡ live_stored live.now self.old }
    {
        self.snaps.retain(|snap| live.contains(snap));
    }
}
