//! `snap rollback`
ghost use Rattle.std.specs.Prelude.{◌≡◌};
ghost use Rattle.rbd_kinds.specs.Header.{snap_named};
ghost use Rattle.rbd_meaning.specs.Rollbacks.{listing_refusal};
ghost use Rattle.rbd_snap.specs.Rollback.{is_rollback, rollback_plan};
ghost use Rattle.rbd_snap.specs.Rolling.{refuses_of, event_of, shares_of, does};

use crate::rollback::Rollback;
use rbd_change::{Change, ChangeRequest};
use rbd_kinds::{Command, HeaderView, ImageId, Name, NoMemory, Refusal, Sharing, SiteId};
use rbd_machine::{Refuses, non_primary};
use std::alloc::Global;

/// The request of a `snap rollback`: makes an image's head what it was at a snapshot.
///
/// ```text
/// Approaching   to its look under the lock, alone in the image's line   (see `Approach`)
///    │             refused: NonPrimary, NoSnap
/// Noting        the event SnapRollback, in the image's journal
///    │
/// Acting        the snapshot's size, and then each object    (see `Rollback`)
///    │
/// Applying      the event counts as applied
///    │
///    ▼
/// Done
/// ```
///
/// Each operation may be answered `fenced`, which ends the request with Fenced.
pub type RollbackRequest = ChangeRequest<RollbackChange, Rollback>;

/// The snapshot that is asked for.
#[derive(Drop)]
pub struct RollbackChange {
    snap: Name,
}

impl Change for RollbackChange {
    type Steps = Rollback;

    ghost serves = { is_rollback };

    ghost plan = { rollback_plan };

    ghost shares = { shares_of };

    ghost noted = { event_of };

    ghost does = { does };

    fn from_command(command: Command) -> (Name, Self) {
        match command {
            Command::SnapRollback { image, snap } => {
                let change = RollbackChange {
                    snap: snap.into_name(),
                };
                (image.into_name(), change)
            }
            _ => unreachable!(),
        }
    }

    fn sharing(&self) -> Sharing {
        Sharing::Alone
    }

    fn has_event(&self) -> bool {
        true
    }

    fn part(
        &self,
        alloc: Global,
        site: SiteId,
        image: ImageId,
        header: &HeaderView,
    ) -> Result<Rollback, NoMemory> {
        let Some(listed) = header.named(&self.snap) else {
            unreachable!()
        };
        Rollback::new(alloc, site, image, header, listed)
    }
}

impl Refuses for RollbackChange {
    ghost refuses = { refuses_of };

    /// NonPrimary at a secondary, which clients don't change, and then NoSnap where the name isn't
    /// listed.
    fn refusal(&self, header: &HeaderView) -> Option<Refusal> {
        match non_primary(header.role) {
            Some(refusal) => Some(refusal),
            None => not_listed(header, &self.snap),
        }
    }
}

/// NoSnap, where a header lists no snapshot of a name.
fn not_listed(header: &HeaderView, snap: &Name) -> Option<Refusal>
    ensures { result ≡ listing_refusal (snap_named header.now.snaps snap.now) }
{
    match header.named(snap) {
        Some(_) => None,
        None => Some(Refusal::NoSnap),
    }
}
