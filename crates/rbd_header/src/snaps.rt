//! The list of snapshots: one marked, one removed.
ghost use Rattle.std.specs.Prelude.{◌≡◌, ◌==◌, not, map};
ghost use Rattle.std.specs.List.{filter};
ghost use Rattle.rbd_header.specs.Header.{status_marked};

use rbd_kinds::{SnapId, SnapStatus, SnapView};

/// Gives a snapshot a status.
pub fn mark(snaps: &mut Vec<SnapView>, snap: SnapId, status: SnapStatus)
    ensures { snaps.new.items ≡ map (status_marked snap status) snaps.old.items }
{
    mark_each(snaps.as_mut_slice(), snap, status);
}

fn mark_each(snaps: &mut [SnapView], snap: SnapId, status: SnapStatus)
    ensures { snaps.new ≡ map (status_marked snap status) snaps.old }
{
    for found in snaps.iter_mut() {
        mark_one(found, snap, status);
    }
}

fn mark_one(found: &mut SnapView, snap: SnapId, status: SnapStatus)
    ensures { found.new ≡ status_marked snap status found.old }
{
    if found.id == snap {
        found.status = status;
    }
}

/// Takes a snapshot off the list.
pub fn unlist(snaps: &mut Vec<SnapView>, snap: SnapId)
    ensures { snaps.new.items ≡ filter (λ s. not (s.id == snap)) snaps.old.items }
{
    snaps.retain(|found| found.id != snap);
}
