ghost use Rattle.std.specs.Prelude.{◌≡◌, option_copied};
ghost use Rattle.rbd_header.specs.Header.{snap_in};

use rbd_kinds::{HeaderView, SnapId, SnapView};

/// The snapshot with an id: `None` where no listed snapshot has it, else the first that has.
pub fn snapshot(view: &HeaderView, snap: SnapId) -> Option<&SnapView>
    ensures { option_copied result ≡ snap_in view.now.snaps snap }
{
    first_with(view.snaps.as_slice(), snap)
}

/// The first of some snapshots that has an id.
pub fn first_with(snaps: &[SnapView], snap: SnapId) -> Option<&SnapView>
    ensures { option_copied result ≡ snap_in snaps.now snap }
{
    for found in snaps {
        if found.id == snap {
            return Some(found);
        }
    }
    None
}
