//! The snapshot context that a header gives to changes of data.
ghost use Rattle.std.specs.Prelude.{◌≡◌, IfOk};
ghost use Rattle.rbd_header.specs.Header.{context_of as told_context, ids_of as listed_ids};

use rbd_kinds::{HeaderView, NoMemory, SnapContext, SnapId, SnapIds, SnapView};
use std::alloc::Global;

/// The snapshot context of a change: the number of the snapshot that was taken last, and those that
/// the header lists, newest first (Ceph: RADOS self-managed snapshots). Copies of the context share
/// the list.
pub fn context_of(alloc: Global, header: &HeaderView) -> Result<SnapContext, NoMemory>
    ensures { IfOk result (λ context. context ≡ told_context header.now) }
{
    let mut snaps = ids_of(alloc, header.snaps.as_slice())?;
    snaps.as_mut_slice().reverse();
    Ok(SnapContext {
        seq: SnapId(header.snap_seq),
        snaps: SnapIds::from_vec(snaps).share()?,
    })
}

/// The ids of snapshots, in their order.
pub fn ids_of(alloc: Global, snaps: &[SnapView]) -> Result<Vec<SnapId>, NoMemory>
    ensures { IfOk result (λ ids. ids.items ≡ listed_ids snaps.now) }
{
    Ok(snaps.iter().map(|snap| snap.id).collect(alloc)?)
}
