//! `snap create` and `snap rm`
ghost use Rattle.std.specs.Prelude.{◌≡◌, Some, None, is_some, if◌then◌else◌};
ghost use Rattle.rbd_kinds.specs.Header.{snap_named};
ghost use Rattle.rbd_header.specs.Header.{is_full as lists_all};
ghost use Rattle.rbd_meaning.specs.Snaps.{removal_refusal, is_unprotected};
ghost use Rattle.rbd_snap.specs.Snap.{is_snap, snap_plan};
ghost use Rattle.rbd_snap.specs.Snapping.{rest_of_part, TellsPart, IsPartReady, refuses_of, event_of, shares_of, does};
ghost use Rattle.rbd_snap.specs.SnapLaws.{part_asks, part_tells};

use crate::remove_snap::RemoveSnap;
use crate::take_snap::TakeSnap;
use rbd_change::{Change, ChangeRequest, ChangeSteps};
use rbd_header::is_full;
use rbd_kinds::{
    Answer, Command, HeaderView, ImageId, Name, NoMemory, Op, Refusal, Sharing, SiteId, SnapStatus,
    TryClone, Want,
};
use rbd_machine::{Progress, Refuses, non_primary};
use std::alloc::Global;

/// The request of a `snap create` or a `snap rm`: takes a snapshot of an image, or removes one.
///
/// ```text
/// Approaching   to its look under the lock, alone in the image's line   (see `Approach`)
///    │             refused: NonPrimary, then SnapExists and BadShape, or NoSnap and SnapProtected
/// Noting        the event SnapCreate or SnapRemove, in the image's journal
///    │
/// Acting        the snapshot is taken (see `TakeSnap`) or removed (see `RemoveSnap`)
///    │
/// Applying      the event counts as applied
///    │
///    ▼
/// Done
/// ```
///
/// Each operation may be answered `fenced`, which ends the request with Fenced.
pub type SnapRequest = ChangeRequest<SnapChange, SnapPart>;

/// What is to be done to the snapshot of a name: it is taken, or removed.
#[derive(Drop)]
pub struct SnapChange {
    kind: ChangeKind,
    snap: Name,
}

#[derive(Clone, Copy, PartialEq, Eq)]
enum ChangeKind {
    Create,
    Remove,
}

/// What is done behind the event of a change of a snapshot.
#[derive(Drop)]
pub enum SnapPart {
    /// The snapshot is taken.
    Take(TakeSnap),
    /// The snapshot is removed.
    Remove(RemoveSnap),
}

impl Change for SnapChange {
    type Steps = SnapPart;

    ghost serves = { is_snap };

    ghost plan = { snap_plan };

    ghost shares = { shares_of };

    ghost noted = { event_of };

    ghost does = { does };

    fn from_command(command: Command) -> (Name, Self) {
        match command {
            Command::SnapCreate { image, snap } => {
                let change = SnapChange {
                    kind: ChangeKind::Create,
                    snap: snap.into_name(),
                };
                (image.into_name(), change)
            }
            Command::SnapRemove { image, snap } => {
                let change = SnapChange {
                    kind: ChangeKind::Remove,
                    snap: snap.into_name(),
                };
                (image.into_name(), change)
            }
            _ => unreachable!(),
        }
    }

    fn sharing(&self) -> Sharing {
        Sharing::Alone
    }

    fn has_event(&self) -> bool {
        true
    }

    fn part(
        &self,
        _alloc: Global,
        site: SiteId,
        image: ImageId,
        header: &HeaderView,
    ) -> Result<SnapPart, NoMemory> {
        match self.kind {
            ChangeKind::Create => {
                let name = self.snap.try_clone()?;
                Ok(SnapPart::Take(TakeSnap::new(site, image, header, name)))
            }
            ChangeKind::Remove => {
                let Some(listed) = header.named(&self.snap) else {
                    unreachable!()
                };
                Ok(SnapPart::Remove(RemoveSnap::new(site, image, header, listed)))
            }
        }
    }
}

impl Refuses for SnapChange {
    ghost refuses = { refuses_of };

    /// NonPrimary at a secondary, which clients don't change, and then what the kind of change
    /// refuses.
    fn refusal(&self, header: &HeaderView) -> Option<Refusal> {
        match non_primary(header.role) {
            Some(refusal) => Some(refusal),
            None => match self.kind {
                ChangeKind::Create => create_refusal(&self.snap, header),
                ChangeKind::Remove => remove_refusal(&self.snap, header),
            },
        }
    }
}

/// Why no snapshot of a name may be taken of an image that clients change: SnapExists where the
/// name is listed, BadShape where no more snapshots can be.
fn create_refusal(snap: &Name, header: &HeaderView) -> Option<Refusal>
    ensures { result
        ≡ (if is_some (snap_named header.now.snaps snap.now) then Some Refusal.SnapExists
        else if lists_all header.now then Some Refusal.BadShape else None) }
{
    if header.named(snap).is_some() {
        return Some(Refusal::SnapExists);
    }
    if is_full(header) {
        return Some(Refusal::BadShape);
    }
    None
}

/// Why the snapshot of a name may not be removed of an image that clients change: NoSnap where the
/// name isn't listed, SnapProtected where the snapshot may have clones.
fn remove_refusal(snap: &Name, header: &HeaderView) -> Option<Refusal>
    ensures { result ≡ removal_refusal (snap_named header.now.snaps snap.now) }
{
    match header.named(snap) {
        None => Some(Refusal::NoSnap),
        Some(listed) => protection(listed.status),
    }
}

/// SnapProtected, unless a snapshot of this status can have no clones.
fn protection(status: SnapStatus) -> Option<Refusal>
    ensures { result ≡ (if is_unprotected status then None else Some Refusal.SnapProtected) }
{
    match status {
        SnapStatus::Unprotected => None,
        _ => Some(Refusal::SnapProtected),
    }
}

impl ChangeSteps for SnapPart {
    ghost rest = { rest_of_part };

    ghost tells = { TellsPart };

    ghost is_ready = { IsPartReady };

    fn wants(&self) -> Want {
        match self {
            SnapPart::Take(take) => take.wants(),
            SnapPart::Remove(remove) => remove.wants(),
        }
    }

    fn next(&self, _alloc: Global) -> Result<Op, NoMemory> {
        match self {
            SnapPart::Take(take) => take.next(),
            SnapPart::Remove(remove) => remove.next(),
        }
    }

    fn ready(&mut self, _alloc: Global, answer: &Answer) -> Result<(), NoMemory> {
        match self {
            SnapPart::Take(take) => take.ready(answer),
            SnapPart::Remove(_) => Ok(()),
        }
    }

    fn feed(&mut self, answer: &Answer) -> Progress<()> {
        match self {
            SnapPart::Take(take) => take.feed(answer),
            SnapPart::Remove(remove) => remove.feed(answer),
        }
    }

    ghost asks = { part_asks };

    ghost told = { part_tells };
}
