//! A snapshot that is removed, behind its event.
ghost use Rattle.std.specs.Prelude.{◌≡◌, Contains, Some, IfOk};
ghost use Rattle.rbd_kinds.specs.declared.header_op.HeaderOp.TheVariants as header;
ghost use Rattle.rbd_kinds.specs.declared.map_op.MapOp.TheVariants as states;
ghost use Rattle.rbd_kinds.specs.declared.operation.Op.TheVariants as on;
ghost use Rattle.rbd_machine.specs.Plan.{Plan, Wants, Asks};
ghost use Rattle.rbd_machine.specs.Steps.{ProgressesBy};
ghost use Rattle.rbd_snap.specs.Snap.{removing};
ghost use Rattle.rbd_snap.specs.SnapParts.{TellsRemoving, rest_of_removing};

use rbd_kinds::{
    Answer, HeaderOp, HeaderView, ImageId, MapOp, NoMemory, Op, OpKind, SiteId, SnapId, SnapView,
    Want,
};
use rbd_machine::{Progress, refusal_of, told_done};

/// A snapshot that is removed of an image. Its object map goes once the header doesn't list it any
/// more; one that isn't there is passed over (Ceph: a snapshot has an object map of its own).
///
/// ```text
/// Removing    header-snap-remove   ──none──▶ NoImage
///    │ done
/// Unmapping   map-remove
///    │ done, or none
///    ▼
/// the end
/// ```
///
/// Any operation may be answered `fenced`, which ends the request with Fenced.
#[derive(Drop)]
pub struct RemoveSnap {
    site: SiteId,
    image: ImageId,
    snap: SnapId,
    stage: Stage,
}

/// A stage of it.
#[derive(Drop)]
pub enum Stage {
    Removing,
    Unmapping,
}

impl RemoveSnap {
    /// The removal of a snapshot that the header lists. (The header is passed to prove that.) It
    /// takes no memory.
    pub fn new(site: SiteId, image: ImageId, header: &HeaderView, listed: &SnapView) -> Self
        requires { Contains header.now.snaps listed.now }
        ensures { (next : Plan) → rest_of_removing result next ≡ removing site image listed.now.id next }
    {
        RemoveSnap {
            site,
            image,
            snap: listed.id,
            stage: Stage::Removing,
        }
    }

    /// What it wants.
    pub fn wants(&self) -> Want
        ensures { (next : Plan) → Wants (rest_of_removing self.now next) result }
    {
        let site = self.site;
        let kind = match &self.stage {
            Stage::Removing => OpKind::HeaderSnapRemove,
            Stage::Unmapping => OpKind::MapRemove,
        };
        Want::Op { site, kind }
    }

    /// The operation that it wants. NoMemory where memory for it is refused.
    pub fn next(&self) -> Result<Op, NoMemory>
        ensures { (next : Plan) → IfOk result (Asks (rest_of_removing self.now next)) }
    {
        match &self.stage {
            Stage::Removing => Ok(snap_remove(self.image, self.snap)),
            Stage::Unmapping => Ok(map_remove(self.image, self.snap)),
        }
    }

    /// Goes on with an answer. Refused with NoImage where the header isn't there, and with Fenced
    /// by `fenced`. It takes no memory.
    pub fn feed(&mut self, answer: &Answer) -> Progress<()>
        requires { TellsRemoving self.old.stage answer.now }
        ensures { ProgressesBy rest_of_removing answer.now result self.old self.new }
    {
        match &self.stage {
            Stage::Removing => match told_done(answer) {
                Ok(()) => {
                    self.stage = Stage::Unmapping;
                    Progress::More
                }
                Err(refusal) => Progress::Refused(refusal),
            },
            Stage::Unmapping => match answer {
                Answer::Done => Progress::Ended(()),
                Answer::Absent => Progress::Ended(()),
                _ => Progress::Refused(refusal_of(answer)),
            },
        }
    }
}

/// A map of a snapshot is removed.
fn map_remove(image: ImageId, snap: SnapId) -> Op
    ensures { result ≡ on.Map image (states.Remove (Some snap)) }
{
    let op = MapOp::Remove { snap: Some(snap) };
    Op::Map { image, op }
}

/// A snapshot is removed.
fn snap_remove(image: ImageId, snap: SnapId) -> Op
    ensures { result ≡ on.Header image (header.SnapRemove snap) }
{
    let op = HeaderOp::SnapRemove { snap };
    Op::Header { image, op }
}
