//! A snapshot that is taken, behind its event.
ghost use Rattle.std.specs.Prelude.{◌≡◌, ◌+◌, false, Some, IfOk, OnOk};
ghost use Rattle.rbd_kinds.specs.declared.header_op.HeaderOp.TheVariants as header;
ghost use Rattle.rbd_kinds.specs.declared.map_op.MapOp.TheVariants as states;
ghost use Rattle.rbd_kinds.specs.declared.operation.Op.TheVariants as on;
ghost use Rattle.rbd_header.specs.Header.{is_full as lists_all};
ghost use Rattle.rbd_machine.specs.Plan.{Plan, Wants, Asks};
ghost use Rattle.rbd_machine.specs.Steps.{ProgressesBy};
ghost use Rattle.rbd_snap.specs.Snap.{copying};
ghost use Rattle.rbd_snap.specs.SnapParts.{HasBits, HasBitsAt, TellsTaking, rest_of_taking};

use rbd_image::map_get;
use rbd_kinds::{
    Answer, Bytes, HeaderOp, HeaderView, ImageId, MapOp, Name, NoMemory, Op, OpKind, SiteId,
    SnapId, TryClone, Want,
};
use rbd_machine::{Progress, refusal_of, told_done};

/// A snapshot that is taken of an image's head. Its object map, that of the head as it was, is put
/// before the header lists it (Ceph: a snapshot has an object map of its own).
///
/// ```text
/// Copying   map-get                         ──none──▶ NoImage
///    │ bits
/// Putting   map-put, with these bits, for the snapshot that is taken next
///    │ done
/// Taking    header-snap-add                 ──none──▶ NoImage
///    │ snap
///    ▼
/// the end
/// ```
///
/// Any operation may be answered `fenced`, which ends the request with Fenced.
#[derive(Drop)]
pub struct TakeSnap {
    site: SiteId,
    image: ImageId,
    /// The snapshot that is taken next.
    snap: SnapId,
    name: Name,
    stage: Stage,
    /// The bits that it was told, once there is memory for them.
    readied: Option<Bytes>,
}

/// A stage of it.
#[derive(Drop)]
pub enum Stage {
    Copying,
    Putting(Bytes),
    Taking,
}

impl TakeSnap {
    /// The taking of a snapshot of this name, by the image's header: one more can be, since fewer
    /// than 256 are listed and the last id is below `u32::MAX` (own). It takes no memory.
    pub fn new(site: SiteId, image: ImageId, header: &HeaderView, name: Name) -> Self
        requires { lists_all header.now ≡ false }
        ensures { (next : Plan) → rest_of_taking result next ≡ copying site name image (header.now.snap_seq + 1) next }
    {
        TakeSnap {
            site,
            image,
            snap: next_snap(header),
            name,
            stage: Stage::Copying,
            readied: None,
        }
    }

    /// What it wants.
    pub fn wants(&self) -> Want
        ensures { (next : Plan) → Wants (rest_of_taking self.now next) result }
    {
        let site = self.site;
        let kind = match &self.stage {
            Stage::Copying => OpKind::MapGet,
            Stage::Putting(_) => OpKind::MapPut,
            Stage::Taking => OpKind::HeaderSnapAdd,
        };
        Want::Op { site, kind }
    }

    /// The operation that it wants. NoMemory where memory for its names or bits is refused.
    pub fn next(&self) -> Result<Op, NoMemory>
        ensures { (next : Plan) → IfOk result (Asks (rest_of_taking self.now next)) }
    {
        match &self.stage {
            Stage::Copying => Ok(map_get(self.image)),
            Stage::Putting(bits) => Ok(map_put(self.image, self.snap, bits.try_clone()?)),
            Stage::Taking => Ok(snap_add(self.image, self.name.try_clone()?)),
        }
    }

    /// Takes the memory for an answer: where the bits of the head's map are told, theirs, unless
    /// they are shared. NoMemory where that is refused.
    pub fn ready(&mut self, answer: &Answer) -> Result<(), NoMemory>
        ensures rest { (next : Plan) → rest_of_taking self.new next ≡ rest_of_taking self.old next }
        ensures ready { OnOk result (HasBits self.new answer.now) }
    {
        self.readied = bits_for(&self.stage, answer)?;
        Ok(())
    }

    /// Goes on with an answer that it has the memory for. Refused with NoImage by `none`, and with
    /// Fenced by `fenced`. It takes no memory.
    pub fn feed(&mut self, answer: &Answer) -> Progress<()>
        requires tells { TellsTaking self.old.stage answer.now }
        requires ready { HasBits self.old answer.now }
        ensures { ProgressesBy rest_of_taking answer.now result self.old self.new }
    {
        match &self.stage {
            Stage::Copying => match self.readied.take() {
                Some(bits) => {
                    self.stage = Stage::Putting(bits);
                    Progress::More
                }
                None => Progress::Refused(refusal_of(answer)),
            },
            Stage::Putting(_) => match told_done(answer) {
                Ok(()) => {
                    self.stage = Stage::Taking;
                    Progress::More
                }
                Err(refusal) => Progress::Refused(refusal),
            },
            Stage::Taking => match answer {
                Answer::Snap(_) => Progress::Ended(()),
                _ => Progress::Refused(refusal_of(answer)),
            },
        }
    }
}

/// The snapshot that is taken next of an image that isn't full.
fn next_snap(header: &HeaderView) -> SnapId
    requires { lists_all header.now ≡ false }
    ensures { result ≡ header.now.snap_seq + 1 }
{
    SnapId(header.snap_seq + 1)
}

/// The bits that an answer brings at a stage, if it brings some.
fn bits_for(stage: &Stage, answer: &Answer) -> Result<Option<Bytes>, NoMemory>
    ensures { IfOk result (λ readied. HasBitsAt stage.now readied answer.now) }
{
    match stage {
        Stage::Copying => match answer {
            Answer::Bits(bits) => Ok(Some(bits.try_clone()?)),
            _ => Ok(None),
        },
        _ => Ok(None),
    }
}

/// A map of a snapshot is put.
fn map_put(image: ImageId, snap: SnapId, bits: Bytes) -> Op
    ensures { result ≡ on.Map image (states.Put (Some snap) bits) }
{
    let op = MapOp::Put {
        snap: Some(snap),
        bits,
    };
    Op::Map { image, op }
}

/// A snapshot of a name is taken.
fn snap_add(image: ImageId, name: Name) -> Op
    ensures { result ≡ on.Header image (header.SnapAdd name) }
{
    let op = HeaderOp::SnapAdd { name };
    Op::Header { image, op }
}
