//! `create`
ghost use Rattle.std.specs.Prelude.{◌≡◌, ℕ, true, false, None};
ghost use Rattle.rbd_machine.specs.Plan.{Plan, IsAsking, without_labels};
ghost use Rattle.rbd_machine.specs.Steps.{going};
ghost use Rattle.rbd_image.specs.Create.{is_create, on_drawn, rest_of_create, IsCreate, IsCreatePlan, TellsDrawn, refusal_at};

use rbd_header::new_header;
use rbd_kinds::{
    Answer, Command, DirectoryOp, Fed, Flow, HeaderOp, ImageId, Layout, MapOp, Name, NoMemory,
    Number, Op, OpKind, Refusal, Reply, Shape, Shared, SiteId, TryClone, Want,
};
use rbd_layout::{keeps_limits, layout_of, objects};
use rbd_machine::{Machine, Reason, refusal_of, told_done};
use std::alloc::Global;

/// The request of a `create`: makes an image of zeros.
///
/// ```text
/// Outside   a shape outside the limits: BadShape, and no operation
///
/// Drawing   dir-add         ──exists──▶ ImageExists
///    │ id                   ──full────▶ BadShape
/// Mapping   map-resize
///    │ done
/// Making    header-create
///    │ done
///    ▼
/// Done
/// ```
///
/// Each operation may be answered `fenced`, which ends the request with Fenced.
#[derive(Drop)]
pub struct CreateRequest {
    site: SiteId,
    name: Name,
    layout: Layout,
    /// The size in bytes.
    size: Number,
    /// How many objects the size has, 0 where the shape is outside the limits.
    objects: u64,
    stage: Stage,
}

/// A stage of the request.
#[derive(Drop)]
enum Stage {
    Outside,
    Drawing,
    Mapping(ImageId),
    Making(ImageId),
}

impl CreateRequest {
    /// The request of a `create` at a session's home site, for an image without a journal. It takes
    /// no memory.
    pub fn new(home: SiteId, command: Command) -> Self
        requires { is_create command ≡ true }
        ensures { IsCreatePlan home command (rest_of_create result) }
    {
        match command {
            Command::Create { image, size, shape } => Self::asked(
                home,
                image.into_name(),
                size,
                &shape,
            ),
            _ => unreachable!(),
        }
    }

    /// The request for an image of a name, a size in bytes and a shape without a journal.
    fn asked(site: SiteId, name: Name, size: Number, shape: &Shape) -> Self
        requires { shape.now.journal ≡ false }
        ensures { IsCreate site name size shape.now (rest_of_create result) }
    {
        let layout = layout_of(shape);
        if keeps_limits(&layout, size.get()) {
            return CreateRequest {
                site,
                name,
                layout,
                size,
                objects: objects(&layout, size.get()),
                stage: Stage::Drawing,
            };
        }
        CreateRequest {
            site,
            name,
            layout,
            size,
            objects: 0,
            stage: Stage::Outside,
        }
    }

    /// Why it ends before any operation: BadShape where the shape is outside the limits, and `None`
    /// where there is something to do. Ask it first: of a request that is refused, nothing is said
    /// of what it wants.
    pub fn refusal(&self) -> Option<Refusal>
        ensures refusal { result ≡ refusal_at (rest_of_create self.now) }
        ensures asking { result ≡ None → IsAsking (rest_of_create self.now) }
    {
        match self.stage {
            Stage::Outside => Some(Refusal::BadShape),
            Stage::Drawing => None,
            Stage::Mapping(_) => None,
            Stage::Making(_) => None,
        }
    }
}

/// The id that was drawn for a name, or why the request ends: ImageExists where the name is held,
/// BadShape where no more names or ids are left, or Fenced.
fn drawn(answer: &Answer) -> Result<ImageId, Refusal>
    requires { TellsDrawn answer.now }
    ensures { (next : ℕ → Plan) → on_drawn next answer.now ≡ going next result }
{
    match answer {
        Answer::Id(image) => Ok(*image),
        Answer::Exists => Err(Refusal::ImageExists),
        Answer::Full => Err(Refusal::BadShape),
        _ => Err(refusal_of(answer)),
    }
}

impl Machine for CreateRequest {
    ghost stands = { λ r. without_labels (rest_of_create r) };

    ghost is_ready = { λ r answer. Unit {0} };

    fn wants(&self) -> Want {
        let site = self.site;
        let kind = match self.stage {
            Stage::Outside => unreachable!(),
            Stage::Drawing => OpKind::DirAdd,
            Stage::Mapping(_) => OpKind::MapResize,
            Stage::Making(_) => OpKind::HeaderCreate,
        };
        Want::Op { site, kind }
    }

    fn next(&self, alloc: Global) -> Result<Op, NoMemory> {
        match self.stage {
            Stage::Outside => unreachable!(),
            Stage::Drawing => Ok(Op::Directory(DirectoryOp::Add {
                name: self.name.try_clone()?,
            })),
            Stage::Mapping(image) => {
                let op = MapOp::Resize {
                    count: self.objects,
                };
                Ok(Op::Map { image, op })
            }
            Stage::Making(image) => {
                let view = new_header(alloc, self.layout, self.size.get());
                let op = HeaderOp::Create {
                    view: Shared::new(alloc, view)?,
                };
                Ok(Op::Header { image, op })
            }
        }
    }

    fn reason(&self) -> Reason {
        Reason::Own
    }

    fn ready(&mut self, _alloc: Global, _fed: &Fed) -> Result<(), NoMemory> {
        Ok(())
    }

    #[tactic(auto, using(crate::proofs::Tells::draw_tells, crate::proofs::Tells::map_tells, crate::proofs::Tells::make_tells))]
    fn feed(&mut self, fed: &Fed) -> Flow {
        let Fed::Answer(answer) = fed else {
            unreachable!()
        };
        match &self.stage {
            Stage::Outside => unreachable!(),
            Stage::Drawing => match drawn(answer) {
                Ok(image) => {
                    self.stage = Stage::Mapping(image);
                    Flow::More
                }
                Err(refusal) => Flow::Done(Reply::Refused(refusal)),
            },
            Stage::Mapping(image) => match told_done(answer) {
                Ok(()) => {
                    self.stage = Stage::Making(*image);
                    Flow::More
                }
                Err(refusal) => Flow::Done(Reply::Refused(refusal)),
            },
            Stage::Making(_) => match told_done(answer) {
                Ok(()) => Flow::Done(Reply::Done),
                Err(refusal) => Flow::Done(Reply::Refused(refusal)),
            },
        }
    }
}
