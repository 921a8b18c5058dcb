//! A head that becomes what it was at a snapshot.
ghost use Rattle.std.specs.Prelude.{◌≡◌, IfOk};
ghost use Rattle.rbd_kinds.specs.Form.{IsHeaderInForm, IsSnapInForm};
ghost use Rattle.rbd_machine.specs.Plan.{Plan};
ghost use Rattle.rbd_machine.specs.Steps.{Progresses};
ghost use Rattle.rbd_header.specs.Header.{cut as cut_link};
ghost use Rattle.rbd_meaning.specs.Rollbacks.{at_size as head_at_size};
ghost use Rattle.rbd_snap.specs.RollbackLaws.{rollback_asks, rollback_tells};
ghost use Rattle.rbd_snap.specs.Restore.{rest_of_some};
ghost use Rattle.rbd_snap.specs.Rolling as rolling;
ghost use Rattle.rbd_snap.specs.Rolling.{rest_of_rollback};
ghost use Rattle.rbd_snap.specs.Rollback.{restore_all, roll_back};

use crate::restore::Restore;
use rbd_change::ChangeSteps;
use rbd_kinds::{
    Answer, HeaderView, ImageId, NoMemory, Op, ParentLink, SiteId, SnapView, TryClone, Want,
};
use rbd_machine::Progress;
use rbd_pieces::Size;
use std::alloc::Global;
use std::mem::replace;

/// An image's head that becomes what it was at a snapshot: it gets the snapshot's size, and then
/// each of its objects the bytes that it had there.
///
/// ```text
/// Sizing      the snapshot's size                       (see `Size`)
///    │
/// Restoring   each object, by its number                (see `Restore`)
///    │
///    ▼
/// the end
/// ```
///
/// Any operation may be answered `fenced`, which ends the request with Fenced.
#[derive(Drop)]
pub struct Rollback {
    stage: Stage,
}

/// A stage of it, with the objects that are left to restore.
#[derive(Drop)]
pub enum Stage {
    Sizing(Size, Option<Restore>),
    Restoring(Restore),
}

impl Rollback {
    /// A rollback of an image's head, by its header, to a snapshot that the header lists. NoMemory
    /// where the copy of the header or the pieces of the objects are refused.
    pub fn new(
        alloc: Global,
        site: SiteId,
        image: ImageId,
        header: &HeaderView,
        listed: &SnapView,
    ) -> Result<Self, NoMemory>
        requires form { IsHeaderInForm header.now }
        requires listed { IsSnapInForm header.now.layout listed.now }
        ensures { IfOk result (λ r. (next : Plan)
            → rest_of_rollback r next ≡ roll_back site image header.now listed.now next) }
    {
        let size = Size::new(alloc, site, image, header, listed.size)?;
        let objects = objects_at(alloc, site, image, header, listed)?;
        Ok(Rollback {
            stage: Stage::Sizing(size, objects),
        })
    }

    /// Goes on to the objects, if there are some.
    fn begin_objects(&mut self, objects: Option<Restore>) -> Progress<()>
        ensures { (next : Plan) → Progresses next (rest_of_some objects next) result (rest_of_rollback self.new next) }
    {
        match objects {
            Some(objects) => {
                self.go_to(Stage::Restoring(objects));
                Progress::More
            }
            None => Progress::Ended(()),
        }
    }

    /// Goes on to a stage, and lets the old one go.
    fn go_to(&mut self, stage: Stage)
        ensures { self.new ≡ record { stage = stage } }
    {
        drop(replace(&mut self.stage, stage));
    }
}

impl ChangeSteps for Rollback {
    ghost rest = { rest_of_rollback };

    ghost tells = { rolling.Tells };

    ghost is_ready = { rolling.IsPartReady };

    fn wants(&self) -> Want {
        match &self.stage {
            Stage::Sizing(size, _) => size.wants(),
            Stage::Restoring(objects) => objects.wants(),
        }
    }

    fn next(&self, alloc: Global) -> Result<Op, NoMemory> {
        match &self.stage {
            Stage::Sizing(size, _) => size.next(alloc),
            Stage::Restoring(objects) => objects.next(alloc),
        }
    }

    fn ready(&mut self, alloc: Global, answer: &Answer) -> Result<(), NoMemory> {
        match &mut self.stage {
            Stage::Sizing(size, _) => size.ready(alloc, answer),
            Stage::Restoring(objects) => objects.ready(alloc, answer),
        }
    }

    fn feed(&mut self, answer: &Answer) -> Progress<()> {
        match &mut self.stage {
            Stage::Sizing(size, objects) => match size.feed(answer) {
                Progress::More => Progress::More,
                Progress::Ended(()) => {
                    let objects = objects.take();
                    self.begin_objects(objects)
                }
                Progress::Refused(refusal) => Progress::Refused(refusal),
            },
            Stage::Restoring(objects) => objects.feed(answer),
        }
    }

    ghost asks = { rollback_asks };

    ghost told = { rollback_tells };
}

/// The objects of the head at the size of a snapshot, which become what they were there.
fn objects_at(
    alloc: Global,
    site: SiteId,
    image: ImageId,
    header: &HeaderView,
    listed: &SnapView,
) -> Result<Option<Restore>, NoMemory>
    requires form { IsHeaderInForm header.now }
    requires listed { IsSnapInForm header.now.layout listed.now }
    ensures { IfOk result (λ made. (next : Plan)
        → rest_of_some made next
        ≡ restore_all site image (head_at_size listed.now.size header.now) listed.now.id next) }
{
    let head = at_size(header, listed.size)?;
    Restore::new(alloc, site, image, head, listed.id)
}

/// A header with another size of its head. The overlap ends there at the latest.
fn at_size(header: &HeaderView, size: u64) -> Result<HeaderView, NoMemory>
    ensures { IfOk result (λ h. h ≡ head_at_size size header.now) }
{
    let mut head = header.try_clone()?;
    head.size = size;
    head.parent = cut(head.parent, size);
    Ok(head)
}

/// A parent whose overlap ends at a size.
fn cut(parent: Option<ParentLink>, size: u64) -> Option<ParentLink>
    ensures { result ≡ cut_link size parent }
{
    match parent {
        None => None,
        Some(link) => Some(ParentLink {
            overlap: link.overlap.min(size),
            ..link
        }),
    }
}
