//! What there is to remove of an image.
ghost use Rattle.std.specs.Prelude.{◌≡◌, ℕ, IfOk};
ghost use Rattle.rbd_kinds.specs.OperationKind.{kind_of};
ghost use Rattle.rbd_meaning.specs.Removals as of_removals;
ghost use Rattle.rbd_image.specs.Remnants.{removal_op};
ghost use Rattle.rbd_image.specs.declared.remnant.Remnant.TheVariants.{Link};

use rbd_kinds::{
    ChildrenOp, DataOp, DirectoryOp, HeaderOp, ImageId, JournalOp, MapOp, NoMemory, Op, OpKind,
    ParentLink, SnapContext, SnapId, SnapIds,
};
use std::alloc::Global;

/// One of the things that an image is, and that a removal takes away by one operation.
#[derive(Clone, Copy, PartialEq, Eq)]
pub enum Remnant {
    /// Its name in the directory.
    Name,
    /// Its header.
    Header,
    /// Its entry in the list of its parent's clones.
    Link(ParentLink),
    /// A data object, by its number.
    Object(u64),
    /// The object map of the head, or of a snapshot.
    Map(Option<SnapId>),
    /// Its journal.
    Journal,
}

impl Remnant {
    /// The operation that removes it from an image. NoMemory where memory for it is refused.
    pub fn op(&self, alloc: Global, image: ImageId) -> Result<Op, NoMemory>
        ensures { IfOk result (λ op. op ≡ removal_op image self.now) }
    {
        match self {
            Remnant::Name => Ok(Op::Directory(DirectoryOp::Remove { image })),
            Remnant::Header => Ok(Op::Header {
                image,
                op: HeaderOp::Remove,
            }),
            Remnant::Link(link) => Ok(unlink(image, link)),
            Remnant::Object(object) => remove_object(alloc, image, *object),
            Remnant::Map(snap) => Ok(Op::Map {
                image,
                op: MapOp::Remove { snap: *snap },
            }),
            Remnant::Journal => Ok(Op::Journal {
                image,
                op: JournalOp::Remove,
            }),
        }
    }

    /// The kind of that operation.
    pub fn kind(&self) -> OpKind
        ensures { (image : ℕ) → result ≡ kind_of (removal_op image self.now) }
    {
        match self {
            Remnant::Name => OpKind::DirRemove,
            Remnant::Header => OpKind::HeaderRemove,
            Remnant::Link(_) => OpKind::ChildRemove,
            Remnant::Object(_) => OpKind::DataRemove,
            Remnant::Map(_) => OpKind::MapRemove,
            Remnant::Journal => OpKind::JournalRemove,
        }
    }

    /// Whether it needn't be there any more: the name, the link, and the map of a snapshot. A
    /// removal that was cut off may have taken them already (own).
    pub fn may_be_gone(&self) -> bool
        ensures { (image : ℕ) → result ≡ of_removals.may_be_gone (removal_op image self.now) }
    {
        match self {
            Remnant::Name => true,
            Remnant::Header => false,
            Remnant::Link(_) => true,
            Remnant::Object(_) => false,
            Remnant::Map(None) => false,
            Remnant::Map(Some(_)) => true,
            Remnant::Journal => false,
        }
    }
}

/// An image goes from the list of its parent's clones.
fn unlink(image: ImageId, link: &ParentLink) -> Op
    ensures { result ≡ removal_op image (Link link.now) }
{
    Op::Children(ChildrenOp::Remove {
        parent: link.image,
        snap: link.snap,
        child: image,
    })
}

/// An object goes, and nothing is kept of it for a snapshot.
fn remove_object(alloc: Global, image: ImageId, object: u64) -> Result<Op, NoMemory>
    ensures { IfOk result (λ op. op ≡ of_removals.removing_object image object) }
{
    let context = SnapContext {
        seq: SnapId(0),
        snaps: SnapIds::new(alloc),
    };
    Op::on_object(alloc, image, object, DataOp::Remove { context })
}
