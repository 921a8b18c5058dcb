ghost use Rattle.std.specs.Prelude.{◌≡◌, ◌↔◌, Some, None, Ok, OnOk, OnErr, IfOk, IsOk, IsErrOf, length, false};
ghost use Rattle.rbd_flat.specs.Flat.{no_images, after, id_of, image_at};
ghost use Rattle.rbd_flat.specs.Site.{wants_memory};
ghost use Rattle.rbd_kinds.specs.Extents.{fits};
ghost use Rattle.rbd_flat.specs.Read.{read_of, read_view, IsUnlisted, IsOutsideBytes};

mod images;
mod link;
mod links;
mod names;

use crate::effect::Effect;
use crate::fault::FlatFault;
use crate::image::Image;
use link::Link;
use rbd_kinds::{Bytes, Extent, ImageId, Name, NoMemory, SnapId};
use std::alloc::Global;
use std::collections::{BTreeMap, BTreeSet};
use std::marker::Model;

/// A flat site that runs: names, images with all their bytes, and links.
#[derive(Debug, Drop)]
pub struct FlatSite {
    alloc: Global,
    names: BTreeMap<Name, ImageId>,
    images: BTreeMap<ImageId, Image>,
    links: BTreeSet<Link>,
}

impl Model for FlatSite {
    ghost use Rattle.rbd_flat.specs.Flat.{Flat};
    ghost use Rattle.rbd_flat.specs.Site.{flat_code, site_of};

    ghost Value = { Flat };

    ghost coded = { flat_code };

    ghost view = { λ s. site_of s.names.entries s.images.entries s.links.keys };
}

impl FlatSite {
    /// A site without names and images. It takes no memory.
    pub fn new(alloc: Global) -> Self
        ensures { result ≡ no_images }
    {
        FlatSite {
            alloc,
            names: BTreeMap::new(alloc),
            images: BTreeMap::new(alloc),
            links: BTreeSet::new(alloc),
        }
    }

    /// The id that a name has.
    pub fn find(&self, name: &Name) -> Option<ImageId>
        ensures { result ≡ id_of self.now name.now }
    {
        self.names.get(name).copied()
    }

    /// One step of the machine. Where it is refused memory, nothing changes. Only a step that adds
    /// something or makes something longer may want memory, so all others are always done.
    pub fn after(&mut self, effect: &Effect) -> Result<(), NoMemory>
        ensures ok { OnOk result (self.new ≡ after self.old effect.now) }
        ensures err { OnErr result (self.new ≡ self.old) }
        ensures always { wants_memory effect.now ≡ false → IsOk result }
    {
        match effect {
            Effect::Name { name, image } => return self.add_name(name, *image),
            Effect::NameFree { image } => self.free_name(*image),
            Effect::Rename { from, to } => return self.rename(from, to),
            Effect::Create { image, size, role } => return self.create(*image, *size, *role),
            Effect::Clone {
                image,
                parent,
                snap,
            } => return self.copy_of_snapshot(*image, *parent, *snap),
            Effect::Piece { image, at, bytes } => self.paint(*image, at, bytes),
            Effect::Zero { image, at } => self.blank(*image, at),
            Effect::Size { image, size } => return self.resize(*image, *size),
            Effect::Snap { image, snap, name } => return self.take_snapshot(*image, *snap, name),
            Effect::Unsnap { image, snap } => self.drop_snapshot(*image, *snap),
            Effect::Status {
                image,
                snap,
                status,
            } => self.mark_snapshot(*image, *snap, *status),
            Effect::Link {
                parent,
                snap,
                child,
            } => return self.link(*parent, *snap, *child),
            Effect::Unlink {
                parent,
                snap,
                child,
            } => self.unlink(*parent, *snap, *child),
            Effect::Role { image, role } => self.set_role(*image, *role),
            Effect::Gone { image } => self.remove(*image),
        }
        Ok(())
    }

    /// The bytes at an extent of an image, or of a snapshot of it. It tries the faults in the order
    /// in which they are listed, so memory is wanted only for bytes that there are.
    pub fn read(
        &self,
        image: ImageId,
        snap: Option<SnapId>,
        extent: &Extent,
    ) -> Result<Bytes, FlatFault>
        ensures bytes { IfOk result (λ bytes. read_of self.now image snap extent.now ≡ Ok bytes) }
        ensures no_image { IsErrOf result FlatFault.NoImage ↔ (image_at self.now image ≡ None) }
        ensures no_snap { IsErrOf result FlatFault.NoSnap ↔ IsUnlisted self.now image snap }
        ensures bad_range { IsErrOf result FlatFault.BadRange ↔ IsOutsideBytes self.now image snap extent.now }
        ensures no_memory { IsErrOf result FlatFault.NoMemory → IsOk (read_of self.now image snap extent.now) }
    {
        let Some(found) = self.images.get(&image) else {
            return Err(FlatFault::NoImage);
        };
        let Some(bytes) = found.view(snap) else {
            return Err(FlatFault::NoSnap);
        };
        read_bytes(self.alloc, bytes, extent)
    }
}

fn read_bytes(alloc: Global, bytes: &[u8], extent: &Extent) -> Result<Bytes, FlatFault>
    ensures bytes { IfOk result (λ read. read_view (Some bytes.now) extent.now ≡ Ok read) }
    ensures bad_range { IsErrOf result FlatFault.BadRange ↔ (fits extent.now (length bytes.now) ≡ false) }
    ensures no_memory { IsErrOf result FlatFault.NoMemory → IsOk (read_view (Some bytes.now) extent.now) }
    ensures no_image { IsErrOf result FlatFault.NoImage → ⊥ }
    ensures no_snap { IsErrOf result FlatFault.NoSnap → ⊥ }
{
    if !extent.fits(bytes.len() as u64) {
        return Err(FlatFault::BadRange);
    }
    let (at, len) = (extent.at as usize, extent.len as usize);
    match Bytes::from_slice(alloc, &bytes[at..at + len]) {
        Ok(read) => Ok(read),
        Err(_) => Err(FlatFault::NoMemory),
    }
}
