//! The effects on images. An image that isn't there is passed over.
ghost use Rattle.std.specs.Prelude.{◌≡◌, OnOk, OnErr};
ghost use Rattle.rbd_flat.specs.declared.effect.Effect.TheVariants as effect;
ghost use Rattle.rbd_flat.specs.Flat.{after};

use super::FlatSite;
use crate::extents::Extents;
use crate::image::Image;
use rbd_kinds::{Bytes, ImageId, Name, NoMemory, Role, SnapId, SnapStatus};

impl FlatSite {
    /// Adds an image of zeros, of a size in bytes.
    pub fn create(&mut self, image: ImageId, size: u64, role: Role) -> Result<(), NoMemory>
        ensures ok { OnOk result (self.new ≡ after self.old (effect.Create image size role)) }
        ensures err { OnErr result (self.new ≡ self.old) }
    {
        let made = Image::zeros(self.alloc, size, role)?;
        self.images.insert(image, made)?;
        Ok(())
    }

    /// Adds an image with the bytes of a parent's snapshot, where that is there.
    pub fn copy_of_snapshot(
        &mut self,
        image: ImageId,
        parent: ImageId,
        snap: SnapId,
    ) -> Result<(), NoMemory>
        ensures ok { OnOk result (self.new ≡ after self.old (effect.Clone image parent snap)) }
        ensures err { OnErr result (self.new ≡ self.old) }
    {
        let Some(found) = self.images.get(&parent) else {
            return Ok(());
        };
        let Some(snapshot) = found.snapshot(snap) else {
            return Ok(());
        };
        let made = Image::clone_of(self.alloc, snapshot)?;
        self.images.insert(image, made)?;
        Ok(())
    }

    /// Puts the bytes into the extents of an image.
    pub fn paint(&mut self, image: ImageId, at: &Extents, bytes: &Bytes)
        ensures { self.new ≡ after self.old (effect.Piece image at.now bytes.now) }
    {
        let Some(found) = self.images.get_mut(&image) else {
            return;
        };
        found.paint(at, bytes.as_slice());
    }

    /// Puts zeros into the extents of an image.
    pub fn blank(&mut self, image: ImageId, at: &Extents)
        ensures { self.new ≡ after self.old (effect.Zero image at.now) }
    {
        let Some(found) = self.images.get_mut(&image) else {
            return;
        };
        found.paint(at, &[]);
    }

    /// Cuts an image to a size in bytes, or lengthens it by zeros.
    pub fn resize(&mut self, image: ImageId, size: u64) -> Result<(), NoMemory>
        ensures ok { OnOk result (self.new ≡ after self.old (effect.Size image size)) }
        ensures err { OnErr result (self.new ≡ self.old) }
    {
        let Some(found) = self.images.get_mut(&image) else {
            return Ok(());
        };
        found.resize(size)?;
        Ok(())
    }

    /// Adds a copy of an image's bytes as its newest snapshot, unprotected.
    pub fn take_snapshot(
        &mut self,
        image: ImageId,
        snap: SnapId,
        name: &Name,
    ) -> Result<(), NoMemory>
        ensures ok { OnOk result (self.new ≡ after self.old (effect.Snap image snap name.now)) }
        ensures err { OnErr result (self.new ≡ self.old) }
    {
        let Some(found) = self.images.get_mut(&image) else {
            return Ok(());
        };
        found.take_snapshot(snap, name)?;
        Ok(())
    }

    /// Takes a snapshot of an image away.
    pub fn drop_snapshot(&mut self, image: ImageId, snap: SnapId)
        ensures { self.new ≡ after self.old (effect.Unsnap image snap) }
    {
        let Some(found) = self.images.get_mut(&image) else {
            return;
        };
        found.drop_snapshot(snap);
    }

    /// Gives a snapshot of an image a status.
    pub fn mark_snapshot(&mut self, image: ImageId, snap: SnapId, status: SnapStatus)
        ensures { self.new ≡ after self.old (effect.Status image snap status) }
    {
        let Some(found) = self.images.get_mut(&image) else {
            return;
        };
        found.mark_snapshot(snap, status);
    }

    /// Gives an image a role.
    pub fn set_role(&mut self, image: ImageId, role: Role)
        ensures { self.new ≡ after self.old (effect.Role image role) }
    {
        let Some(found) = self.images.get_mut(&image) else {
            return;
        };
        found.set_role(role);
    }

    /// Takes an image away, with its snapshots.
    pub fn remove(&mut self, image: ImageId)
        ensures { self.new ≡ after self.old (effect.Gone image) }
    {
        self.images.remove(&image);
    }
}
