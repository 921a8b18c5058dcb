//! The effects on links.
ghost use Rattle.std.specs.Prelude.{◌≡◌, OnOk, OnErr};
ghost use Rattle.rbd_flat.specs.declared.effect.Effect.TheVariants as effect;
ghost use Rattle.rbd_flat.specs.Flat.{after};

use super::FlatSite;
use super::link::Link;
use rbd_kinds::{ImageId, NoMemory, SnapId};

impl FlatSite {
    /// Adds a child of a parent's snapshot.
    pub fn link(&mut self, parent: ImageId, snap: SnapId, child: ImageId) -> Result<(), NoMemory>
        ensures ok { OnOk result (self.new ≡ after self.old (effect.Link parent snap child)) }
        ensures err { OnErr result (self.new ≡ self.old) }
    {
        let link = Link {
            parent,
            snap,
            child,
        };
        self.links.insert(link)?;
        Ok(())
    }

    /// Takes a child of a parent's snapshot away.
    pub fn unlink(&mut self, parent: ImageId, snap: SnapId, child: ImageId)
        ensures { self.new ≡ after self.old (effect.Unlink parent snap child) }
    {
        let link = Link {
            parent,
            snap,
            child,
        };
        self.links.remove(&link);
    }
}
