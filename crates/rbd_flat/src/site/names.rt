//! The effects on names.
ghost use Rattle.std.specs.Prelude.{◌≡◌, OnOk, OnErr};
ghost use Rattle.rbd_flat.specs.declared.effect.Effect.TheVariants as effect;
ghost use Rattle.rbd_flat.specs.Flat.{after};

use super::FlatSite;
use rbd_kinds::{ImageId, Name, NoMemory, TryClone};

impl FlatSite {
    /// Gives an image's id a name.
    pub fn add_name(&mut self, name: &Name, image: ImageId) -> Result<(), NoMemory>
        ensures ok { OnOk result (self.new ≡ after self.old (effect.Name name.now image)) }
        ensures err { OnErr result (self.new ≡ self.old) }
    {
        self.names.insert(name.try_clone()?, image)?;
        Ok(())
    }

    /// Takes the name of an image away.
    pub fn free_name(&mut self, image: ImageId)
        ensures { self.new ≡ after self.old (effect.NameFree image) }
    {
        self.names.retain(|_name, found| *found != image);
    }

    /// The new name comes first, since it may want memory.
    pub fn rename(&mut self, from: &Name, to: &Name) -> Result<(), NoMemory>
        ensures ok { OnOk result (self.new ≡ after self.old (effect.Rename from.now to.now)) }
        ensures err { OnErr result (self.new ≡ self.old) }
    {
        let Some(image) = self.find(from) else {
            return Ok(());
        };
        self.names.insert(to.try_clone()?, image)?;
        if from != to {
            self.names.remove(from);
        }
        Ok(())
    }
}
