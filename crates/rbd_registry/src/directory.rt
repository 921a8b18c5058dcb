ghost use Rattle.std.specs.Prelude.{◌≡◌, ◌+◌, ◌==◌, ℕ, List, ◌↔◌, OnOk, OnErr, IfOk, IsTrue, IsErrOf, IsSome, None, Some, false};
ghost use Rattle.std.specs.Bool.{OnFalse};
ghost use Rattle.std.specs.FinMap as finmap;
ghost use Rattle.std.specs.List.{list_any};
ghost use Rattle.std.specs.List.Sorted.{IsStrictlySortedBy};
ghost use Rattle.std.specs.Map.{keys_of, values_of};
ghost use Rattle.std.specs.BTreeMap.{IsUnchanged, Updates};
ghost use Rattle.rbd_registry.specs.Directory.{name_cmp, nothing_listed, id_of, but, is_full, added, freed, holds_id, renamed, IsNamed, IsSoundListing};

use crate::fault::{AddFault, RenameFault};
use rbd_kinds::{ImageId, Name, Names, NoMemory, TryClone};
use std::alloc::Global;
use std::collections::BTreeMap;
use std::marker::Model;

/// How many names a directory holds at most (own).
const MOST_NAMES: usize = 4096;

/// A site's names (Ceph: the `rbd_directory` object), seen by contracts as a finite map from names
/// to image ids and the id that was drawn last.
#[derive(Drop)]
pub struct Directory {
    alloc: Global,
    names: BTreeMap<Name, ImageId>,
    drawn: u32,
}

impl Model for Directory {
    ghost use Rattle.rbd_registry.specs.Directory.{Listing, listing_code, listing_of, IsSoundListing};

    ghost Value = { Listing };

    ghost coded = { listing_code };

    ghost view = { λ d. listing_of d.names.entries d.drawn };

    ghost invariant = { λ d. IsSoundListing (listing_of d.names.entries d.drawn) };
}

impl Directory {
    /// No names, and no id drawn. It takes no memory.
    pub fn new(alloc: Global) -> Self
        ensures { result ≡ nothing_listed }
    {
        Directory {
            alloc,
            names: BTreeMap::new(alloc),
            drawn: 0,
        }
    }

    /// Gives a name the next id. `Exists` where the name is held; else `Full` where 4,096 names are
    /// held or the last id is `u32::MAX` (own).
    pub fn add(&mut self, name: &Name) -> Result<ImageId, AddFault>
        ensures id { IfOk result (λ id. id ≡ self.old.drawn + 1) }
        ensures ok { OnOk result (self.new ≡ added name.now self.old) }
        ensures err { OnErr result (self.new ≡ self.old) }
        ensures exists { IsErrOf result AddFault.Exists ↔ IsSome (id_of self.old name.now) }
        ensures full { IsErrOf result AddFault.Full ↔ ((id_of self.old name.now ≡ None) × IsTrue (is_full self.old)) }
        ensures free { OnOk result (id_of self.old name.now ≡ None) }
        ensures room { OnOk result (is_full self.old ≡ false) }
        ensures no_memory { IsErrOf result AddFault.NoMemory → (id_of self.old name.now ≡ None)
            × (is_full self.old ≡ false) }
        ensures sound { IsSoundListing self.new }
    {
        if self.find(name).is_some() {
            return Err(AddFault::Exists);
        }
        if self.is_full() {
            return Err(AddFault::Full);
        }
        let drawn = self.drawn + 1;
        match put(&mut self.names, name, ImageId(drawn)) {
            Ok(()) => {
                self.drawn = drawn;
                Ok(ImageId(drawn))
            }
            Err(_) => Err(AddFault::NoMemory),
        }
    }

    /// The id that a name has.
    pub fn find(&self, name: &Name) -> Option<ImageId>
        ensures value { result ≡ id_of self.now name.now }
        ensures sound { IsSoundListing self.now }
    {
        self.names.get(name).copied()
    }

    /// Whether no name may be added: 4,096 are held, or the ids are used up (own). It takes no
    /// memory.
    pub fn is_full(&self) -> bool
        ensures { result ≡ is_full self.now }
    {
        if self.names.len() >= MOST_NAMES {
            return true;
        }
        self.drawn == u32::MAX
    }

    /// The id that was drawn last, 0 for none. It takes no memory.
    pub fn drawn(&self) -> u32
        ensures { result ≡ self.now.drawn }
    {
        self.drawn
    }

    /// Whether a name has this id. It takes no memory, and reads each name's id at most once.
    pub fn holds(&self, image: ImageId) -> bool
        ensures { result ≡ holds_id image self.now }
    {
        is_value(&self.names, image)
    }

    /// Takes the name of an image away, and answers whether it had one. It takes no memory, and
    /// reads each name's id once. The id isn't drawn again.
    pub fn remove(&mut self, image: ImageId) -> bool
        ensures found { IsTrue result ↔ IsNamed self.old image }
        ensures held { result ≡ holds_id image self.old }
        ensures each { (name : List ℕ) → id_of self.new name ≡ but image (id_of self.old name) }
        ensures freed { self.new ≡ freed image self.old }
        ensures missing { OnFalse result (self.new ≡ self.old) }
    {
        let before = self.names.len();
        self.names.retain(|_name, held| *held != image);
        self.names.len() != before
    }

    /// Gives an image another name. `NoName` where `from` isn't held; else `Exists` where `to` is,
    /// also where both are one name.
    pub fn rename(&mut self, from: &Name, to: &Name) -> Result<(), RenameFault>
        ensures ok { OnOk result (self.new ≡ renamed (id_of self.old from.now) from.now to.now self.old) }
        ensures err { OnErr result (self.new ≡ self.old) }
        ensures no_name { IsErrOf result RenameFault.NoName ↔ (id_of self.old from.now ≡ None) }
        ensures exists { IsErrOf result RenameFault.Exists
            ↔ (IsSome (id_of self.old from.now) × IsSome (id_of self.old to.now)) }
        ensures free { OnOk result (IsSome (id_of self.old from.now) × (id_of self.old to.now ≡ None)) }
        ensures no_memory { IsErrOf result RenameFault.NoMemory → IsSome (id_of self.old from.now)
            × (id_of self.old to.now ≡ None) }
    {
        let Some(image) = self.find(from) else {
            return Err(RenameFault::NoName);
        };
        if self.find(to).is_some() {
            return Err(RenameFault::Exists);
        }
        match put(&mut self.names, to, image) {
            Ok(()) => {
                self.names.remove(from);
                Ok(())
            }
            Err(_) => Err(RenameFault::NoMemory),
        }
    }

    /// All names, ascending by their bytes.
    pub fn list(&self) -> Result<Names, NoMemory>
        ensures names { IfOk result (λ names. names ≡ finmap.keys self.now.names) }
    {
        let mut names = Names::new(self.alloc);
        for name in self.names.keys() {
            names.push(name.try_clone()?)?;
        }
        Ok(names)
    }
}

/// Whether a name has this id.
fn is_value(names: &BTreeMap<Name, ImageId>, image: ImageId) -> bool
    ensures value { result ≡ list_any (λ held. held == image) (values_of names.now.entries) }
    ensures ordered { IsStrictlySortedBy name_cmp (keys_of names.now.entries) }
{
    names.values().any(|held| *held == image)
}

/// Gives a name an id, or changes nothing.
fn put(names: &mut BTreeMap<Name, ImageId>, name: &Name, image: ImageId) -> Result<(), NoMemory>
    ensures ok { OnOk result (Updates name_cmp names.old names.new name.now (Some image)) }
    ensures err { OnErr result (IsUnchanged names.old names.new) }
{
    names.insert(name.try_clone()?, image)?;
    Ok(())
}
