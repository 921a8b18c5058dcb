ghost use Rattle.std.specs.Prelude.{◌≡◌, OnOk, OnErr, IfOk};
ghost use Rattle.std.specs.Bool.{OnFalse};
ghost use Rattle.std.specs.FinSet as finset;
ghost use Rattle.rbd_registry.specs.Children.{AreChildren, children_in};

use crate::entry::ChildEntry;
use rbd_kinds::{Ids, ImageId, NoMemory, SnapId};
use std::alloc::Global;
use std::collections::BTreeSet;
use std::marker::Model;

/// Which images were cloned of which snapshot (Ceph: the `rbd_children` object), seen by contracts
/// as a finite set of entries of a parent, a snapshot and a child.
#[derive(Drop)]
pub struct Children {
    alloc: Global,
    entries: BTreeSet<ChildEntry>,
}

impl Model for Children {
    ghost use Rattle.std.specs.FinSet as finset;
    ghost use Rattle.rbd_registry.specs.Children.{entry_cmp, entry_code};

    ghost Value = { finset.FinSet entry_cmp };

    ghost coded = { finset.code entry_code };

    ghost view = { λ c. finset.from_list c.entries.keys };
}

impl Children {
    /// No entries. It takes no memory.
    pub fn new(alloc: Global) -> Self
        ensures { result ≡ finset.empty }
    {
        Children {
            alloc,
            entries: BTreeSet::new(alloc),
        }
    }

    /// Adds an entry. A second time changes nothing. Where it is refused memory, nothing changes.
    pub fn add(&mut self, parent: ImageId, snap: SnapId, child: ImageId) -> Result<(), NoMemory>
        ensures ok { OnOk result (self.new ≡ finset.insert self.old
            (record { parent = parent; snap = snap; child = child })) }
        ensures err { OnErr result (self.new ≡ self.old) }
    {
        let entry = ChildEntry {
            parent,
            snap,
            child,
        };
        self.entries.insert(entry)?;
        Ok(())
    }

    /// Whether an entry is there. It takes no memory.
    pub fn contains(&self, parent: ImageId, snap: SnapId, child: ImageId) -> bool
        ensures { result ≡ finset.contains self.now (record { parent = parent; snap = snap; child = child }) }
    {
        let entry = ChildEntry {
            parent,
            snap,
            child,
        };
        self.entries.contains(&entry)
    }

    /// Removes an entry, and answers whether it was there. It takes no memory.
    pub fn remove(&mut self, parent: ImageId, snap: SnapId, child: ImageId) -> bool
        ensures found { result ≡ finset.contains self.old (record { parent = parent; snap = snap; child = child }) }
        ensures missing { OnFalse result (self.new ≡ self.old) }
        ensures removed { self.new ≡ finset.remove self.old (record { parent = parent; snap = snap; child = child }) }
    {
        let entry = ChildEntry {
            parent,
            snap,
            child,
        };
        self.entries.remove(&entry)
    }

    /// The children of a parent's snapshot, ascending.
    pub fn of(&self, parent: ImageId, snap: SnapId) -> Result<Ids, NoMemory>
        ensures children { IfOk result (AreChildren self.now parent snap) }
        ensures list { IfOk result (λ ids. ids ≡ children_in self.now parent snap) }
    {
        let mut ids = Ids::new(self.alloc);
        let first = ChildEntry {
            parent,
            snap,
            child: ImageId(0),
        };
        for entry in self.entries.range(first..) {
            if entry.parent != parent || entry.snap != snap {
                break;
            }
            ids.push(entry.child)?;
        }
        Ok(ids)
    }
}
