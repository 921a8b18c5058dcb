ghost use Rattle.std.specs.Prelude.{◌≡◌, ◌≢◌, ◌+◌, ◌==◌, ◌||◌, nat_le, option_copied, ◌^◌, ◌<◌, ◌↔◌, IsTrue, IsSome, Some, None, is_some, false, IfOk, IfErr, OnOk, OnErr, IsErrOf};
ghost use Rattle.std.specs.Bool.{OnTrue, OnFalse};
ghost use Rattle.rbd_kinds.specs.declared.id.Instance as instances;
ghost use Rattle.rbd_kinds.specs.Header.{snap_named};
ghost use Rattle.rbd_header.specs.Header.{snap_in, is_full, cut, with_size, with_snap, with_status, without_snap, detached, with_role, with_global, in_step};

use crate::fault::{Held, SnapAddFault};
use crate::lookup::first_with;
use crate::snaps::{mark, unlist};
use rbd_kinds::{
    GlobalName, HeaderView, Instance, Name, NoMemory, ParentLink, Role, SnapId, SnapStatus,
    SnapView, Snaps, TryClone, first_named,
};
use std::marker::Model;

/// How many snapshots a header lists at most (own).
const MOST_SNAPS: usize = 256;

/// An image's header (Ceph: the `rbd_header` object), seen by contracts as what it tells.
#[derive(Drop)]
pub struct Header {
    /// All but the list of snapshots, which is empty here.
    rest: HeaderView,
    /// The snapshots, changed in place.
    snaps: Vec<SnapView>,
    /// The same list, as views of the header share it: once it was asked for, and until it changes.
    told: Option<Snaps>,
}

impl Model for Header {
    ghost use Rattle.rbd_kinds.specs.declared.header.HeaderView.{HeaderView};
    ghost use Rattle.rbd_header.specs.Told.{IsTold};

    ghost Value = { HeaderView };

    ghost view = { λ h. record h.rest { snaps = h.snaps.items } };

    ghost invariant = { λ h. IsTold h.told h.snaps.items };
}

impl Header {
    /// A header that tells this. It copies the list of snapshots only where another value shares
    /// it.
    pub fn make(view: HeaderView) -> Result<Self, NoMemory>
        ensures { IfOk result (λ header. header ≡ view) }
    {
        let snaps = view.snaps.into_vec()?;
        let none = Snaps::new(*snaps.allocator());
        Ok(Header {
            rest: HeaderView {
                snaps: none,
                ..view
            },
            snaps,
            told: None,
        })
    }

    /// What it tells: a copy of the list of snapshots, or, after [`Header::share`], one that shares
    /// it.
    pub fn view(&self) -> Result<HeaderView, NoMemory>
        ensures { IfOk result (λ copy. copy ≡ self.now) }
    {
        Ok(HeaderView {
            snaps: self.told_snaps()?,
            ..self.rest
        })
    }

    /// From now on, until the list of snapshots changes, `view` copies no list. It copies the list
    /// once, unless it was shared already, and may be refused the memory: then all is as before.
    pub fn share(&mut self) -> Result<(), NoMemory>
        ensures { self.new ≡ self.old }
    {
        if self.told.is_none() {
            self.told = Some(self.told_snaps()?.share()?);
        }
        Ok(())
    }

    fn told_snaps(&self) -> Result<Snaps, NoMemory>
        ensures { IfOk result (λ snaps. snaps ≡ self.now.snaps) }
    {
        match &self.told {
            Some(told) => told.try_clone(),
            None => Snaps::from_slice(*self.snaps.allocator(), self.snaps.as_slice()),
        }
    }

    /// The snapshots, oldest first.
    pub fn snaps(&self) -> &[SnapView]
        ensures { result.now ≡ self.now.snaps }
    {
        self.snaps.as_slice()
    }

    /// The snapshot of a name, as [`HeaderView::named`] finds it.
    pub fn named(&self, name: &Name) -> Option<&SnapView>
        ensures { option_copied result ≡ snap_named self.now.snaps name.now }
    {
        first_named(self.snaps.as_slice(), name)
    }

    /// The snapshot with an id: `None` where no listed snapshot has it.
    pub fn snapshot(&self, snap: SnapId) -> Option<&SnapView>
        ensures { option_copied result ≡ snap_in self.now.snaps snap }
    {
        first_with(self.snaps.as_slice(), snap)
    }

    /// The id of the snapshot that was taken last, 0 for none.
    pub fn snap_seq(&self) -> u32
        ensures { result ≡ self.now.snap_seq }
    {
        self.rest.snap_seq
    }

    /// How often it was changed: each change but one of the lock raises it.
    pub fn generation(&self) -> u64
        ensures { result ≡ self.now.generation }
    {
        self.rest.generation
    }

    /// Who has the exclusive lock.
    pub fn owner(&self) -> Option<Instance>
        ensures { result ≡ self.now.owner }
    {
        self.rest.owner
    }

    /// Sets the size in bytes, and cuts the head's overlap to it (Ceph: growing an image never
    /// raises the overlap).
    pub fn set_size(&mut self, size: u64)
        requires { self.old.generation + 1 < 2 ^ 64 }
        ensures { self.new ≡ with_size size self.old }
    {
        self.rest.size = size;
        self.rest.parent = cut(self.rest.parent, size);
        self.rest.generation += 1;
    }

    /// Whether no snapshot may be taken: 256 are listed, or the ids are used up (own). It takes no
    /// memory.
    pub fn is_full(&self) -> bool
        ensures { result ≡ is_full self.now }
    {
        is_full_list(self.snaps.len(), self.rest.snap_seq)
    }

    /// Takes a snapshot: the newest, unprotected, with the head's size and parent. `Exists` where
    /// the name is listed; else `Full` where 256 are listed or the last id is `u32::MAX` (own).
    pub fn snap_add(&mut self, name: &Name) -> Result<SnapId, SnapAddFault>
        requires { self.old.generation + 1 < 2 ^ 64 }
        ensures id { IfOk result (λ id. id ≡ self.old.snap_seq + 1) }
        ensures ok { OnOk result (self.new ≡ with_snap name.now self.old) }
        ensures err { OnErr result (self.new ≡ self.old) }
        ensures exists { IsErrOf result SnapAddFault.Exists ↔ IsSome (snap_named self.old.snaps name.now) }
        ensures full { IsErrOf result SnapAddFault.Full
            ↔ ((snap_named self.old.snaps name.now ≡ None) × IsTrue (is_full self.old)) }
        ensures free { OnOk result (snap_named self.old.snaps name.now ≡ None) }
        ensures room { OnOk result (is_full self.old ≡ false) }
        ensures no_memory { IsErrOf result SnapAddFault.NoMemory → (snap_named self.old.snaps name.now ≡ None)
            × (is_full self.old ≡ false) }
    {
        if self.named(name).is_some() {
            return Err(SnapAddFault::Exists);
        }
        if self.is_full() {
            return Err(SnapAddFault::Full);
        }
        match self.push_snap(name) {
            Ok(id) => Ok(id),
            Err(_) => Err(SnapAddFault::NoMemory),
        }
    }

    fn push_snap(&mut self, name: &Name) -> Result<SnapId, NoMemory>
        requires room { is_full self.old ≡ false }
        requires generation { self.old.generation + 1 < 2 ^ 64 }
        ensures id { IfOk result (λ id. id ≡ self.old.snap_seq + 1) }
        ensures ok { OnOk result (self.new ≡ with_snap name.now self.old) }
        ensures err { OnErr result (self.new ≡ self.old) }
    {
        let id = self.rest.snap_seq + 1;
        self.snaps.push(SnapView {
            id: SnapId(id),
            name: name.try_clone()?,
            size: self.rest.size,
            status: SnapStatus::Unprotected,
            parent: self.rest.parent,
        })?;
        self.told = None;
        self.rest.snap_seq = id;
        self.rest.generation += 1;
        Ok(SnapId(id))
    }

    /// Gives a snapshot a status; `false` where none has the id.
    pub fn snap_status(&mut self, snap: SnapId, status: SnapStatus) -> bool
        requires { self.old.generation + 1 < 2 ^ 64 }
        ensures found { result ≡ is_some (snap_in self.old.snaps snap) }
        ensures done { OnTrue result (self.new ≡ with_status snap status self.old) }
        ensures missing { OnFalse result (self.new ≡ self.old) }
    {
        if self.snapshot(snap).is_none() {
            return false;
        }
        mark(&mut self.snaps, snap, status);
        self.told = None;
        self.rest.generation += 1;
        true
    }

    /// Removes a snapshot; `false` where none has the id. The id isn't drawn again.
    pub fn snap_remove(&mut self, snap: SnapId) -> bool
        requires { self.old.generation + 1 < 2 ^ 64 }
        ensures found { result ≡ is_some (snap_in self.old.snaps snap) }
        ensures done { OnTrue result (self.new ≡ without_snap snap self.old) }
        ensures missing { OnFalse result (self.new ≡ self.old) }
    {
        if self.snapshot(snap).is_none() {
            return false;
        }
        unlist(&mut self.snaps, snap);
        self.told = None;
        self.rest.generation += 1;
        true
    }

    /// The head has no parent from now on (Ceph: flatten). Its snapshots keep theirs.
    pub fn detach(&mut self)
        requires { self.old.generation + 1 < 2 ^ 64 }
        ensures { self.new ≡ detached self.old }
    {
        self.rest.parent = None;
        self.rest.generation += 1;
    }

    /// Gives the image a role.
    pub fn set_role(&mut self, role: Role)
        requires { self.old.generation + 1 < 2 ^ 64 }
        ensures { self.new ≡ with_role role self.old }
    {
        self.rest.role = role;
        self.rest.generation += 1;
    }

    /// Begins mirroring, as the primary.
    pub fn set_global(&mut self, global: GlobalName)
        requires { self.old.generation + 1 < 2 ^ 64 }
        ensures { self.new ≡ with_global global self.old }
    {
        self.rest.global = Some(global);
        self.rest.role = Role::Primary;
        self.rest.generation += 1;
    }

    /// The full copy of the remote image is there.
    pub fn synced(&mut self)
        requires { self.old.generation + 1 < 2 ^ 64 }
        ensures { self.new ≡ in_step self.old }
    {
        self.rest.syncing = false;
        self.rest.generation += 1;
    }

    /// Makes an instance the owner of the exclusive lock; `Held` where another instance is. It may
    /// be the owner already.
    pub fn lock(&mut self, instance: Instance) -> Result<(), Held>
        ensures ok { OnOk result (self.new ≡ record self.old { owner = Some instance }) }
        ensures err { OnErr result (self.new ≡ self.old) }
        ensures free { OnOk result ((other : instances.Instance) → self.old.owner ≡ Some other → other ≡ instance) }
        ensures held { IfErr result (λ held. (self.old.owner ≡ Some held.0) × (held.0 ≢ instance)) }
    {
        if let Some(owner) = self.rest.owner {
            if owner != instance {
                return Err(Held(owner));
            }
        }
        self.rest.owner = Some(instance);
        Ok(())
    }

    /// Gives up the lock; `false` where the instance isn't the owner.
    pub fn unlock(&mut self, instance: Instance) -> bool
        ensures owner { IsTrue result ↔ (self.old.owner ≡ Some instance) }
        ensures done { OnTrue result (self.new ≡ record self.old { owner = None }) }
        ensures other { OnFalse result (self.new ≡ self.old) }
    {
        if self.rest.owner != Some(instance) {
            return false;
        }
        self.rest.owner = None;
        true
    }

    /// Takes the lock away from an owner that was fenced; `false` where it isn't the owner.
    pub fn break_lock(&mut self, owner: Instance) -> bool
        ensures owner { IsTrue result ↔ (self.old.owner ≡ Some owner) }
        ensures done { OnTrue result (self.new ≡ record self.old { owner = None }) }
        ensures other { OnFalse result (self.new ≡ self.old) }
    {
        self.unlock(owner)
    }
}

fn cut(parent: Option<ParentLink>, size: u64) -> Option<ParentLink>
    ensures { result ≡ cut size parent }
{
    match parent {
        None => None,
        Some(link) => Some(ParentLink {
            overlap: link.overlap.min(size),
            ..link
        }),
    }
}

/// Whether no more snapshots can be: 256 are listed, or no id is left.
pub fn is_full(view: &HeaderView) -> bool
    ensures { result ≡ is_full view.now }
{
    is_full_list(view.snaps.len(), view.snap_seq)
}

/// Whether so many snapshots, the last with this id, leave no room for another.
fn is_full_list(count: usize, last: u32) -> bool
    ensures { result ≡ (nat_le 256 count || (last == 4294967295)) }
{
    if count >= MOST_SNAPS {
        return true;
    }
    last == u32::MAX
}
