//! A flat image and its flat snapshots.
ghost use Rattle.std.specs.Prelude.{◌≡◌, ◌==◌, ◌++◌, ◌∷◌, [], not, map, replicate, OnOk, OnErr, IfOk, option_copied};
ghost use Rattle.std.specs.List.{filter};
ghost use Rattle.rbd_kinds.specs.declared.header.Role.TheVariants.{Plain};
ghost use Rattle.rbd_kinds.specs.declared.header.SnapStatus.TheVariants.{Unprotected};
ghost use Rattle.rbd_flat.specs.Flat.{FlatSnap, FlatImage, painted, places_of, resized, snap_in, with_status};
ghost use Rattle.rbd_flat.specs.Read.{image_view};

use crate::extents::Extents;
use crate::paint::paint;
use rbd_kinds::{Bytes, Name, NoMemory, Role, SnapId, SnapStatus, TryClone};
use std::alloc::Global;
use std::marker::Model;

/// A full copy of an image's bytes.
#[derive(Debug, Drop)]
pub struct Snapshot {
    id: SnapId,
    name: Name,
    bytes: Bytes,
    status: SnapStatus,
}

impl Model for Snapshot {
    ghost use Rattle.rbd_flat.specs.Flat.{FlatSnap};

    ghost Value = { FlatSnap };

    ghost view = { λ s. record { id = s.id; name = s.name; bytes = s.bytes; status = s.status } };
}

impl Snapshot {
    /// The id by which the snapshot was taken.
    pub fn id(&self) -> SnapId
        ensures { result ≡ self.now.id }
    {
        self.id
    }

    /// The bytes that it keeps: as many as the image had then.
    pub fn bytes(&self) -> &[u8]
        ensures { result.now ≡ self.now.bytes }
    {
        self.bytes.as_slice()
    }

    /// Gives it the status, if its id is `snap`.
    fn mark(&mut self, snap: SnapId, status: SnapStatus)
        ensures { self.new ≡ with_status snap status self.old }
    {
        if self.id == snap {
            self.status = status;
        }
    }
}

/// An image as the list of its bytes, with its snapshots, oldest first.
#[derive(Debug, Drop)]
pub struct Image {
    bytes: Vec<u8>,
    snaps: Vec<Snapshot>,
    role: Role,
}

impl Model for Image {
    ghost use Rattle.rbd_flat.specs.Flat.{FlatImage};

    ghost Value = { FlatImage };

    ghost view = { λ i. record { bytes = i.bytes.items; snaps = i.snaps.items; role = i.role } };
}

impl Image {
    /// An image of `size` zeros.
    pub fn zeros(alloc: Global, size: u64, role: Role) -> Result<Self, NoMemory>
        ensures { IfOk result (λ i. i ≡ record { bytes = replicate size 0; snaps = []; role = role }) }
    {
        Ok(Image {
            bytes: vec![in alloc; 0u8; size as usize]?,
            snaps: Vec::new(alloc),
            role,
        })
    }

    /// A copy of the snapshot's bytes.
    pub fn clone_of(alloc: Global, snapshot: &Snapshot) -> Result<Self, NoMemory>
        ensures { IfOk result (λ i. i ≡ record { bytes = snapshot.now.bytes; snaps = []; role = Plain }) }
    {
        Ok(Image {
            bytes: Vec::from_slice(alloc, snapshot.bytes())?,
            snaps: Vec::new(alloc),
            role: Role::Plain,
        })
    }

    /// The snapshot with the id.
    pub fn snapshot(&self, snap: SnapId) -> Option<&Snapshot>
        ensures { option_copied result ≡ snap_in self.now.snaps snap }
    {
        find_snapshot(self.snaps.as_slice(), snap)
    }

    /// The bytes of the image, or those of a snapshot of it.
    pub fn view(&self, snap: Option<SnapId>) -> Option<&[u8]>
        ensures { option_copied result ≡ image_view self.now snap }
    {
        match snap {
            None => Some(self.bytes.as_slice()),
            Some(snap) => match self.snapshot(snap) {
                None => None,
                Some(found) => Some(found.bytes()),
            },
        }
    }

    /// Puts the bytes into the extents, one after another; what lies past the size is left out.
    pub fn paint(&mut self, at: &Extents, bytes: &[u8])
        ensures { self.new ≡ record self.old { bytes = painted (places_of at.now) bytes.now self.old.bytes } }
    {
        paint(self.bytes.as_mut_slice(), at, bytes);
    }

    /// Cuts the bytes, or lengthens them by zeros.
    pub fn resize(&mut self, size: u64) -> Result<(), NoMemory>
        ensures ok { OnOk result (self.new ≡ record self.old { bytes = resized size self.old.bytes }) }
        ensures err { OnErr result (self.new ≡ self.old) }
    {
        self.bytes.resize(size as usize, 0)?;
        Ok(())
    }

    /// Adds a copy of the bytes as the newest snapshot.
    pub fn take_snapshot(&mut self, snap: SnapId, name: &Name) -> Result<(), NoMemory>
        ensures ok { OnOk result (self.new
            ≡ record self.old {
              snaps = self.old.snaps ++ record {
                id = snap;
                name = name.now;
                bytes = self.old.bytes;
                status = Unprotected;
              } ∷ [];
            }) }
        ensures err { OnErr result (self.new ≡ self.old) }
    {
        let snapshot = Snapshot {
            id: snap,
            name: name.try_clone()?,
            bytes: Bytes::from_vec(self.bytes.clone()?),
            status: SnapStatus::Unprotected,
        };
        self.snaps.push(snapshot)?;
        Ok(())
    }

    /// Takes a snapshot away, where there is one of the id.
    pub fn drop_snapshot(&mut self, snap: SnapId)
        ensures { self.new ≡ record self.old { snaps = filter (λ s. not (s.id == snap)) self.old.snaps } }
    {
        self.snaps.retain(|s| s.id() != snap);
    }

    /// Gives a snapshot a status, where there is one of the id.
    pub fn mark_snapshot(&mut self, snap: SnapId, status: SnapStatus)
        ensures { self.new ≡ record self.old { snaps = map (with_status snap status) self.old.snaps } }
    {
        mark_snapshots(self.snaps.as_mut_slice(), snap, status);
    }

    /// Gives the image a role.
    pub fn set_role(&mut self, role: Role)
        ensures { self.new ≡ record self.old { role = role } }
    {
        self.role = role;
    }
}

fn find_snapshot(snaps: &[Snapshot], snap: SnapId) -> Option<&Snapshot>
    ensures { option_copied result ≡ snap_in snaps.now snap }
{
    for found in snaps {
        if found.id() == snap {
            return Some(found);
        }
    }
    None
}

fn mark_snapshots(snaps: &mut [Snapshot], snap: SnapId, status: SnapStatus)
    ensures { snaps.new ≡ map (with_status snap status) snaps.old }
{
    for snapshot in snaps.iter_mut() {
        snapshot.mark(snap, status);
    }
}
