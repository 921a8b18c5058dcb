//! Who and what: sites, sessions and their lives, images and their snapshots.
ghost use Rattle.std.specs.Prelude.{ℕ};

use rbd_values::{NoMemory, Sequence, TryClone};
use std::marker::Model;

/// One of the two sites (clusters). Each has its own directory, blocklist and operation log.
#[derive(Clone, Copy, Debug, PartialEq, Eq, PartialOrd, Ord)]
pub enum SiteId {
    A,
    B,
}

/// A session (client) of a script, numbered in the order of declaration from 0.
#[derive(Clone, Copy, Debug, PartialEq, Eq, PartialOrd, Ord, Hash)]
pub struct SessionNo(pub u8);

impl Model for SessionNo {
    ghost Value = { ℕ };

    ghost view = { λ s. s.0 };

    ghost inverse = { λ n. record { 0 = n } };
}

/// A place of a session in which one request runs: 1 to 64, and 0 for the release of a lock.
#[derive(Clone, Copy, Debug, PartialEq, Eq, PartialOrd, Ord)]
pub struct Slot(pub u8);

impl Model for Slot {
    ghost Value = { ℕ };

    ghost view = { λ s. s.0 };

    ghost inverse = { λ n. record { 0 = n } };
}

/// One life of a session: its address, by which it owns locks, watches and is blocklisted. A
/// session begins with life 0, and each restart is a new life.
#[derive(Clone, Copy, Debug, PartialEq, Eq, PartialOrd, Ord, Hash)]
pub struct Instance {
    pub session: SessionNo,
    pub life: u32,
}

/// Instances, in an order that their user tells.
pub type Instances = Sequence<Instance>;

/// An image's id, drawn by its site's directory from 1 upwards and never drawn again.
#[derive(Clone, Copy, Debug, PartialEq, Eq, PartialOrd, Ord)]
pub struct ImageId(pub u32);

impl Model for ImageId {
    ghost Value = { ℕ };

    ghost view = { λ i. i.0 };

    ghost inverse = { λ n. record { 0 = n } };
}

/// Ids of images, in an order that their user tells.
pub type Ids = Sequence<ImageId>;

/// A snapshot's id, drawn by its image's header from 1 upwards and never drawn again.
#[derive(Clone, Copy, Debug, PartialEq, Eq, PartialOrd, Ord)]
pub struct SnapId(pub u32);

impl Model for SnapId {
    ghost Value = { ℕ };

    ghost view = { λ s. s.0 };

    ghost inverse = { λ n. record { 0 = n } };
}

impl TryClone for Instance {
    fn try_clone(&self) -> Result<Self, NoMemory> {
        Ok(*self)
    }
}

impl TryClone for ImageId {
    fn try_clone(&self) -> Result<Self, NoMemory> {
        Ok(*self)
    }
}

impl TryClone for SnapId {
    fn try_clone(&self) -> Result<Self, NoMemory> {
        Ok(*self)
    }
}
