use rbd_kinds::{ImageId, SnapId};
use std::marker::Model;

/// A child that was cloned of a parent's snapshot.
#[derive(Clone, Copy, PartialEq, Eq, PartialOrd, Ord)]
pub struct ChildEntry {
    pub parent: ImageId,
    pub snap: SnapId,
    pub child: ImageId,
}

impl Model for ChildEntry {
    ghost use Rattle.rbd_registry.specs.Children as children;

    ghost Value = { children.ChildEntry };

    ghost view = { λ e. record { parent = e.parent; snap = e.snap; child = e.child } };

    ghost inverse = { λ e. record { parent = e.parent; snap = e.snap; child = e.child } };
}
