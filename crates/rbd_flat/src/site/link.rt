use rbd_kinds::{ImageId, SnapId};
use std::marker::Model;

/// A parent's snapshot, and a child that was cloned of it.
#[derive(Clone, Copy, Debug, PartialEq, Eq, PartialOrd, Ord)]
pub struct Link {
    pub parent: ImageId,
    pub snap: SnapId,
    pub child: ImageId,
}

impl Model for Link {
    ghost use Rattle.rbd_flat.specs.Flat as flat;

    ghost Value = { flat.Link };

    ghost view = { λ l. record { parent = l.parent; snap = l.snap; child = l.child } };

    ghost inverse = { λ l. record { parent = l.parent; snap = l.snap; child = l.child } };
}
