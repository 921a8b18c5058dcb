//! Which object map of a site.
use rbd_kinds::{ImageId, SnapId};

/// An object map of an image (Ceph: `rbd_object_map.<id>`, and with `.<snap>` behind it).
#[derive(Clone, Copy, PartialEq, Eq, PartialOrd, Ord)]
pub struct MapKey {
    pub image: ImageId,
    /// The snapshot whose map it is, or `None` for the head's.
    pub snap: Option<SnapId>,
}
