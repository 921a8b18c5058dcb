//! Which data object of a site.
use rbd_kinds::ImageId;

/// A data object of an image: which of them, from 0 (Ceph: `rbd_data.<id>.<number>`).
#[derive(Clone, Copy, PartialEq, Eq, PartialOrd, Ord)]
pub struct ObjectKey {
    pub image: ImageId,
    pub number: u64,
}
