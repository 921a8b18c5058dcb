//! An image at a site, and the number by which it is found in a table.
ghost use Rattle.std.specs.Prelude.{◌≡◌};
ghost use Rattle.rbd_kinds.specs.Images.{key_of};

use crate::id::{ImageId, SiteId};

/// An image at a site: an id means another image at the other one. They are ordered by site, then
/// by id.
#[derive(Clone, Copy, PartialEq, Eq, PartialOrd, Ord)]
pub struct ImageAt {
    pub site: SiteId,
    pub image: ImageId,
}

impl ImageAt {
    /// A number that no other image of either site has.
    pub fn key(self) -> u64
        ensures { result ≡ key_of self.site self.image }
    {
        let twice = u64::from(self.image.0) * 2;
        match self.site {
            SiteId::A => twice,
            SiteId::B => twice + 1,
        }
    }
}
