//! The images that were asked for, in order.
ghost use Rattle.std.specs.Prelude.{◌≡◌, ℕ, [], true, if◌then◌else◌, IsTrue, OnOk, OnErr, None, Some};
ghost use Rattle.rbd_kinds.specs.declared.id.SiteId.{SiteId};
ghost use Rattle.rbd_kinds.specs.Images.{is_at};
ghost use Rattle.rbd_lock.specs.Locks.{AreImagesInOrder};
ghost use Rattle.rbd_lock.specs.Places.{is_among, next_behind};

use rbd_kinds::{ImageAt, NoMemory};
use std::alloc::Global;
use std::collections::BTreeSet;
use std::ops::Bound;

/// Nobody has asked for any image.
pub fn none(alloc: Global) -> BTreeSet<ImageAt>
    ensures keys { result.keys ≡ [] }
    ensures order { AreImagesInOrder result.keys }
{
    BTreeSet::new(alloc)
}

/// Whether an image was asked for.
pub fn is_asked(asked: &BTreeSet<ImageAt>, at: &ImageAt) -> bool
    ensures { result ≡ is_among at.now.site at.now.image asked.now.keys }
{
    asked.contains(at)
}

/// An image is asked for. NoMemory where memory is refused; then nothing changes.
pub fn ask(asked: &mut BTreeSet<ImageAt>, at: &ImageAt) -> Result<(), NoMemory>
    ensures ok { OnOk result ((site : SiteId) (image : ℕ)
        → is_among site image asked.new.keys ≡ if is_at at.now.site at.now.image site image then true
        else is_among site image asked.old.keys) }
    ensures err { OnErr result (asked.new.keys ≡ asked.old.keys) }
    ensures order { AreImagesInOrder asked.new.keys }
{
    asked.insert(*at)?;
    Ok(())
}

/// An image that was asked for stays so, or isn't asked for from now on. It takes no memory.
pub fn keep(asked: &mut BTreeSet<ImageAt>, at: &ImageAt, stays: bool)
    requires { IsTrue stays → IsTrue (is_among at.now.site at.now.image asked.old.keys) }
    ensures among { (site : SiteId) (image : ℕ)
        → is_among site image asked.new.keys ≡ if is_at at.now.site at.now.image site image then stays
        else is_among site image asked.old.keys }
    ensures order { AreImagesInOrder asked.old.keys → AreImagesInOrder asked.new.keys }
{
    if !stays {
        asked.remove(at);
    }
}

/// The first in order.
pub fn first(asked: &BTreeSet<ImageAt>) -> Option<ImageAt>
    ensures { result ≡ next_behind None asked.now.keys }
{
    asked.first().copied()
}

/// The first behind one.
pub fn first_behind(asked: &BTreeSet<ImageAt>, before: &ImageAt) -> Option<ImageAt>
    ensures { result ≡ next_behind (Some before.now) asked.now.keys }
{
    let mut behind = asked.range((Bound::Excluded(*before), Bound::Unbounded));
    behind.next().copied()
}
