//! Who watches the headers of images.
ghost use Rattle.std.specs.Prelude.{◌≡◌, ℕ, [], None, IfOk, OnOk, OnErr};
ghost use Rattle.std.specs.BTreeMap.{get};
ghost use Rattle.std.specs.Ordering.{nat_cmp};
ghost use Rattle.rbd_watch.specs.Watching.{oldest_of, registered, without};
ghost use Rattle.rbd_site.specs.Maps.{watchers_in};
ghost use Rattle.rbd_site.specs.Records.{put};

use rbd_kinds::{ImageId, Instance, Instances, NoMemory, SessionNo};
use rbd_watch::Watchers;
use std::alloc::Global;
use std::collections::BTreeMap;

/// Who watches an image, in order of registration.
pub fn list(
    alloc: Global,
    watchers: &BTreeMap<ImageId, Watchers>,
    image: ImageId,
) -> Result<Instances, NoMemory>
    ensures { IfOk result (λ list. list ≡ watchers_in watchers.now image) }
{
    match watchers.get(&image) {
        Some(there) => there.list(),
        None => Ok(Instances::new(alloc)),
    }
}

/// Whom a notice of an instance goes to: who watches the image, but the instance.
pub fn receivers(
    alloc: Global,
    watchers: &BTreeMap<ImageId, Watchers>,
    image: ImageId,
    sender: Instance,
) -> Result<Instances, NoMemory>
    ensures { IfOk result (λ list. list ≡ without sender (watchers_in watchers.now image)) }
{
    match watchers.get(&image) {
        Some(there) => there.receivers(sender),
        None => Ok(Instances::new(alloc)),
    }
}

/// The oldest instance of a session that watches an image, if one does. It takes no memory.
pub fn oldest(
    watchers: &BTreeMap<ImageId, Watchers>,
    image: ImageId,
    session: SessionNo,
) -> Option<Instance>
    ensures { result ≡ oldest_of session (watchers_in watchers.now image) }
{
    let there = watchers.get(&image)?;
    there.oldest(session)
}

/// An instance watches an image from now on, behind the others. Refused memory, nothing changes.
pub fn watch(
    alloc: Global,
    watchers: &mut BTreeMap<ImageId, Watchers>,
    image: ImageId,
    instance: Instance,
) -> Result<(), NoMemory>
    ensures ok { OnOk result ((i : ℕ) → watchers_in watchers.new i ≡ put (watchers_in watchers.old) image
        (registered instance (watchers_in watchers.old image)) i) }
    ensures err { OnErr result ((i : ℕ) → watchers_in watchers.new i ≡ watchers_in watchers.old i) }
{
    let Some(there) = watchers.get_mut(&image) else {
        return begin(alloc, watchers, image, instance);
    };
    there.watch(instance)
}

/// The first watch of an image, which nobody watches.
fn begin(
    alloc: Global,
    watchers: &mut BTreeMap<ImageId, Watchers>,
    image: ImageId,
    instance: Instance,
) -> Result<(), NoMemory>
    requires { watchers_in watchers.old image ≡ [] }
    ensures ok { OnOk result ((i : ℕ) → watchers_in watchers.new i ≡ put (watchers_in watchers.old) image
        (registered instance []) i) }
    ensures err { OnErr result ((i : ℕ) → watchers_in watchers.new i ≡ watchers_in watchers.old i) }
{
    let mut first = Watchers::new(alloc);
    first.watch(instance)?;
    watchers.insert(image, first)?;
    Ok(())
}

/// An instance doesn't watch an image any longer, where it did. It takes no memory.
pub fn unwatch(watchers: &mut BTreeMap<ImageId, Watchers>, image: ImageId, instance: Instance)
    ensures { (i : ℕ) → watchers_in watchers.new i ≡ put (watchers_in watchers.old) image
        (without instance (watchers_in watchers.old image)) i }
{
    let Some(there) = watchers.get_mut(&image) else {
        return;
    };
    there.unwatch(instance);
}

/// Nobody watches an image any longer, and nothing is kept of it. It takes no memory.
pub fn forget(watchers: &mut BTreeMap<ImageId, Watchers>, image: ImageId)
    ensures gone { get nat_cmp watchers.new image ≡ None }
    ensures watchers { (i : ℕ) → watchers_in watchers.new i ≡ put (watchers_in watchers.old) image [] i }
{
    watchers.remove(&image);
}
