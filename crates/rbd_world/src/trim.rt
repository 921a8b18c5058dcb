//! The store's own steps.
ghost use Rattle.std.specs.Prelude.{◌≡◌, IfOk, OnOk, OnErr};
ghost use Rattle.rbd_world.specs.Run.{outcome_of};
ghost use Rattle.rbd_world.specs.Step.{AreSameSites, DoesAt, DoesAtSites, expired_at, expired_of, trimmed_at, trimmed_of};

use crate::event::Outcome;
use crate::sites::Sites;
use rbd_kinds::{ImageId, NoMemory, SessionNo, SiteId};
use rbd_site::Site;

/// The store trims an object: nothing where there is no such object. NoMemory where memory is
/// refused; then nothing changes.
pub fn trim(
    sites: &mut Sites,
    site: SiteId,
    image: ImageId,
    object: u64,
) -> Result<Outcome, NoMemory>
    ensures outcome { IfOk result (λ o. o ≡ outcome_of (trimmed_at sites.old site image object)) }
    ensures sites { OnOk result (DoesAtSites (trimmed_at sites.old site image object) sites.old sites.new) }
    ensures err { OnErr result (AreSameSites sites.old sites.new) }
{
    match site {
        SiteId::A => trim_at(&mut sites.a, site, image, object),
        SiteId::B => trim_at(&mut sites.b, site, image, object),
    }
}

/// The same at one site.
fn trim_at(at: &mut Site, site: SiteId, image: ImageId, object: u64) -> Result<Outcome, NoMemory>
    ensures outcome { IfOk result (λ o. o ≡ outcome_of (trimmed_of at.old site image object)) }
    ensures done { OnOk result (DoesAt site (trimmed_of at.old site image object) at.old at.new) }
    ensures err { OnErr result (at.new ≡ at.old) }
{
    if at.trim(image, object)? {
        return Ok(Outcome::Stored);
    }
    Ok(Outcome::Nothing)
}

/// The store ends the watch of an image by a session, which is that of its oldest instance that
/// watches: nothing where none does. NoMemory where memory is refused; then nothing changes.
pub fn expire(
    sites: &mut Sites,
    session: SessionNo,
    site: SiteId,
    image: ImageId,
) -> Result<Outcome, NoMemory>
    ensures outcome { IfOk result (λ o. o ≡ outcome_of (expired_at sites.old session site image)) }
    ensures sites { OnOk result (DoesAtSites (expired_at sites.old session site image) sites.old sites.new) }
    ensures err { OnErr result (AreSameSites sites.old sites.new) }
{
    match site {
        SiteId::A => expire_at(&mut sites.a, session, site, image),
        SiteId::B => expire_at(&mut sites.b, session, site, image),
    }
}

/// The same at one site.
fn expire_at(
    at: &mut Site,
    session: SessionNo,
    site: SiteId,
    image: ImageId,
) -> Result<Outcome, NoMemory>
    ensures outcome { IfOk result (λ o. o ≡ outcome_of (expired_of at.old session site image)) }
    ensures done { OnOk result (DoesAt site (expired_of at.old session site image) at.old at.new) }
    ensures err { OnErr result (at.new ≡ at.old) }
{
    if at.expire(image, session)? {
        return Ok(Outcome::Stored);
    }
    Ok(Outcome::Nothing)
}
