//! Who acts where a slot is polled.
ghost use Rattle.std.specs.Prelude.{◌≡◌, Some};
ghost use Rattle.rbd_kinds.specs.OperationKind.{kind_of};
ghost use Rattle.rbd_lock.specs.Acquire.{op_of};
ghost use Rattle.rbd_lock.specs.Release.{release_op};
ghost use Rattle.rbd_client.specs.Actor.{actor_at_look, actor_by, actor_on, is_acquiring, release_actor};
ghost use Rattle.rbd_slots.specs.Session.{look_under_lock_at};

use crate::slot_state::Way;
use rbd_kinds::{ImageAt, Op, OpKind, SiteId, Slot, Want};
use rbd_lock::{Acquire, LockState, Locks, Release};
use rbd_machine::{Machine, Request};
use rbd_slots::Session;

/// Who acts where a slot is polled.
#[derive(Clone, Copy)]
pub enum Actor {
    /// The slot is free, or what it holds waits.
    Nobody,
    /// The request in the slot, where its session lets it go on.
    Request,
    /// The request's way to the lock of its image.
    Way(Acquire),
    /// The release of a lock, at slot 0.
    Release(Release),
}

impl Actor {
    /// Whether the operation that is wanted is a step on its request's way to the lock.
    pub fn is_acquiring(&self) -> bool
        ensures { result ≡ is_acquiring self.now }
    {
        match self {
            Actor::Way(_) => true,
            _ => false,
        }
    }
}

/// Who acts for a request at its look under the lock, by what is counted of the image's lock.
fn at_look(state: &LockState, at: &ImageAt) -> Actor
    ensures { result ≡ actor_by state.now at.now.site at.now.image }
{
    if state.quiesced || state.asked {
        return Actor::Nobody;
    }
    if state.owned {
        return Actor::Request;
    }
    Actor::Way(Acquire::new(at.site, at.image, state.watched))
}

/// Who acts for a request that has begun no way: at its look under the lock the lock decides.
fn before_way(look: Option<ImageAt>, locks: &Locks) -> Actor
    ensures { result ≡ actor_at_look look locks.now }
{
    let Some(at) = look else {
        return Actor::Request;
    };
    at_look(&locks.state(&at), &at)
}

/// Who acts for the request in a slot. (On a way, as each request that asks again for a lock is,
/// nothing is looked up in a line.)
pub fn for_request<R: Request>(way: Way, session: &Session<R>, slot: Slot, locks: &Locks) -> Actor
    ensures { result ≡ actor_on way (look_under_lock_at R.stands slot session.now) locks.now }
{
    match way {
        Way::Unbegun => before_way(session.look_under_lock(slot), locks),
        Way::On(acquire) => Actor::Way(acquire),
        Way::Taken(_) => Actor::Request,
    }
}

/// Who acts at slot 0: a release that has begun, or one that is due.
pub fn for_release(begun: Option<Release>, due: Option<ImageAt>) -> Actor
    ensures { result ≡ release_actor begun due }
{
    match (begun, due) {
        (Some(release), _) => Actor::Release(release),
        (None, Some(at)) => Actor::Release(Release::new(at.site, at.image)),
        (None, None) => Actor::Nobody,
    }
}

/// The site and the kind of the operation that a way wants.
pub fn way_kind(way: &Acquire) -> (SiteId, OpKind)
    ensures { result ≡ (way.now.site, kind_of (op_of way.now)) }
{
    match way.wants() {
        Want::Op { site, kind } => (site, kind),
        _ => unreachable!(),
    }
}

/// The operation that a way wants, and its site.
pub fn way_op(way: &Acquire) -> Option<(SiteId, Op)>
    ensures { result ≡ Some (way.now.site, op_of way.now) }
{
    Some((way.site(), way.next()))
}

/// The site and the kind of the operation that a release wants.
pub fn release_kind(release: &Release) -> (SiteId, OpKind)
    ensures { result ≡ (release.now.site, kind_of (release_op release.now)) }
{
    match release.wants() {
        Want::Op { site, kind } => (site, kind),
        _ => unreachable!(),
    }
}

/// The operation that a release wants, and its site.
pub fn release_op(release: &Release) -> Option<(SiteId, Op)>
    ensures { result ≡ Some (release.now.site, release_op release.now) }
{
    Some((release.site(), release.next()))
}
