//! What follows for every client: each law is the contract of a function that does nothing.
ghost use Rattle.std.specs.Prelude.{◌≡◌, ℕ, true, false, Option, Some, None, IsTrue, IsFalse};
ghost use Rattle.rbd_client.specs.declared.actor.Actor.TheVariants as actor;
ghost use Rattle.rbd_client.specs.declared.slot_state.Way.TheVariants as way;
ghost use Rattle.rbd_client.specs.Actor.{actor_at, is_at_rest, kind_wanted, op_wanted};
ghost use Rattle.rbd_client.specs.Client.{ClientView, slot_state};
ghost use Rattle.rbd_client.specs.Feeding.{DropsAtRest, IsFedBy};
ghost use Rattle.rbd_client.specs.Laws.{DropsALock, IsHeldBack, removes_header};
ghost use Rattle.rbd_client.specs.Sound.{IsOwned, IsSoundClient};
ghost use Rattle.rbd_kinds.specs.declared.id.SiteId.{SiteId as Site};
ghost use Rattle.rbd_kinds.specs.declared.machine.Fed.{Fed};
ghost use Rattle.rbd_kinds.specs.declared.operation.Op.{Op};
ghost use Rattle.rbd_kinds.specs.declared.reply.Reply.{Reply};
ghost use Rattle.rbd_lock.specs.Locks.{lock_state_at};
ghost use Rattle.rbd_lock.specs.Places.{is_among};
ghost use Rattle.rbd_lock.specs.declared.release.Release.{Release};
ghost use Rattle.rbd_kinds.specs.declared.image_at.ImageAt.{ImageAt};
ghost use Rattle.rbd_slots.specs.Session.{look_under_lock_at};

use rbd_machine::Request;

/// A request goes on to its look under the lock only where the client counts the lock as its own.
pub fn looks_under_lock_need_the_lock<R: Request>()
    ensures { (c : ClientView R) (slot : ℕ) (p : ImageAt)
        → IsSoundClient R.stands c → look_under_lock_at R.stands slot c.session ≡ Some p
        → actor_at R.stands slot c ≡ actor.Request
        → IsOwned p.site p.image c.locks }
{}

/// A lock that the client counts as its own stays so, whatever the client is answered, while a
/// request of the image is past its look under the lock or has taken the lock itself. Only a
/// request that removes the header ends that: the lock goes with the header. So nothing is changed
/// without the lock.
pub fn locks_last_while_requests_rely<R: Request>()
    ensures { (c d : ClientView R) (slot : ℕ) (site there : Site) (image : ℕ) (op : Op) (f : Fed)
        (result : Option Reply)
        → IsSoundClient R.stands c → op_wanted R.stands slot c ≡ Some (site, op)
        → DropsAtRest (actor_at R.stands slot c) site op c
        → IsFedBy R.stands slot site op f result c d (actor_at R.stands slot c)
        → is_at_rest there image c ≡ false → IsFalse (removes_header site op f there image)
        → IsOwned there image c.locks → IsOwned there image d.locks }
{}

/// Where an image is quiesced, or another client asked for its lock, a request that stands at its
/// look under the lock and has begun no way to the lock waits.
pub fn quiesced_and_asked_hold_back<R: Request>()
    ensures { (c : ClientView R) (slot : ℕ) (p : ImageAt)
        → IsSoundClient R.stands c → look_under_lock_at R.stands slot c.session ≡ Some p
        → (slot_state slot c.slots).way ≡ way.Unbegun
        → IsHeldBack p.site p.image c.locks → kind_wanted R.stands slot c ≡ None }
{}

/// A release begins only where its lock was asked for and counts as the client's, the image isn't
/// quiesced, and no request of the image is past its look under the lock or has taken the lock
/// itself.
pub fn releases_wait_for_requests<R: Request>()
    ensures { (c : ClientView R) (r : Release)
        → IsSoundClient R.stands c → actor_at R.stands 0 c ≡ actor.Release r → DropsALock r
        → IsTrue (is_among r.site r.image c.locks.asked) × IsFalse (lock_state_at r.site r.image c.locks).quiesced
        × (is_at_rest r.site r.image c ≡ true) }
{}
