//! How a way to a lock goes on, and what a slot keeps of it.
ghost use Rattle.std.specs.Prelude.{◌≡◌, ◌≢◌, ℕ, IsFalse, IsTrue};
ghost use Rattle.rbd_client.specs.Client.{blank_slot};
ghost use Rattle.rbd_client.specs.Feeding.{IsGivenUp, release_once_fed, state_behind, state_on_way, WayComesTo};
ghost use Rattle.rbd_machine.specs.Answers.{CanBeFed};
ghost use Rattle.rbd_lock.specs.Acquire.{standing_of};
ghost use Rattle.rbd_slots.specs.Lines.{lines_of};
ghost use Rattle.rbd_slots.specs.OnTrack.{LeavesOthers};
ghost use Rattle.rbd_slots.specs.Session.{held_in, IsSoundSession};

use crate::slot_state::{SlotState, Way};
use rbd_commands::Quiescing;
use rbd_kinds::{Fed, ImageAt, Reply, Slot};
use rbd_lock::{Acquire, Release};
use rbd_machine::{Progress, Request};
use rbd_slots::Session;

/// How a way goes on with an answer, and the reply of its request where that is refused. It takes
/// no memory.
pub fn go_on(way: Acquire, fed: &Fed) -> (Way, Option<Reply>)
    requires { CanBeFed (standing_of way).plan fed.now }
    ensures { WayComesTo way fed.now result.1 result.0 }
{
    let Fed::Answer(answer) = fed else {
        unreachable!()
    };
    let taken = ImageAt {
        site: way.site(),
        image: way.image(),
    };
    let mut way = way;
    match way.feed(answer) {
        Progress::More => (Way::On(way), None),
        Progress::Ended(()) => (Way::Taken(taken), None),
        Progress::Refused(refusal) => (Way::Unbegun, Some(Reply::Refused(refusal))),
    }
}

/// Gives a request up that has ended on its way.
pub fn end_on_way<R: Request>(session: &mut Session<R>, slot: Slot, has_ended: bool)
    requires { IsSoundSession R.stands session.old }
    ensures stays { IsFalse has_ended → session.new ≡ session.old }
    ensures left { IsTrue has_ended → IsGivenUp slot session.old session.new }
    ensures others { (other : ℕ) → other ≢ slot → held_in other session.new.slots ≡ held_in other session.old.slots }
    ensures lines { LeavesOthers slot (lines_of session.old.lines) (lines_of session.new.lines) }
    ensures who { (session.new.instance ≡ session.old.instance) × (session.new.home ≡ session.old.home) }
    ensures sound { IsSoundSession R.stands session.new }
{
    if !has_ended {
        return;
    }
    session.give_up(slot);
}

impl SlotState {
    /// What is kept of a free slot, and of each request at first that leaves quiesces as they are.
    pub fn blank() -> Self
        ensures { result ≡ blank_slot }
    {
        SlotState {
            way: Way::Unbegun,
            quiescing: Quiescing::Leaves,
        }
    }

    /// Behind an answer to the request: one that has ended leaves nothing, and one whose look under
    /// the lock was answered needs no way any more.
    pub fn behind(self, has_ended: bool, has_looked: bool) -> Self
        ensures { result ≡ state_behind has_ended has_looked self }
    {
        if has_ended {
            return SlotState::blank();
        }
        if has_looked {
            return self.on_way(Way::Unbegun, false);
        }
        self
    }

    /// Behind an answer on its request's way.
    pub fn on_way(self, way: Way, has_ended: bool) -> Self
        ensures { result ≡ state_on_way has_ended way self }
    {
        if has_ended {
            return SlotState::blank();
        }
        SlotState {
            way,
            quiescing: self.quiescing,
        }
    }
}

/// What is left of a release behind an answer. It takes no memory.
pub fn let_go(release: Release, fed: &Fed) -> Option<Release>
    ensures { result ≡ release_once_fed release fed.now }
{
    match fed {
        Fed::Answer(answer) => release.answered(answer),
        Fed::Passed => None,
    }
}
