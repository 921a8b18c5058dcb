//! The lives of a session.
use rbd_client::Client;
use rbd_kinds::{Instance, Op, SiteId};
use rbd_machine::Request;
use std::marker::Model;

/// Operations in flight when the instance stopped: what each of its slots wanted then, where it
/// hasn't come yet (own: an operation of each slot may be under way at a stop).
#[derive(Drop)]
pub struct Late {
    pub instance: Instance,
    /// Slot n's at n.
    pub wanted: Vec<Option<(SiteId, Op)>>,
}

impl Model for Late {
    ghost use Rattle.rbd_world.specs.World.{LateView};

    ghost Value = { LateView };

    ghost view = { λ l. record { instance = l.instance; wanted = l.wanted.items } };
}

/// The lives of a session, one after another, each an instance of its own.
#[derive(Drop)]
pub struct Lives<R: Request> {
    /// The site at which the session is at home.
    pub home: SiteId,
    /// Its latest life.
    pub latest: Instance,
    /// The latest life's client, as long as it runs.
    pub running: Option<Client<R>>,
    /// What the life that was stopped last may still send.
    pub late: Option<Late>,
}

impl<R: Request> Model for Lives<R> {
    ghost use Rattle.rbd_world.specs.World.{LivesView};

    ghost Value = { LivesView R };

    ghost view = { λ l. record { home = l.home; latest = l.latest; running = l.running; late = l.late } };
}
