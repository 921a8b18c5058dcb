//! A world, its events one after another, and what is asked of it.
//!
//! Whether an event may come is looked at before it does: nothing proves that the rows of a test
//! keep to that.
use rbd_catalog::is_built;
use rbd_kinds::{NoMemory, SessionNo, SiteId, Slot};
use rbd_world::{Call, Event, Outcome, World};
use std::alloc::Global;
use std::process::Abort;

/// A world, and the events that came to it, each with what came of it.
pub struct Driven {
    pub world: World,
    pub calls: Vec<Call>,
}

impl Driven {
    pub fn close(self) {
        let Driven { world, calls } = self;
        world.close();
        drop(calls);
    }
}

/// A world of the clients c1, c2 and c4 at site A, and c3 at site B, to which nothing came yet.
pub fn new_world(rt: &impl Abort, alloc: Global) -> Driven {
    match World::new(alloc, &[SiteId::A, SiteId::A, SiteId::B, SiteId::A]) {
        Ok(world) => Driven {
            world,
            calls: Vec::new(alloc),
        },
        Err(_) => panic!(rt; "there is no memory"),
    }
}

/// Whether an event's command is served.
fn is_built_event(event: &Event) -> bool {
    match event {
        Event::Submit {
            session: _,
            line: _,
            command,
        } => is_built(command),
        Event::Poll { .. } => true,
        Event::Deliver { .. } => true,
        Event::Expire { .. } => true,
        Event::Stop { .. } => true,
        Event::Late { .. } => true,
        Event::Restart { .. } => true,
        Event::Trim { .. } => true,
    }
}

fn step(
    rt: &impl Abort,
    alloc: Global,
    world: &mut World,
    event: &Event,
) -> Result<Outcome, NoMemory> {
    assert!(rt; is_built_event(event));
    world.step(alloc, event)
}

/// An event comes, and is kept with what came of it. Each event is counted.
pub fn comes(
    rt: &impl Abort,
    alloc: Global,
    driven: &mut Driven,
    event: Event,
) -> Result<Outcome, NoMemory> {
    match step(rt, alloc, &mut driven.world, &event) {
        Ok(outcome) => {
            driven.calls.push(Call { event, outcome })?;
            assert!(rt; driven.world.events() == driven.calls.len() as u64);
            Ok(outcome)
        }
        Err(fault) => {
            drop(event);
            Err(fault)
        }
    }
}

/// The word of the kind of operation that is wanted at a slot, or `none`.
pub fn wanted(world: &World, session: SessionNo, slot: Slot) -> &'static str {
    match world.kind(session, slot) {
        Some((_, kind)) => kind.word(),
        None => "none",
    }
}
