//! What a world tells of a client: whether it runs, its life, its lowest free slot, and whose line
//! is in one.
//!
//! As a word: `runs,0,2,3,new`. It is whether it runs, the number of its life, or 9 where it
//! doesn't, its lowest free slot and the line in its slot 1, or 0 for none, and whether the line 12
//! was begun.
use super::rows::row_holds;
use rbd_kinds::{NoMemory, SessionNo, Slot};
use rbd_world::World;
use std::alloc::Global;

/// The number of the life of a client that runs, and 9 where it doesn't.
fn life(world: &World, session: SessionNo) -> u32 {
    match world.running(session) {
        Some(who) if who.session == session => who.life,
        _ => 9,
    }
}

/// The number of a client's lowest free slot, and 0 where it has none.
fn free(world: &World, session: SessionNo) -> u8 {
    match world.free(session) {
        Some(slot) => slot.0,
        None => 0,
    }
}

/// Whether this is told of a client.
pub fn is_client(
    alloc: Global,
    world: &World,
    session: SessionNo,
    facts: &str,
) -> Result<bool, NoMemory> {
    let runs = if world.runs(session) {
        "runs"
    } else {
        "stopped"
    };
    let line = world.line(session, Slot(1)).unwrap_or(0);
    let begun = if world.has_begun(12) { "begun" } else { "new" };
    let (life, free) = (life(world, session), free(world, session));
    let told = format!(in alloc; "{runs},{life},{free},{line},{begun}")?;
    Ok(told.as_bytes() == facts.as_bytes())
}

const ROW: &str = "goes 3 client:1=runs,0,2,3,new
1.1>end client:1=runs,0,1,0,new
12 client:1=runs,0,2,12,begun
6 10 client:2=runs,0,3,6,begun
2.1>end client:2=runs,0,1,0,begun
stop:1 client:1=stopped,9,0,0,begun
11 client:2=runs,0,3,11,begun
restart:1 client:1=runs,1,1,0,begun
24 client:5=stopped,9,0,0,begun
";

#[test]
fn a_world_tells_who_runs_and_what_is_in_a_slot(rt: HostRuntime) {
    row_holds(&rt, rt.alloc(), ROW);
}
