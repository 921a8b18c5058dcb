//! Tests of what a run prints. Texts were worked out by hand, from the rules in words.
mod entries;
mod operations;
mod replies;
mod whole;

use rbd_kinds::{
    Bytes, HeaderView, Instance, Layout, Name, NoMemory, Role, SessionNo, SiteId, Snaps,
};
use rbd_script::Declared;
use std::alloc::Global;
use std::process::Abort;

/// The first life of the first session.
const FIRST: Instance = Instance {
    session: SessionNo(0),
    life: 0,
};

/// The second life of the second session.
const AGAIN: Instance = Instance {
    session: SessionNo(1),
    life: 1,
};

fn name(rt: &impl Abort, alloc: Global, text: &[u8]) -> Result<Name, NoMemory> {
    Ok(Name::parse(Bytes::from_slice(alloc, text)?).expect(rt, "a name"))
}

fn declared(rt: &impl Abort, alloc: Global, line: u32, text: &[u8]) -> Result<Declared, NoMemory> {
    Ok(Declared {
        line,
        name: name(rt, alloc, text)?,
        home: SiteId::A,
    })
}

fn declare(rt: &impl Abort, alloc: Global, sessions: &mut Vec<Declared>) -> Result<(), NoMemory> {
    sessions.push(declared(rt, alloc, 1, b"c1")?)?;
    sessions.push(declared(rt, alloc, 2, b"c2")?)?;
    Ok(())
}

/// The sessions `c1` and `c2`, declared on the first two lines.
fn sessions(rt: &impl Abort, alloc: Global) -> Result<Vec<Declared>, NoMemory> {
    let mut sessions = Vec::new(alloc);
    declare(rt, alloc, &mut sessions)?;
    Ok(sessions)
}

/// What a new image's header tells.
fn header(snaps: Snaps) -> HeaderView {
    HeaderView {
        layout: Layout {
            object: 4096,
            unit: 2048,
            count: 1,
        },
        size: 0,
        generation: 0,
        snap_seq: 0,
        snaps,
        parent: None,
        depth: 0,
        born: 0,
        born_clone: false,
        journal: false,
        syncing: false,
        owner: None,
        global: None,
        role: Role::Plain,
    }
}
