//! The examples of front pages, as they stand there: `scripts/quick` looks for each line of them.
use rbd_flat::Entry;
use rbd_generate::{generated, summary};
use rbd_kinds::{
    AskedName, Bytes, Command, ImageId, Number, Payload, SessionNo, Shape, Shared, SiteId, Slot,
};
use rbd_schedule::play;
use rbd_words::Load;
use rbd_world::{Event, World};
use std::alloc::Global;
use std::process::Abort;
use std::test::Fail;

#[test]
fn generate(rt: HostRuntime) -> Result<(), Fail> {
    let alloc = rt.alloc();
    let load = Load {
        seed: 7,
        clients: 4,
        commands: 1000,
    };
    let script = generated(alloc, &load)?;
    let history: &[Entry] = &[];
    let text = summary(alloc, &script, history)?;
    assert!(rt;
        text.as_slice()
            .starts_with(b"commands 4004 ok 0 refused 0 unfinished 4004 ")
    );
    Ok(())
}

#[test]
fn schedule(rt: HostRuntime) -> Result<(), Fail> {
    let alloc = rt.alloc();
    let script = generated(
        alloc,
        &Load {
            seed: 0,
            clients: 1,
            commands: 4,
        },
    )?;
    let world = play(alloc, &script)?;
    let history = world.history();
    assert!(rt; history.len() > 10);
    let events = world.events();
    assert!(rt; events > 10);
    world.close();
    Ok(())
}

fn disk(rt: &impl Abort, alloc: Global) -> Result<AskedName, Fail> {
    Ok(AskedName::parse(Bytes::from_slice(alloc, b"disk")?).expect(rt, "a name"))
}

fn submit(alloc: Global, session: u8, line: u32, command: Command) -> Result<Event, Fail> {
    Ok(Event::Submit {
        session: SessionNo(session),
        line,
        command: Shared::new(alloc, command)?,
    })
}

fn create_event(rt: &impl Abort, alloc: Global) -> Result<Event, Fail> {
    let create = Command::Create {
        image: disk(rt, alloc)?,
        size: Number::new(8192).expect(rt, "a number"),
        shape: Shape {
            object: Number::new(4096),
            unit: None,
            count: None,
            journal: false,
        },
    };
    submit(alloc, 0, 3, create)
}

fn write_event(rt: &impl Abort, alloc: Global, session: u8, line: u32) -> Result<Event, Fail> {
    let bytes = Bytes::from_slice(alloc, b"hello")?;
    let write = Command::Write {
        image: disk(rt, alloc)?,
        at: Number::new(0).expect(rt, "a number"),
        bytes: Payload::new(bytes).expect(rt, "bytes"),
    };
    submit(alloc, session, line, write)
}

/// A write whose session stops with it, and another session's write.
fn stopped(rt: &impl Abort, alloc: Global, world: &mut World) -> Result<(), Fail> {
    let (create, write) = (create_event(rt, alloc)?, write_event(rt, alloc, 0, 5)?);
    let other_write = write_event(rt, alloc, 1, 6)?;
    let expire = Event::Expire {
        session: SessionNo(0),
        site: SiteId::A,
        image: ImageId(1),
    };
    let late = Event::Late {
        session: SessionNo(0),
        slot: Slot(1),
    };
    let c1 = SessionNo(0);
    world.step(alloc, &create)?;
    world.poll(alloc, c1, Slot(1))?;
    world.poll(alloc, c1, Slot(1))?;
    world.poll(alloc, c1, Slot(1))?;
    world.step(alloc, &write)?;
    world.poll(alloc, c1, Slot(1))?;
    world.step(alloc, &Event::Stop { session: c1 })?;
    world.step(alloc, &expire)?;
    world.step(alloc, &other_write)?;
    world.step(alloc, &late)?;
    world.step(alloc, &Event::Restart { session: c1 })?;
    Ok(())
}

/// (A world is let go by a call, so its steps stand in a function of their own.)
#[test]
fn world(rt: HostRuntime) -> Result<(), Fail> {
    let alloc = rt.alloc();
    let mut world = World::new(alloc, &[SiteId::A, SiteId::A])?;
    let came = stopped(&rt, alloc, &mut world);
    let history = world.history();
    assert!(rt; history.len() > 5);
    world.close();
    came
}
