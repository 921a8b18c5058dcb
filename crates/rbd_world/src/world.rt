//! The world, and its events.
ghost use Rattle.std.specs.Prelude.{◌≡◌, ◌^◌, ◌<◌, ◌≤◌, length, option_copied, option_map, is_some, IfOk, OnErr};
ghost use Rattle.rbd_client.specs.Client.{ClientView};
ghost use Rattle.rbd_client.specs.Seen.{as_is};
ghost use Rattle.rbd_machine.specs.Plan.{Standing};
ghost use Rattle.rbd_watch.specs.Posting.{notice_numbered};
ghost use Rattle.rbd_world.specs.Seen.{seen};
ghost use Rattle.rbd_world.specs.Sound.{AreAtHome, AreFirst, IsFirst, IsNewWorld, IsSoundWorld, line_at};
ghost use Rattle.rbd_world.specs.Step.{IsBuiltEvent, IsWorldStep, IsUndone, is_begun};
ghost use Rattle.rbd_world.specs.World.{client_in, free_in, heard_in, kind_in, site_in};
ghost use Rattle.rbd_world.specs.declared.event.Event.TheVariants as of_event;

use crate::begun::BegunLines;
use crate::calls::Calls;
use crate::deliver::deliver_notice;
use crate::event::{Event, Outcome};
use crate::lives::Lives;
use crate::noting::{Book, keep_delivery, keep_poll, reserve, reserve_call};
use crate::poll::poll_session;
use crate::sites::Sites;
use crate::step::step_parts;
use rbd_catalog::SessionRequest;
use rbd_client::Client;
use rbd_flat::Entry;
use rbd_kinds::{Instance, NoMemory, Notice, OpKind, SessionNo, SiteId, Slot};
use rbd_machine::{Machine, Request};
use rbd_site::Done;
use std::alloc::Global;
use std::marker::Model;
use std::mem::forget;

/// Both sites with their mail, and all sessions with their lives.
///
/// ```text
///              submit, poll, deliver                  expire, trim
///                      │                                   │
///  ┌───────────────────▼────────────────────┐   ┌──────────▼──────────┐
///  │ session: home, latest life             │   │ site A      site B  │
///  │   running ── client ───────────────────┼───▶ records     records │
///  │      │ stop            one operation   │   │ log         log     │
///  │      ▼                                 │   ├─────────────────────┤
///  │   late ── what its slots wanted ───────┼───▶ mail of both        │
///  │                          late          │   └─────────────────────┘
///  │   restart: the next life               │
///  └────────────────────────────────────────┘
///      history: what was done, in order        calls: the events, and what came of each
/// ```
///
/// It isn't `Drop`: [`World::close`] lets it go.
pub struct World {
    sites: Sites,
    lives: Vec<Lives<SessionRequest>>,
    /// The lines that have a start in the history.
    begun: BegunLines,
    book: Book,
}

impl Model for World {
    ghost use Rattle.rbd_client.specs.Seen.{as_is};
    ghost use Rattle.rbd_catalog.specs.declared.request.SessionRequest.{SessionRequest as Of};
    ghost use Rattle.rbd_catalog.specs.Session.{stands_of};
    ghost use Rattle.rbd_world.specs.World.{WorldView};

    ghost Value = { WorldView Of };

    ghost use Rattle.rbd_world.specs.Seen.{seen_by};
    ghost use Rattle.rbd_world.specs.Sound.{IsKeptWorld};

    ghost view = { λ w. record {
      sites = w.sites;
      lives = w.lives.items;
      history = w.book.history.items;
      calls = w.book.calls;
    } };

    ghost invariant = { λ w. IsKeptWorld as_is w.begun
        (seen_by stands_of (record {
          sites = w.sites;
          lives = w.lives.items;
          history = w.book.history.items;
          calls = w.book.calls;
        })) };
}

impl World {
    /// A world of sessions that are at home at these sites, at most 32, each in its first life. The
    /// sites are empty, and nothing happened. NoMemory where memory for it is refused.
    pub fn new(alloc: Global, homes: &[SiteId]) -> Result<Self, NoMemory>
        requires { length homes.now ≤ 32 }
        ensures new { IfOk result (λ w. IsNewWorld (seen w)) }
        ensures clients { IfOk result (λ w. AreAtHome homes.now (seen w).lives) }
        ensures sound { IfOk result (λ w. IsSoundWorld as_is (seen w)) }
    {
        let lives = first_lives(alloc, homes)?;
        match Sites::new(alloc) {
            Ok(sites) => Ok(World {
                sites,
                lives,
                begun: BegunLines::new(alloc),
                book: Book {
                    history: Vec::new(alloc),
                    calls: Calls::new(),
                },
            }),
            Err(fault) => {
                drop(lives);
                Err(fault)
            }
        }
    }

    /// Lets the world go. Nothing else does: a crate in which a world is dropped would prove the
    /// letting go of all its parts once more.
    pub fn close(self) {
        let World {
            sites,
            lives,
            begun,
            book,
        } = self;
        drop(sites);
        drop(lives);
        drop(begun);
        drop(book);
    }

    /// Leaves the world where it is: none of its memory is given back. It is for a program that ends
    /// right behind it, and leaves its memory to the system: [`World::close`] goes through each line
    /// of the logs and each entry of the history.
    pub fn leave(self) {
        let World {
            sites,
            lives,
            begun,
            book,
        } = self;
        forget(sites);
        forget(lives);
        forget(begun);
        forget(book);
    }

    /// One event. What it does, and what comes of it, is a function of the world (`happening`). A
    /// command that isn't built is ruled out. NoMemory where memory is refused, and for the event
    /// behind 2^59 - 1 others; then nothing happened.
    pub fn step(&mut self, alloc: Global, event: &Event) -> Result<Outcome, NoMemory>
        requires built { IsBuiltEvent event.now }
        ensures step { IfOk result (λ outcome. IsWorldStep as_is event.now (seen self.old) outcome (seen self.new)) }
        ensures err { OnErr result (IsUndone as_is (seen self.old) (seen self.new)) }
        ensures sound { IsSoundWorld as_is (seen self.new) }
    {
        let outcome = step_parts(
            alloc,
            &mut self.sites,
            &mut self.lives,
            &mut self.begun,
            &mut self.book,
            event,
        )?;
        Ok(outcome)
    }

    /// The event of a poll: as [`World::step`], for whoever has no event at hand.
    pub fn poll(
        &mut self,
        alloc: Global,
        session: SessionNo,
        slot: Slot,
    ) -> Result<Outcome, NoMemory>
        ensures step { IfOk result (λ outcome. IsWorldStep as_is (of_event.Poll session slot) (seen self.old) outcome
            (seen self.new)) }
        ensures err { OnErr result (IsUndone as_is (seen self.old) (seen self.new)) }
        ensures sound { IsSoundWorld as_is (seen self.new) }
    {
        reserve(&mut self.book)?;
        let outcome = poll_session(
            alloc,
            &mut self.sites,
            &mut self.lives,
            &mut self.book,
            session,
            slot,
        )?;
        keep_poll(&mut self.book, session, slot, &outcome);
        Ok(outcome)
    }

    /// The event of a delivery: as [`World::step`], for whoever has no event at hand.
    pub fn deliver(&mut self, number: u64) -> Result<Outcome, NoMemory>
        ensures step { IfOk result (λ outcome. IsWorldStep as_is (of_event.Deliver number) (seen self.old) outcome
            (seen self.new)) }
        ensures err { OnErr result (IsUndone as_is (seen self.old) (seen self.new)) }
        ensures sound { IsSoundWorld as_is (seen self.new) }
    {
        reserve_call(&mut self.book)?;
        let outcome = deliver_notice(&self.sites.mail, &mut self.lives, number)?;
        keep_delivery(&mut self.book, number, &outcome);
        Ok(outcome)
    }

    /// What happened so far, in order.
    #[tactic(auto, unfolding(crate::specs::Seen::seen))]
    pub fn history(&self) -> &[Entry]
        ensures { result.now ≡ (seen self.now).history }
    {
        self.book.history.as_slice()
    }

    /// How many events came so far: a world takes fewer than 2^59. It takes no memory.
    #[tactic(auto, unfolding(crate::specs::Seen::seen))]
    pub fn events(&self) -> u64
        ensures count { result ≡ length (seen self.now).calls }
        ensures few { length (seen self.now).calls < 2 ^ 59 }
    {
        self.book.calls.count()
    }

    /// The operations of a site, in order, numbered from 1.
    #[tactic(auto, unfolding(crate::specs::Seen::seen))]
    pub fn operations(&self, site: SiteId) -> &[Done]
        ensures { result.now ≡ (site_in site (seen self.now).sites).log }
    {
        match site {
            SiteId::A => self.sites.a.log(),
            SiteId::B => self.sites.b.log(),
        }
    }

    /// How many notices were posted at both sites, which is also the number of the last. It takes
    /// no memory.
    #[tactic(auto, unfolding(crate::specs::Seen::seen))]
    pub fn notices(&self) -> u64
        ensures count { result ≡ length (seen self.now).sites.mail }
    {
        self.sites.mail.count()
    }

    /// The notice that has a number: `None` exactly where none has. It takes no memory.
    #[tactic(auto, unfolding(crate::specs::Seen::seen))]
    pub fn notice(&self, number: u64) -> Option<&Notice>
        ensures { option_copied result ≡ notice_numbered number (seen self.now).sites.mail }
    {
        self.sites.mail.get(number)
    }

    /// Whether a session has begun the command of a line. It takes no memory.
    #[tactic(auto, unfolding(crate::specs::Seen::seen))]
    pub fn has_begun(&self, line: u32) -> bool
        ensures begun { result ≡ is_begun line (seen self.now).history }
    {
        self.begun.has(line)
    }

    /// Whether a session is there and runs. It takes no memory.
    pub fn runs(&self, session: SessionNo) -> bool
        ensures { result ≡ is_some (client_in session (seen self.now).lives) }
    {
        client_of(self.lives.as_slice(), session).is_some()
    }

    /// The life of a session that runs: `None` exactly where the session isn't there or doesn't
    /// run. It takes no memory.
    pub fn running(&self, session: SessionNo) -> Option<Instance>
        ensures running { result ≡ option_map (λ (c : ClientView Standing). c.session.instance)
            (client_in session (seen self.now).lives) }
    {
        Some(client_of(self.lives.as_slice(), session)?.instance())
    }

    /// The lowest free slot of a session: `None` exactly where it isn't there or doesn't run, or 64
    /// are held. It takes no memory.
    pub fn free(&self, session: SessionNo) -> Option<Slot>
        ensures free { result ≡ free_in (client_in session (seen self.now).lives) }
    {
        client_of(self.lives.as_slice(), session)?.free()
    }

    /// The line whose command is in a slot of a session: `None` exactly where the session isn't
    /// there or doesn't run, or the slot is free. It takes no memory.
    pub fn line(&self, session: SessionNo, slot: Slot) -> Option<u32>
        ensures line { result ≡ line_at session slot (seen self.now).lives }
        ensures sound { IsSoundWorld as_is (seen self.now) }
    {
        client_of(self.lives.as_slice(), session)?.line(slot)
    }

    /// The site and the kind of the next operation of a session's slot: `None` exactly where the
    /// session isn't there or doesn't run, its slot is free or waits, or its request is refused
    /// before any operation; and at slot 0 where no lock is to be let go. It takes no memory.
    pub fn kind(&self, session: SessionNo, slot: Slot) -> Option<(SiteId, OpKind)>
        ensures { result ≡ kind_in as_is slot (client_in session (seen self.now).lives) }
    {
        client_of(self.lives.as_slice(), session)?.kind(slot)
    }

    /// What other clients told the life of a session that runs, in the order in which it was heard:
    /// nothing where none runs. It takes no memory.
    pub fn heard(&self, session: SessionNo) -> &[Notice]
        ensures { result.now ≡ heard_in (client_in session (seen self.now).lives) }
    {
        match client_of(self.lives.as_slice(), session) {
            Some(client) => client.heard(),
            None => &[],
        }
    }
}

/// The client of a session that is there and runs.
fn client_of<R: Request>(lives: &[Lives<R>], session: SessionNo) -> Option<&Client<R>>
    ensures { option_copied result ≡ client_in session lives.now }
{
    lives.get(session.0 as usize)?.running.as_ref()
}

/// The first life of each session, at its home.
fn first_lives<R: Request>(alloc: Global, homes: &[SiteId]) -> Result<Vec<Lives<R>>, NoMemory>
    requires { length homes.now ≤ 32 }
    ensures first { IfOk result (λ lives. AreFirst lives.items) }
    ensures homes { IfOk result (λ lives. AreAtHome homes.now lives.items) }
{
    let mut lives = Vec::new(alloc);
    for number in 0..homes.len() {
        match first_life(alloc, SessionNo(number as u8), homes[number]) {
            Ok(life) => lives.push(life)?,
            Err(fault) => return Err(fault),
        }
    }
    Ok(lives)
}

/// The first life of one session.
fn first_life<R: Request>(
    alloc: Global,
    session: SessionNo,
    home: SiteId,
) -> Result<Lives<R>, NoMemory>
    ensures first { IfOk result (IsFirst session) }
    ensures home { IfOk result (λ l. l.home ≡ home) }
{
    let client = Client::new(alloc, Instance { session, life: 0 }, home)?;
    Ok(Lives {
        home,
        latest: client.instance(),
        running: Some(client),
        late: None,
    })
}
