//! One event, on the parts of a world.
ghost use Rattle.std.specs.Prelude.{◌≡◌, ◌+◌, ◌≤◌, ℕ, Some, IfOk, OnErr};
ghost use Rattle.std.specs.Vec.{vec_capacity, vec_len};
ghost use Rattle.rbd_client.specs.Client.{ClientView};
ghost use Rattle.rbd_catalog.specs.declared.request.SessionRequest.{SessionRequest as Of};
ghost use Rattle.rbd_catalog.specs.Session.{stands_of};
ghost use Rattle.rbd_world.specs.Begun.{has_line};
ghost use Rattle.rbd_world.specs.Noted.{IsNotedStep};
ghost use Rattle.rbd_world.specs.Step.{DropsWhatItMay, IsBuiltEvent, IsSoundIf, LeavesParts, MayCome, StepsParts, WantsWhatItMay, happens};
ghost use Rattle.rbd_world.specs.World.{client_in, late_at};

use crate::begun::BegunLines;
use crate::deliver::deliver_notice;
use crate::event::{Event, Outcome};
use crate::late::come;
use crate::lives::Lives;
use crate::noting::{Book, keep_call, reserve};
use crate::poll::poll_session;
use crate::sites::Sites;
use crate::stop::{restart, stop};
use crate::submit::{SessionLine, submit};
use crate::trim::{expire, trim};
use rbd_catalog::SessionRequest;
use rbd_kinds::NoMemory;
use rbd_machine::Machine;
use std::alloc::Global;

/// Does what an event does, notes it, and keeps its call. NoMemory where memory is refused; then
/// nothing happened.
pub fn step_parts(
    alloc: Global,
    sites: &mut Sites,
    lives: &mut Vec<Lives<SessionRequest>>,
    begun: &mut BegunLines,
    book: &mut Book,
    event: &Event,
) -> Result<Outcome, NoMemory>
    requires built { IsBuiltEvent event.now }
    requires sound { (session : ℕ) → IsSoundIf stands_of (client_in session lives.old.items) }
    requires wants { (session slot : ℕ) (c : ClientView Of) → client_in session lives.old.items ≡ Some c
        → WantsWhatItMay stands_of sites.old slot c }
    requires rest { (session slot : ℕ) (c : ClientView Of) → client_in session lives.old.items ≡ Some c
        → DropsWhatItMay stands_of slot c }
    requires late { (session slot : ℕ) → MayCome sites.old (late_at session slot lives.old.items) }
    ensures steps { let h = happens stands_of event.now (λ line. has_line line begun.old) sites.old lives.old.items in
        IfOk result (StepsParts stands_of event.now h sites.old sites.new lives.old.items lives.new.items begun.old
        begun.new book.old.history.items book.new.history.items book.old.calls book.new.calls) }
    ensures err { OnErr result (LeavesParts stands_of sites.old sites.new lives.old.items lives.new.items begun.old
        begun.new) }
    ensures history { OnErr result (book.new.history.items ≡ book.old.history.items) }
    ensures calls { OnErr result (book.new.calls ≡ book.old.calls) }
{
    reserve(book)?;
    let outcome = happen(alloc, sites, lives, begun, book, event)?;
    keep_call(book, event, &outcome);
    Ok(outcome)
}

/// Does what an event does, and notes it, where there is room.
fn happen(
    alloc: Global,
    sites: &mut Sites,
    lives: &mut Vec<Lives<SessionRequest>>,
    begun: &mut BegunLines,
    book: &mut Book,
    event: &Event,
) -> Result<Outcome, NoMemory>
    requires room { vec_len book.old.history + 2 ≤ vec_capacity book.old.history }
    requires built { IsBuiltEvent event.now }
    requires sound { (session : ℕ) → IsSoundIf stands_of (client_in session lives.old.items) }
    requires wants { (session slot : ℕ) (c : ClientView Of) → client_in session lives.old.items ≡ Some c
        → WantsWhatItMay stands_of sites.old slot c }
    requires rest { (session slot : ℕ) (c : ClientView Of) → client_in session lives.old.items ≡ Some c
        → DropsWhatItMay stands_of slot c }
    requires late { (session slot : ℕ) → MayCome sites.old (late_at session slot lives.old.items) }
    ensures did { let h = happens stands_of event.now (λ line. has_line line begun.old) sites.old lives.old.items in
        IfOk result (IsNotedStep stands_of event.now h sites.old sites.new lives.old.items lives.new.items begun.old
        begun.new book.old.history.items book.new.history.items) }
    ensures err { OnErr result (LeavesParts stands_of sites.old sites.new lives.old.items lives.new.items begun.old
        begun.new) }
    ensures unnoted { OnErr result (book.new.history.items ≡ book.old.history.items) }
    ensures calls { book.new.calls ≡ book.old.calls }
{
    match event {
        Event::Submit {
            session,
            line,
            command,
        } => {
            let at = SessionLine {
                session: *session,
                line: *line,
            };
            submit(alloc, lives, begun, &mut book.history, &at, command)
        }
        Event::Poll { session, slot } => poll_session(alloc, sites, lives, book, *session, *slot),
        Event::Deliver { number } => deliver_notice(&sites.mail, lives, *number),
        Event::Expire {
            session,
            site,
            image,
        } => expire(sites, *session, *site, *image),
        Event::Stop { session } => stop(alloc, lives, &mut book.history, *session),
        Event::Late { session, slot } => {
            come(alloc, sites, lives, &mut book.history, *session, *slot)
        }
        Event::Restart { session } => restart(alloc, lives, *session),
        Event::Trim {
            site,
            image,
            object,
        } => trim(sites, *site, *image, *object),
    }
}
