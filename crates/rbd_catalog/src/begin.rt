//! How the request of a command is made.
ghost use Rattle.std.specs.Prelude.{◌≡◌, true, false, IfOk};
ghost use Rattle.rbd_machine.specs.Begun.{IsBegun};
ghost use Rattle.rbd_image.specs.Create.{is_create};
ghost use Rattle.rbd_image.specs.Listing.{is_listing};
ghost use Rattle.rbd_session.specs.Close.{is_close};
ghost use Rattle.rbd_meaning.specs.Meant.{IsMeantBy};
ghost use Rattle.rbd_catalog.specs.CommandsLawful.{command_is_lawful};
ghost use Rattle.rbd_catalog.specs.CommandsMeant.{command_is_meant};
ghost use Rattle.rbd_catalog.specs.CommandsOrderly.{command_is_orderly};
ghost use Rattle.rbd_catalog.specs.Plans.{is_built as is_one_built, IsPlanFor};
ghost use Rattle.rbd_catalog.specs.Profile.{changed_extent, joins_a_line, profile};
ghost use Rattle.rbd_catalog.specs.Session.{stands_of};

use crate::request::SessionRequest;
use rbd_data::{ReadRequest, discard_request, write_request};
use rbd_image::{CreateRequest, ListRequest, RemoveRequest, ResizeRequest};
use rbd_kinds::{Command, Extent, NoMemory};
use rbd_machine::{Begun, Boxed, Request, Seat};
use rbd_session::CloseRequest;
use rbd_snap::{RollbackRequest, SnapRequest};
use std::alloc::Global;

impl Request for SessionRequest {
    type Work = Command;

    ghost serves = { λ command. is_one_built command ≡ true };

    ghost stands_for = { IsPlanFor };

    ghost extent_for = { changed_extent };

    ghost means = { IsMeantBy };

    /// The request of a command. Only a `create` outside the limits is refused before any
    /// operation, with BadShape. NoMemory where the memory for the request is refused.
    fn begin(alloc: Global, seat: &Seat, command: Command) -> Result<Begun<Self>, NoMemory> {
        let home = seat.home;
        match &command {
            Command::Write { .. } | Command::Fill { .. } => {
                let request = Boxed::new(alloc, write_request(alloc, home, command)?)?;
                Ok(Begun::Asks(SessionRequest::Write(request)))
            }
            Command::Discard { .. } => {
                let request = Boxed::new(alloc, discard_request(alloc, home, command))?;
                Ok(Begun::Asks(SessionRequest::Discard(request)))
            }
            Command::SnapCreate { .. } | Command::SnapRemove { .. } => {
                let request = Boxed::new(alloc, SnapRequest::new(home, command))?;
                Ok(Begun::Asks(SessionRequest::Snap(request)))
            }
            Command::Resize { .. } => {
                let request = Boxed::new(alloc, ResizeRequest::new(home, command))?;
                Ok(Begun::Asks(SessionRequest::Resize(request)))
            }
            Command::SnapRollback { .. } => {
                let request = Boxed::new(alloc, RollbackRequest::new(home, command))?;
                Ok(Begun::Asks(SessionRequest::Rollback(request)))
            }
            Command::Remove { .. } => {
                let request = Boxed::new(alloc, RemoveRequest::new(seat.session, home, command))?;
                Ok(Begun::Asks(SessionRequest::Remove(request)))
            }
            Command::Close { .. } | Command::Quiesce { .. } => begin_close(alloc, seat, command),
            _ => begin_look(alloc, seat, command),
        }
    }

    /// The extent of a write, a fill or a discard. Other commands have none.
    fn extent(command: &Command) -> Option<Extent> {
        match command {
            Command::Write { at, bytes, .. } => Some(Extent {
                at: at.get(),
                len: bytes.as_bytes().len() as u64,
            }),
            Command::Fill { at, len, .. } => Some(Extent {
                at: at.get(),
                len: len.get(),
            }),
            Command::Discard { at, len, .. } => Some(Extent {
                at: at.get(),
                len: len.get(),
            }),
            _ => None,
        }
    }

    ghost orderly = { λ seat command s _ stands _. command_is_orderly seat command s stands };

    ghost lawful = { λ seat command s _ stands. command_is_lawful seat command s stands };

    ghost meant = { λ seat command s feds steps reply _ stands given standalone walk. command_is_meant seat command s
        feds steps reply stands given standalone walk };
}

/// The request of a command that joins no line.
fn begin_look(
    alloc: Global,
    seat: &Seat,
    command: Command,
) -> Result<Begun<SessionRequest>, NoMemory>
    requires built { is_one_built command ≡ true }
    requires looks { joins_a_line (profile command) ≡ false }
    ensures { IfOk result (IsBegun (IsPlanFor seat.now command) stands_of) }
{
    match &command {
        Command::Read { .. } => {
            let request = Boxed::new(alloc, ReadRequest::new(seat.home, command))?;
            Ok(Begun::Asks(SessionRequest::Read(request)))
        }
        Command::Create { .. } => begin_create(alloc, seat, command),
        Command::List | Command::Rename { .. } => begin_listing(alloc, seat, command),
        Command::Info { .. } | Command::SnapList { .. } | Command::Used { .. } => {
            begin_listing(alloc, seat, command)
        }
        _ => begin_close(alloc, seat, command),
    }
}

/// The request of an `ls`, `info`, `snap ls`, `du` or `rename`.
fn begin_listing(
    alloc: Global,
    seat: &Seat,
    command: Command,
) -> Result<Begun<SessionRequest>, NoMemory>
    requires { is_listing command ≡ true }
    ensures { IfOk result (IsBegun (IsPlanFor seat.now command) stands_of) }
{
    let request = Boxed::new(alloc, ListRequest::new(seat.home, command))?;
    Ok(Begun::Asks(SessionRequest::List(request)))
}

/// The request of a `close`, a `quiesce` or a straight command.
fn begin_close(
    alloc: Global,
    seat: &Seat,
    command: Command,
) -> Result<Begun<SessionRequest>, NoMemory>
    requires { is_close command ≡ true }
    ensures { IfOk result (IsBegun (IsPlanFor seat.now command) stands_of) }
{
    let request = Boxed::new(alloc, CloseRequest::new(seat.home, command))?;
    Ok(Begun::Asks(SessionRequest::Close(request)))
}

/// The request of a `create`, or BadShape where its shape is outside the limits.
#[tactic(auto, using(crate::proofs::Begun::create_is_refused, crate::proofs::Begun::create_is_planned))]
fn begin_create(
    alloc: Global,
    seat: &Seat,
    command: Command,
) -> Result<Begun<SessionRequest>, NoMemory>
    requires { is_create command ≡ true }
    ensures { IfOk result (IsBegun (IsPlanFor seat.now command) stands_of) }
{
    let request = Boxed::new(alloc, CreateRequest::new(seat.home, command))?;
    match request.get().refusal() {
        Some(refusal) => Ok(Begun::Refused(refusal)),
        None => Ok(Begun::Asks(SessionRequest::Create(request))),
    }
}
