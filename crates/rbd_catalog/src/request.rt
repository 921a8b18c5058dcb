//! The request of a session, whatever its command is.
ghost use Rattle.rbd_catalog.specs.Session.{stands_of, is_ready_of};

use rbd_data::{DiscardRequest, ReadRequest, WriteRequest};
use rbd_image::{CreateRequest, ListRequest, RemoveRequest, ResizeRequest};
use rbd_kinds::{Fed, Flow, NoMemory, Op, Want};
use rbd_machine::{Boxed, Machine, Reason};
use rbd_session::CloseRequest;
use rbd_snap::{RollbackRequest, SnapRequest};
use std::alloc::Global;

/// The request of a command. It does what the request in it does, which lies in memory of its own.
pub enum SessionRequest {
    /// `read`
    Read(Boxed<ReadRequest>),
    /// `write` or `fill`
    Write(Boxed<WriteRequest>),
    /// `discard`
    Discard(Boxed<DiscardRequest>),
    /// `create`
    Create(Boxed<CreateRequest>),
    /// `snap create` or `snap rm`
    Snap(Boxed<SnapRequest>),
    /// `ls`, `info`, `snap ls`, `du` or `rename`
    List(Boxed<ListRequest>),
    /// `resize`
    Resize(Boxed<ResizeRequest>),
    /// `snap rollback`
    Rollback(Boxed<RollbackRequest>),
    /// `rm`
    Remove(Boxed<RemoveRequest>),
    /// `close`, `quiesce` or a straight command
    Close(Boxed<CloseRequest>),
}

// (written out, so that it is a call where a request is let go, and not a choice of ten)
impl Drop for SessionRequest {
    fn drop(self) {
        match self {
            SessionRequest::Read(request) => drop(request),
            SessionRequest::Write(request) => drop(request),
            SessionRequest::Discard(request) => drop(request),
            SessionRequest::Create(request) => drop(request),
            SessionRequest::Snap(request) => drop(request),
            SessionRequest::List(request) => drop(request),
            SessionRequest::Resize(request) => drop(request),
            SessionRequest::Rollback(request) => drop(request),
            SessionRequest::Remove(request) => drop(request),
            SessionRequest::Close(request) => drop(request),
        }
    }
}

impl Machine for SessionRequest {
    ghost stands = { stands_of };

    ghost is_ready = { is_ready_of };

    fn wants(&self) -> Want {
        match self {
            SessionRequest::Read(request) => request.wants(),
            SessionRequest::Write(request) => request.wants(),
            SessionRequest::Discard(request) => request.wants(),
            SessionRequest::Create(request) => request.wants(),
            SessionRequest::Snap(request) => request.wants(),
            SessionRequest::List(request) => request.wants(),
            SessionRequest::Resize(request) => request.wants(),
            SessionRequest::Rollback(request) => request.wants(),
            SessionRequest::Remove(request) => request.wants(),
            SessionRequest::Close(request) => request.wants(),
        }
    }

    fn next(&self, alloc: Global) -> Result<Op, NoMemory> {
        match self {
            SessionRequest::Read(request) => request.next(alloc),
            SessionRequest::Write(request) => request.next(alloc),
            SessionRequest::Discard(request) => request.next(alloc),
            SessionRequest::Create(request) => request.next(alloc),
            SessionRequest::Snap(request) => request.next(alloc),
            SessionRequest::List(request) => request.next(alloc),
            SessionRequest::Resize(request) => request.next(alloc),
            SessionRequest::Rollback(request) => request.next(alloc),
            SessionRequest::Remove(request) => request.next(alloc),
            SessionRequest::Close(request) => request.next(alloc),
        }
    }

    fn reason(&self) -> Reason {
        match self {
            SessionRequest::Read(request) => request.reason(),
            SessionRequest::Write(request) => request.reason(),
            SessionRequest::Discard(request) => request.reason(),
            SessionRequest::Create(request) => request.reason(),
            SessionRequest::Snap(request) => request.reason(),
            SessionRequest::List(request) => request.reason(),
            SessionRequest::Resize(request) => request.reason(),
            SessionRequest::Rollback(request) => request.reason(),
            SessionRequest::Remove(request) => request.reason(),
            SessionRequest::Close(request) => request.reason(),
        }
    }

    fn ready(&mut self, alloc: Global, fed: &Fed) -> Result<(), NoMemory> {
        match self {
            SessionRequest::Read(request) => request.ready(alloc, fed),
            SessionRequest::Write(request) => request.ready(alloc, fed),
            SessionRequest::Discard(request) => request.ready(alloc, fed),
            SessionRequest::Create(request) => request.ready(alloc, fed),
            SessionRequest::Snap(request) => request.ready(alloc, fed),
            SessionRequest::List(request) => request.ready(alloc, fed),
            SessionRequest::Resize(request) => request.ready(alloc, fed),
            SessionRequest::Rollback(request) => request.ready(alloc, fed),
            SessionRequest::Remove(request) => request.ready(alloc, fed),
            SessionRequest::Close(request) => request.ready(alloc, fed),
        }
    }

    fn feed(&mut self, fed: &Fed) -> Flow {
        match self {
            SessionRequest::Read(request) => request.feed(fed),
            SessionRequest::Write(request) => request.feed(fed),
            SessionRequest::Discard(request) => request.feed(fed),
            SessionRequest::Create(request) => request.feed(fed),
            SessionRequest::Snap(request) => request.feed(fed),
            SessionRequest::List(request) => request.feed(fed),
            SessionRequest::Resize(request) => request.feed(fed),
            SessionRequest::Rollback(request) => request.feed(fed),
            SessionRequest::Remove(request) => request.feed(fed),
            SessionRequest::Close(request) => request.feed(fed),
        }
    }
}
