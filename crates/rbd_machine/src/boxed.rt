//! A machine in memory of its own.
ghost use Rattle.std.specs.Prelude.{◌≡◌, IfOk};

use crate::machine::Machine;
use crate::reason::Reason;
use rbd_kinds::{Fed, Flow, NoMemory, Op, Want};
use std::alloc::Global;
use std::marker::Model;

/// A machine in memory of its own, seen by contracts as the machine. It is as large as a pointer,
/// however large the machine is: so it is moved at no cost.
#[derive(Drop)]
pub struct Boxed<M> {
    held: Box<M>,
}

impl<M> Model for Boxed<M> {
    ghost Value = { M };

    ghost view = { λ b. b.held.value };
}

impl<M: Machine + Drop> Boxed<M> {
    /// The machine, moved into memory of its own. NoMemory where that is refused; then the machine
    /// is let go.
    pub fn new(alloc: Global, machine: M) -> Result<Self, NoMemory>
        ensures { IfOk result (λ boxed. boxed ≡ machine) }
    {
        Ok(Boxed {
            held: Box::new(alloc, machine)?,
        })
    }

    /// The machine itself.
    pub fn get(&self) -> &M
        ensures { result.now ≡ self.now }
    {
        &self.held
    }
}

impl<M: Machine + Drop> Machine for Boxed<M> {
    ghost stands = { M.stands };

    ghost is_ready = { M.is_ready };

    fn wants(&self) -> Want {
        self.held.wants()
    }

    fn next(&self, alloc: Global) -> Result<Op, NoMemory> {
        self.held.next(alloc)
    }

    fn reason(&self) -> Reason {
        self.held.reason()
    }

    fn ready(&mut self, alloc: Global, fed: &Fed) -> Result<(), NoMemory> {
        self.held.ready(alloc, fed)
    }

    fn feed(&mut self, fed: &Fed) -> Flow {
        self.held.feed(fed)
    }
}
