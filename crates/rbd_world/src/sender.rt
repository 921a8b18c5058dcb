//! Who has an operation done.
ghost use Rattle.std.specs.Prelude.{◌≡◌};
ghost use Rattle.rbd_world.specs.Run.{cause_of, reason_of};
ghost use Rattle.rbd_world.specs.Sending.{doer_of};

use rbd_flat::Cause;
use rbd_kinds::{Instance, Slot};
use rbd_machine::Reason;

/// Who has an operation done.
#[derive(Clone, Copy)]
pub enum Sender {
    /// The command of a line, by itself.
    Itself(u32),
    /// The command of a line, on its way to the lock of its image.
    OnWay(u32),
    /// The house of an instance, which lets a lock go.
    House,
    /// An instance that was stopped, whose slot wanted it then.
    AfterStop(Slot),
}

impl Sender {
    /// Why the history says that the operation of an instance was done.
    pub fn cause(&self, who: &Instance) -> Cause
        ensures { result ≡ cause_of who.now (doer_of self.now) }
    {
        match self {
            Sender::Itself(line) => Cause::Line(*line),
            Sender::OnWay(line) => Cause::Line(*line),
            Sender::House => Cause::House(*who),
            Sender::AfterStop(_) => Cause::Late(*who),
        }
    }

    /// Why the operation is asked for.
    pub fn reason(&self) -> Reason
        ensures { result ≡ reason_of (doer_of self.now) }
    {
        match self {
            Sender::OnWay(_) => Reason::Acquiring,
            _ => Reason::Own,
        }
    }
}
