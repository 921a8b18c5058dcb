//! What a command does to a quiesce of its image.
ghost use Rattle.std.specs.Prelude.{◌≡◌};
ghost use Rattle.rbd_commands.specs.Quiescing.{quiescing_of};

use crate::command::Command;

/// What a request does to a quiesce of its image in its session (own). A quiesce holds back the
/// requests that change the image, each at its look under the lock.
#[derive(Clone, Copy, PartialEq, Eq)]
pub enum Quiescing {
    /// It leaves it as it is.
    Leaves,
    /// Its look under the lock begins one (`quiesce`).
    Begins,
    /// Its look-up of the image ends one (`resume`).
    Ends,
}

impl Command {
    /// What it does to a quiesce of its image.
    pub fn quiescing(&self) -> Quiescing
        ensures { result ≡ quiescing_of self.now }
    {
        match self {
            Command::Quiesce { image: _ } => Quiescing::Begins,
            Command::Resume { image: _ } => Quiescing::Ends,
            _ => Quiescing::Leaves,
        }
    }
}
