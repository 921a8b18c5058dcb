//! What is asked for.
use crate::load::Load;

/// What is printed of a script.
#[derive(Clone, Copy, Debug, PartialEq, Eq, Hash)]
pub enum Mode {
    /// The replies.
    Replies,
    /// The history and the operation logs, and then the replies.
    Trace,
}

/// What the words of the command line ask for.
#[derive(Clone, Copy, Debug, PartialEq, Eq, Hash)]
pub enum Asked {
    /// `run`: a script that is read is played, and this is printed of it.
    Run(Mode),
    /// `gen`: a script that is generated is played, and its summary is printed.
    Generate(Load),
}
