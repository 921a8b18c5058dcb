//! A command that a script gives to a session.
ghost use Rattle.std.specs.Prelude.{◌≡◌, IfOk};
ghost use Rattle.rbd_schedule.specs.Given.{given_by as told_by, given_or_none};

use rbd_kinds::{NoMemory, SessionNo, TryClone};
use rbd_script::{Line, Said};
use rbd_world::Event;

/// A command that a script gives to a session, as the event of its submission.
#[derive(Drop)]
pub struct Given {
    pub session: SessionNo,
    /// The number of its line, from 1.
    pub line: u32,
    /// It doesn't wait for the commands of its session before it (`&`).
    pub beside: bool,
    pub submission: Event,
}

/// The command that a line gives, if it gives one. NoMemory where memory for a copy is refused.
pub fn given_by(line: &Line) -> Result<Option<Given>, NoMemory>
    ensures { IfOk result (λ given. given_or_none given ≡ told_by line.now.number line.now.said) }
{
    match &line.said {
        Said::Command {
            session,
            beside,
            command,
        } => Ok(Some(Given {
            session: *session,
            line: line.number,
            beside: *beside,
            submission: Event::Submit {
                session: *session,
                line: line.number,
                command: command.try_clone()?,
            },
        })),
        _ => Ok(None),
    }
}
