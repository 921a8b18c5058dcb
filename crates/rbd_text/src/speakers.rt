//! Whose the commands of a script are.
ghost use Rattle.std.specs.Prelude.{◌≡◌, ℕ, OnOk, IfOk};
ghost use Rattle.std.specs.Option.{option_or};
ghost use Rattle.rbd_line_table.specs.Known.{known_at};
ghost use Rattle.rbd_text.specs.Speakers.{AreSpeakersOf};
ghost use Rattle.rbd_text.specs.Text.{speaker, speaks};

use rbd_kinds::{NoMemory, SessionNo};
use rbd_line_table::LineMap;
use rbd_script::{Line, Said};
use std::alloc::Global;

/// The sessions of a script's commands, by the commands' lines.
#[derive(Drop)]
pub struct Speakers {
    lines: LineMap<SessionNo>,
}

impl Speakers {
    /// Goes over the lines of a script once.
    pub fn of(alloc: Global, lines: &[Line]) -> Result<Self, NoMemory>
        ensures { IfOk result (λ speakers. AreSpeakersOf lines.now speakers) }
    {
        let mut speakers = Speakers {
            lines: LineMap::new(alloc),
        };
        for line in lines {
            speakers.read(line)?;
        }
        Ok(speakers)
    }

    /// The session whose command stands in a line.
    pub fn at(&self, line: u32) -> Option<SessionNo>
        ensures { result ≡ known_at self.now.lines line }
    {
        self.lines.get(line)
    }

    fn read(&mut self, line: &Line) -> Result<(), NoMemory>
        ensures { OnOk result ((q : ℕ) → known_at self.new.lines q ≡ option_or (speaks q line.now)
            (known_at self.old.lines q)) }
    {
        match session_of(&line.said) {
            None => Ok(()),
            Some(session) => self.lines.insert(line.number, session),
        }
    }
}

/// Whose command is said.
pub fn session_of(said: &Said) -> Option<SessionNo>
    ensures { result ≡ speaker said.now }
{
    match said {
        Said::Command {
            session,
            beside: _,
            command: _,
        } => Some(*session),
        _ => None,
    }
}
