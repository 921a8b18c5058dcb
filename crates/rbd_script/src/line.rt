//! One line of a script.
ghost use Rattle.std.specs.Prelude.{◌≡◌, ◌∷◌, ◌<◌, ◌≤◌, length, OnOk};
ghost use Rattle.rbd_script.specs.Fault.{Gives, Leaves};
ghost use Rattle.rbd_script.specs.Line.{declaration_of as declaration_in, request_of_tokens as request_in, said_behind, with_line};
ghost use Rattle.rbd_script.specs.Token.{begins_with as begins_with_in, tokens_of};

use crate::command::command_of;
use crate::fault::{LineCause, PartFault};
use crate::schedule::schedule_of;
use crate::script::{Declared, Line, Said, Script, Sessions};
use crate::tokens::Tokens;
use crate::word::is;
use rbd_kinds::Shared;
use std::alloc::Global;

impl Script {
    /// Adds what the line of this number says.
    #[tactic(auto, unfolding(crate::specs::Line::with_line))]
    pub fn add_line(
        &mut self,
        alloc: Global,
        threads: bool,
        number: u32,
        line: &[u8],
    ) -> Result<(), PartFault>
        requires { length self.old.sessions ≤ 32 }
        ensures script { Leaves result self.new (with_line threads number self.old line.now) }
        ensures few { OnOk result (length self.new.sessions ≤ 32) }
    {
        if begins_with(b'#', line) {
            return Ok(());
        }
        let whole = Tokens::new(alloc, line);
        let mut behind = whole;
        let Some(first) = behind.take() else {
            return Ok(());
        };
        if is(first, "client") {
            let declared = declaration_of(&self.sessions, number, behind)?;
            self.sessions.push(declared)?;
            return Ok(());
        }
        let said = said_by(threads, &self.sessions, first, whole, behind)?;
        self.lines.push(Line { number, said })?;
        Ok(())
    }
}

/// `client NAME SITE` on the line of this number, behind its first word.
#[tactic(auto, unfolding(crate::specs::Form::form, crate::specs::Line::declaration_of))]
fn declaration_of(
    sessions: &Sessions,
    number: u32,
    mut tokens: Tokens<'_>,
) -> Result<Declared, PartFault>
    ensures declared { Gives result (declaration_in sessions.now number (tokens_of tokens.entry.rest.now)) }
    ensures few { OnOk result (length sessions.now < 32) }
{
    let name = tokens.new_session(sessions)?;
    let home = tokens.site()?;
    tokens.end(Declared {
        line: number,
        name,
        home,
    })
}

/// What a line says that declares no session: `[&] NAME COMMAND`, or a line of a schedule.
fn said_by(
    threads: bool,
    sessions: &Sessions,
    first: &[u8],
    whole: Tokens<'_>,
    behind: Tokens<'_>,
) -> Result<Said, PartFault>
    requires few { length sessions.now ≤ 32 }
    requires whole { tokens_of whole.rest.now ≡ first.now ∷ tokens_of behind.rest.now }
    ensures { Gives result (said_behind threads sessions.now first.now (tokens_of behind.entry.rest.now)) }
{
    if begins_with(b'@', first) {
        if threads {
            return Err(PartFault::Cause(LineCause::ScheduleLine));
        }
        return schedule_of(sessions, whole);
    }
    if is(first, "&") {
        return request_of(sessions, true, behind);
    }
    request_of(sessions, false, whole)
}

/// `NAME COMMAND`
#[tactic(auto, unfolding(crate::specs::Line::request_of_tokens))]
fn request_of(sessions: &Sessions, beside: bool, mut tokens: Tokens<'_>) -> Result<Said, PartFault>
    requires { length sessions.now ≤ 32 }
    ensures { Gives result (request_in sessions.now beside (tokens_of tokens.entry.rest.now)) }
{
    let session = tokens.session(sessions)?;
    let alloc = tokens.alloc();
    let command = Shared::new(alloc, command_of(tokens)?)?;
    Ok(Said::Command {
        session,
        beside,
        command,
    })
}

/// Whether the first byte is this one.
fn begins_with(byte: u8, bytes: &[u8]) -> bool
    ensures { result ≡ begins_with_in byte bytes.now }
{
    bytes.first() == Some(&byte)
}
