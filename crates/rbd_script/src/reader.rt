//! The lines of a script, one after another.
ghost use Rattle.std.specs.Prelude.{◌≡◌, ◌+◌, ◌∷◌, [], ◌≤◌, length, Ok, Err, IfOk, IfErr, OnOk};
ghost use Rattle.rbd_script.specs.Fault.{AtLine, LeavesAt};
ghost use Rattle.rbd_script.specs.Line.{with_line};
ghost use Rattle.rbd_script.specs.Reading.{no_script, reading, with_lines};
ghost use Rattle.rbd_script.specs.Token.{text_lines, without_last};

use crate::fault::{LineCause, LineFault, PartFault, ScriptFault};
use crate::lines::first_line;
use crate::script::Script;
use rbd_kinds::Growing;
use std::alloc::Global;

/// How many bytes a script may have.
pub const SCRIPT_LIMIT: usize = 16_777_216;

/// The script that the bytes are, or the first fault from the left of the first line that has one.
/// With `threads` a line of a schedule is one. Of bytes past the limit only the lines that end
/// within it are read.
pub fn read(alloc: Global, bytes: &[u8], threads: bool) -> Result<Script, ScriptFault>
    ensures script { IfOk result (λ script. reading threads bytes.now ≡ Ok script) }
    ensures fault { IfErr result (AtLine (λ fault. reading threads bytes.now ≡ Err fault)) }
{
    if bytes.len() <= SCRIPT_LIMIT {
        let (mut script, number, last) = whole_lines(alloc, threads, bytes)?;
        script.take_line(alloc, threads, number, last)?;
        return Ok(script);
    }
    let (within, _) = bytes.split_at(SCRIPT_LIMIT);
    let (_, line, _) = whole_lines(alloc, threads, within)?;
    Err(ScriptFault::Line(LineFault {
        line,
        cause: LineCause::ExtraPart,
    }))
}

/// Reads each line that ends with a line feed, and hands back the number of what follows, and that.
fn whole_lines(
    alloc: Global,
    threads: bool,
    text: &[u8],
) -> Result<(Script, u32, &[u8]), ScriptFault>
    requires { length text.now ≤ SCRIPT_LIMIT }
    ensures all { IfOk result (λ x. with_lines threads 1 no_script (text_lines text.now) ≡ with_lines threads x.1 x.0
        (x.2.now ∷ [])) }
    ensures whole { IfOk result (λ x. with_lines threads 1 no_script (without_last (text_lines text.now)) ≡ Ok x.0) }
    ensures number { IfOk result (λ x. x.1 ≡ length (without_last (text_lines text.now)) + 1) }
    ensures few { IfOk result (λ x. length x.0.sessions ≤ 32) }
    ensures all_fault { IfErr result
        (AtLine (λ fault. with_lines threads 1 no_script (text_lines text.now) ≡ Err fault)) }
    ensures whole_fault { IfErr result
        (AtLine (λ fault. with_lines threads 1 no_script (without_last (text_lines text.now)) ≡ Err fault)) }
{
    let mut script = Script::new(alloc);
    let mut number = 1;
    let mut rest = text;
    while let Some((line, behind)) = first_line(rest) {
        script.take_line(alloc, threads, number, line)?;
        number += 1;
        rest = behind;
    }
    Ok((script, number, rest))
}

impl Script {
    fn new(alloc: Global) -> Self
        ensures { result ≡ no_script }
    {
        Script {
            sessions: Growing::new(alloc),
            lines: Growing::new(alloc),
        }
    }

    /// Adds the line of this number.
    fn take_line(
        &mut self,
        alloc: Global,
        threads: bool,
        number: u32,
        line: &[u8],
    ) -> Result<(), ScriptFault>
        requires { length self.old.sessions ≤ 32 }
        ensures script { LeavesAt number result self.new (with_line threads number self.old line.now) }
        ensures few { OnOk result (length self.new.sessions ≤ 32) }
    {
        let fault = match self.add_line(alloc, threads, number, line) {
            Ok(()) => return Ok(()),
            Err(fault) => fault,
        };
        match fault {
            PartFault::Cause(cause) => Err(ScriptFault::Line(LineFault {
                line: number,
                cause,
            })),
            PartFault::NoMemory => Err(ScriptFault::NoMemory),
        }
    }
}
