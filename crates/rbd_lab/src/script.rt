//! Which bytes are played.
ghost use Rattle.std.specs.Prelude.{◌≡◌, Ok, Err, IfOk, IfErr};
ghost use Rattle.rbd_script.specs.Fault.{AtLine};
ghost use Rattle.rbd_schedule.specs.InOrder.{AreLinesInOrder};
ghost use Rattle.rbd_schedule.specs.Playing.{IsPlayable};
ghost use Rattle.rbd_lab.specs.Script as told;

use itoa::Buffer;
use rbd_catalog::is_built;
use rbd_kinds::NoMemory;
use rbd_script::{Line, LineCause, LineFault, Said, Script, ScriptFault, read};
use std::alloc::Global;

/// The script that the bytes are, or the first fault of a line. Where the grammar has none, the
/// first line with a form that isn't built yet is an unknown word.
pub fn judged(alloc: Global, bytes: &[u8]) -> Result<Script, ScriptFault>
    ensures script { IfOk result (λ script. told.judged bytes.now ≡ Ok script) }
    ensures built { IfOk result IsPlayable }
    ensures in_order { IfOk result (λ script. AreLinesInOrder script.lines) }
    ensures fault { IfErr result (AtLine (λ fault. told.judged bytes.now ≡ Err fault)) }
{
    let script = read(alloc, bytes, false)?;
    match first_unbuilt(script.lines.as_slice()) {
        None => Ok(script),
        Some(line) => Err(ScriptFault::Line(LineFault {
            line,
            cause: LineCause::UnknownWord,
        })),
    }
}

/// The first line with a form that isn't built yet, by its number from 1.
fn first_unbuilt(lines: &[Line]) -> Option<u32>
    ensures { result ≡ told.unbuilt_line lines.now }
{
    for line in lines {
        if !is_said(&line.said) {
            return Some(line.number);
        }
    }
    None
}

/// Whether what a line says is built.
fn is_said(said: &Said) -> bool
    ensures { result ≡ told.is_said said.now }
{
    match said {
        Said::Command {
            session: _,
            beside: _,
            command,
        } => is_built(command),
        _ => true,
    }
}

/// The line that tells a fault.
pub fn fault_line(alloc: Global, fault: &LineFault) -> Result<Vec<u8>, NoMemory>
    ensures { IfOk result (λ text. text.items ≡ told.fault_text fault.now) }
{
    let mut text = Vec::new(alloc);
    text.extend_from_slice(b"line ")?;
    text.extend_from_slice(Buffer::new().format(fault.line).as_bytes())?;
    text.extend_from_slice(b": ")?;
    text.extend_from_slice(fault.cause.text().as_bytes())?;
    text.push(b'\n')?;
    Ok(text)
}
