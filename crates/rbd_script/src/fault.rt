//! Faults of a script.
ghost use Rattle.std.specs.Prelude.{◌≡◌, Some};
ghost use Rattle.rbd_script.specs.Fault.{cause_text, Gives};
ghost use Rattle.rbd_script.specs.Session.{known as known_in};
ghost use Rattle.rbd_script.specs.declared.fault.PartFault.TheVariants.{NoMemory as Memory};
ghost use Rattle.rbd_script.specs.declared.fault.ScriptFault.TheVariants.{NoMemory as ScriptMemory};

use rbd_kinds::NoMemory;
use std::fmt;

/// Why bytes aren't a script.
#[derive(Clone, Copy, Debug, PartialEq, Eq)]
pub enum ScriptFault {
    /// The first line that has a fault.
    Line(LineFault),
    NoMemory,
}

/// The fault of a line, by the line's number from 1.
#[derive(Clone, Copy, Debug, PartialEq, Eq)]
pub struct LineFault {
    pub line: u32,
    pub cause: LineCause,
}

/// Why a line isn't one of a script: its first fault from the left.
#[derive(Clone, Copy, Debug, PartialEq, Eq)]
pub enum LineCause {
    /// The word isn't one of those that may stand there, or no session of that name is declared.
    UnknownWord,
    /// No token stands where one must.
    MissingPart,
    /// A token stands behind the last part, or the script has more bytes than one may have.
    ExtraPart,
    /// A number or bytes in hexadecimal are outside their rule.
    BadNumber,
    /// A name is outside its rule. A session's is declared once, and at most 32 are.
    BadName,
    /// A line of a schedule, where each session runs on a thread of its own.
    ScheduleLine,
}

impl LineCause {
    /// As it is printed.
    pub fn text(self) -> &'static str
        ensures { result.now ≡ cause_text self }
    {
        match self {
            LineCause::UnknownWord => "unknown word",
            LineCause::MissingPart => "missing part",
            LineCause::ExtraPart => "extra part",
            LineCause::BadNumber => "bad number",
            LineCause::BadName => "bad name",
            LineCause::ScheduleLine => "schedule line",
        }
    }
}

impl fmt::Display for LineCause {
    ghost output = { λ cause. Some (cause_text cause) };

    fn fmt<W: fmt::Write>(&self, f: &mut fmt::Formatter<W>) -> fmt::Result {
        f.write_str(self.text())
    }
}

impl From<NoMemory> for ScriptFault {
    ghost from_gives = { λ _ fault. fault ≡ ScriptMemory };

    fn from(_refused: NoMemory) -> ScriptFault {
        ScriptFault::NoMemory
    }
}

/// Why a part of a line wasn't read.
#[derive(Clone, Copy, Debug, PartialEq, Eq)]
pub enum PartFault {
    Cause(LineCause),
    NoMemory,
}

impl From<NoMemory> for PartFault {
    ghost from_gives = { λ _ fault. fault ≡ Memory };

    fn from(_refused: NoMemory) -> PartFault {
        PartFault::NoMemory
    }
}

/// The value, or an unknown word.
pub fn known<T>(found: Option<T>) -> Result<T, PartFault>
    ensures { Gives result (known_in found) }
{
    match found {
        Some(value) => Ok(value),
        None => Err(PartFault::Cause(LineCause::UnknownWord)),
    }
}
