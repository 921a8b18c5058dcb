//! The lines that were begun.
ghost use Rattle.std.specs.Prelude.{◌≡◌, ℕ, ◌==◌, ◌||◌, false, OnOk};
ghost use Rattle.rbd_world.specs.Begun.{HasRoomToBegin, has_line};

use rbd_kinds::NoMemory;
use rbd_line_table::LineMap;
use std::alloc::Global;

/// The lines of the script that were begun.
#[derive(Drop)]
pub struct BegunLines {
    lines: LineMap<()>,
}

impl BegunLines {
    /// No line was begun. It takes no memory.
    pub fn new(alloc: Global) -> Self
        ensures { (line : ℕ) → has_line line result ≡ false }
    {
        BegunLines {
            lines: LineMap::new(alloc),
        }
    }

    /// Whether a line was begun. It takes no memory.
    pub fn has(&self, line: u32) -> bool
        ensures { result ≡ has_line line self.now }
    {
        self.lines.has(line)
    }

    /// Makes room for a line. No line changes. NoMemory where that room is refused.
    pub fn reserve(&mut self, line: u32) -> Result<(), NoMemory>
        ensures lines { (other : ℕ) → has_line other self.new ≡ has_line other self.old }
        ensures ok { OnOk result (HasRoomToBegin line self.new) }
    {
        self.lines.reserve(line)
    }

    /// A line was begun, where there is room. It takes no memory.
    pub fn add(&mut self, line: u32)
        requires { HasRoomToBegin line self.old }
        ensures { (other : ℕ) → has_line other self.new ≡ (has_line other self.old || (line == other)) }
    {
        self.lines.put(line, ());
    }
}
