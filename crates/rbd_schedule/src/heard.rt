//! The notices that were heard.
ghost use Rattle.std.specs.Prelude.{◌≡◌, ℕ, ◌<◌, ◌==◌, ◌||◌, false, length, slice_get, OnOk};
ghost use Rattle.rbd_schedule.specs.Playing.{has_mark, mark_of};

use rbd_kinds::NoMemory;
use std::alloc::Global;

/// The notices that an instance heard: a mark for each number up to the last of them.
#[derive(Drop)]
pub struct Heard {
    marks: Vec<bool>,
}

impl Heard {
    /// None was heard. It takes no memory.
    pub fn new(alloc: Global) -> Self
        ensures { (number : ℕ) → has_mark number result ≡ false }
    {
        Heard {
            marks: Vec::new(alloc),
        }
    }

    /// Whether a notice was heard.
    pub fn has(&self, number: u64) -> bool
        ensures { result ≡ has_mark number self.now }
    {
        mark_at(self.marks.as_slice(), number as usize)
    }

    /// A notice was heard.
    pub fn add(&mut self, number: u64) -> Result<(), NoMemory>
        ensures { OnOk result ((other : ℕ) → has_mark other self.new ≡ (has_mark other self.old || (number == other))) }
    {
        let index = number as usize;
        make_place(&mut self.marks, index)?;
        self.marks[index] = true;
        Ok(())
    }
}

/// The mark at a place, and none behind the last one.
fn mark_at(marks: &[bool], index: usize) -> bool
    ensures { result ≡ mark_of (slice_get marks.now index) }
{
    match marks.get(index) {
        Some(mark) => *mark,
        None => false,
    }
}

/// Makes the place of a mark, and 63 more, for the notices behind it. No mark changes.
fn make_place(marks: &mut Vec<bool>, index: usize) -> Result<(), NoMemory>
    ensures place { OnOk result (index < length marks.new.items) }
    ensures marks { OnOk result ((other : ℕ) → mark_of (slice_get marks.new.items other)
        ≡ mark_of (slice_get marks.old.items other)) }
{
    if index < marks.len() {
        return Ok(());
    }
    let Some(count) = index.checked_add(64) else {
        return Err(NoMemory);
    };
    marks.resize(count, false)?;
    Ok(())
}
