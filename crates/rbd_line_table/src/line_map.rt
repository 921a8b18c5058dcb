ghost use Rattle.std.specs.Prelude.{◌≡◌, ◌<◌, ◌≤◌, ◌==◌, ℕ, None, Some, length, slice_get, OnOk, OnErr, if◌then◌else◌};
ghost use Rattle.rbd_line_table.specs.Known.{HasRoom, at_place, is_known, known_at, page_of as number_of_page, place_on_page as number_of_place};

use rbd_values::NoMemory;
use std::alloc::Global;

/// How many lines a page has.
const LINES: usize = 4_096;

/// What is known of lines of a script, by their numbers. It lies in pages of 4,096 lines, each made
/// when the first of its lines is known.
#[derive(Drop)]
pub struct LineMap<T> {
    pages: Vec<Vec<Option<T>>>,
}

impl<T> LineMap<T> {
    /// Nothing is known. It takes no memory.
    pub fn new(alloc: Global) -> Self
        ensures { (line : ℕ) → known_at result line ≡ None }
    {
        LineMap {
            pages: Vec::new(alloc),
        }
    }
}

impl<T: Copy> LineMap<T> {
    /// What is known of a line. It takes no memory.
    pub fn get(&self, line: u32) -> Option<T>
        ensures { result ≡ known_at self.now line }
    {
        let page = self.pages.get(page_of(line))?;
        *page.get(place_of(line))?
    }

    /// Whether anything is known of a line. It takes no memory.
    pub fn has(&self, line: u32) -> bool
        ensures { result ≡ is_known self.now line }
    {
        self.get(line).is_some()
    }

    /// Makes room for a line. Nothing that is known changes. NoMemory where that room is refused.
    pub fn reserve(&mut self, line: u32) -> Result<(), NoMemory>
        ensures known { (other : ℕ) → known_at self.new other ≡ known_at self.old other }
        ensures room { OnOk result (HasRoom self.new line) }
    {
        self.reach(page_of(line))?;
        fill(&mut self.pages[page_of(line)])
    }

    /// This is known of a line from now on, where there is room. It takes no memory.
    pub fn put(&mut self, line: u32, value: T)
        requires { HasRoom self.old line }
        ensures { (other : ℕ) → known_at self.new other
            ≡ (if line == other then Some value else known_at self.old other) }
    {
        let page = &mut self.pages[page_of(line)];
        page[place_of(line)] = Some(value);
    }

    /// This is known of a line from now on. NoMemory where room for it is refused; then nothing
    /// that is known changes.
    pub fn insert(&mut self, line: u32, value: T) -> Result<(), NoMemory>
        ensures ok { OnOk result ((other : ℕ)
            → known_at self.new other ≡ (if line == other then Some value else known_at self.old other)) }
        ensures err { OnErr result ((other : ℕ) → known_at self.new other ≡ known_at self.old other) }
    {
        self.reserve(line)?;
        self.put(line, value);
        Ok(())
    }

    /// Makes the table of the pages reach up to a page. Nothing that is known changes, also where
    /// memory is refused.
    fn reach(&mut self, page: usize) -> Result<(), NoMemory>
        ensures known { (other : ℕ) → known_at self.new other ≡ known_at self.old other }
        ensures pages { OnOk result (page < length self.new.pages.items) }
    {
        let alloc = *self.pages.allocator();
        while self.pages.len() <= page {
            self.pages.push(Vec::new(alloc))?;
        }
        Ok(())
    }
}

/// Gives a page all its places. Nothing that is known changes, also where memory is refused.
fn fill<T: Copy>(page: &mut Vec<Option<T>>) -> Result<(), NoMemory>
    ensures known { (place : ℕ) → at_place (slice_get page.new.items place)
        ≡ at_place (slice_get page.old.items place) }
    ensures places { OnOk result (4096 ≤ length page.new.items) }
{
    if page.len() < LINES {
        page.resize(LINES, None)?;
    }
    Ok(())
}

/// The page of a line.
fn page_of(line: u32) -> usize
    ensures { result ≡ number_of_page line }
{
    line as usize / LINES
}

/// The place of a line on its page.
fn place_of(line: u32) -> usize
    ensures { result ≡ number_of_place line }
{
    line as usize % LINES
}
