//! The pages that the contents of an object share.
ghost use Rattle.std.specs.Prelude.{◌≡◌, ◌≢◌, ℕ, ◌+◌, ◌-◌, ◌<◌, ◌≤◌, [], length, slice_index, if◌then◌else◌, IfOk, OnOk, OnErr, IsTrue};
ghost use Rattle.rbd_pages.specs.Places.{KeepsMost, TakesFreeFirst};
ghost use Rattle.rbd_parts.specs.Contents.{is_within, window};
ghost use Rattle.rbd_pages.specs.Sheets.{Changed, sheet_at, count_at, bytes_at, in_use, released};
ghost use Rattle.rbd_pages.specs.declared.page.TheConstants.{PAGE};

use crate::page::Page;
use rbd_kinds::NoMemory;
use std::alloc::Global;
use std::marker::Model;

/// Counted pages, named by their index. Contracts see them as the list of pages. A page with count
/// 0 is free: its place is taken again before the arena grows, so there are never more places than
/// pages were named at once.
#[derive(Drop)]
pub struct Arena {
    pages: Vec<Page>,
    /// The places that are free. It has room for all.
    free: Vec<u32>,
}

impl Model for Arena {
    ghost use Rattle.std.specs.Prelude.{List};
    ghost use Rattle.std.specs.Vec.{vec_capacity};
    ghost use Rattle.rbd_pages.specs.Places.{KnowsFree};
    ghost use Rattle.rbd_pages.specs.Sheets.{Sheet};

    ghost Value = { List Sheet };

    ghost view = { λ a. a.pages.items };

    ghost invariant = { λ a. KnowsFree a.pages.items a.free.items (vec_capacity a.free) };
}

impl Arena {
    /// No pages. It takes no memory.
    pub fn new(alloc: Global) -> Self
        ensures { result ≡ [] }
    {
        Arena {
            pages: Vec::new(alloc),
            free: Vec::new(alloc),
        }
    }

    /// How many pages have a count above 0.
    pub fn used(&self) -> u32
        ensures { result ≡ in_use self.now }
    {
        (self.pages.len() - self.free.len()) as u32
    }

    /// How many places there are, free ones among them.
    pub fn places(&self) -> usize
        ensures { result ≡ length self.now }
    {
        self.pages.len()
    }

    /// Takes the memory for so many more pages at once, those aside that free ones have.
    pub fn reserve(&mut self, more: usize) -> Result<(), NoMemory>
        ensures { self.new ≡ self.old }
    {
        self.pages.reserve(more.saturating_sub(self.free.len()))?;
        Ok(())
    }

    /// How many places name a page.
    pub fn count(&self, index: u32) -> u32
        requires { 0 < count_at self.now index }
        ensures { result ≡ count_at self.now index }
    {
        self.pages[index as usize].count()
    }

    /// Whether one place names a page, and its bytes are there.
    pub fn is_own(&self, index: u32) -> bool
        requires { 0 < count_at self.now index }
        ensures alone { IsTrue result → count_at self.now index ≡ 1 }
        ensures stored { IsTrue result → length (bytes_at self.now index) ≡ PAGE }
    {
        self.pages[index as usize].is_own()
    }

    /// A page of zeros that one place names.
    pub fn add(&mut self) -> Result<u32, NoMemory>
        ensures free { IfOk result (λ i. count_at self.old i ≡ 0) }
        ensures changed { IfOk result (λ i. Changed i self.old self.new) }
        ensures page { IfOk result (λ i. sheet_at self.new i ≡ record { count = 1; bytes = [] }) }
        ensures places { TakesFreeFirst self.old self.new }
        ensures err { OnErr result (self.new ≡ self.old) }
        ensures most { KeepsMost self.old self.new }
    {
        let page = Page::new(*self.pages.allocator());
        self.insert(page)
    }

    /// A page that one place names, with the bytes of another.
    pub fn copy(&mut self, index: u32) -> Result<u32, NoMemory>
        requires { 0 < count_at self.old index }
        ensures free { IfOk result (λ i. count_at self.old i ≡ 0) }
        ensures changed { IfOk result (λ i. Changed i self.old self.new) }
        ensures page { IfOk result (λ i. sheet_at self.new i ≡ record { count = 1; bytes = bytes_at self.old index }) }
        ensures places { TakesFreeFirst self.old self.new }
        ensures err { OnErr result (self.new ≡ self.old) }
        ensures most { KeepsMost self.old self.new }
    {
        let page = self.pages[index as usize].copied()?;
        self.insert(page)
    }

    /// Puts a page at a free place, or at one more.
    fn insert(&mut self, page: Page) -> Result<u32, NoMemory>
        requires { page.count ≡ 1 }
        ensures free { IfOk result (λ i. count_at self.old i ≡ 0) }
        ensures changed { IfOk result (λ i. Changed i self.old self.new) }
        ensures page { IfOk result (λ i. sheet_at self.new i ≡ page) }
        ensures places { TakesFreeFirst self.old self.new }
        ensures err { OnErr result (self.new ≡ self.old) }
        ensures most { KeepsMost self.old self.new }
    {
        let Some(index) = self.free.pop() else {
            return self.grow(page);
        };
        self.pages[index as usize] = page;
        Ok(index)
    }

    /// One more place, where none is free.
    fn grow(&mut self, page: Page) -> Result<u32, NoMemory>
        requires page { page.count ≡ 1 }
        requires full { in_use self.old ≡ length self.old }
        ensures free { IfOk result (λ i. count_at self.old i ≡ 0) }
        ensures changed { IfOk result (λ i. Changed i self.old self.new) }
        ensures page { IfOk result (λ i. sheet_at self.new i ≡ page) }
        ensures err { OnErr result (self.new ≡ self.old) }
        ensures most { KeepsMost self.old self.new }
    {
        let index = self.pages.len();
        if index >= u32::MAX as usize {
            return Err(NoMemory);
        }
        self.free.reserve(index + 1)?;
        self.pages.reserve(1)?;
        self.pages.push_reserved(page);
        Ok(index as u32)
    }

    /// One place more names a page. It is refused where the count would be too large.
    pub fn hold(&mut self, index: u32) -> Result<(), NoMemory>
        requires { 0 < count_at self.old index }
        ensures changed { Changed index self.old self.new }
        ensures count { OnOk result (count_at self.new index ≡ count_at self.old index + 1) }
        ensures bytes { bytes_at self.new index ≡ bytes_at self.old index }
        ensures err { OnErr result (self.new ≡ self.old) }
        ensures places { length self.new ≡ length self.old }
    {
        self.pages[index as usize].hold()
    }

    /// One place less names a page, which is free where that was the last one.
    pub fn release(&mut self, index: u32)
        requires { 0 < count_at self.old index }
        ensures changed { Changed index self.old self.new }
        ensures page { sheet_at self.new index ≡ released (sheet_at self.old index) }
        ensures places { length self.new ≡ length self.old }
    {
        let page = &mut self.pages[index as usize];
        let count = page.count();
        if count > 1 {
            page.set_count(count - 1);
            return;
        }
        page.free();
        self.free.push_reserved(index);
    }

    /// Takes the memory for a page's bytes, which stay as they are.
    pub fn store(&mut self, index: u32) -> Result<(), NoMemory>
        requires { 0 < count_at self.old index }
        ensures changed { Changed index self.old self.new }
        ensures count { count_at self.new index ≡ count_at self.old index }
        ensures bytes { (k : ℕ) → slice_index (bytes_at self.new index) k ≡ slice_index (bytes_at self.old index) k }
        ensures stored { OnOk result (length (bytes_at self.new index) ≡ PAGE) }
        ensures err { OnErr result (self.new ≡ self.old) }
        ensures places { length self.new ≡ length self.old }
    {
        self.pages[index as usize].store()
    }

    /// Fills a buffer with the bytes of a page from offset `at` on.
    pub fn read(&self, index: u32, at: usize, into: &mut [u8])
        requires used { 0 < count_at self.now index }
        requires within { at + length into.old ≤ PAGE }
        ensures { into.new ≡ window (bytes_at self.now index) at (length into.old) }
    {
        self.pages[index as usize].read(at, into);
    }

    /// Writes bytes into a page from offset `at` on. Where one isn't zero, the memory for them has
    /// to be there.
    pub fn put(&mut self, index: u32, at: usize, bytes: &[u8])
        requires used { 0 < count_at self.old index }
        requires within { at + length bytes.now ≤ PAGE }
        requires stored { (k : ℕ) → slice_index bytes.now k ≢ 0 → length (bytes_at self.old index) ≡ PAGE }
        ensures changed { Changed index self.old self.new }
        ensures count { count_at self.new index ≡ count_at self.old index }
        ensures len { length (bytes_at self.new index) ≡ length (bytes_at self.old index) }
        ensures bytes { (k : ℕ) → slice_index (bytes_at self.new index) k
            ≡ (if is_within at (length bytes.now) k then slice_index bytes.now (k - at)
            else slice_index (bytes_at self.old index) k) }
        ensures places { length self.new ≡ length self.old }
    {
        self.pages[index as usize].put(at, bytes);
    }

    /// Makes `len` bytes of a page from offset `at` on zero.
    pub fn clear(&mut self, index: u32, at: usize, len: usize)
        requires used { 0 < count_at self.old index }
        requires within { at + len ≤ PAGE }
        ensures changed { Changed index self.old self.new }
        ensures count { count_at self.new index ≡ count_at self.old index }
        ensures len { length (bytes_at self.new index) ≡ length (bytes_at self.old index) }
        ensures bytes { (k : ℕ) → slice_index (bytes_at self.new index) k
            ≡ (if is_within at len k then 0 else slice_index (bytes_at self.old index) k) }
        ensures places { length self.new ≡ length self.old }
    {
        self.pages[index as usize].clear(at, len);
    }
}
