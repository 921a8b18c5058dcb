//! One sheaf of pages.
ghost use Rattle.std.specs.Prelude.{◌≡◌, ◌≢◌, ℕ, ◌+◌, ◌<◌, ◌≤◌, [], length, max, slice_index, IfOk, OnOk, OnErr, IsErr, IsTrue};
ghost use Rattle.rbd_pages.specs.Paging.{AreCounted, IsPageReady, Moved, Prepared};
ghost use Rattle.rbd_pages.specs.Places.{KeepsMost};
ghost use Rattle.rbd_pages.specs.Sheets.{Sheet, bytes_at, count_at, in_use};

use crate::arena::Arena;
use crate::pages;
use rbd_kinds::NoMemory;
use std::alloc::Global;
use std::marker::Model;

/// How many pages a full sheaf has (own): a full object of the largest size has 64 sheaves.
pub const SHEAF: usize = 128;

/// How many places name it, and its pages. Contracts see it as a `Sheet`, with its pages in place
/// of bytes. One that no place names keeps no memory.
#[derive(Drop)]
pub struct Sheaf {
    count: u32,
    pages: Vec<u32>,
}

impl Model for Sheaf {
    ghost use Rattle.std.specs.Prelude.{◌≡◌};
    ghost use Rattle.std.specs.Vec.{vec_capacity};
    ghost use Rattle.rbd_pages.specs.Sheets.{Sheet};

    ghost Value = { Sheet };

    ghost view = { λ s. record { count = s.count; bytes = s.pages.items } };

    ghost invariant = { λ s. s.count ≡ 0 → vec_capacity s.pages ≡ 0 };
}

impl Sheaf {
    /// A sheaf without pages that one place names. It takes no memory.
    pub fn new(alloc: Global) -> Self
        ensures { result ≡ record { count = 1; bytes = [] } }
    {
        Sheaf {
            count: 1,
            pages: Vec::new(alloc),
        }
    }

    /// How many contents name it.
    pub fn count(&self) -> u32
        ensures { result ≡ self.now.count }
    {
        self.count
    }

    /// One place more names it. It is refused where the count would be too large.
    pub fn hold(&mut self) -> Result<(), NoMemory>
        ensures named { 0 < self.old.count → 0 < self.new.count }
        ensures bytes { self.new.bytes ≡ self.old.bytes }
        ensures ok { OnOk result (self.new ≡ record { count = self.old.count + 1; bytes = self.old.bytes }) }
        ensures err { OnErr result (self.new ≡ self.old) }
    {
        self.count = self.count.wrapping_add(1);
        if self.count == 0 {
            return refuse(&mut self.count);
        }
        Ok(())
    }

    /// A place less names it, and not the last one.
    pub fn set_count(&mut self, count: u32)
        requires { 0 < count }
        ensures { self.new ≡ record { count = count; bytes = self.old.bytes } }
    {
        self.count = count;
    }

    /// How many pages it has.
    pub fn len(&self) -> usize
        ensures { result ≡ length self.now.bytes }
    {
        self.pages.len()
    }

    /// The page at place `k`.
    pub fn page(&self, k: usize) -> u32
        requires { k < length self.now.bytes }
        ensures { result ≡ slice_index self.now.bytes k }
    {
        self.pages[k]
    }

    /// Takes the memory for so many more pages.
    pub fn reserve(&mut self, more: usize) -> Result<(), NoMemory>
        requires { 0 < self.old.count }
        ensures { self.new ≡ self.old }
    {
        self.pages.reserve(more)?;
        Ok(())
    }

    /// A sheaf with the same pages that one place names. Each of them is named once more.
    pub fn copied(&self, arena: &mut Arena) -> Result<Self, NoMemory>
        requires { AreCounted arena.old self.now.bytes }
        ensures sheaf { IfOk result (λ copy. copy ≡ record { count = 1; bytes = self.now.bytes }) }
        ensures moved { OnOk result (Moved arena.old [] arena.new self.now.bytes) }
        ensures err { OnErr result (Moved arena.old [] arena.new []) }
        ensures used { in_use arena.new ≤ in_use arena.old }
        ensures places { length arena.new ≡ length arena.old }
    {
        Ok(Sheaf {
            count: 1,
            pages: pages::share(*self.pages.allocator(), self.pages.as_slice(), arena)?,
        })
    }

    /// Makes the page at place `k` ready to be changed, as [`pages::prepare_page`] does.
    pub fn prepare_page(
        &mut self,
        arena: &mut Arena,
        k: usize,
        stored: bool,
    ) -> Result<(), NoMemory>
        requires counted { AreCounted arena.old self.old.bytes }
        requires near { k ≤ length self.old.bytes }
        requires named { 0 < self.old.count }
        ensures count { self.new.count ≡ self.old.count }
        ensures prepared { Prepared arena.old self.old.bytes arena.new self.new.bytes }
        ensures len { OnOk result (length self.new.bytes ≡ max (length self.old.bytes) (k + 1)) }
        ensures most { length self.new.bytes ≤ max (length self.old.bytes) (k + 1) }
        ensures ready { (byte : ℕ) → (byte ≢ 0 → IsTrue stored)
            → OnOk result (IsPageReady arena.new self.new.bytes k byte) }
        ensures used { in_use arena.new ≤ in_use arena.old + 1 }
        ensures places { KeepsMost arena.old arena.new }
    {
        pages::prepare_page(&mut self.pages, arena, k, stored)
    }

    /// Lets the pages go of a sheaf that no place names any more.
    pub fn free(&mut self, arena: &mut Arena)
        requires { AreCounted arena.old self.old.bytes }
        ensures sheaf { self.new ≡ record { count = 0; bytes = [] } }
        ensures moved { Moved arena.old self.old.bytes arena.new [] }
        ensures kept { (page : ℕ) → 0 < count_at arena.new page → bytes_at arena.new page ≡ bytes_at arena.old page }
        ensures used { in_use arena.new ≤ in_use arena.old }
        ensures places { length arena.new ≡ length arena.old }
    {
        pages::let_go(self.pages.as_slice(), arena);
        self.count = 0;
        self.pages = Vec::new(*self.pages.allocator());
    }
}

/// The count as it was before it went round to 0.
// Not inline: else each count is looked at before it is stored, three instructions more.
#[cold]
#[inline(never)]
fn refuse(count: &mut u32) -> Result<(), NoMemory>
    ensures count { count.new ≡ 4294967295 }
    ensures refused { IsErr result }
{
    *count = u32::MAX;
    Err(NoMemory)
}
