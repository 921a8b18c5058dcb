//! The sheaves that the contents of an object share, and their pages.
ghost use Rattle.std.specs.Prelude.{◌≡◌, ◌≢◌, ℕ, ◌+◌, ◌/◌, ◌<◌, ◌≤◌, [], length, max, slice_index, IfOk, OnOk, OnErr, IsTrue, false};
ghost use Rattle.rbd_pages.specs.Places.{KeepsMost, KnowsFree, NoneTaken, TakesFreeFirst};
ghost use Rattle.rbd_pages.specs.Paging.{AreApart, AreCounted, IsPageReady, IsWritten, IsZeroed, Prepared, byte_on_pages, occurs};
ghost use Rattle.rbd_pages.specs.Sheaves.{AreFull, AreStocked, IsOnOwn, IsSame, named_in, pages_in};
ghost use Rattle.std.specs.Vec.{vec_len, vec_capacity};
ghost use Rattle.rbd_pages.specs.Sheets.{Changed, bytes_at, count_at, in_use, released, sheet_at};
ghost use Rattle.rbd_pages.specs.declared.page.TheConstants.{PAGE};
ghost use Rattle.rbd_parts.specs.declared.parts.TheConstants.{LARGEST_OBJECT};

use crate::arena::Arena;
use crate::bytes;
use crate::sheaf::Sheaf;
use rbd_kinds::NoMemory;
use std::alloc::Global;
use std::marker::Model;

/// Counted sheaves, named by their index, and the counted pages that they name. A sheaf with count
/// 0 is free and has no page: its place is taken again before there are more, so there are never
/// more places than sheaves were named at once.
#[derive(Drop)]
pub struct Sheaves {
    arena: Arena,
    sheaves: Vec<Sheaf>,
    /// The places for sheaves that are free. It has room for all.
    free: Vec<u32>,
}

impl Model for Sheaves {
    ghost use Rattle.std.specs.Vec.{vec_capacity};
    ghost use Rattle.rbd_pages.specs.Places.{KnowsFree};
    ghost use Rattle.rbd_pages.specs.Sheaves.{AreStocked, Stock};

    ghost Value = { Stock };

    ghost view = { λ a. record { sheaves = a.sheaves.items; sheets = a.arena } };

    ghost invariant = { λ a. AreStocked (record { sheaves = a.sheaves.items; sheets = a.arena })
        × KnowsFree a.sheaves.items a.free.items (vec_capacity a.free) };
}

impl Sheaves {
    /// No sheaves and no pages. It takes no memory.
    pub fn new(alloc: Global) -> Self
        ensures { result ≡ record { sheaves = []; sheets = [] } }
    {
        Sheaves {
            arena: Arena::new(alloc),
            sheaves: Vec::new(alloc),
            free: Vec::new(alloc),
        }
    }

    /// How many pages have a count above 0.
    pub fn used(&self) -> u32
        ensures used { result ≡ in_use self.now.sheets }
        ensures stocked { AreStocked self.now }
    {
        self.arena.used()
    }

    /// How many places for sheaves there are, free ones among them.
    pub fn places(&self) -> usize
        ensures places { result ≡ length self.now.sheaves }
        ensures stocked { AreStocked self.now }
    {
        self.sheaves.len()
    }

    /// How many places for pages there are, free ones among them.
    pub fn page_places(&self) -> usize
        ensures { result ≡ length self.now.sheets }
    {
        self.arena.places()
    }

    /// Takes the memory for so many more pages at once, those aside that free ones have.
    pub fn reserve(&mut self, more: usize) -> Result<(), NoMemory>
        ensures { self.new ≡ self.old }
    {
        self.arena.reserve(more)
    }

    /// How many places name a sheaf.
    pub fn count(&self, index: u32) -> u32
        requires { 0 < count_at self.now.sheaves index }
        ensures count { result ≡ count_at self.now.sheaves index }
        ensures stocked { AreStocked self.now }
    {
        self.sheaves[index as usize].count()
    }

    /// A sheaf without pages, but with memory for some, that one place names.
    pub fn add(&mut self, room: usize) -> Result<u32, NoMemory>
        ensures free { IfOk result (λ s. count_at self.old.sheaves s ≡ 0) }
        ensures changed { IfOk result (λ s. Changed s self.old.sheaves self.new.sheaves) }
        ensures sheaf { IfOk result (λ s. sheet_at self.new.sheaves s ≡ record { count = 1; bytes = [] }) }
        ensures sheets { self.new.sheets ≡ self.old.sheets }
        ensures places { TakesFreeFirst self.old.sheaves self.new.sheaves }
        ensures err { OnErr result (self.new ≡ self.old) }
        ensures most { KeepsMost self.old.sheaves self.new.sheaves }
    {
        let mut sheaf = Sheaf::new(*self.sheaves.allocator());
        sheaf.reserve(room)?;
        make_room(&mut self.sheaves, &mut self.free)?;
        Ok(put_in(&mut self.sheaves, &mut self.free, sheaf))
    }

    /// A sheaf that one place names, with the pages of another. Each of them is named once more.
    pub fn copy(&mut self, index: u32) -> Result<u32, NoMemory>
        requires { 0 < count_at self.old.sheaves index }
        ensures free { IfOk result (λ s. count_at self.old.sheaves s ≡ 0) }
        ensures changed { IfOk result (λ s. Changed s self.old.sheaves self.new.sheaves) }
        ensures sheaf { IfOk result (λ s. sheet_at self.new.sheaves s
            ≡ record { count = 1; bytes = bytes_at self.old.sheaves index }) }
        ensures counts { OnOk result ((page : ℕ) → count_at self.new.sheets page
            ≡ count_at self.old.sheets page + occurs page (bytes_at self.old.sheaves index)) }
        ensures bytes { (page : ℕ) → 0 < count_at self.old.sheets page
            → bytes_at self.new.sheets page ≡ bytes_at self.old.sheets page }
        ensures used { in_use self.new.sheets ≤ in_use self.old.sheets }
        ensures places { TakesFreeFirst self.old.sheaves self.new.sheaves }
        ensures err { OnErr result (self.new.sheaves ≡ self.old.sheaves) }
        ensures same { OnErr result ((page : ℕ) → count_at self.new.sheets page ≡ count_at self.old.sheets page) }
        ensures most { KeepsMost self.old.sheaves self.new.sheaves }
        ensures page_places { length self.new.sheets ≡ length self.old.sheets }
    {
        make_room(&mut self.sheaves, &mut self.free)?;
        let sheaf = self.sheaves[index as usize].copied(&mut self.arena)?;
        Ok(put_in(&mut self.sheaves, &mut self.free, sheaf))
    }

    /// One place more names a sheaf. It is refused where the count would be too large.
    pub fn hold(&mut self, index: u32) -> Result<(), NoMemory>
        requires { 0 < count_at self.old.sheaves index }
        ensures changed { Changed index self.old.sheaves self.new.sheaves }
        ensures count { OnOk result (count_at self.new.sheaves index ≡ count_at self.old.sheaves index + 1) }
        ensures pages { bytes_at self.new.sheaves index ≡ bytes_at self.old.sheaves index }
        ensures sheets { self.new.sheets ≡ self.old.sheets }
        ensures err { OnErr result (self.new ≡ self.old) }
        ensures places { NoneTaken self.old self.new }
    {
        self.sheaves[index as usize].hold()
    }

    /// One place less names a sheaf. Where that was the last one, it is free, and names its pages
    /// no more.
    pub fn release(&mut self, index: u32)
        requires { 0 < count_at self.old.sheaves index }
        ensures changed { Changed index self.old.sheaves self.new.sheaves }
        ensures sheaf { sheet_at self.new.sheaves index ≡ released (sheet_at self.old.sheaves index) }
        ensures shared { 1 < count_at self.old.sheaves index → self.new.sheets ≡ self.old.sheets }
        ensures kept { (s : ℕ) → 0 < count_at self.new.sheaves s → IsSame self.old self.new s }
        ensures used { in_use self.new.sheets ≤ in_use self.old.sheets }
        ensures places { NoneTaken self.old self.new }
    {
        let sheaf = &mut self.sheaves[index as usize];
        let count = sheaf.count();
        if count > 1 {
            sheaf.set_count(count - 1);
            return;
        }
        sheaf.free(&mut self.arena);
        self.free.push_reserved(index);
    }

    /// Makes the page at place `k` of a sheaf ready to be changed, which is the next one where it
    /// isn't there.
    pub fn prepare_page(&mut self, index: u32, k: usize, stored: bool) -> Result<(), NoMemory>
        requires alone { count_at self.old.sheaves index ≡ 1 }
        requires near { k ≤ length (bytes_at self.old.sheaves index) }
        ensures changed { Changed index self.old.sheaves self.new.sheaves }
        ensures count { count_at self.new.sheaves index ≡ 1 }
        ensures prepared { Prepared self.old.sheets (bytes_at self.old.sheaves index) self.new.sheets
            (bytes_at self.new.sheaves index) }
        ensures len { OnOk result (length (bytes_at self.new.sheaves index)
            ≡ max (length (bytes_at self.old.sheaves index)) (k + 1)) }
        ensures most { length (bytes_at self.new.sheaves index) ≤ max (length (bytes_at self.old.sheaves index))
            (k + 1) }
        ensures ready { (byte : ℕ) → (byte ≢ 0 → IsTrue stored)
            → OnOk result (IsPageReady self.new.sheets (bytes_at self.new.sheaves index) k byte) }
        ensures others { (s : ℕ) → s ≢ index → IsSame self.old self.new s }
        ensures used { in_use self.new.sheets ≤ in_use self.old.sheets + 1 }
        ensures stocked { AreStocked self.old }
        ensures page_places { KeepsMost self.old.sheets self.new.sheets }
        ensures places { length self.new.sheaves ≡ length self.old.sheaves }
    {
        self.sheaves[index as usize].prepare_page(&mut self.arena, k, stored)
    }

    /// Writes bytes from byte `at` of a list's pages on, where they lie on one page that can be
    /// changed as it is. Else it is false, and nothing changes.
    pub fn put_in_place(&mut self, list: &[u32], at: usize, bytes: &[u8]) -> bool
        requires counted { AreCounted self.old.sheaves list.now }
        requires apart { AreApart (pages_in self.old.sheaves list.now) }
        requires full { AreFull self.old.sheaves list.now }
        requires within { at + length bytes.now ≤ LARGEST_OBJECT }
        ensures own { IsTrue result → IsOnOwn self.old list.now at (length bytes.now) }
        ensures sheaves { self.new.sheaves ≡ self.old.sheaves }
        ensures written { IsTrue result
            → IsWritten (pages_in self.old.sheaves list.now) at bytes.now self.old.sheets self.new.sheets }
        ensures same { result ≡ false → self.new ≡ self.old }
        ensures stocked { AreStocked self.old }
    {
        bytes::put_in_place(list, self.sheaves.as_slice(), &mut self.arena, at, bytes)
    }

    /// Writes bytes from byte `at` of a list's pages on.
    pub fn put(&mut self, list: &[u32], at: usize, bytes: &[u8])
        requires counted { AreCounted self.old.sheaves list.now }
        requires apart { AreApart (pages_in self.old.sheaves list.now) }
        requires full { AreFull self.old.sheaves list.now }
        requires within { at + length bytes.now ≤ LARGEST_OBJECT }
        requires ready { (j : ℕ) → j < length bytes.now
            → IsPageReady self.old.sheets (pages_in self.old.sheaves list.now) ((at + j) / PAGE)
            (slice_index bytes.now j) }
        ensures sheaves { self.new.sheaves ≡ self.old.sheaves }
        ensures written { IsWritten (pages_in self.old.sheaves list.now) at bytes.now self.old.sheets self.new.sheets }
        ensures stocked { AreStocked self.old }
    {
        bytes::put(list, self.sheaves.as_slice(), &mut self.arena, at, bytes);
    }

    /// Makes `len` bytes from byte `at` of a list's pages on zero.
    pub fn zero(&mut self, list: &[u32], at: usize, len: usize)
        requires counted { AreCounted self.old.sheaves list.now }
        requires apart { AreApart (pages_in self.old.sheaves list.now) }
        requires full { AreFull self.old.sheaves list.now }
        requires within { at + len ≤ LARGEST_OBJECT }
        requires ready { (j : ℕ) → j < len → IsPageReady self.old.sheets (pages_in self.old.sheaves list.now)
            ((at + j) / PAGE) 0 }
        ensures sheaves { self.new.sheaves ≡ self.old.sheaves }
        ensures zeroed { IsZeroed (pages_in self.old.sheaves list.now) at len self.old.sheets self.new.sheets }
        ensures stocked { AreStocked self.old }
    {
        bytes::zero(list, self.sheaves.as_slice(), &mut self.arena, at, len);
    }

    /// Fills a buffer with the bytes from byte `at` of a list's pages on, and with zeros where
    /// there is no page.
    pub fn read(&self, list: &[u32], at: usize, into: &mut [u8])
        requires counted { AreCounted self.now.sheaves list.now }
        requires full { AreFull self.now.sheaves list.now }
        requires apart { AreApart (pages_in self.now.sheaves list.now) }
        requires within { at ≤ LARGEST_OBJECT }
        ensures len { length into.new ≡ length into.old }
        ensures bytes { (j : ℕ) → j < length into.old
            → slice_index into.new j ≡ byte_on_pages self.now.sheets (pages_in self.now.sheaves list.now) (at + j) }
    {
        bytes::read(list, self.sheaves.as_slice(), &self.arena, at, into);
    }
}

/// Takes the memory for one more sheaf, and for its place among the free ones.
fn make_room(sheaves: &mut Vec<Sheaf>, free: &mut Vec<u32>) -> Result<(), NoMemory>
    requires known { KnowsFree sheaves.old.items free.old.items (vec_capacity free.old) }
    ensures items { sheaves.new.items ≡ sheaves.old.items }
    ensures known { KnowsFree sheaves.new.items free.new.items (vec_capacity free.new) }
    ensures room { OnOk result (vec_len sheaves.new < vec_capacity sheaves.new) }
    ensures place { OnOk result (length sheaves.new.items < vec_capacity free.new) }
    ensures few { OnOk result (length sheaves.old.items < 4294967295) }
{
    let len = sheaves.len();
    if len >= u32::MAX as usize {
        return Err(NoMemory);
    }
    free.reserve(len + 1 - free.len())?;
    sheaves.reserve(1)?;
    Ok(())
}

/// Puts a sheaf at a free place, or at one more, for which there has to be room.
fn put_in(sheaves: &mut Vec<Sheaf>, free: &mut Vec<u32>, sheaf: Sheaf) -> u32
    requires sheaf { sheaf.count ≡ 1 }
    requires known { KnowsFree sheaves.old.items free.old.items (vec_capacity free.old) }
    requires room { vec_len sheaves.old < vec_capacity sheaves.old }
    requires place { length sheaves.old.items < vec_capacity free.old }
    requires few { length sheaves.old.items < 4294967295 }
    ensures free { count_at sheaves.old.items result ≡ 0 }
    ensures changed { Changed result sheaves.old.items sheaves.new.items }
    ensures sheaf { sheet_at sheaves.new.items result ≡ sheaf }
    ensures named { (page : ℕ) → named_in page sheaves.new.items + occurs page (bytes_at sheaves.old.items result)
        ≡ named_in page sheaves.old.items + occurs page sheaf.bytes }
    ensures places { TakesFreeFirst sheaves.old.items sheaves.new.items }
    ensures known { KnowsFree sheaves.new.items free.new.items (vec_capacity free.new) }
    ensures most { KeepsMost sheaves.old.items sheaves.new.items }
{
    match free.pop() {
        Some(index) => {
            sheaves[index as usize] = sheaf;
            index
        }
        None => {
            let index = sheaves.len() as u32;
            sheaves.push_reserved(sheaf);
            index
        }
    }
}
