//! The bytes of a head or of a version.
ghost use Rattle.std.specs.Prelude.{◌≡◌, ℕ, ◌+◌, ◌-◌, ◌/◌, ◌≤◌, ◌<◌, [], ◌++◌, length, min, max, slice_index, IfOk, OnOk, OnErr, IsTrue, false};
ghost use Rattle.rbd_parts.specs.Contents.{window, overwritten, zeroed};
ghost use Rattle.rbd_pages.specs.Paging.{AreCounted, pages_for};
ghost use Rattle.rbd_parts.specs.Parts.{parts_of};
ghost use Rattle.rbd_pages.specs.Listed.{IsContent, listed_bytes, pages_on, sheaves_touched, touched};
ghost use Rattle.rbd_pages.specs.Sheaves.{Exchanged, IsOwnPage, ArePagesPrepared, IsSame, sheaves_between, sheaves_for};
ghost use Rattle.rbd_pages.specs.Places.{Grown, NoneTaken};
ghost use Rattle.rbd_pages.specs.Sheets.{count_at, in_use};
ghost use Rattle.rbd_pages.specs.declared.page.TheConstants.{PAGE};
ghost use Rattle.rbd_parts.specs.declared.parts.TheConstants.{LARGEST_OBJECT};

use crate::lists;
use crate::sheaves::Sheaves;
use rbd_kinds::{NoMemory, Part};
use std::alloc::Global;
use std::marker::Model;

/// Bytes that an object holds, as a list of sheaves of its pages. They are changed in place where
/// no other content names the sheaf, and no other sheaf the page.
#[derive(Drop)]
pub struct Content {
    list: Vec<u32>,
    len: usize,
}

impl Model for Content {
    ghost use Rattle.rbd_pages.specs.Listed.{Listed};

    ghost Value = { Listed };

    ghost view = { λ c. record { sheaves = c.list.items; len = c.len } };
}

impl Content {
    /// No bytes. It takes no memory.
    pub fn new(alloc: Global) -> Self
        ensures { result ≡ record { sheaves = []; len = 0 } }
    {
        Content {
            list: Vec::new(alloc),
            len: 0,
        }
    }

    /// How many bytes it has.
    pub fn len(&self) -> usize
        ensures { result ≡ self.now.len }
    {
        self.len
    }

    // Not inline: it would push this rare work into every write.
    /// The same bytes once more, on the same sheaves, of which each counts one more owner. Refused
    /// memory, nothing changes.
    #[inline(never)]
    pub fn share(&self, sheaves: &mut Sheaves) -> Result<Self, NoMemory>
        requires counted { AreCounted sheaves.old.sheaves self.now.sheaves }
        ensures exchanged { IfOk result (λ copy. Exchanged sheaves.old [] sheaves.new copy.sheaves) }
        ensures same { IfOk result (λ copy. copy ≡ self.now) }
        ensures err { OnErr result (Exchanged sheaves.old [] sheaves.new []) }
        ensures used { in_use sheaves.new.sheets ≤ in_use sheaves.old.sheets }
        ensures places { NoneTaken sheaves.old sheaves.new }
    {
        Ok(Content {
            list: lists::share(*self.list.allocator(), self.list.as_slice(), sheaves)?,
            len: self.len,
        })
    }

    /// Lets its sheaves go. Those that no other content names are free then, and so are pages that
    /// no other sheaf names.
    pub fn let_go(&self, sheaves: &mut Sheaves)
        requires counted { AreCounted sheaves.old.sheaves self.now.sheaves }
        ensures exchanged { Exchanged sheaves.old self.now.sheaves sheaves.new [] }
        ensures kept { (s : ℕ) → 0 < count_at sheaves.new.sheaves s → IsSame sheaves.old sheaves.new s }
        ensures used { in_use sheaves.new.sheets ≤ in_use sheaves.old.sheets }
        ensures places { NoneTaken sheaves.old sheaves.new }
    {
        lists::let_go(self.list.as_slice(), sheaves);
    }

    /// Fills a buffer with the bytes from offset `at` on, and with zeros past the last.
    pub fn read(&self, sheaves: &Sheaves, at: u64, into: &mut [u8])
        requires counted { AreCounted sheaves.now.sheaves self.now.sheaves }
        requires content { IsContent sheaves.now self.now }
        ensures { into.new ≡ window (listed_bytes sheaves.now self.now) at (length into.old) }
    {
        if at >= self.len as u64 {
            into.fill(0);
            return;
        }
        sheaves.read(self.list.as_slice(), at as usize, into);
    }

    /// A copy of the bytes of the parts, one part after another, with zeros past the last byte.
    pub fn read_parts(&self, sheaves: &Sheaves, parts: &[Part]) -> Result<Vec<u8>, NoMemory>
        requires counted { AreCounted sheaves.now.sheaves self.now.sheaves }
        requires content { IsContent sheaves.now self.now }
        ensures { IfOk result (λ read. read.items ≡ parts_of parts.now (listed_bytes sheaves.now self.now)) }
    {
        let mut read = Vec::new(*self.list.allocator());
        for part in parts {
            self.append_part(sheaves, &mut read, part)?;
        }
        Ok(read)
    }

    /// Adds the bytes of a part, with zeros past the last byte.
    fn append_part(
        &self,
        sheaves: &Sheaves,
        read: &mut Vec<u8>,
        part: &Part,
    ) -> Result<(), NoMemory>
        requires counted { AreCounted sheaves.now.sheaves self.now.sheaves }
        requires content { IsContent sheaves.now self.now }
        ensures { OnOk result (read.new.items ≡ read.old.items
            ++ window (listed_bytes sheaves.now self.now) part.now.offset part.now.len) }
    {
        let start = read.len();
        let Some(end) = start.checked_add(part.len as usize) else {
            return Err(NoMemory);
        };
        read.resize(end, 0)?;
        let (_, added) = read.as_mut_slice().split_at_mut(start);
        self.read(sheaves, part.offset, added);
        Ok(())
    }

    /// Writes bytes from offset `at` on. Where that is past the end, there are zeros between.
    pub fn write(&mut self, sheaves: &mut Sheaves, at: u64, bytes: &[u8]) -> Result<(), NoMemory>
        requires within { at + length bytes.now ≤ LARGEST_OBJECT }
        requires counted { AreCounted sheaves.old.sheaves self.old.sheaves }
        requires content { IsContent sheaves.old self.old }
        ensures exchanged { Exchanged sheaves.old self.old.sheaves sheaves.new self.new.sheaves }
        ensures content { IsContent sheaves.new self.new }
        ensures ok { OnOk result (listed_bytes sheaves.new self.new
            ≡ overwritten (listed_bytes sheaves.old self.old) at bytes.now) }
        ensures err { OnErr result (listed_bytes sheaves.new self.new ≡ listed_bytes sheaves.old self.old) }
        ensures used { in_use sheaves.new.sheets ≤ in_use sheaves.old.sheets + touched (min self.old.len at)
            (at + length bytes.now) }
        ensures grown { Grown (touched (min self.old.len at) (at + length bytes.now))
            (sheaves_touched (min self.old.len at) (at + length bytes.now))
            sheaves.old sheaves.new }
    {
        if self.write_in_place(sheaves, at, bytes) {
            return Ok(());
        }
        self.write_prepared(sheaves, at, bytes)
    }

    /// Writes bytes as `write` does, where they lie on one page that can be changed as it is. Else
    /// it is false, and nothing changes.
    fn write_in_place(&mut self, sheaves: &mut Sheaves, at: u64, bytes: &[u8]) -> bool
        requires within { at + length bytes.now ≤ LARGEST_OBJECT }
        requires counted { AreCounted sheaves.old.sheaves self.old.sheaves }
        requires content { IsContent sheaves.old self.old }
        ensures exchanged { Exchanged sheaves.old self.old.sheaves sheaves.new self.new.sheaves }
        ensures content { IsContent sheaves.new self.new }
        ensures done { IsTrue result → listed_bytes sheaves.new self.new
            ≡ overwritten (listed_bytes sheaves.old self.old) at bytes.now }
        ensures same { result ≡ false → self.new ≡ self.old }
        ensures sheaves { result ≡ false → sheaves.new ≡ sheaves.old }
        ensures used { in_use sheaves.new.sheets ≡ in_use sheaves.old.sheets }
        ensures places { NoneTaken sheaves.old sheaves.new }
    {
        let end = at as usize + bytes.len();
        if !sheaves.put_in_place(self.list.as_slice(), at as usize, bytes) {
            return false;
        }
        self.len = self.len.max(end);
        true
    }

    /// Writes bytes as `write` does, and makes their pages ready beforehand.
    // Not inline: it would push this rarer work into every write.
    #[inline(never)]
    fn write_prepared(
        &mut self,
        sheaves: &mut Sheaves,
        at: u64,
        bytes: &[u8],
    ) -> Result<(), NoMemory>
        requires within { at + length bytes.now ≤ LARGEST_OBJECT }
        requires counted { AreCounted sheaves.old.sheaves self.old.sheaves }
        requires content { IsContent sheaves.old self.old }
        ensures exchanged { Exchanged sheaves.old self.old.sheaves sheaves.new self.new.sheaves }
        ensures content { IsContent sheaves.new self.new }
        ensures ok { OnOk result (listed_bytes sheaves.new self.new
            ≡ overwritten (listed_bytes sheaves.old self.old) at bytes.now) }
        ensures err { OnErr result (listed_bytes sheaves.new self.new ≡ listed_bytes sheaves.old self.old) }
        ensures used { in_use sheaves.new.sheets ≤ in_use sheaves.old.sheets + touched (min self.old.len at)
            (at + length bytes.now) }
        ensures grown { Grown (touched (min self.old.len at) (at + length bytes.now))
            (sheaves_touched (min self.old.len at) (at + length bytes.now))
            sheaves.old sheaves.new }
    {
        let at = at as usize;
        if bytes.is_empty() && at <= self.len {
            return Ok(());
        }
        self.prepare(sheaves, at, bytes.len(), bytes)?;
        sheaves.put(self.list.as_slice(), at, bytes);
        self.len = self.len.max(at + bytes.len());
        Ok(())
    }

    /// Makes `len` bytes from offset `at` on zero, as far as there are bytes.
    pub fn zero(&mut self, sheaves: &mut Sheaves, at: u64, len: u64) -> Result<(), NoMemory>
        requires counted { AreCounted sheaves.old.sheaves self.old.sheaves }
        requires content { IsContent sheaves.old self.old }
        ensures exchanged { Exchanged sheaves.old self.old.sheaves sheaves.new self.new.sheaves }
        ensures content { IsContent sheaves.new self.new }
        ensures ok { OnOk result (listed_bytes sheaves.new self.new
            ≡ zeroed (listed_bytes sheaves.old self.old) at len) }
        ensures err { OnErr result (listed_bytes sheaves.new self.new ≡ listed_bytes sheaves.old self.old) }
        ensures used { in_use sheaves.new.sheets ≤ in_use sheaves.old.sheets + touched at (at + len) }
        ensures grown { Grown (touched at (at + len)) (sheaves_touched at (at + len)) sheaves.old sheaves.new }
    {
        let from = (at as usize).min(self.len);
        let count = (len as usize).min(self.len - from);
        if count == 0 {
            return Ok(());
        }
        let none: &[u8] = &[];
        self.prepare(sheaves, from, count, none)?;
        sheaves.zero(self.list.as_slice(), from, count);
        Ok(())
    }

    /// Makes bytes ready to be changed, as [`lists::prepare`] does. Refused memory, the content has
    /// the bytes that it had.
    fn prepare(
        &mut self,
        sheaves: &mut Sheaves,
        at: usize,
        len: usize,
        bytes: &[u8],
    ) -> Result<(), NoMemory>
        requires within { at + len ≤ LARGEST_OBJECT }
        requires counted { AreCounted sheaves.old.sheaves self.old.sheaves }
        requires content { IsContent sheaves.old self.old }
        ensures same { self.new.len ≡ self.old.len }
        ensures prepared { OnOk result (ArePagesPrepared sheaves.old self.old.sheaves sheaves.new self.new.sheaves) }
        ensures held { OnOk result (length self.new.sheaves ≡ max (length self.old.sheaves)
            (sheaves_for (pages_for (at + len)))) }
        ensures long { OnOk result (pages_for (at + len) ≤ length (pages_on sheaves.new self.new)) }
        ensures ready { OnOk result ((j : ℕ) → j < len → IsOwnPage sheaves.new self.new.sheaves ((at + j) / PAGE)
            (slice_index bytes.now j)) }
        ensures exchanged { OnErr result (Exchanged sheaves.old self.old.sheaves sheaves.new self.new.sheaves) }
        ensures content { OnErr result (IsContent sheaves.new self.new) }
        ensures err { OnErr result (listed_bytes sheaves.new self.new ≡ listed_bytes sheaves.old self.old) }
        ensures used { in_use sheaves.new.sheets + min (pages_for self.old.len) (at / PAGE)
            ≤ in_use sheaves.old.sheets + max (min (pages_for self.old.len) (at / PAGE)) (pages_for (at + len)) }
        ensures grown { Grown (pages_for (at + len) - min (pages_for self.old.len) (at / PAGE))
            (sheaves_between (min (pages_for self.old.len) (at / PAGE)) (pages_for (at + len))) sheaves.old
            sheaves.new }
    {
        let held = lists::pages_for(self.len);
        match lists::prepare(&mut self.list, sheaves, held, at, len, bytes) {
            Ok(()) => Ok(()),
            Err(refused) => {
                lists::cut(&mut self.list, sheaves, lists::sheaves_for(held));
                Err(refused)
            }
        }
    }
}
