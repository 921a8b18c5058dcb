//! One page of an arena.
ghost use Rattle.std.specs.Prelude.{◌≡◌, ◌≢◌, ℕ, ◌+◌, ◌-◌, ◌<◌, ◌≤◌, [], length, slice_index, if◌then◌else◌, IfOk, OnOk, OnErr, IsErr, IsTrue};
ghost use Rattle.rbd_parts.specs.Contents.{is_within, window};
ghost use Rattle.rbd_pages.specs.Sheets.{Sheet};

use rbd_kinds::NoMemory;
use rbd_parts::{clear, copy_over};
use std::alloc::Global;
use std::marker::Model;

/// The size of a page in bytes (own; the page of x86-64 and of Ceph's BlueStore).
pub const PAGE: usize = 4096;

/// The bytes of a page at its first one that isn't zero.
const ZEROS: [u8; PAGE] = [0; PAGE];

/// How many places name it, and its bytes. A page of zeros has none, and keeps no memory for them:
/// it is taken at the first byte that isn't zero.
#[derive(Drop)]
pub struct Page {
    count: u32,
    bytes: Vec<u8>,
}

impl Model for Page {
    ghost use Rattle.std.specs.Prelude.{◌≡◌, ◌<◌, length};
    ghost use Rattle.std.specs.Vec.{vec_capacity};
    ghost use Rattle.rbd_pages.specs.Sheets.{Sheet};
    ghost use Rattle.rbd_pages.specs.declared.page.TheConstants.{PAGE};

    ghost Value = { Sheet };

    ghost view = { λ p. record { count = p.count; bytes = p.bytes.items } };

    ghost invariant = { λ p. (0 < length p.bytes.items → length p.bytes.items ≡ PAGE)
        × (length p.bytes.items ≡ 0 → vec_capacity p.bytes ≡ 0) };
}

impl Page {
    /// A page of zeros that one place names. It takes no memory.
    pub fn new(alloc: Global) -> Self
        ensures { result ≡ record { count = 1; bytes = [] } }
    {
        Page {
            count: 1,
            bytes: Vec::new(alloc),
        }
    }

    /// How many entries name it.
    pub fn count(&self) -> u32
        ensures { result ≡ self.now.count }
    {
        self.count
    }

    /// Whether one place names it, and its bytes are there.
    pub fn is_own(&self) -> bool
        ensures alone { IsTrue result → self.now.count ≡ 1 }
        ensures stored { IsTrue result → length self.now.bytes ≡ PAGE }
    {
        if self.count != 1 {
            return false;
        }
        !self.bytes.is_empty()
    }

    /// One place more names it. It is refused where the count would be too large.
    pub fn hold(&mut self) -> Result<(), NoMemory>
        ensures named { 0 < self.old.count → 0 < self.new.count }
        ensures bytes { self.new.bytes ≡ self.old.bytes }
        ensures ok { OnOk result (self.new ≡ record { count = self.old.count + 1; bytes = self.old.bytes }) }
        ensures err { OnErr result (self.new ≡ self.old) }
    {
        self.count = self.count.wrapping_add(1);
        if self.count == 0 {
            return self.refuse();
        }
        Ok(())
    }

    /// The count as it was before it went round to 0.
    // Not inline: else each count is looked at before it is stored, three instructions more.
    #[cold]
    #[inline(never)]
    fn refuse(&mut self) -> Result<(), NoMemory>
        ensures count { self.new ≡ record { count = 4294967295; bytes = self.old.bytes } }
        ensures refused { IsErr result }
    {
        self.count = u32::MAX;
        Err(NoMemory)
    }

    /// A place less names it.
    pub fn set_count(&mut self, count: u32)
        ensures { self.new ≡ record { count = count; bytes = self.old.bytes } }
    {
        self.count = count;
    }

    /// Drops the bytes of a page that no place names any more.
    pub fn free(&mut self)
        ensures { self.new ≡ record { count = 0; bytes = [] } }
    {
        self.count = 0;
        self.bytes = Vec::new(*self.bytes.allocator());
    }

    /// Takes the memory for its bytes, which stay as they are.
    pub fn store(&mut self) -> Result<(), NoMemory>
        ensures count { self.new.count ≡ self.old.count }
        ensures bytes { (k : ℕ) → slice_index self.new.bytes k ≡ slice_index self.old.bytes k }
        ensures stored { OnOk result (length self.new.bytes ≡ PAGE) }
        ensures err { OnErr result (self.new ≡ self.old) }
    {
        if self.bytes.is_empty() {
            self.bytes = Vec::from_slice(*self.bytes.allocator(), &ZEROS)?;
        }
        Ok(())
    }

    /// A page with the same bytes that one place names.
    pub fn copied(&self) -> Result<Self, NoMemory>
        ensures { IfOk result (λ page. page ≡ record { count = 1; bytes = self.now.bytes }) }
    {
        let alloc = *self.bytes.allocator();
        if self.bytes.is_empty() {
            return Ok(Page::new(alloc));
        }
        Ok(Page {
            count: 1,
            bytes: Vec::from_slice(alloc, self.bytes.as_slice())?,
        })
    }

    /// Fills a buffer with the bytes from offset `at` on, all of which lie on the page.
    pub fn read(&self, at: usize, into: &mut [u8])
        requires { at + length into.old ≤ PAGE }
        ensures { into.new ≡ window self.now.bytes at (length into.old) }
    {
        if self.bytes.is_empty() {
            into.fill(0);
            return;
        }
        into.copy_from_slice(&self.bytes[at..at + into.len()]);
    }

    /// Writes bytes from offset `at` on. Where one isn't zero, the memory for them has to be there.
    pub fn put(&mut self, at: usize, bytes: &[u8])
        requires within { at + length bytes.now ≤ PAGE }
        requires stored { (k : ℕ) → slice_index bytes.now k ≢ 0 → length self.old.bytes ≡ PAGE }
        ensures count { self.new.count ≡ self.old.count }
        ensures len { length self.new.bytes ≡ length self.old.bytes }
        ensures bytes { (k : ℕ) → slice_index self.new.bytes k
            ≡ (if is_within at (length bytes.now) k then slice_index bytes.now (k - at)
            else slice_index self.old.bytes k) }
    {
        if self.bytes.is_empty() {
            return;
        }
        copy_over(self.bytes.as_mut_slice(), at, bytes);
    }

    /// Makes `len` bytes from offset `at` on zero.
    pub fn clear(&mut self, at: usize, len: usize)
        requires { at + len ≤ PAGE }
        ensures count { self.new.count ≡ self.old.count }
        ensures len { length self.new.bytes ≡ length self.old.bytes }
        ensures bytes { (k : ℕ) → slice_index self.new.bytes k
            ≡ (if is_within at len k then 0 else slice_index self.old.bytes k) }
    {
        if self.bytes.is_empty() {
            return;
        }
        clear(self.bytes.as_mut_slice(), at, len);
    }
}
