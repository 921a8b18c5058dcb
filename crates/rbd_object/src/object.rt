//! The object: a head, and what is kept for snapshots.
ghost use Rattle.std.specs.Prelude.{◌≡◌, ℕ, ◌+◌, ◌≤◌, ◌↔◌, [], List, length, Some, None, unwrap_or, option_map, IsTrue, OnOk, OnErr, IfOk, IfSome, IsSome, IsNone, false, Option};
ghost use Rattle.rbd_parts.specs.Contents.{window, overwritten, zeroed};
ghost use Rattle.rbd_object.specs.Versioned.{view, IsTidy};
ghost use Rattle.rbd_object.specs.Mapped.{versioned, mapped_blank, mapped_change, mapped_copy_up, mapped_trim};
ghost use Rattle.rbd_pages.specs.Paging.{pages_for};
ghost use Rattle.rbd_kinds.specs.Parts.{parts_len};
ghost use Rattle.rbd_parts.specs.Parts.{parts_of, parts_written, parts_zeroed, AreWithin};

use crate::paged::PagedObject;
use rbd_kinds::{Bytes, NoMemory, Part, SnapContext, SnapId};
use rbd_parts::LARGEST_OBJECT;
use std::alloc::Global;
use std::marker::Model;

/// An object with self-managed snapshots (Ceph: RADOS). Contracts see it as `Mapped`: a head that
/// is absent or bytes, the number `seq`, and the bytes that are kept for snapshots up to it.
#[derive(Drop)]
pub struct Object {
    paged: PagedObject,
}

impl Model for Object {
    ghost use Rattle.rbd_object.specs.Mapped.{Mapped, mapped_code};

    ghost Value = { Mapped };

    ghost coded = { mapped_code };

    ghost view = { λ o. o.paged.shown };
}

impl Object {
    /// An object that nothing was done to: its head is absent. It takes no memory.
    pub fn new(alloc: Global) -> Self
        ensures { result ≡ mapped_blank }
    {
        Object {
            paged: PagedObject::new(alloc),
        }
    }

    /// How many pages its contents lie on, each counted once: at least those of the longest one,
    /// and none where no content has a byte. It takes no memory.
    pub fn pages(&self) -> u64
        ensures longest { (snap : Option ℕ) (bytes : List ℕ) → view (versioned self.now) snap ≡ Some bytes
            → pages_for (length bytes) ≤ result }
        ensures none { ((snap : Option ℕ) (bytes : List ℕ) → view (versioned self.now) snap ≡ Some bytes → bytes ≡ [])
            → result ≡ 0 }
    {
        self.paged.pages()
    }

    /// Whether the object is there: in the head (None), or in a snapshot. It takes no memory.
    pub fn exists(&self, snap: Option<SnapId>) -> bool
        ensures shown { IsTrue result ↔ IsSome (view (versioned self.now) snap) }
        ensures tidy { IsTidy (versioned self.now) }
    {
        self.paged.exists(snap)
    }

    /// Fills a buffer with the bytes of the head (None) or of a snapshot, from the byte `at` on,
    /// and with zeros past the last one. It is false exactly where the object is absent there, and
    /// then the buffer stays. It takes no memory.
    pub fn read(&self, snap: Option<SnapId>, at: u64, into: &mut [u8]) -> bool
        ensures shown { IsTrue result ↔ IsSome (view (versioned self.now) snap) }
        ensures bytes { IfSome (view (versioned self.now) snap)
            (λ bytes. into.new ≡ window bytes at (length into.old)) }
        ensures absent { view (versioned self.now) snap ≡ None → into.new ≡ into.old }
    {
        self.paged.read(snap, at, into)
    }

    /// A copy of the bytes of the parts, one part after another, in the head (None) or in a
    /// snapshot, with zeros past the last one. It is `None` exactly where the object is absent
    /// there.
    pub fn read_parts(
        &self,
        snap: Option<SnapId>,
        parts: &[Part],
    ) -> Result<Option<Bytes>, NoMemory>
        ensures { IfOk result (λ read. read ≡ option_map (parts_of parts.now) (view (versioned self.now) snap)) }
    {
        self.paged.read_parts(snap, parts)
    }

    /// Writes bytes into the head, from the byte `at` on. A gap is zeros, and an absent head begins
    /// with no bytes. Refused memory, nothing changes; so it is for each change.
    pub fn write(&mut self, context: &SnapContext, at: u64, bytes: &[u8]) -> Result<(), NoMemory>
        requires { at + length bytes.now ≤ LARGEST_OBJECT }
        ensures ok { let head = overwritten (unwrap_or self.old.head []) at bytes.now in
            OnOk result (self.new ≡ mapped_change context.now (Some head) self.old) }
        ensures err { OnErr result (self.new ≡ self.old) }
    {
        self.paged.write(context, at, bytes)
    }

    /// Writes bytes into parts of the head, one part after another, as `write` does into one. All
    /// parts are written, or none.
    pub fn write_parts(
        &mut self,
        context: &SnapContext,
        parts: &[Part],
        bytes: &[u8],
    ) -> Result<(), NoMemory>
        requires within { AreWithin parts.now }
        requires long { length bytes.now ≡ parts_len parts.now }
        ensures ok { let head = parts_written parts.now bytes.now (unwrap_or self.old.head []) in
            OnOk result (self.new ≡ mapped_change context.now (Some head) self.old) }
        ensures err { OnErr result (self.new ≡ self.old) }
    {
        self.paged.write_parts(context, parts, bytes)
    }

    /// Makes the head exactly these bytes.
    pub fn write_full(&mut self, context: &SnapContext, bytes: &[u8]) -> Result<(), NoMemory>
        requires { length bytes.now ≤ LARGEST_OBJECT }
        ensures ok { OnOk result (self.new ≡ mapped_change context.now (Some bytes.now) self.old) }
        ensures err { OnErr result (self.new ≡ self.old) }
    {
        self.paged.write_full(context, bytes)
    }

    /// Makes `len` bytes of the head zero, from the byte `at` on and as far as it goes: its length
    /// stays, and an absent head stays absent.
    pub fn zero(&mut self, context: &SnapContext, at: u64, len: u64) -> Result<(), NoMemory>
        ensures ok { let head = option_map (λ held. zeroed held at len) self.old.head in
            OnOk result (self.new ≡ mapped_change context.now head self.old) }
        ensures err { OnErr result (self.new ≡ self.old) }
    {
        self.paged.zero(context, at, len)
    }

    /// Makes parts of the head zero, as `zero` does with one.
    pub fn zero_parts(&mut self, context: &SnapContext, parts: &[Part]) -> Result<(), NoMemory>
        ensures ok { let head = option_map (parts_zeroed parts.now) self.old.head in
            OnOk result (self.new ≡ mapped_change context.now head self.old) }
        ensures err { OnErr result (self.new ≡ self.old) }
    {
        self.paged.zero_parts(context, parts)
    }

    /// Makes the head exist and have no bytes.
    pub fn empty(&mut self, context: &SnapContext) -> Result<(), NoMemory>
        ensures ok { OnOk result (self.new ≡ mapped_change context.now (Some []) self.old) }
        ensures err { OnErr result (self.new ≡ self.old) }
    {
        self.paged.empty(context)
    }

    /// Makes the head absent.
    pub fn remove(&mut self, context: &SnapContext) -> Result<(), NoMemory>
        ensures ok { OnOk result (self.new ≡ mapped_change context.now None self.old) }
        ensures err { OnErr result (self.new ≡ self.old) }
    {
        self.paged.remove(context)
    }

    /// Fills an absent head with the bytes that a clone's parent has there (Ceph: RBD layering). It
    /// is false exactly where the head exists, and then nothing changes. It is no change of what
    /// the clone shows, so it carries no context: nothing is kept, and `seq` stays (own).
    pub fn copy_up(&mut self, bytes: &[u8]) -> Result<bool, NoMemory>
        ensures exists { IsSome self.old.head → result ≡ Ok false }
        ensures copied { IfOk result (λ copied. IsTrue copied ↔ IsNone self.old.head) }
        ensures ok { OnOk result (self.new ≡ mapped_copy_up bytes.now self.old) }
        ensures err { OnErr result (self.new ≡ self.old) }
    {
        self.paged.copy_up(bytes)
    }

    /// Drops what is kept for snapshots that aren't live. It takes no memory.
    pub fn trim(&mut self, live: &[SnapId])
        ensures { self.new ≡ mapped_trim live.now self.old }
    {
        self.paged.trim(live);
    }
}
