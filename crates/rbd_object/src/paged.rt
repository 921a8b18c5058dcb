//! The object on its pages: what it shows, and how many pages that takes.
ghost use Rattle.std.specs.Prelude.{◌≡◌, ℕ, ◌+◌, ◌<◌, ◌≤◌, ◌↔◌, [], List, length, max, min, Some, None, unwrap_or, option_map, option_copied, IsTrue, OnOk, OnErr, IfOk, IfSome, IsSome, IsNone, Option, Ok, false};
ghost use Rattle.rbd_object.specs.Changes.{FitsObject, after, pages_taken, sheaves_taken};
ghost use Rattle.rbd_parts.specs.Contents.{window, overwritten, zeroed};
ghost use Rattle.rbd_object.specs.Versioned.{view, IsTidy};
ghost use Rattle.rbd_object.specs.Mapped.{versioned, mapped_blank, mapped_change, mapped_copy_up, mapped_trim, due_snaps};
ghost use Rattle.rbd_object.specs.Kept.{new_version};
ghost use Rattle.rbd_object.specs.Paged.{KeepsPlaces};
ghost use Rattle.rbd_pages.specs.Paging.{pages_for};
ghost use Rattle.rbd_pages.specs.Sheaves.{sheaves_for};
ghost use Rattle.rbd_kinds.specs.Parts.{parts_len};
ghost use Rattle.rbd_parts.specs.Parts.{parts_of, parts_written, parts_zeroed, AreWithin};
ghost use Rattle.rbd_pages.specs.Listed.{sheaves_touched, touched};
ghost use Rattle.rbd_object.specs.Shared.{written_sheaves, written_touch, zeroed_sheaves, zeroed_touch, view_in};

use crate::change::ObjectChange;
use crate::version::Version;
use crate::{heads, versions};
use rbd_kinds::{Bytes, NoMemory, Part, SnapContext, SnapId};
use rbd_pages::{Content, Sheaves};
use rbd_parts::LARGEST_OBJECT;
use std::alloc::Global;
use std::collections::VecDeque;
use std::marker::Model;

/// An object as [`crate::Object`] is one, whose contracts see its pages too: `shown` is the
/// object's value, `pages` and `sheaves` how many of them have a count above 0, and `page_places`
/// and `sheaf_places` how many places there are for them.
#[derive(Drop)]
pub struct PagedObject {
    sheaves: Sheaves,
    head: Option<Content>,
    seq: SnapId,
    /// Newest first.
    versions: VecDeque<Version>,
}

impl Model for PagedObject {
    ghost use Rattle.rbd_object.specs.Paged.{Paged, paged_code, paged_of, IsPaged};

    ghost Value = { Paged };

    ghost coded = { paged_code };

    ghost view = { λ o. paged_of o.sheaves o.head o.seq o.versions.items };

    ghost invariant = { λ o. IsPaged o.sheaves o.head o.seq o.versions.items };
}

impl PagedObject {
    /// An object that nothing was done to. It takes no memory.
    pub fn new(alloc: Global) -> Self
        ensures shown { result.shown ≡ mapped_blank }
        ensures pages { result.pages ≡ 0 }
        ensures page_places { result.page_places ≡ 0 }
        ensures sheaf_places { result.sheaf_places ≡ 0 }
    {
        PagedObject {
            sheaves: Sheaves::new(alloc),
            head: None,
            seq: SnapId(0),
            versions: VecDeque::new(alloc),
        }
    }

    /// How many pages have a count above 0: at least those of the longest content, and none where
    /// no content has a byte. It takes no memory.
    pub fn pages(&self) -> u64
        ensures count { result ≡ self.now.pages }
        ensures longest { (snap : Option ℕ) (bytes : List ℕ) → view (versioned self.now.shown) snap ≡ Some bytes
            → pages_for (length bytes) ≤ result }
        ensures none { ((snap : Option ℕ) (bytes : List ℕ) → view (versioned self.now.shown) snap ≡ Some bytes
            → bytes ≡ []) → result ≡ 0 }
    {
        u64::from(self.sheaves.used())
    }

    /// How many places for pages there are, free ones among them. These are taken again before
    /// there are more: each call says so of itself, and [`crate::laws::places_were_in_use`] of any
    /// run of calls. It takes no memory.
    pub fn page_places(&self) -> u64
        ensures places { result ≡ self.now.page_places }
        ensures used { self.now.pages ≤ result }
    {
        self.sheaves.page_places() as u64
    }

    /// How many places for sheaves of pages there are, free ones among them, as `page_places` tells
    /// it of pages.
    pub fn sheaf_places(&self) -> u64
        ensures places { result ≡ self.now.sheaf_places }
        ensures used { self.now.sheaves ≤ result }
        ensures some { 0 < self.now.pages → 0 < result }
    {
        self.sheaves.places() as u64
    }

    /// Whether the object is there: in the head (None), or in a snapshot. It takes no memory.
    pub fn exists(&self, snap: Option<SnapId>) -> bool
        ensures shown { IsTrue result ↔ IsSome (view (versioned self.now.shown) snap) }
        ensures tidy { IsTidy (versioned self.now.shown) }
    {
        match shown(&self.head, self.seq, &self.versions, snap) {
            Some(_) => true,
            None => false,
        }
    }

    /// Fills a buffer with the bytes of the head (None) or of a snapshot, from the byte `at` on,
    /// and with zeros past the last one. It is false exactly where the object is absent there, and
    /// then the buffer stays. It takes no memory.
    pub fn read(&self, snap: Option<SnapId>, at: u64, into: &mut [u8]) -> bool
        ensures shown { IsTrue result ↔ IsSome (view (versioned self.now.shown) snap) }
        ensures bytes { IfSome (view (versioned self.now.shown) snap)
            (λ bytes. into.new ≡ window bytes at (length into.old)) }
        ensures absent { view (versioned self.now.shown) snap ≡ None → into.new ≡ into.old }
    {
        match shown(&self.head, self.seq, &self.versions, snap) {
            Some(content) => {
                content.read(&self.sheaves, at, into);
                true
            }
            None => false,
        }
    }

    /// A copy of the bytes of the parts, one part after another, in the head (None) or in a
    /// snapshot, with zeros past the last one. It is `None` exactly where the object is absent
    /// there.
    pub fn read_parts(
        &self,
        snap: Option<SnapId>,
        parts: &[Part],
    ) -> Result<Option<Bytes>, NoMemory>
        ensures { IfOk result (λ read. read ≡ option_map (parts_of parts.now) (view (versioned self.now.shown) snap)) }
    {
        match shown(&self.head, self.seq, &self.versions, snap) {
            Some(content) => Ok(Some(Bytes::from_vec(content.read_parts(&self.sheaves, parts)?))),
            None => Ok(None),
        }
    }

    /// Writes bytes into the head, from the byte `at` on.
    pub fn write(&mut self, context: &SnapContext, at: u64, bytes: &[u8]) -> Result<(), NoMemory>
        requires { at + length bytes.now ≤ LARGEST_OBJECT }
        ensures ok { let head = overwritten (unwrap_or self.old.shown.head []) at bytes.now in
            OnOk result (self.new.shown ≡ mapped_change context.now (Some head) self.old.shown) }
        ensures err { OnErr result (self.new.shown ≡ self.old.shown) }
        ensures pages { self.new.pages ≤ self.old.pages + touched (min (length (unwrap_or self.old.shown.head [])) at)
            (at + length bytes.now) }
        ensures places { let len = length (unwrap_or self.old.shown.head []) in
            KeepsPlaces (touched (min len at) (at + length bytes.now))
            (sheaves_touched (min len at) (at + length bytes.now)) self.old self.new }
    {
        self.change(context, ObjectChange::Write(at, bytes))
    }

    /// Writes bytes into parts of the head, one part after another. All parts are written, or none.
    pub fn write_parts(
        &mut self,
        context: &SnapContext,
        parts: &[Part],
        bytes: &[u8],
    ) -> Result<(), NoMemory>
        requires within { AreWithin parts.now }
        requires long { length bytes.now ≡ parts_len parts.now }
        ensures ok { let head = parts_written parts.now bytes.now (unwrap_or self.old.shown.head []) in
            OnOk result (self.new.shown ≡ mapped_change context.now (Some head) self.old.shown) }
        ensures err { OnErr result (self.new.shown ≡ self.old.shown) }
        ensures pages { self.new.pages ≤ self.old.pages + written_touch
            (length (unwrap_or self.old.shown.head [])) parts.now }
        ensures places { let len = length (unwrap_or self.old.shown.head []) in
            KeepsPlaces (written_touch len parts.now) (written_sheaves len parts.now) self.old self.new }
    {
        self.change(context, ObjectChange::WriteParts(parts, bytes))
    }

    /// Makes the head exactly these bytes.
    pub fn write_full(&mut self, context: &SnapContext, bytes: &[u8]) -> Result<(), NoMemory>
        requires { length bytes.now ≤ LARGEST_OBJECT }
        ensures ok { OnOk result (self.new.shown ≡ mapped_change context.now (Some bytes.now) self.old.shown) }
        ensures err { OnErr result (self.new.shown ≡ self.old.shown) }
        ensures pages { self.new.pages ≤ self.old.pages + pages_for (length bytes.now) }
        ensures places { KeepsPlaces (pages_for (length bytes.now))
            (sheaves_for (pages_for (length bytes.now))) self.old self.new }
    {
        self.change(context, ObjectChange::WriteFull(bytes))
    }

    /// Makes `len` bytes of the head zero, from the byte `at` on and as far as it goes.
    pub fn zero(&mut self, context: &SnapContext, at: u64, len: u64) -> Result<(), NoMemory>
        ensures ok { let head = option_map (λ held. zeroed held at len) self.old.shown.head in
            OnOk result (self.new.shown ≡ mapped_change context.now head self.old.shown) }
        ensures err { OnErr result (self.new.shown ≡ self.old.shown) }
        ensures pages { self.new.pages ≤ self.old.pages + touched at (at + len) }
        ensures places { KeepsPlaces (touched at (at + len)) (sheaves_touched at (at + len)) self.old self.new }
    {
        self.change(context, ObjectChange::Zero(at, len))
    }

    /// Makes parts of the head zero, as `zero` does with one.
    pub fn zero_parts(&mut self, context: &SnapContext, parts: &[Part]) -> Result<(), NoMemory>
        ensures ok { let head = option_map (parts_zeroed parts.now) self.old.shown.head in
            OnOk result (self.new.shown ≡ mapped_change context.now head self.old.shown) }
        ensures err { OnErr result (self.new.shown ≡ self.old.shown) }
        ensures pages { self.new.pages ≤ self.old.pages + zeroed_touch parts.now }
        ensures places { KeepsPlaces (zeroed_touch parts.now) (zeroed_sheaves parts.now) self.old self.new }
    {
        self.change(context, ObjectChange::ZeroParts(parts))
    }

    /// Makes the head exist and have no bytes.
    pub fn empty(&mut self, context: &SnapContext) -> Result<(), NoMemory>
        ensures ok { OnOk result (self.new.shown ≡ mapped_change context.now (Some []) self.old.shown) }
        ensures err { OnErr result (self.new.shown ≡ self.old.shown) }
        ensures pages { self.new.pages ≤ self.old.pages }
        ensures places { KeepsPlaces 0 0 self.old self.new }
    {
        self.change(context, ObjectChange::Empty)
    }

    /// Makes the head absent.
    pub fn remove(&mut self, context: &SnapContext) -> Result<(), NoMemory>
        ensures ok { OnOk result (self.new.shown ≡ mapped_change context.now None self.old.shown) }
        ensures err { OnErr result (self.new.shown ≡ self.old.shown) }
        ensures pages { self.new.pages ≤ self.old.pages }
        ensures places { KeepsPlaces 0 0 self.old self.new }
    {
        self.change(context, ObjectChange::Remove)
    }

    /// Fills an absent head with the bytes that a clone's parent has there. It is false exactly
    /// where the head exists, and then nothing changes.
    pub fn copy_up(&mut self, bytes: &[u8]) -> Result<bool, NoMemory>
        ensures exists { IsSome self.old.shown.head → result ≡ Ok false }
        ensures copied { IfOk result (λ copied. IsTrue copied ↔ IsNone self.old.shown.head) }
        ensures ok { OnOk result (self.new.shown ≡ mapped_copy_up bytes.now self.old.shown) }
        ensures err { OnErr result (self.new.shown ≡ self.old.shown) }
        ensures pages { self.new.pages ≤ self.old.pages + pages_for (length bytes.now) }
        ensures places { KeepsPlaces (pages_for (length bytes.now))
            (sheaves_for (pages_for (length bytes.now))) self.old self.new }
    {
        if self.head.is_some() {
            return Ok(false);
        }
        if bytes.len() as u64 > LARGEST_OBJECT {
            return Err(NoMemory);
        }
        let alloc = self.alloc();
        heads::fill(alloc, &mut self.sheaves, &mut self.head, bytes)?;
        Ok(true)
    }

    /// Drops what is kept for snapshots that aren't live. It takes no memory.
    pub fn trim(&mut self, live: &[SnapId])
        ensures shown { self.new.shown ≡ mapped_trim live.now self.old.shown }
        ensures pages { self.new.pages ≤ self.old.pages }
        ensures page_places { self.new.page_places ≡ self.old.page_places }
        ensures sheaf_places { self.new.sheaf_places ≡ self.old.sheaf_places }
        ensures sheaves { self.new.sheaves ≤ self.old.sheaves }
    {
        versions::let_go(&self.versions, &mut self.sheaves, live);
        versions::keep_live(&mut self.versions, live);
    }

    /// A change under a context: the head as it was is kept for the snapshots for which it is the
    /// first.
    fn change(&mut self, context: &SnapContext, change: ObjectChange) -> Result<(), NoMemory>
        requires { FitsObject change }
        ensures ok { OnOk result (self.new.shown ≡ mapped_change context.now
            (after change.entry self.old.shown.head) self.old.shown) }
        ensures err { OnErr result (self.new.shown ≡ self.old.shown) }
        ensures pages { self.new.pages ≤ self.old.pages + pages_taken change.entry
            (length (unwrap_or self.old.shown.head [])) }
        ensures places { let len = length (unwrap_or self.old.shown.head []) in
            KeepsPlaces (pages_taken change.entry len) (sheaves_taken change.entry len) self.old self.new }
    {
        let alloc = self.alloc();
        let snaps = self.snaps_to_keep(context)?;
        let wanted = !snaps.is_empty();
        versions::make_room(&mut self.versions, wanted)?;
        let kept = heads::change(alloc, &mut self.sheaves, &mut self.head, wanted, change)?;
        versions::add(&mut self.versions, versions::version_of(kept, snaps));
        self.seq = later(self.seq, context.seq);
        Ok(())
    }

    /// The snapshots that a change has to keep the head for.
    fn snaps_to_keep(&self, context: &SnapContext) -> Result<Vec<SnapId>, NoMemory>
        ensures { let due = due_snaps context.now self.now.shown.seq in
            IfOk result (λ snaps. new_version self.now.shown.head snaps.items ≡ new_version self.now.shown.head due) }
    {
        if self.head.is_none() {
            return Ok(Vec::new(self.alloc()));
        }
        due(self.alloc(), context, self.seq)
    }

    fn alloc(&self) -> Global {
        *self.versions.allocator()
    }
}

/// What the head or a snapshot shows.
fn shown<'a>(
    head: &'a Option<Content>,
    seq: SnapId,
    versions: &'a VecDeque<Version>,
    snap: Option<SnapId>,
) -> Option<&'a Content>
    ensures { option_copied result ≡ view_in head.now seq versions.now.items snap }
{
    let Some(snap) = snap else {
        return head.as_ref();
    };
    if seq < snap {
        return head.as_ref();
    }
    versions::kept_for(versions, snap)
}

fn later(seq: SnapId, number: SnapId) -> SnapId
    ensures { result ≡ max seq number }
{
    if seq < number { number } else { seq }
}

/// The listed snapshots for which a change is the first.
fn due(alloc: Global, context: &SnapContext, seq: SnapId) -> Result<Vec<SnapId>, NoMemory>
    ensures { IfOk result (λ snaps. snaps.items ≡ due_snaps context.now seq) }
{
    let newest = context.seq;
    if newest <= seq {
        return Ok(Vec::new(alloc));
    }
    let listed = context.snaps.as_slice();
    Ok(
        listed
            .iter()
            .copied()
            .filter(|snap| seq < *snap && *snap <= newest)
            .collect(alloc)?,
    )
}
