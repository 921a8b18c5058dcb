//! Lists of sheaves, each the pages of one content.
ghost use Rattle.std.specs.Prelude.{◌≡◌, ◌≢◌, ℕ, ◌+◌, ◌-◌, ◌*◌, ◌/◌, ◌<◌, ◌≤◌, [], length, take, min, max, slice_index, IfOk, OnOk, OnErr, IsTrue, nat_lt};
ghost use Rattle.std.specs.List.{list_any};
ghost use Rattle.rbd_pages.specs.Paging.{AreApart, AreCounted, pages_for};
ghost use Rattle.rbd_pages.specs.Sheaves.{AreFull, Exchanged, IsOwnPage, ArePagesPrepared, IsSame, pages_in, sheaves_between, sheaves_for};
ghost use Rattle.rbd_pages.specs.Places.{Grown, NoneTaken, taken_at};
ghost use Rattle.rbd_pages.specs.Sheets.{count_at, in_use};
ghost use Rattle.rbd_pages.specs.declared.page.TheConstants.{PAGE};
ghost use Rattle.rbd_pages.specs.declared.sheaf.TheConstants.{SHEAF};
ghost use Rattle.rbd_parts.specs.declared.parts.TheConstants.{LARGEST_OBJECT};

use crate::page::PAGE;
use crate::sheaf::SHEAF;
use crate::sheaves::Sheaves;
use rbd_kinds::NoMemory;
use std::alloc::Global;

/// Makes bytes of a list that has at least `held` pages ready to be changed, `len` of them from
/// byte `at` on, to `bytes` as far as those go, and else to zeros. Sheaves and pages that others
/// name too are copied, and missing ones are added.
pub fn prepare(
    list: &mut Vec<u32>,
    sheaves: &mut Sheaves,
    held: usize,
    at: usize,
    len: usize,
    bytes: &[u8],
) -> Result<(), NoMemory>
    requires counted { AreCounted sheaves.old.sheaves list.old.items }
    requires apart { AreApart (pages_in sheaves.old.sheaves list.old.items) }
    requires full { AreFull sheaves.old.sheaves list.old.items }
    requires held { held ≤ length (pages_in sheaves.old.sheaves list.old.items) }
    requires within { at + len ≤ LARGEST_OBJECT }
    ensures prepared { ArePagesPrepared sheaves.old list.old.items sheaves.new list.new.items }
    ensures used { in_use sheaves.new.sheets + min held (at / PAGE)
        ≤ in_use sheaves.old.sheets + max (min held (at / PAGE)) (pages_for (at + len)) }
    ensures len { OnOk result (length list.new.items ≡ max (length list.old.items)
        (sheaves_for (pages_for (at + len)))) }
    ensures long { OnOk result (pages_for (at + len) ≤ length (pages_in sheaves.new.sheaves list.new.items)) }
    ensures ready { OnOk result ((j : ℕ) → j < len
        → IsOwnPage sheaves.new list.new.items ((at + j) / PAGE) (slice_index bytes.now j)) }
    ensures grown { Grown (pages_for (at + len) - min held (at / PAGE))
        (sheaves_between (min held (at / PAGE)) (pages_for (at + len)))
        sheaves.old sheaves.new }
{
    sheaves.reserve(pages_for(at + len).saturating_sub(held))?;
    prepare_each(list, sheaves, held, at, len, bytes)
}

/// Makes bytes ready as `prepare` does, page after page.
fn prepare_each(
    list: &mut Vec<u32>,
    sheaves: &mut Sheaves,
    held: usize,
    at: usize,
    len: usize,
    bytes: &[u8],
) -> Result<(), NoMemory>
    requires counted { AreCounted sheaves.old.sheaves list.old.items }
    requires apart { AreApart (pages_in sheaves.old.sheaves list.old.items) }
    requires full { AreFull sheaves.old.sheaves list.old.items }
    requires held { held ≤ length (pages_in sheaves.old.sheaves list.old.items) }
    requires within { at + len ≤ LARGEST_OBJECT }
    ensures prepared { ArePagesPrepared sheaves.old list.old.items sheaves.new list.new.items }
    ensures used { in_use sheaves.new.sheets + min held (at / PAGE)
        ≤ in_use sheaves.old.sheets + max (min held (at / PAGE)) (pages_for (at + len)) }
    ensures len { OnOk result (length list.new.items ≡ max (length list.old.items)
        (sheaves_for (pages_for (at + len)))) }
    ensures long { OnOk result (pages_for (at + len) ≤ length (pages_in sheaves.new.sheaves list.new.items)) }
    ensures ready { OnOk result ((j : ℕ) → j < len
        → IsOwnPage sheaves.new list.new.items ((at + j) / PAGE) (slice_index bytes.now j)) }
    ensures grown { Grown (pages_for (at + len) - min held (at / PAGE))
        (sheaves_between (min held (at / PAGE)) (pages_for (at + len)))
        sheaves.old sheaves.new }
{
    let first = held.min(at / PAGE);
    let end = pages_for(at + len);
    for k in first..end {
        prepare_page(list, sheaves, k, end - k, needs_store(bytes, at, k))?;
    }
    Ok(())
}

/// How many sheaves it takes for so many pages.
pub fn sheaves_for(pages: usize) -> usize
    requires { pages ≤ LARGEST_OBJECT }
    ensures { result ≡ sheaves_for pages }
{
    (pages + (SHEAF - 1)) / SHEAF
}

/// How many pages it takes for so many bytes.
pub fn pages_for(len: usize) -> usize
    requires { len ≤ LARGEST_OBJECT }
    ensures { result ≡ pages_for len }
{
    (len + (PAGE - 1)) / PAGE
}

/// Whether one of the bytes that lie on the page at place `k` isn't zero, where the first lies at
/// byte `at`.
fn needs_store(bytes: &[u8], at: usize, k: usize) -> bool
    requires { k < LARGEST_OBJECT }
    ensures { (j : ℕ) → j < length bytes.now → (at + j) / PAGE ≡ k → slice_index bytes.now j ≢ 0 → IsTrue result }
{
    let start = (k * PAGE).saturating_sub(at).min(bytes.len());
    let end = (k * PAGE + PAGE).saturating_sub(at).min(bytes.len());
    let (front, _) = bytes.split_at(end);
    let (_, part) = front.split_at(start);
    has_value(part)
}

/// Whether a byte isn't zero.
fn has_value(bytes: &[u8]) -> bool
    ensures { result ≡ list_any (λ b. nat_lt 0 b) bytes.now }
{
    bytes.iter().any(|byte| *byte > 0)
}

/// Makes the page at place `k` ready, which is the next one where it isn't there. `more` pages are
/// wanted from there on.
fn prepare_page(
    list: &mut Vec<u32>,
    sheaves: &mut Sheaves,
    k: usize,
    more: usize,
    stored: bool,
) -> Result<(), NoMemory>
    requires counted { AreCounted sheaves.old.sheaves list.old.items }
    requires apart { AreApart (pages_in sheaves.old.sheaves list.old.items) }
    requires full { AreFull sheaves.old.sheaves list.old.items }
    requires near { k ≤ length (pages_in sheaves.old.sheaves list.old.items) }
    ensures prepared { ArePagesPrepared sheaves.old list.old.items sheaves.new list.new.items }
    ensures len { OnOk result (length list.new.items ≡ max (length list.old.items) (k / SHEAF + 1)) }
    ensures long { OnOk result (k + 1 ≤ length (pages_in sheaves.new.sheaves list.new.items)) }
    ensures ready { (byte : ℕ) → (byte ≢ 0 → IsTrue stored)
        → OnOk result (IsOwnPage sheaves.new list.new.items k byte) }
    ensures used { in_use sheaves.new.sheets ≤ in_use sheaves.old.sheets + 1 }
    ensures grown { Grown 1 (taken_at sheaves.old.sheaves list.old.items (k / SHEAF)) sheaves.old sheaves.new }
{
    have(list, sheaves, k, more)?;
    sheaves.prepare_page(list[k / SHEAF], k % SHEAF, stored)
}

/// Makes the sheaf of the page at place `k` this list's alone, which is the next one where it isn't
/// there.
fn have(list: &mut Vec<u32>, sheaves: &mut Sheaves, k: usize, more: usize) -> Result<(), NoMemory>
    requires counted { AreCounted sheaves.old.sheaves list.old.items }
    requires apart { AreApart (pages_in sheaves.old.sheaves list.old.items) }
    requires full { AreFull sheaves.old.sheaves list.old.items }
    requires near { k ≤ length (pages_in sheaves.old.sheaves list.old.items) }
    ensures prepared { ArePagesPrepared sheaves.old list.old.items sheaves.new list.new.items }
    ensures same { pages_in sheaves.new.sheaves list.new.items ≡ pages_in sheaves.old.sheaves list.old.items }
    ensures len { OnOk result (length list.new.items ≡ max (length list.old.items) (k / SHEAF + 1)) }
    ensures alone { OnOk result (count_at sheaves.new.sheaves (slice_index list.new.items (k / SHEAF)) ≡ 1) }
    ensures used { in_use sheaves.new.sheets ≤ in_use sheaves.old.sheets }
    ensures grown { Grown 0 (taken_at sheaves.old.sheaves list.old.items (k / SHEAF)) sheaves.old sheaves.new }
{
    if k / SHEAF < list.len() {
        own(list, sheaves, k / SHEAF)
    } else {
        extend(list, sheaves, more.min(SHEAF))
    }
}

/// Makes the sheaf at place `m` this list's alone: a sheaf that others name too is copied.
fn own(list: &mut Vec<u32>, sheaves: &mut Sheaves, m: usize) -> Result<(), NoMemory>
    requires counted { AreCounted sheaves.old.sheaves list.old.items }
    requires apart { AreApart (pages_in sheaves.old.sheaves list.old.items) }
    requires full { AreFull sheaves.old.sheaves list.old.items }
    requires there { m < length list.old.items }
    ensures prepared { ArePagesPrepared sheaves.old list.old.items sheaves.new list.new.items }
    ensures same { pages_in sheaves.new.sheaves list.new.items ≡ pages_in sheaves.old.sheaves list.old.items }
    ensures len { length list.new.items ≡ length list.old.items }
    ensures alone { OnOk result (count_at sheaves.new.sheaves (slice_index list.new.items m) ≡ 1) }
    ensures used { in_use sheaves.new.sheets ≤ in_use sheaves.old.sheets }
    ensures grown { Grown 0 (taken_at sheaves.old.sheaves list.old.items m) sheaves.old sheaves.new }
{
    let index = list[m];
    if sheaves.count(index) > 1 {
        let copy = sheaves.copy(index)?;
        sheaves.release(index);
        list[m] = copy;
    }
    Ok(())
}

/// Adds a sheaf without pages, but with memory for some, where all others are full.
fn extend(list: &mut Vec<u32>, sheaves: &mut Sheaves, room: usize) -> Result<(), NoMemory>
    requires counted { AreCounted sheaves.old.sheaves list.old.items }
    requires apart { AreApart (pages_in sheaves.old.sheaves list.old.items) }
    requires full { AreFull sheaves.old.sheaves list.old.items }
    requires long { length list.old.items * SHEAF ≤ length (pages_in sheaves.old.sheaves list.old.items) }
    ensures prepared { ArePagesPrepared sheaves.old list.old.items sheaves.new list.new.items }
    ensures same { pages_in sheaves.new.sheaves list.new.items ≡ pages_in sheaves.old.sheaves list.old.items }
    ensures len { OnOk result (length list.new.items ≡ length list.old.items + 1) }
    ensures alone { OnOk result (count_at sheaves.new.sheaves (slice_index list.new.items (length list.old.items))
        ≡ 1) }
    ensures used { in_use sheaves.new.sheets ≤ in_use sheaves.old.sheets }
    ensures grown { Grown 0 1 sheaves.old sheaves.new }
{
    list.reserve(1)?;
    let sheaf = sheaves.add(room)?;
    list.push_reserved(sheaf);
    Ok(())
}

/// Drops the sheaves from place `len` on.
pub fn cut(list: &mut Vec<u32>, sheaves: &mut Sheaves, len: usize)
    requires counted { AreCounted sheaves.old.sheaves list.old.items }
    ensures list { list.new.items ≡ take len list.old.items }
    ensures exchanged { Exchanged sheaves.old list.old.items sheaves.new list.new.items }
    ensures kept { (s : ℕ) → 0 < count_at sheaves.new.sheaves s → IsSame sheaves.old sheaves.new s }
    ensures used { in_use sheaves.new.sheets ≤ in_use sheaves.old.sheets }
    ensures places { NoneTaken sheaves.old sheaves.new }
{
    while list.len() > len {
        let sheaf = list.pop().unwrap();
        sheaves.release(sheaf);
    }
}

/// One place less names each of the sheaves.
pub fn let_go(list: &[u32], sheaves: &mut Sheaves)
    requires counted { AreCounted sheaves.old.sheaves list.now }
    ensures exchanged { Exchanged sheaves.old list.now sheaves.new [] }
    ensures kept { (s : ℕ) → 0 < count_at sheaves.new.sheaves s → IsSame sheaves.old sheaves.new s }
    ensures used { in_use sheaves.new.sheets ≤ in_use sheaves.old.sheets }
    ensures places { NoneTaken sheaves.old sheaves.new }
{
    for sheaf in list {
        sheaves.release(*sheaf);
    }
}

/// The same sheaves once more, which two lists then name.
pub fn share(alloc: Global, list: &[u32], sheaves: &mut Sheaves) -> Result<Vec<u32>, NoMemory>
    requires counted { AreCounted sheaves.old.sheaves list.now }
    ensures exchanged { IfOk result (λ copy. Exchanged sheaves.old [] sheaves.new copy.items) }
    ensures same { IfOk result (λ copy. copy.items ≡ list.now) }
    ensures err { OnErr result (Exchanged sheaves.old [] sheaves.new []) }
    ensures used { in_use sheaves.new.sheets ≤ in_use sheaves.old.sheets }
    ensures places { NoneTaken sheaves.old sheaves.new }
{
    let copy = Vec::from_slice(alloc, list)?;
    hold(list, sheaves)?;
    Ok(copy)
}

/// One place more names each of the sheaves. Where that is refused for one, none is named more.
fn hold(list: &[u32], sheaves: &mut Sheaves) -> Result<(), NoMemory>
    requires counted { AreCounted sheaves.old.sheaves list.now }
    ensures exchanged { OnOk result (Exchanged sheaves.old [] sheaves.new list.now) }
    ensures err { OnErr result (Exchanged sheaves.old [] sheaves.new []) }
    ensures used { in_use sheaves.new.sheets ≤ in_use sheaves.old.sheets }
    ensures places { NoneTaken sheaves.old sheaves.new }
{
    for k in 0..list.len() {
        match sheaves.hold(list[k]) {
            Ok(()) => {}
            Err(refused) => {
                let (held, _) = list.split_at(k);
                let_go(held, sheaves);
                return Err(refused);
            }
        }
    }
    Ok(())
}
