//! Lists of pages, each those of one sheaf.
ghost use Rattle.std.specs.Prelude.{◌≡◌, ◌≢◌, ℕ, ◌+◌, ◌<◌, ◌≤◌, [], length, take, max, IfOk, OnOk, OnErr, IsTrue};
ghost use Rattle.rbd_pages.specs.Places.{KeepsMost};
ghost use Rattle.rbd_pages.specs.Sheets.{bytes_at, count_at, in_use};
ghost use Rattle.rbd_pages.specs.Paging.{AreCounted, IsPageReady, Moved, Prepared};

use crate::arena::Arena;
use rbd_kinds::NoMemory;
use std::alloc::Global;

/// Makes the page at place `k` ready, which is the next one where it isn't there.
pub fn prepare_page(
    pages: &mut Vec<u32>,
    arena: &mut Arena,
    k: usize,
    stored: bool,
) -> Result<(), NoMemory>
    requires counted { AreCounted arena.old pages.old.items }
    requires near { k ≤ length pages.old.items }
    ensures prepared { Prepared arena.old pages.old.items arena.new pages.new.items }
    ensures len { OnOk result (length pages.new.items ≡ max (length pages.old.items) (k + 1)) }
    ensures most { length pages.new.items ≤ max (length pages.old.items) (k + 1) }
    ensures ready { (byte : ℕ) → (byte ≢ 0 → IsTrue stored)
        → OnOk result (IsPageReady arena.new pages.new.items k byte) }
    ensures used { in_use arena.new ≤ in_use arena.old + 1 }
    ensures places { KeepsMost arena.old arena.new }
{
    have(pages, arena, k)?;
    store(pages.as_slice(), arena, k, stored)
}

/// Makes the page at place `k` this list's alone, which is the next one where it isn't there.
fn have(pages: &mut Vec<u32>, arena: &mut Arena, k: usize) -> Result<(), NoMemory>
    requires counted { AreCounted arena.old pages.old.items }
    requires near { k ≤ length pages.old.items }
    ensures prepared { Prepared arena.old pages.old.items arena.new pages.new.items }
    ensures len { OnOk result (length pages.new.items ≡ max (length pages.old.items) (k + 1)) }
    ensures most { length pages.new.items ≤ max (length pages.old.items) (k + 1) }
    ensures ready { OnOk result (IsPageReady arena.new pages.new.items k 0) }
    ensures used { in_use arena.new ≤ in_use arena.old + 1 }
    ensures places { KeepsMost arena.old arena.new }
{
    if k < pages.len() {
        own(pages, arena, k)
    } else {
        extend(pages, arena)
    }
}

/// Makes the page at place `k` this list's alone: a page that others name too is copied.
fn own(pages: &mut Vec<u32>, arena: &mut Arena, k: usize) -> Result<(), NoMemory>
    requires counted { AreCounted arena.old pages.old.items }
    requires there { k < length pages.old.items }
    ensures prepared { Prepared arena.old pages.old.items arena.new pages.new.items }
    ensures len { length pages.new.items ≡ length pages.old.items }
    ensures ready { OnOk result (IsPageReady arena.new pages.new.items k 0) }
    ensures used { in_use arena.new ≤ in_use arena.old + 1 }
    ensures places { KeepsMost arena.old arena.new }
{
    let index = pages[k];
    if arena.count(index) > 1 {
        let copy = arena.copy(index)?;
        arena.release(index);
        pages[k] = copy;
    }
    Ok(())
}

/// Adds a page of zeros.
fn extend(pages: &mut Vec<u32>, arena: &mut Arena) -> Result<(), NoMemory>
    requires counted { AreCounted arena.old pages.old.items }
    ensures prepared { Prepared arena.old pages.old.items arena.new pages.new.items }
    ensures len { OnOk result (length pages.new.items ≡ length pages.old.items + 1) }
    ensures most { length pages.new.items ≤ length pages.old.items + 1 }
    ensures ready { OnOk result (IsPageReady arena.new pages.new.items (length pages.old.items) 0) }
    ensures used { in_use arena.new ≤ in_use arena.old + 1 }
    ensures places { KeepsMost arena.old arena.new }
{
    pages.reserve(1)?;
    let page = arena.add()?;
    pages.push_reserved(page);
    Ok(())
}

/// Takes the memory for the page at place `k`, where a byte is to be written that isn't zero.
fn store(pages: &[u32], arena: &mut Arena, k: usize, wanted: bool) -> Result<(), NoMemory>
    requires counted { AreCounted arena.old pages.now }
    requires ready { IsPageReady arena.old pages.now k 0 }
    ensures prepared { Prepared arena.old pages.now arena.new pages.now }
    ensures ready { (byte : ℕ) → (byte ≢ 0 → IsTrue wanted) → OnOk result (IsPageReady arena.new pages.now k byte) }
    ensures used { in_use arena.new ≡ in_use arena.old }
    ensures places { length arena.new ≡ length arena.old }
{
    if wanted {
        arena.store(pages[k])?;
    }
    Ok(())
}

/// Drops the pages from place `len` on.
pub fn cut(pages: &mut Vec<u32>, arena: &mut Arena, len: usize)
    requires counted { AreCounted arena.old pages.old.items }
    ensures pages { pages.new.items ≡ take len pages.old.items }
    ensures moved { Moved arena.old pages.old.items arena.new pages.new.items }
    ensures kept { (page : ℕ) → 0 < count_at arena.new page → bytes_at arena.new page ≡ bytes_at arena.old page }
    ensures used { in_use arena.new ≤ in_use arena.old }
    ensures places { length arena.new ≡ length arena.old }
{
    while pages.len() > len {
        let page = pages.pop().unwrap();
        arena.release(page);
    }
}

/// One place less names each of the pages.
pub fn let_go(pages: &[u32], arena: &mut Arena)
    requires counted { AreCounted arena.old pages.now }
    ensures moved { Moved arena.old pages.now arena.new [] }
    ensures kept { (page : ℕ) → 0 < count_at arena.new page → bytes_at arena.new page ≡ bytes_at arena.old page }
    ensures used { in_use arena.new ≤ in_use arena.old }
    ensures places { length arena.new ≡ length arena.old }
{
    for page in pages {
        arena.release(*page);
    }
}

/// The same pages once more, which two lists then name.
pub fn share(alloc: Global, pages: &[u32], arena: &mut Arena) -> Result<Vec<u32>, NoMemory>
    requires counted { AreCounted arena.old pages.now }
    ensures moved { IfOk result (λ copy. Moved arena.old [] arena.new copy.items) }
    ensures same { IfOk result (λ copy. copy.items ≡ pages.now) }
    ensures err { OnErr result (Moved arena.old [] arena.new []) }
    ensures used { in_use arena.new ≤ in_use arena.old }
    ensures places { length arena.new ≡ length arena.old }
{
    let copy = Vec::from_slice(alloc, pages)?;
    hold(pages, arena)?;
    Ok(copy)
}

/// One place more names each of the pages. Where that is refused for one, none is named more.
fn hold(pages: &[u32], arena: &mut Arena) -> Result<(), NoMemory>
    requires counted { AreCounted arena.old pages.now }
    ensures moved { OnOk result (Moved arena.old [] arena.new pages.now) }
    ensures err { OnErr result (Moved arena.old [] arena.new []) }
    ensures used { in_use arena.new ≤ in_use arena.old }
    ensures places { length arena.new ≡ length arena.old }
{
    for k in 0..pages.len() {
        match arena.hold(pages[k]) {
            Ok(()) => {}
            Err(refused) => {
                let (held, _) = pages.split_at(k);
                let_go(held, arena);
                return Err(refused);
            }
        }
    }
    Ok(())
}
