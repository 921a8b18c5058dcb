//! The bytes of a list of sheaves, on the pages that these name.
ghost use Rattle.std.specs.Prelude.{◌≡◌, ℕ, ◌+◌, ◌/◌, ◌<◌, ◌≤◌, length, slice_index, IfSome, None, IsTrue, false};
ghost use Rattle.rbd_parts.specs.Contents.{window};
ghost use Rattle.rbd_pages.specs.Paging.{AreCounted, IsPageReady, IsWritten, IsZeroed, byte_on_pages, bytes_on};
ghost use Rattle.rbd_pages.specs.Sheaves.{AreFull, IsOnOwn, IsOwnPage, pages_in};
ghost use Rattle.rbd_pages.specs.declared.page.TheConstants.{PAGE};
ghost use Rattle.rbd_parts.specs.declared.parts.TheConstants.{LARGEST_OBJECT};

use crate::arena::Arena;
use crate::page::PAGE;
use crate::sheaf::{SHEAF, Sheaf};

/// The page at place `k` of the list's pages.
fn page_at(list: &[u32], sheaves: &[Sheaf], k: usize) -> u32
    requires counted { AreCounted sheaves.now list.now }
    requires full { AreFull sheaves.now list.now }
    requires there { k < length (pages_in sheaves.now list.now) }
    ensures { result ≡ slice_index (pages_in sheaves.now list.now) k }
{
    sheaves[list[k / SHEAF] as usize].page(k % SHEAF)
}

/// The page at place `k` of the list's pages, if it can be changed as it is: its bytes are there,
/// and it is this list's alone, as its sheaf is.
fn own_page(list: &[u32], sheaves: &[Sheaf], arena: &Arena, k: usize) -> Option<u32>
    requires sheaves { AreCounted sheaves.now list.now }
    requires full { AreFull sheaves.now list.now }
    requires counted { AreCounted arena.now (pages_in sheaves.now list.now) }
    ensures page { IfSome result (λ page. page ≡ slice_index (pages_in sheaves.now list.now) k) }
    ensures own { IfSome result (λ _. (byte : ℕ)
        → IsOwnPage (record { sheaves = sheaves.now; sheets = arena.now }) list.now k byte) }
{
    if k / SHEAF >= list.len() {
        return None;
    }
    let sheaf = &sheaves[list[k / SHEAF] as usize];
    if sheaf.count() != 1 {
        return None;
    }
    if k % SHEAF >= sheaf.len() {
        return None;
    }
    let page = sheaf.page(k % SHEAF);
    if !arena.is_own(page) {
        return None;
    }
    Some(page)
}

/// Writes bytes from byte `at` on, where they lie on one page that can be changed as it is. Else it
/// is false, and nothing changes.
pub fn put_in_place(
    list: &[u32],
    sheaves: &[Sheaf],
    arena: &mut Arena,
    at: usize,
    bytes: &[u8],
) -> bool
    requires sheaves { AreCounted sheaves.now list.now }
    requires full { AreFull sheaves.now list.now }
    requires counted { AreCounted arena.old (pages_in sheaves.now list.now) }
    requires within { at + length bytes.now ≤ LARGEST_OBJECT }
    ensures own { IsTrue result → IsOnOwn (record { sheaves = sheaves.now; sheets = arena.old }) list.now at
        (length bytes.now) }
    ensures written { IsTrue result → IsWritten (pages_in sheaves.now list.now) at bytes.now arena.old arena.new }
    ensures same { result ≡ false → arena.new ≡ arena.old }
{
    if bytes.is_empty() {
        return false;
    }
    if bytes.len() > PAGE - at % PAGE {
        return false;
    }
    match own_page(list, sheaves, arena, at / PAGE) {
        Some(page) => {
            arena.put(page, at % PAGE, bytes);
            true
        }
        None => false,
    }
}

/// Writes bytes from byte `at` on.
pub fn put(list: &[u32], sheaves: &[Sheaf], arena: &mut Arena, at: usize, bytes: &[u8])
    requires sheaves { AreCounted sheaves.now list.now }
    requires full { AreFull sheaves.now list.now }
    requires counted { AreCounted arena.old (pages_in sheaves.now list.now) }
    requires within { at + length bytes.now ≤ LARGEST_OBJECT }
    requires ready { (j : ℕ) → j < length bytes.now
        → IsPageReady arena.old (pages_in sheaves.now list.now) ((at + j) / PAGE) (slice_index bytes.now j) }
    ensures { IsWritten (pages_in sheaves.now list.now) at bytes.now arena.old arena.new }
{
    let mut next = at;
    let mut rest = bytes;
    while !rest.is_empty() {
        let count = rest.len().min(PAGE - next % PAGE);
        let (front, back) = rest.split_at(count);
        arena.put(page_at(list, sheaves, next / PAGE), next % PAGE, front);
        next += count;
        rest = back;
    }
}

/// Makes `len` bytes from byte `at` on zero.
pub fn zero(list: &[u32], sheaves: &[Sheaf], arena: &mut Arena, at: usize, len: usize)
    requires sheaves { AreCounted sheaves.now list.now }
    requires full { AreFull sheaves.now list.now }
    requires counted { AreCounted arena.old (pages_in sheaves.now list.now) }
    requires within { at + len ≤ LARGEST_OBJECT }
    requires ready { (j : ℕ) → j < len → IsPageReady arena.old (pages_in sheaves.now list.now) ((at + j) / PAGE) 0 }
    ensures { IsZeroed (pages_in sheaves.now list.now) at len arena.old arena.new }
{
    let mut next = at;
    let mut left = len;
    while left > 0 {
        let count = left.min(PAGE - next % PAGE);
        arena.clear(page_at(list, sheaves, next / PAGE), next % PAGE, count);
        next += count;
        left -= count;
    }
}

/// Fills a buffer with the bytes from byte `at` on, and with zeros where there is no page.
pub fn read(list: &[u32], sheaves: &[Sheaf], arena: &Arena, at: usize, into: &mut [u8])
    requires sheaves { AreCounted sheaves.now list.now }
    requires full { AreFull sheaves.now list.now }
    requires counted { AreCounted arena.now (pages_in sheaves.now list.now) }
    requires within { at ≤ LARGEST_OBJECT }
    ensures len { length into.new ≡ length into.old }
    ensures bytes { (j : ℕ) → j < length into.old
        → slice_index into.new j ≡ byte_on_pages arena.now (pages_in sheaves.now list.now) (at + j) }
{
    let mut done = 0;
    while done < into.len() {
        let (page, offset) = ((at + done) / PAGE, (at + done) % PAGE);
        let count = (into.len() - done).min(PAGE - offset);
        read_page(
            list,
            sheaves,
            arena,
            page,
            offset,
            &mut into[done..done + count],
        );
        done += count;
    }
}

/// The same on one page.
fn read_page(
    list: &[u32],
    sheaves: &[Sheaf],
    arena: &Arena,
    k: usize,
    offset: usize,
    into: &mut [u8],
)
    requires sheaves { AreCounted sheaves.now list.now }
    requires full { AreFull sheaves.now list.now }
    requires counted { AreCounted arena.now (pages_in sheaves.now list.now) }
    requires within { offset + length into.old ≤ PAGE }
    ensures { into.new ≡ window (bytes_on arena.now (pages_in sheaves.now list.now) k) offset (length into.old) }
{
    match find_page(list, sheaves, k) {
        Some(page) => arena.read(page, offset, into),
        None => into.fill(0),
    }
}

/// The page at place `k` of the list's pages, if there is one.
fn find_page(list: &[u32], sheaves: &[Sheaf], k: usize) -> Option<u32>
    requires counted { AreCounted sheaves.now list.now }
    requires full { AreFull sheaves.now list.now }
    ensures there { IfSome result (λ page. k < length (pages_in sheaves.now list.now)) }
    ensures page { IfSome result (λ page. page ≡ slice_index (pages_in sheaves.now list.now) k) }
    ensures past { result ≡ None → length (pages_in sheaves.now list.now) ≤ k }
{
    if k / SHEAF >= list.len() {
        return None;
    }
    let sheaf = &sheaves[list[k / SHEAF] as usize];
    if k % SHEAF >= sheaf.len() {
        return None;
    }
    Some(sheaf.page(k % SHEAF))
}
