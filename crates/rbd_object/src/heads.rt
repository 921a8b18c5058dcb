//! Changes of a head, which is kept beforehand where snapshots want it.
ghost use Rattle.std.specs.Prelude.{◌≡◌, ℕ, ◌+◌, ◌<◌, ◌≤◌, if◌then◌else◌, [], ◌++◌, length, min, unwrap_or, option_map, Some, None, false, IfOk, OnOk, OnErr};
ghost use Rattle.rbd_object.specs.Changes.{FitsObject, after, pages_taken, sheaves_taken};
ghost use Rattle.rbd_parts.specs.Contents.{overwritten, zeroed};
ghost use Rattle.rbd_pages.specs.Paging.{AreCounted, pages_for};
ghost use Rattle.rbd_pages.specs.Sheaves.{Exchanged, IsSame, sheaves_for};
ghost use Rattle.rbd_kinds.specs.Parts.{parts_len};
ghost use Rattle.rbd_parts.specs.Parts.{parts_written, parts_zeroed, AreWithin};
ghost use Rattle.rbd_pages.specs.Listed.{IsContent, listed_bytes, sheaves_touched, touched};
ghost use Rattle.rbd_object.specs.Shared.{IsHead, KeepsHead, begun_head, bytes_of, len_of, sheaves_of, written_sheaves, written_touch, zeroed_sheaves, zeroed_touch};
ghost use Rattle.rbd_pages.specs.Places.{Grown, NoneTaken};
ghost use Rattle.rbd_pages.specs.Sheets.{count_at, in_use};
ghost use Rattle.rbd_parts.specs.declared.parts.TheConstants.{LARGEST_OBJECT};

use crate::change::ObjectChange;
use rbd_kinds::{NoMemory, Part};
use rbd_pages::{Content, Sheaves};
use std::alloc::Global;
use std::mem;

/// Does a change. The head as it was is answered where it is wanted.
pub fn change(
    alloc: Global,
    sheaves: &mut Sheaves,
    head: &mut Option<Content>,
    wanted: bool,
    change: ObjectChange,
) -> Result<Option<Content>, NoMemory>
    requires within { FitsObject change }
    requires counted { AreCounted sheaves.old.sheaves (sheaves_of head.old) }
    requires content { IsHead sheaves.old head.old }
    ensures ok { IfOk result (λ kept. KeepsHead wanted sheaves.old head.old sheaves.new head.new kept) }
    ensures bytes { OnOk result (bytes_of sheaves.new head.new ≡ after change.entry (bytes_of sheaves.old head.old)) }
    ensures err { OnErr result (KeepsHead false sheaves.old head.old sheaves.new head.new None) }
    ensures same { OnErr result (bytes_of sheaves.new head.new ≡ bytes_of sheaves.old head.old) }
    ensures used { in_use sheaves.new.sheets ≤ in_use sheaves.old.sheets + pages_taken change.entry (len_of head.old) }
    ensures grown { Grown (pages_taken change.entry (len_of head.old))
        (sheaves_taken change.entry (len_of head.old)) sheaves.old sheaves.new }
{
    match change {
        ObjectChange::Write(at, bytes) => write(alloc, sheaves, head, wanted, at, bytes),
        ObjectChange::WriteParts(parts, bytes) => write_parts(
            alloc, sheaves, head, wanted, parts, bytes,
        ),
        ObjectChange::WriteFull(bytes) => write_full(alloc, sheaves, head, wanted, bytes),
        ObjectChange::Zero(at, len) => zero(sheaves, head, wanted, at, len),
        ObjectChange::ZeroParts(parts) => zero_parts(sheaves, head, wanted, parts),
        ObjectChange::Empty => Ok(put_in_place(sheaves, head, wanted, Some(Content::new(alloc)))),
        ObjectChange::Remove => Ok(put_in_place(sheaves, head, wanted, None)),
    }
}

/// Puts a head without sheaves in place of one.
fn put_in_place(
    sheaves: &mut Sheaves,
    head: &mut Option<Content>,
    wanted: bool,
    next: Option<Content>,
) -> Option<Content>
    requires counted { AreCounted sheaves.old.sheaves (sheaves_of head.old) }
    requires content { IsHead sheaves.old head.old }
    requires bare { sheaves_of next ≡ [] }
    requires empty { len_of next ≡ 0 }
    ensures ok { KeepsHead wanted sheaves.old head.old sheaves.new next result }
    ensures head { head.new ≡ next }
    ensures used { in_use sheaves.new.sheets ≤ in_use sheaves.old.sheets }
    ensures places { NoneTaken sheaves.old sheaves.new }
{
    replace(sheaves, head, wanted, next)
}

/// Writes into a head, which is there afterwards.
fn write(
    alloc: Global,
    sheaves: &mut Sheaves,
    head: &mut Option<Content>,
    wanted: bool,
    at: u64,
    bytes: &[u8],
) -> Result<Option<Content>, NoMemory>
    requires within { at + length bytes.now ≤ LARGEST_OBJECT }
    requires counted { AreCounted sheaves.old.sheaves (sheaves_of head.old) }
    requires content { IsHead sheaves.old head.old }
    ensures ok { IfOk result (λ kept. KeepsHead wanted sheaves.old head.old sheaves.new head.new kept) }
    ensures bytes { OnOk result (bytes_of sheaves.new head.new
        ≡ Some (overwritten (unwrap_or (bytes_of sheaves.old head.old) []) at bytes.now)) }
    ensures err { OnErr result (KeepsHead false sheaves.old head.old sheaves.new head.new None) }
    ensures same { OnErr result (bytes_of sheaves.new head.new ≡ bytes_of sheaves.old head.old) }
    ensures used { in_use sheaves.new.sheets ≤ in_use sheaves.old.sheets + touched (min (len_of head.old) at)
        (at + length bytes.now) }
    ensures grown { Grown (touched (min (len_of head.old) at) (at + length bytes.now))
        (sheaves_touched (min (len_of head.old) at) (at + length bytes.now)) sheaves.old sheaves.new }
{
    let kept = share(sheaves, head, wanted)?;
    match write_head(alloc, sheaves, head, at, bytes) {
        Ok(()) => Ok(kept),
        Err(refused) => {
            let_go(sheaves, &kept);
            Err(refused)
        }
    }
}

/// Makes a part of a head zero, if it is there.
fn zero(
    sheaves: &mut Sheaves,
    head: &mut Option<Content>,
    wanted: bool,
    at: u64,
    len: u64,
) -> Result<Option<Content>, NoMemory>
    requires counted { AreCounted sheaves.old.sheaves (sheaves_of head.old) }
    requires content { IsHead sheaves.old head.old }
    ensures ok { IfOk result (λ kept. KeepsHead wanted sheaves.old head.old sheaves.new head.new kept) }
    ensures bytes { OnOk result (bytes_of sheaves.new head.new ≡ option_map (λ held. zeroed held at len)
        (bytes_of sheaves.old head.old)) }
    ensures err { OnErr result (KeepsHead false sheaves.old head.old sheaves.new head.new None) }
    ensures same { OnErr result (bytes_of sheaves.new head.new ≡ bytes_of sheaves.old head.old) }
    ensures used { in_use sheaves.new.sheets ≤ in_use sheaves.old.sheets + touched at (at + len) }
    ensures grown { Grown (touched at (at + len)) (sheaves_touched at (at + len)) sheaves.old sheaves.new }
{
    let kept = share(sheaves, head, wanted)?;
    match zero_head(sheaves, head, at, len) {
        Ok(()) => Ok(kept),
        Err(refused) => {
            let_go(sheaves, &kept);
            Err(refused)
        }
    }
}

/// Writes bytes into parts of a head, one part after another. All parts are written, or none: one
/// part alone is, and several with the head as it was beside them.
fn write_parts(
    alloc: Global,
    sheaves: &mut Sheaves,
    head: &mut Option<Content>,
    wanted: bool,
    parts: &[Part],
    bytes: &[u8],
) -> Result<Option<Content>, NoMemory>
    requires within { AreWithin parts.now }
    requires long { length bytes.now ≡ parts_len parts.now }
    requires counted { AreCounted sheaves.old.sheaves (sheaves_of head.old) }
    requires content { IsHead sheaves.old head.old }
    ensures ok { IfOk result (λ kept. KeepsHead wanted sheaves.old head.old sheaves.new head.new kept) }
    ensures bytes { OnOk result (bytes_of sheaves.new head.new
        ≡ Some (parts_written parts.now bytes.now (unwrap_or (bytes_of sheaves.old head.old) []))) }
    ensures err { OnErr result (KeepsHead false sheaves.old head.old sheaves.new head.new None) }
    ensures same { OnErr result (bytes_of sheaves.new head.new ≡ bytes_of sheaves.old head.old) }
    ensures used { in_use sheaves.new.sheets ≤ in_use sheaves.old.sheets + written_touch (len_of head.old) parts.now }
    ensures grown { Grown (written_touch (len_of head.old) parts.now)
        (written_sheaves (len_of head.old) parts.now) sheaves.old sheaves.new }
{
    match parts {
        [part] => write(alloc, sheaves, head, wanted, part.offset, bytes),
        _ => write_several(alloc, sheaves, head, wanted, parts, bytes),
    }
}

/// The same, where the head as it was is held beside it until the last part is written.
fn write_several(
    alloc: Global,
    sheaves: &mut Sheaves,
    head: &mut Option<Content>,
    wanted: bool,
    parts: &[Part],
    bytes: &[u8],
) -> Result<Option<Content>, NoMemory>
    requires within { AreWithin parts.now }
    requires long { length bytes.now ≡ parts_len parts.now }
    requires counted { AreCounted sheaves.old.sheaves (sheaves_of head.old) }
    requires content { IsHead sheaves.old head.old }
    ensures ok { IfOk result (λ kept. KeepsHead wanted sheaves.old head.old sheaves.new head.new kept) }
    ensures bytes { OnOk result (bytes_of sheaves.new head.new
        ≡ Some (parts_written parts.now bytes.now (unwrap_or (bytes_of sheaves.old head.old) []))) }
    ensures err { OnErr result (KeepsHead false sheaves.old head.old sheaves.new head.new None) }
    ensures same { OnErr result (bytes_of sheaves.new head.new ≡ bytes_of sheaves.old head.old) }
    ensures used { in_use sheaves.new.sheets ≤ in_use sheaves.old.sheets + written_touch (len_of head.old) parts.now }
    ensures grown { Grown (written_touch (len_of head.old) parts.now)
        (written_sheaves (len_of head.old) parts.now) sheaves.old sheaves.new }
{
    let before = share(sheaves, head, true)?;
    match write_each(alloc, sheaves, head, parts, bytes) {
        Ok(()) => Ok(keep_if(sheaves, wanted, before)),
        Err(refused) => {
            let_go(sheaves, head);
            *head = before;
            Err(refused)
        }
    }
}

/// Makes parts of a head zero, if it is there. All are, or none.
fn zero_parts(
    sheaves: &mut Sheaves,
    head: &mut Option<Content>,
    wanted: bool,
    parts: &[Part],
) -> Result<Option<Content>, NoMemory>
    requires counted { AreCounted sheaves.old.sheaves (sheaves_of head.old) }
    requires content { IsHead sheaves.old head.old }
    ensures ok { IfOk result (λ kept. KeepsHead wanted sheaves.old head.old sheaves.new head.new kept) }
    ensures bytes { OnOk result (bytes_of sheaves.new head.new ≡ option_map (parts_zeroed parts.now)
        (bytes_of sheaves.old head.old)) }
    ensures err { OnErr result (KeepsHead false sheaves.old head.old sheaves.new head.new None) }
    ensures same { OnErr result (bytes_of sheaves.new head.new ≡ bytes_of sheaves.old head.old) }
    ensures used { in_use sheaves.new.sheets ≤ in_use sheaves.old.sheets + zeroed_touch parts.now }
    ensures grown { Grown (zeroed_touch parts.now) (zeroed_sheaves parts.now) sheaves.old sheaves.new }
{
    match parts {
        [part] => zero(sheaves, head, wanted, part.offset, part.len),
        _ => zero_several(sheaves, head, wanted, parts),
    }
}

/// The same, where the head as it was is held beside it until the last part is zero.
fn zero_several(
    sheaves: &mut Sheaves,
    head: &mut Option<Content>,
    wanted: bool,
    parts: &[Part],
) -> Result<Option<Content>, NoMemory>
    requires counted { AreCounted sheaves.old.sheaves (sheaves_of head.old) }
    requires content { IsHead sheaves.old head.old }
    ensures ok { IfOk result (λ kept. KeepsHead wanted sheaves.old head.old sheaves.new head.new kept) }
    ensures bytes { OnOk result (bytes_of sheaves.new head.new ≡ option_map (parts_zeroed parts.now)
        (bytes_of sheaves.old head.old)) }
    ensures err { OnErr result (KeepsHead false sheaves.old head.old sheaves.new head.new None) }
    ensures same { OnErr result (bytes_of sheaves.new head.new ≡ bytes_of sheaves.old head.old) }
    ensures used { in_use sheaves.new.sheets ≤ in_use sheaves.old.sheets + zeroed_touch parts.now }
    ensures grown { Grown (zeroed_touch parts.now) (zeroed_sheaves parts.now) sheaves.old sheaves.new }
{
    let before = share(sheaves, head, true)?;
    match zero_each(sheaves, head, parts) {
        Ok(()) => Ok(keep_if(sheaves, wanted, before)),
        Err(refused) => {
            let_go(sheaves, head);
            *head = before;
            Err(refused)
        }
    }
}

/// A head that was held, where it is wanted.
fn keep_if(sheaves: &mut Sheaves, wanted: bool, held: Option<Content>) -> Option<Content>
    requires counted { AreCounted sheaves.old.sheaves (sheaves_of held) }
    requires content { IsHead sheaves.old held }
    ensures exchanged { Exchanged sheaves.old (sheaves_of held) sheaves.new (sheaves_of result) }
    ensures content { IsHead sheaves.new result }
    ensures bytes { bytes_of sheaves.new result ≡ (if wanted then bytes_of sheaves.old held else None) }
    ensures used { in_use sheaves.new.sheets ≤ in_use sheaves.old.sheets }
    ensures places { NoneTaken sheaves.old sheaves.new }
{
    if wanted {
        return held;
    }
    let_go(sheaves, &held);
    None
}

fn write_each(
    alloc: Global,
    sheaves: &mut Sheaves,
    head: &mut Option<Content>,
    parts: &[Part],
    bytes: &[u8],
) -> Result<(), NoMemory>
    requires within { AreWithin parts.now }
    requires long { length bytes.now ≡ parts_len parts.now }
    requires counted { AreCounted sheaves.old.sheaves (sheaves_of head.old) }
    requires content { IsHead sheaves.old head.old }
    ensures exchanged { Exchanged sheaves.old (sheaves_of head.old) sheaves.new (sheaves_of head.new) }
    ensures content { IsHead sheaves.new head.new }
    ensures ok { OnOk result (bytes_of sheaves.new head.new
        ≡ Some (parts_written parts.now bytes.now (unwrap_or (bytes_of sheaves.old head.old) []))) }
    ensures used { in_use sheaves.new.sheets ≤ in_use sheaves.old.sheets + written_touch (len_of head.old) parts.now }
    ensures grown { Grown (written_touch (len_of head.old) parts.now)
        (written_sheaves (len_of head.old) parts.now) sheaves.old sheaves.new }
{
    begin(alloc, head);
    let mut rest = bytes;
    for part in parts {
        let (first, others) = rest.split_at(part.len as usize);
        write_head(alloc, sheaves, head, part.offset, first)?;
        rest = others;
    }
    Ok(())
}

/// An absent head begins with no bytes.
fn begin(alloc: Global, head: &mut Option<Content>)
    ensures { head.new ≡ begun_head head.old }
{
    if head.is_none() {
        *head = Some(Content::new(alloc));
    }
}

fn zero_each(
    sheaves: &mut Sheaves,
    head: &mut Option<Content>,
    parts: &[Part],
) -> Result<(), NoMemory>
    requires counted { AreCounted sheaves.old.sheaves (sheaves_of head.old) }
    requires content { IsHead sheaves.old head.old }
    ensures exchanged { Exchanged sheaves.old (sheaves_of head.old) sheaves.new (sheaves_of head.new) }
    ensures content { IsHead sheaves.new head.new }
    ensures ok { OnOk result (bytes_of sheaves.new head.new ≡ option_map (parts_zeroed parts.now)
        (bytes_of sheaves.old head.old)) }
    ensures used { in_use sheaves.new.sheets ≤ in_use sheaves.old.sheets + zeroed_touch parts.now }
    ensures grown { Grown (zeroed_touch parts.now) (zeroed_sheaves parts.now) sheaves.old sheaves.new }
{
    for part in parts {
        zero_head(sheaves, head, part.offset, part.len)?;
    }
    Ok(())
}

/// Makes a head exactly these bytes.
pub fn write_full(
    alloc: Global,
    sheaves: &mut Sheaves,
    head: &mut Option<Content>,
    wanted: bool,
    bytes: &[u8],
) -> Result<Option<Content>, NoMemory>
    requires within { length bytes.now ≤ LARGEST_OBJECT }
    requires counted { AreCounted sheaves.old.sheaves (sheaves_of head.old) }
    requires content { IsHead sheaves.old head.old }
    ensures ok { IfOk result (λ kept. KeepsHead wanted sheaves.old head.old sheaves.new head.new kept) }
    ensures bytes { OnOk result (bytes_of sheaves.new head.new ≡ Some bytes.now) }
    ensures err { OnErr result (KeepsHead false sheaves.old head.old sheaves.new head.new None) }
    ensures same { OnErr result (bytes_of sheaves.new head.new ≡ bytes_of sheaves.old head.old) }
    ensures used { in_use sheaves.new.sheets ≤ in_use sheaves.old.sheets + pages_for (length bytes.now) }
    ensures grown { Grown (pages_for (length bytes.now))
        (sheaves_for (pages_for (length bytes.now))) sheaves.old sheaves.new }
{
    let content = filled(alloc, sheaves, bytes)?;
    Ok(replace(sheaves, head, wanted, Some(content)))
}

/// Puts another content in a head's place.
fn replace(
    sheaves: &mut Sheaves,
    head: &mut Option<Content>,
    wanted: bool,
    next: Option<Content>,
) -> Option<Content>
    requires counted { AreCounted sheaves.old.sheaves (sheaves_of head.old ++ sheaves_of next) }
    requires content { IsHead sheaves.old head.old }
    requires next { IsHead sheaves.old next }
    ensures head { head.new ≡ next }
    ensures exchanged { Exchanged sheaves.old (sheaves_of head.old ++ sheaves_of next) sheaves.new
        (sheaves_of next ++ sheaves_of result) }
    ensures head_is { IsHead sheaves.new next }
    ensures next_bytes { bytes_of sheaves.new next ≡ bytes_of sheaves.old next }
    ensures kept_is { IsHead sheaves.new result }
    ensures bytes { bytes_of sheaves.new result ≡ (if wanted then bytes_of sheaves.old head.old else None) }
    ensures used { in_use sheaves.new.sheets ≤ in_use sheaves.old.sheets }
    ensures places { NoneTaken sheaves.old sheaves.new }
{
    let old = mem::replace(head, next);
    if wanted {
        return old;
    }
    let_go(sheaves, &old);
    None
}

/// Fills an absent head.
pub fn fill(
    alloc: Global,
    sheaves: &mut Sheaves,
    head: &mut Option<Content>,
    bytes: &[u8],
) -> Result<(), NoMemory>
    requires within { length bytes.now ≤ LARGEST_OBJECT }
    requires absent { head.old ≡ None }
    ensures ok { KeepsHead false sheaves.old None sheaves.new head.new None }
    ensures bytes { OnOk result (bytes_of sheaves.new head.new ≡ Some bytes.now) }
    ensures err { OnErr result (head.new ≡ None) }
    ensures used { in_use sheaves.new.sheets ≤ in_use sheaves.old.sheets + pages_for (length bytes.now) }
    ensures grown { Grown (pages_for (length bytes.now))
        (sheaves_for (pages_for (length bytes.now))) sheaves.old sheaves.new }
{
    *head = Some(filled(alloc, sheaves, bytes)?);
    Ok(())
}

/// A content of these bytes, on new sheaves.
fn filled(alloc: Global, sheaves: &mut Sheaves, bytes: &[u8]) -> Result<Content, NoMemory>
    requires { length bytes.now ≤ LARGEST_OBJECT }
    ensures exchanged { IfOk result (λ content. Exchanged sheaves.old [] sheaves.new content.sheaves) }
    ensures content { IfOk result (λ content. IsContent sheaves.new content) }
    ensures bytes { IfOk result (λ content. listed_bytes sheaves.new content ≡ bytes.now) }
    ensures err { OnErr result (Exchanged sheaves.old [] sheaves.new []) }
    ensures used { in_use sheaves.new.sheets ≤ in_use sheaves.old.sheets + pages_for (length bytes.now) }
    ensures grown { Grown (pages_for (length bytes.now))
        (sheaves_for (pages_for (length bytes.now))) sheaves.old sheaves.new }
{
    let mut content = Content::new(alloc);
    content.write(sheaves, 0, bytes)?;
    Ok(content)
}

/// The head once more, on the same sheaves, if it is wanted.
fn share(
    sheaves: &mut Sheaves,
    head: &Option<Content>,
    wanted: bool,
) -> Result<Option<Content>, NoMemory>
    requires counted { AreCounted sheaves.old.sheaves (sheaves_of head.now) }
    ensures exchanged { IfOk result (λ kept. Exchanged sheaves.old [] sheaves.new (sheaves_of kept)) }
    ensures same { IfOk result (λ kept. kept ≡ (if wanted then head.now else None)) }
    ensures err { OnErr result (Exchanged sheaves.old [] sheaves.new []) }
    ensures used { in_use sheaves.new.sheets ≤ in_use sheaves.old.sheets }
    ensures places { NoneTaken sheaves.old sheaves.new }
{
    match head {
        Some(content) if wanted => Ok(Some(content.share(sheaves)?)),
        _ => Ok(None),
    }
}

fn let_go(sheaves: &mut Sheaves, content: &Option<Content>)
    requires counted { AreCounted sheaves.old.sheaves (sheaves_of content.now) }
    ensures exchanged { Exchanged sheaves.old (sheaves_of content.now) sheaves.new [] }
    ensures kept { (s : ℕ) → 0 < count_at sheaves.new.sheaves s → IsSame sheaves.old sheaves.new s }
    ensures used { in_use sheaves.new.sheets ≤ in_use sheaves.old.sheets }
    ensures places { NoneTaken sheaves.old sheaves.new }
{
    if let Some(content) = content {
        content.let_go(sheaves);
    }
}

fn write_head(
    alloc: Global,
    sheaves: &mut Sheaves,
    head: &mut Option<Content>,
    at: u64,
    bytes: &[u8],
) -> Result<(), NoMemory>
    requires within { at + length bytes.now ≤ LARGEST_OBJECT }
    requires counted { AreCounted sheaves.old.sheaves (sheaves_of head.old) }
    requires content { IsHead sheaves.old head.old }
    ensures exchanged { Exchanged sheaves.old (sheaves_of head.old) sheaves.new (sheaves_of head.new) }
    ensures content { IsHead sheaves.new head.new }
    ensures ok { OnOk result (bytes_of sheaves.new head.new
        ≡ Some (overwritten (unwrap_or (bytes_of sheaves.old head.old) []) at bytes.now)) }
    ensures err { OnErr result (bytes_of sheaves.new head.new ≡ bytes_of sheaves.old head.old) }
    ensures used { in_use sheaves.new.sheets ≤ in_use sheaves.old.sheets + touched (min (len_of head.old) at)
        (at + length bytes.now) }
    ensures grown { Grown (touched (min (len_of head.old) at) (at + length bytes.now))
        (sheaves_touched (min (len_of head.old) at) (at + length bytes.now)) sheaves.old sheaves.new }
{
    match head {
        Some(content) => content.write(sheaves, at, bytes),
        None => {
            let mut content = Content::new(alloc);
            content.write(sheaves, at, bytes)?;
            *head = Some(content);
            Ok(())
        }
    }
}

fn zero_head(
    sheaves: &mut Sheaves,
    head: &mut Option<Content>,
    at: u64,
    len: u64,
) -> Result<(), NoMemory>
    requires counted { AreCounted sheaves.old.sheaves (sheaves_of head.old) }
    requires content { IsHead sheaves.old head.old }
    ensures exchanged { Exchanged sheaves.old (sheaves_of head.old) sheaves.new (sheaves_of head.new) }
    ensures content { IsHead sheaves.new head.new }
    ensures ok { OnOk result (bytes_of sheaves.new head.new ≡ option_map (λ held. zeroed held at len)
        (bytes_of sheaves.old head.old)) }
    ensures err { OnErr result (bytes_of sheaves.new head.new ≡ bytes_of sheaves.old head.old) }
    ensures used { in_use sheaves.new.sheets ≤ in_use sheaves.old.sheets + touched at (at + len) }
    ensures grown { Grown (touched at (at + len)) (sheaves_touched at (at + len)) sheaves.old sheaves.new }
{
    match head {
        Some(content) => content.zero(sheaves, at, len),
        None => Ok(()),
    }
}
