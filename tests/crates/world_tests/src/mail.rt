//! The mail of a world, as a text: `1 c2.0>c1.0 a1 RequestLock;2 c1.0>c2.0 a1 hi`. The notice 1 is
//! from c2 to c1, both in their first lives, about the image 1 of site A, and the notice 2 tells
//! the word hi.
use super::texts::{between, letter, push_instance, push_numbered};
use rbd_kinds::{NoMemory, Notice, NoticeKind};
use rbd_world::World;
use std::alloc::Global;

/// Appends what a notice says.
fn push_kind(text: &mut Vec<u8>, kind: &NoticeKind) -> Result<(), NoMemory> {
    match kind {
        NoticeKind::RequestLock => text.extend_from_slice(b" RequestLock")?,
        NoticeKind::ReleasedLock => text.extend_from_slice(b" ReleasedLock")?,
        NoticeKind::Custom(bytes) => {
            text.push(b' ')?;
            text.extend_from_slice(bytes.as_slice())?;
        }
    }
    Ok(())
}

fn push_notice(alloc: Global, text: &mut Vec<u8>, notice: &Notice) -> Result<(), NoMemory> {
    let mark = between(text.as_slice(), ";");
    push_numbered(alloc, text, mark, notice.number)?;
    push_instance(alloc, text, " c", &notice.from)?;
    push_instance(alloc, text, ">c", &notice.to)?;
    text.push(b' ')?;
    push_numbered(alloc, text, letter(notice.site), u64::from(notice.image.0))?;
    push_kind(text, &notice.kind)
}

/// Appends the notice of a number, where there is one.
fn push_at(alloc: Global, text: &mut Vec<u8>, world: &World, number: u64) -> Result<(), NoMemory> {
    match world.notice(number) {
        Some(notice) => push_notice(alloc, text, notice),
        None => Ok(()),
    }
}

/// Appends the notices of both sites, from the number 0 on, which none has, to the one behind the
/// last.
pub fn push_mail(alloc: Global, text: &mut Vec<u8>, world: &World) -> Result<(), NoMemory> {
    let count = world.notices();
    for number in 0..count {
        push_at(alloc, text, world, number)?;
    }
    push_at(alloc, text, world, count)?;
    push_at(alloc, text, world, count.wrapping_add(1))
}
