//! The objects of a site, as they are called (Ceph: the names of an image's RADOS objects).
ghost use Rattle.std.specs.Prelude.{◌≡◌, ◌++◌, OnOk};
ghost use Rattle.rbd_text.specs.Numbers.{hexadecimal};
ghost use Rattle.rbd_text.specs.Objects.{object_name, header_name, data_name, map_name, journal_name, snapshot_suffix};

use crate::numbers::{push_hexadecimal, push_sixteen_digits};
use crate::word::push_word;
use rbd_kinds::{ImageId, NoMemory, Op, SnapId};

/// Appends the name of the object that an operation is about.
pub fn push_object(text: &mut Vec<u8>, op: &Op) -> Result<(), NoMemory>
    ensures { OnOk result (text.new.items ≡ text.old.items ++ object_name op.now) }
{
    match op {
        Op::Directory(_) => push_word(text, b"rbd_directory"),
        Op::Children(_) => push_word(text, b"rbd_children"),
        Op::BlockAdd { instance: _ } => push_word(text, b"blocklist"),
        Op::Header { image, op: _ } => push_header(text, *image),
        Op::Data {
            image,
            object,
            op: _,
        } => push_data(text, *image, *object),
        Op::Map { image, op } => push_map(text, *image, op.snap()),
        Op::Journal { image, op: _ } => push_journal(text, *image),
    }
}

/// Appends the name of an image's header.
pub fn push_header(text: &mut Vec<u8>, image: ImageId) -> Result<(), NoMemory>
    ensures { OnOk result (text.new.items ≡ text.old.items ++ header_name image) }
{
    text.extend_from_slice(b"rbd_header.")?;
    push_image(text, image)?;
    Ok(())
}

/// Appends the name of an image's data object.
pub fn push_data(text: &mut Vec<u8>, image: ImageId, object: u64) -> Result<(), NoMemory>
    ensures { OnOk result (text.new.items ≡ text.old.items ++ data_name image object) }
{
    text.extend_from_slice(b"rbd_data.")?;
    push_image(text, image)?;
    text.push(b'.')?;
    push_sixteen_digits(text, object)
}

fn push_map(text: &mut Vec<u8>, image: ImageId, snap: Option<SnapId>) -> Result<(), NoMemory>
    ensures { OnOk result (text.new.items ≡ text.old.items ++ map_name image snap) }
{
    text.extend_from_slice(b"rbd_object_map.")?;
    push_image(text, image)?;
    push_snapshot_suffix(text, snap)
}

fn push_snapshot_suffix(text: &mut Vec<u8>, snap: Option<SnapId>) -> Result<(), NoMemory>
    ensures { OnOk result (text.new.items ≡ text.old.items ++ snapshot_suffix snap) }
{
    if let Some(snap) = snap {
        text.push(b'.')?;
        push_sixteen_digits(text, u64::from(snap.0))?;
    }
    Ok(())
}

fn push_image(text: &mut Vec<u8>, image: ImageId) -> Result<(), NoMemory>
    ensures { OnOk result (text.new.items ≡ text.old.items ++ hexadecimal image) }
{
    push_hexadecimal(text, image.0)
}

fn push_journal(text: &mut Vec<u8>, image: ImageId) -> Result<(), NoMemory>
    ensures { OnOk result (text.new.items ≡ text.old.items ++ journal_name image) }
{
    text.extend_from_slice(b"journal.")?;
    push_image(text, image)
}
