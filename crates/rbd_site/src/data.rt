//! Operations on a data object.
ghost use Rattle.std.specs.Prelude.{◌≡◌, ℕ, if◌then◌else◌, Option, Some, None, is_some, option_map, IfOk, OnOk, OnErr, IsFalse};
ghost use Rattle.rbd_object.specs.Mapped.{Mapped, mapped_trim};
ghost use Rattle.rbd_site.specs.Records.{put};
ghost use Rattle.rbd_site.specs.Maps.{object_in};
ghost use Rattle.rbd_site.specs.DataStep.{MayDoOnData, finds, blank_answer, data_answer, data_change, data_after, where_object_done};

use crate::found::done_where;
use crate::object_key::ObjectKey;
use rbd_kinds::{Answer, DataOp, NoMemory, Part, SnapId};
use rbd_object::Object;
use std::alloc::Global;
use std::collections::BTreeMap;

/// What an operation is answered now.
pub fn answer(
    alloc: Global,
    objects: &BTreeMap<ObjectKey, Object>,
    key: ObjectKey,
    op: &DataOp,
) -> Result<Answer, NoMemory>
    ensures { IfOk result (λ answer. answer ≡ data_answer (object_in objects.now key.image key.number) op.now) }
{
    match objects.get(&key) {
        Some(object) => answer_of(object, op),
        None => answer_of(&Object::new(alloc), op),
    }
}

/// Does an operation, or nothing at all.
pub fn change(
    alloc: Global,
    objects: &mut BTreeMap<ObjectKey, Object>,
    key: ObjectKey,
    op: &DataOp,
) -> Result<(), NoMemory>
    requires { MayDoOnData op.now }
    ensures ok { let there = object_in objects.old key.image in
        OnOk result ((image number : ℕ) → object_in objects.new image number ≡ put (object_in objects.old) key.image
        (put there key.number (data_after (there key.number) op.now)) image number) }
    ensures err { OnErr result ((image number : ℕ)
        → object_in objects.new image number ≡ object_in objects.old image number) }
{
    let Some(object) = objects.get_mut(&key) else {
        return begin(alloc, objects, key, op);
    };
    let _done = change_of(object, op)?;
    Ok(())
}

/// Drops what an object keeps for snapshots that aren't live, if it is there. It takes no memory.
pub fn trim(objects: &mut BTreeMap<ObjectKey, Object>, key: ObjectKey, live: &[SnapId])
    ensures { let there = object_in objects.old key.image in
        (image number : ℕ) → object_in objects.new image number ≡ put (object_in objects.old) key.image
        (put there key.number (option_map (mapped_trim live.now) (there key.number))) image number }
{
    let Some(object) = objects.get_mut(&key) else {
        return;
    };
    object.trim(live);
}

/// Does the first operation on an object, or nothing at all.
fn begin(
    alloc: Global,
    objects: &mut BTreeMap<ObjectKey, Object>,
    key: ObjectKey,
    op: &DataOp,
) -> Result<(), NoMemory>
    requires may { MayDoOnData op.now }
    requires missing { object_in objects.old key.image key.number ≡ None }
    ensures ok { let there = object_in objects.old key.image in
        OnOk result ((image number : ℕ) → object_in objects.new image number ≡ put (object_in objects.old) key.image
        (put there key.number (data_after None op.now)) image number) }
    ensures err { OnErr result ((image number : ℕ)
        → object_in objects.new image number ≡ object_in objects.old image number) }
{
    let mut object = Object::new(alloc);
    if change_of(&mut object, op)? {
        objects.insert(key, object)?;
    }
    Ok(())
}

fn answer_of(object: &Object, op: &DataOp) -> Result<Answer, NoMemory>
    ensures { IfOk result (λ answer. answer ≡ blank_answer object.now op.now) }
{
    match op {
        DataOp::Read { snap, parts } => read(object, *snap, parts.as_slice()),
        DataOp::Write {
            context: _,
            must,
            parts: _,
            bytes: _,
        } => Ok(done_where(finds(object, *must))),
        DataOp::Zero {
            context: _,
            must,
            parts: _,
        } => Ok(done_where(finds(object, *must))),
        DataOp::CopyUp { bytes: _ } => Ok(copied_up(object)),
        DataOp::WriteFull {
            context: _,
            bytes: _,
        } => Ok(Answer::Done),
        DataOp::Empty { context: _ } => Ok(Answer::Done),
        DataOp::Remove { context: _ } => Ok(Answer::Done),
    }
}

/// Changes an object, and answers whether the operation was done; else nothing changed.
fn change_of(object: &mut Object, op: &DataOp) -> Result<bool, NoMemory>
    requires { MayDoOnData op.now }
    ensures ok { IfOk result (λ done. (old : Option Mapped)
        → where_object_done (blank_answer object.old op.now) (data_change object.old op.now) old
        ≡ (if done then Some object.new else old)) }
    ensures same { IfOk result (λ done. IsFalse done → object.new ≡ object.old) }
    ensures err { OnErr result (object.new ≡ object.old) }
{
    match op {
        DataOp::Read { snap: _, parts: _ } => Ok(false),
        DataOp::Write {
            context,
            must,
            parts,
            bytes,
        } => {
            if !finds(object, *must) {
                return Ok(false);
            }
            object.write_parts(context, parts.as_slice(), bytes.as_slice())?;
            Ok(true)
        }
        DataOp::Zero {
            context,
            must,
            parts,
        } => {
            if !finds(object, *must) {
                return Ok(false);
            }
            object.zero_parts(context, parts.as_slice())?;
            Ok(true)
        }
        DataOp::WriteFull { context, bytes } => {
            object.write_full(context, bytes.as_slice())?;
            Ok(true)
        }
        DataOp::Empty { context } => {
            object.empty(context)?;
            Ok(true)
        }
        DataOp::Remove { context } => {
            object.remove(context)?;
            Ok(true)
        }
        DataOp::CopyUp { bytes } => object.copy_up(bytes.as_slice()),
    }
}

/// Whether a change with `must` finds a head.
fn finds(object: &Object, must: bool) -> bool
    ensures { result ≡ finds must object.now }
{
    !must || object.exists(None)
}

fn read(object: &Object, snap: Option<SnapId>, parts: &[Part]) -> Result<Answer, NoMemory>
    ensures { IfOk result (λ answer. answer ≡ blank_answer object.now (DataOp.Read snap parts.now)) }
{
    match object.read_parts(snap, parts)? {
        Some(bytes) => Ok(Answer::Bytes(bytes.share()?)),
        None => Ok(Answer::Absent),
    }
}

fn copied_up(object: &Object) -> Answer
    ensures { result ≡ (if is_some object.now.head then Answer.Exists else Answer.Done) }
{
    if object.exists(None) {
        return Answer::Exists;
    }
    Answer::Done
}
