//! Operations on the object maps of images.
ghost use Rattle.std.specs.Prelude.{◌≡◌, ℕ, ◌*◌, ◌^◌, ◌≤◌, [], Option, Some, length, option_map, unwrap_or, slice_set, IfOk, OnOk, OnErr};
ghost use Rattle.rbd_kinds.specs.States.{HoldStates};
ghost use Rattle.rbd_map.specs.States.{states_of};
ghost use Rattle.rbd_site.specs.Maps.{map_in};
ghost use Rattle.rbd_site.specs.Records.{put_map};
ghost use Rattle.rbd_site.specs.MapStep.{MayDoOnMap, MaySetState, lengthened, map_answer, map_after, states_answer};

use crate::found::done_where;
use crate::map_key::MapKey;
use rbd_kinds::{Answer, Bytes, MapOp, NoMemory};
use rbd_map::ObjectMap;
use std::alloc::Global;
use std::collections::BTreeMap;

/// What an operation is answered now.
pub fn answer(
    maps: &BTreeMap<MapKey, ObjectMap>,
    key: MapKey,
    op: &MapOp,
) -> Result<Answer, NoMemory>
    ensures { IfOk result (λ answer. answer ≡ map_answer (map_in maps.now key.image key.snap) op.now) }
{
    match op {
        MapOp::Resize { count: _ } => Ok(Answer::Done),
        MapOp::Get { snap: _ } => states(maps, key),
        MapOp::Put { snap: _, bits: _ } => Ok(Answer::Done),
        MapOp::Set {
            snap: _,
            object: _,
            state: _,
        } => Ok(done_where(maps.contains_key(&key))),
        MapOp::Remove { snap: _ } => Ok(done_where(maps.contains_key(&key))),
    }
}

/// Does an operation, or nothing at all.
pub fn change(
    alloc: Global,
    maps: &mut BTreeMap<MapKey, ObjectMap>,
    key: MapKey,
    op: &MapOp,
) -> Result<(), NoMemory>
    requires { MayDoOnMap (map_in maps.old key.image key.snap) op.now }
    ensures ok { OnOk result ((image : ℕ) (view : Option ℕ)
        → map_in maps.new image view ≡ put_map (map_in maps.old) key.image key.snap
        (map_after (map_in maps.old key.image key.snap) op.now) image view) }
    ensures err { OnErr result ((image : ℕ) (view : Option ℕ)
        → map_in maps.new image view ≡ map_in maps.old image view) }
{
    match op {
        MapOp::Resize { count } => resize(alloc, maps, key, *count),
        MapOp::Get { snap: _ } => Ok(()),
        MapOp::Put { snap: _, bits } => put(alloc, maps, key, bits),
        MapOp::Set {
            snap: _,
            object,
            state,
        } => {
            set(maps, key, *object, *state);
            Ok(())
        }
        MapOp::Remove { snap: _ } => {
            maps.remove(&key);
            Ok(())
        }
    }
}

/// The states of a map, if it is there. They are copied once: copies of the answer share them.
fn states(maps: &BTreeMap<MapKey, ObjectMap>, key: MapKey) -> Result<Answer, NoMemory>
    ensures { IfOk result (λ answer. answer ≡ states_answer (map_in maps.now key.image key.snap)) }
{
    match maps.get(&key) {
        Some(map) => Ok(Answer::Bits(map.bits()?.share()?)),
        None => Ok(Answer::Absent),
    }
}

/// Lengthens a map, and makes it where there is none.
fn resize(
    alloc: Global,
    maps: &mut BTreeMap<MapKey, ObjectMap>,
    key: MapKey,
    count: u64,
) -> Result<(), NoMemory>
    requires { count ≤ 2 ^ 20 }
    ensures ok { OnOk result ((image : ℕ) (view : Option ℕ)
        → map_in maps.new image view ≡ put_map (map_in maps.old) key.image key.snap
        (Some (lengthened count (unwrap_or (map_in maps.old key.image key.snap) []))) image view) }
    ensures err { OnErr result ((image : ℕ) (view : Option ℕ)
        → map_in maps.new image view ≡ map_in maps.old image view) }
{
    let Some(map) = maps.get_mut(&key) else {
        return make(alloc, maps, key, count);
    };
    map.resize(count)
}

/// Makes a map of objects in state 0, or nothing at all.
fn make(
    alloc: Global,
    maps: &mut BTreeMap<MapKey, ObjectMap>,
    key: MapKey,
    count: u64,
) -> Result<(), NoMemory>
    requires { count ≤ 2 ^ 20 }
    ensures ok { OnOk result ((image : ℕ) (view : Option ℕ)
        → map_in maps.new image view ≡ put_map (map_in maps.old) key.image key.snap
        (Some (lengthened count [])) image view) }
    ensures err { OnErr result ((image : ℕ) (view : Option ℕ)
        → map_in maps.new image view ≡ map_in maps.old image view) }
{
    let mut map = ObjectMap::new(alloc);
    map.resize(count)?;
    maps.insert(key, map)?;
    Ok(())
}

/// Makes a map of four objects a byte, or nothing at all. One that was there goes.
fn put(
    alloc: Global,
    maps: &mut BTreeMap<MapKey, ObjectMap>,
    key: MapKey,
    bits: &Bytes,
) -> Result<(), NoMemory>
    requires states { HoldStates bits.now }
    requires long { 4 * length bits.now ≤ 2 ^ 20 }
    ensures ok { OnOk result ((image : ℕ) (view : Option ℕ)
        → map_in maps.new image view ≡ put_map (map_in maps.old) key.image key.snap
        (Some (states_of bits.now (4 * length bits.now))) image view) }
    ensures err { OnErr result ((image : ℕ) (view : Option ℕ)
        → map_in maps.new image view ≡ map_in maps.old image view) }
{
    let map = ObjectMap::from_bits(alloc, bits, 4 * bits.len() as u64)?;
    maps.insert(key, map)?;
    Ok(())
}

/// Gives an object another state, if the map is there. It takes no memory, and touches one byte.
fn set(maps: &mut BTreeMap<MapKey, ObjectMap>, key: MapKey, object: u64, state: u8)
    requires { MaySetState (map_in maps.old key.image key.snap) object state }
    ensures { let there = map_in maps.old key.image key.snap in
        (image : ℕ) (view : Option ℕ) → map_in maps.new image view ≡ put_map (map_in maps.old) key.image key.snap
        (option_map (λ states. slice_set states object state) there) image view }
{
    let Some(map) = maps.get_mut(&key) else {
        return;
    };
    map.set(object, state);
}
