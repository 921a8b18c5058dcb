//! Maps whose bytes and counts were worked out by hand from the rule of two bits an object.
use crate::holds;
use rbd_kinds::{Bytes, NoMemory};
use rbd_map::ObjectMap;
use std::process::Abort;
use std::test::Fail;

/// Whether the bits of a map are those of five objects with states 0, 1, 0, 0, 2.
fn has_bits(map: &ObjectMap) -> Result<bool, NoMemory> {
    let bits = map.bits()?;
    Ok(bits.as_slice() == [0x10, 0x80].as_slice())
}

/// How many of the first objects are used.
const USED: [(u64, u64); 6] = [(0, 0), (1, 0), (2, 1), (4, 1), (5, 2), (9, 2)];

fn are_used(rt: &impl Abort, map: &ObjectMap) {
    for (count, used) in USED {
        assert!(rt; map.used(count) == used, "the first {count}");
    }
}

/// Five objects with states 0, 1, 0, 0, 2.
fn five(rt: &impl Abort, map: &mut ObjectMap) -> Result<(), Fail> {
    map.resize(5)?;
    map.set(1, 1);
    map.set(4, 2);
    assert!(rt; has_bits(map)?);
    are_used(rt, map);
    map.resize(3)?;
    assert!(rt; map.len() == 5);
    assert!(rt; map.get(4) == 2);
    assert!(rt; map.get(5) == 0);
    Ok(())
}

#[test]
fn a_map_of_five(rt: HostRuntime) -> Result<(), Fail> {
    let mut map = ObjectMap::new(rt.alloc());
    five(&rt, &mut map)
}

const STATES: [u8; 6] = [0, 1, 0, 0, 2, 0];

fn has_states(rt: &impl Abort, map: &ObjectMap) {
    for object in 0..6 {
        assert!(rt; map.get(object) == STATES[object as usize]);
    }
}

/// The bytes 10 80 again, with something else past the fifth object.
#[test]
fn a_map_from_bits(rt: HostRuntime) -> Result<(), Fail> {
    let alloc = rt.alloc();
    let bits = Bytes::from_slice(alloc, &[0x10, 0xbf])?;
    let map = ObjectMap::from_bits(alloc, &bits, 5)?;
    has_states(&rt, &map);
    assert!(rt; holds(has_bits(&map)));
    Ok(())
}
