ghost use Rattle.std.specs.Prelude.{◌≡◌, ℕ, ◌+◌, ◌-◌, ◌^◌, ◌/◌, ◌<◌, ◌≤◌, [], ◌++◌, List, length, take, replicate, slice_index, slice_set, count_by, IfOk, OnOk, OnErr};
ghost use Rattle.rbd_map.specs.States.{states_of, bits_of, is_used, AreStates};

use crate::byte::{state_in, weight_of};
use crate::count::used_in;
use rbd_kinds::{Bytes, NoMemory};
use std::alloc::Global;
use std::marker::Model;

/// An object map (Ceph: RBD's object map). Contracts see the list of the objects' states.
#[derive(Drop)]
pub struct ObjectMap {
    /// Four states a byte, and zeros past the last.
    bytes: Vec<u8>,
    /// How many objects.
    count: u64,
}

impl Model for ObjectMap {
    ghost use Rattle.std.specs.Prelude.{ℕ, List};
    ghost use Rattle.rbd_map.specs.States.{states_of, IsPacked};

    ghost Value = { List ℕ };

    ghost view = { λ m. states_of m.bytes.items m.count };

    ghost invariant = { λ m. IsPacked m.bytes.items m.count };
}

impl ObjectMap {
    /// A map of no objects. It takes no memory.
    pub fn new(alloc: Global) -> Self
        ensures { result ≡ [] }
    {
        ObjectMap {
            bytes: Vec::new(alloc),
            count: 0,
        }
    }

    /// How many objects it has. It takes no memory.
    pub fn len(&self) -> u64
        ensures { result ≡ length self.now }
    {
        self.count
    }

    /// Adds objects in state 0 until there are `count`. A map never becomes shorter (own). Refused
    /// memory, nothing changes.
    pub fn resize(&mut self, count: u64) -> Result<(), NoMemory>
        requires { count ≤ 2 ^ 20 }
        ensures ok { OnOk result (self.new ≡ self.old ++ replicate (count - length self.old) 0) }
        ensures err { OnErr result (self.new ≡ self.old) }
    {
        if self.count < count {
            self.bytes.resize(((count + 3) / 4) as usize, 0)?;
            self.count = count;
        }
        Ok(())
    }

    /// The state of an object: 0 past the end. It takes no memory.
    pub fn get(&self, object: u64) -> u8
        ensures value { result ≡ slice_index self.now object }
        ensures state { result < 3 }
    {
        if object < self.count {
            state_in(self.bytes.as_slice(), object)
        } else {
            0
        }
    }

    /// Gives an object another state; no other changes. It takes no memory.
    pub fn set(&mut self, object: u64, state: u8)
        requires listed { object < length self.old }
        requires state { state < 3 }
        ensures { self.new ≡ slice_set self.old object state }
    {
        let at = (object / 4) as usize;
        let weight = weight_of(object);
        let old = state_in(self.bytes.as_slice(), object);
        self.bytes[at] = self.bytes[at] - old * weight + state * weight;
    }

    /// How many of the first `count` objects aren't in state 0. It takes no memory.
    pub fn used(&self, count: u64) -> u64
        ensures { result ≡ count_by is_used (take count self.now) }
    {
        used_in(self.bytes.as_slice(), count.min(self.count))
    }

    /// The states as bytes, four in each, and zeros in what is left of the last.
    pub fn bits(&self) -> Result<Bytes, NoMemory>
        ensures value { IfOk result (λ bits. bits ≡ bits_of self.now) }
        ensures states { AreStates self.now }
    {
        Ok(Bytes::from_slice(*self.bytes.allocator(), self.bytes.as_slice())?)
    }

    /// The map of `count` objects whose states the bytes have. What lies in the last byte past them
    /// is passed over.
    pub fn from_bits(alloc: Global, bits: &Bytes, count: u64) -> Result<ObjectMap, NoMemory>
        requires bytes { length bits.now ≡ (count + 3) / 4 }
        requires states { AreStates (states_of bits.now count) }
        ensures { IfOk result (λ map. map ≡ states_of bits.now count) }
    {
        Ok(ObjectMap {
            bytes: first_states(alloc, bits.as_slice(), count)?,
            count,
        })
    }
}

/// A copy of the bytes of `count` objects, with zeros in what the last byte has past them.
fn first_states(alloc: Global, bits: &[u8], count: u64) -> Result<Vec<u8>, NoMemory>
    requires { length bits.now ≡ (count + 3) / 4 }
    ensures { IfOk result (λ bytes. bytes.items ≡ bits_of (states_of bits.now count)) }
{
    let mut bytes = Vec::from_slice(alloc, bits)?;
    if count % 4 == 0 {
        return Ok(bytes);
    }
    let at = (count / 4) as usize;
    let last = bits[at];
    bytes[at] = last - last % weight_of(count - 1);
    Ok(bytes)
}
