ghost use Rattle.std.specs.Prelude.{◌≡◌, [], ◌∷◌, ◌++◌, length, List, IsTrue, ◌↔◌, OnOk, OnErr};

use crate::memory::NoMemory;
use std::alloc::Global;
use std::marker::Model;

/// Some items in order, which needn't be such that can be copied, and to which more are added at
/// the end. Contracts see the list of them.
#[derive(Drop)]
pub struct Growing<T> {
    items: Vec<T>,
}

impl<T> Model for Growing<T> {
    ghost use Rattle.std.specs.Prelude.{List};

    ghost Value = { List T };

    ghost view = { λ g. g.items.items };
}

impl<T> Growing<T> {
    /// No items. It takes no memory.
    pub fn new(alloc: Global) -> Self
        ensures { result ≡ [] }
    {
        Growing {
            items: Vec::new(alloc),
        }
    }

    /// The items of a vector, without a copy.
    pub fn from_vec(items: Vec<T>) -> Self
        ensures { result ≡ items.items }
    {
        Growing { items }
    }

    /// The vector of the items, without a copy.
    pub fn into_vec(self) -> Vec<T>
        ensures { result.items ≡ self }
    {
        self.items
    }

    /// The items, in order.
    pub fn as_slice(&self) -> &[T]
        ensures { result.now ≡ self.now }
    {
        self.items.as_slice()
    }

    /// How many items there are.
    pub fn len(&self) -> usize
        ensures { result ≡ length self.now }
    {
        self.items.len()
    }

    /// Whether there is none.
    pub fn is_empty(&self) -> bool
        ensures { IsTrue result ↔ (self.now ≡ []) }
    {
        self.items.is_empty()
    }

    /// Adds an item at the end.
    pub fn push(&mut self, item: T) -> Result<(), NoMemory>
    where
        T: Drop,
        ensures ok { OnOk result (self.new ≡ self.old ++ item ∷ []) }
        ensures err { OnErr result (self.new ≡ self.old) }
    {
        self.items.push(item)?;
        Ok(())
    }
}
