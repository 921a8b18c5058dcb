ghost use Rattle.std.specs.Prelude.{◌≡◌, [], ◌∷◌, ◌++◌, length, List, IsTrue, ◌↔◌, IfOk, OnOk, OnErr};
ghost use Rattle.rbd_values.specs.Held.{items_held};

use crate::copies::TryClone;
use crate::memory::NoMemory;
use std::alloc::Global;
use std::fmt;
use std::marker::Model;
use std::sync::Arc;

/// Some items in order, seen by contracts as the list of them. They lie in a vector of their own,
/// or in one that several values share, and then a copy counts one more owner and copies no item.
#[derive(Drop)]
pub struct Sequence<T> {
    held: Held<T>,
}

enum Held<T> {
    Own(Vec<T>),
    Shared(Arc<Vec<T>, Global>),
}

// (written out, so that it is a call where a sequence is let go, and not a choice of two)
impl<T: Drop> Drop for Held<T> {
    fn drop(self) {
        match self {
            Held::Own(items) => drop(items),
            Held::Shared(items) => drop(items),
        }
    }
}

impl<T: Drop> Held<T> {
    fn share(self) -> Result<Self, NoMemory>
        ensures { IfOk result (λ shared. items_held shared ≡ items_held self) }
    {
        match self {
            Held::Own(items) => {
                let alloc = *items.allocator();
                Ok(Held::Shared(Arc::new(alloc, items)?))
            }
            Held::Shared(items) => Ok(Held::Shared(items)),
        }
    }
}

impl<T: TryClone> Held<T> {
    fn into_vec(self) -> Result<Vec<T>, NoMemory>
        ensures { IfOk result (λ items. items.items ≡ items_held self) }
    {
        match self {
            Held::Own(items) => Ok(items),
            Held::Shared(items) => match Arc::try_unwrap(items) {
                Ok(items) => Ok(items),
                Err(items) => copied(*items.allocator(), items.as_slice()),
            },
        }
    }
}

impl<T> Model for Sequence<T> {
    ghost use Rattle.std.specs.Prelude.{List};
    ghost use Rattle.rbd_values.specs.Held.{items_held};

    ghost Value = { List T };

    ghost view = { λ s. items_held s.held };
}

impl<T> Sequence<T> {
    /// No items. It takes no memory.
    pub fn new(alloc: Global) -> Self
        ensures { result ≡ [] }
    {
        Sequence::from_vec(Vec::new(alloc))
    }

    /// The items of a vector, without a copy.
    pub fn from_vec(items: Vec<T>) -> Self
        ensures { result ≡ items.items }
    {
        Sequence {
            held: Held::Own(items),
        }
    }

    /// The same items, without a copy: from now on, copies of them share their memory. The count of
    /// the owners takes a few words of memory, once.
    pub fn share(self) -> Result<Self, NoMemory>
    where
        T: Drop,
        ensures { IfOk result (λ shared. shared ≡ self) }
    {
        Ok(Sequence {
            held: self.held.share()?,
        })
    }

    /// The items, in order.
    pub fn as_slice(&self) -> &[T]
        ensures { result.now ≡ self.now }
    {
        match &self.held {
            Held::Own(items) => items.as_slice(),
            Held::Shared(items) => items.as_slice(),
        }
    }

    /// How many items there are.
    pub fn len(&self) -> usize
        ensures { result ≡ length self.now }
    {
        match &self.held {
            Held::Own(items) => items.len(),
            Held::Shared(items) => items.len(),
        }
    }

    /// Whether there is none.
    pub fn is_empty(&self) -> bool
        ensures { IsTrue result ↔ (self.now ≡ []) }
    {
        match &self.held {
            Held::Own(items) => items.is_empty(),
            Held::Shared(items) => items.is_empty(),
        }
    }
}

impl<T: TryClone> Sequence<T> {
    /// A copy of each item.
    pub fn from_slice(alloc: Global, items: &[T]) -> Result<Self, NoMemory>
        ensures { IfOk result (λ copy. copy ≡ items.now) }
    {
        Ok(Sequence::from_vec(copied(alloc, items)?))
    }

    /// Adds an item at the end. It copies a shared list first, which is then no longer shared by
    /// this value.
    pub fn push(&mut self, item: T) -> Result<(), NoMemory>
        ensures ok { OnOk result (self.new ≡ self.old ++ item ∷ []) }
        ensures err { OnErr result (self.new ≡ self.old) }
    {
        if let Held::Shared(items) = &self.held {
            let mut copies = copied(*items.allocator(), items.as_slice())?;
            copies.push(item)?;
            self.held = Held::Own(copies);
            return Ok(());
        }
        let Held::Own(items) = &mut self.held else {
            unreachable!()
        };
        items.push(item)?;
        Ok(())
    }

    /// The vector of the items: without a copy where no other value shares it, else a copy.
    pub fn into_vec(self) -> Result<Vec<T>, NoMemory>
        ensures { IfOk result (λ items. items.items ≡ self) }
    {
        self.held.into_vec()
    }
}

impl<T: TryClone> TryClone for Sequence<T> {
    /// One more owner of a shared list, a copy of another.
    fn try_clone(&self) -> Result<Self, NoMemory> {
        let held = match &self.held {
            Held::Own(items) => Held::Own(copied(*items.allocator(), items.as_slice())?),
            Held::Shared(items) => Held::Shared(Arc::try_clone(items)?),
        };
        Ok(Sequence { held })
    }
}

/// A copy of each item.
fn copied<T: TryClone>(alloc: Global, items: &[T]) -> Result<Vec<T>, NoMemory>
    ensures { IfOk result (λ copies. copies.items ≡ items.now) }
{
    let mut copies = Vec::new(alloc);
    for item in items {
        copies.push(item.try_clone()?)?;
    }
    Ok(copies)
}

/// The list of the items, wherever they lie.
impl<T: fmt::Debug> fmt::Debug for Sequence<T> {
    fn fmt<W: fmt::Write>(&self, f: &mut fmt::Formatter<W>) -> fmt::Result {
        f.debug_struct("Sequence")
            .field("items", &self.as_slice())
            .finish()
    }
}
