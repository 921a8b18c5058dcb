//! Places of an image, in order.
ghost use Rattle.std.specs.Prelude.{◌≡◌, [], ◌++◌, IfOk, OnOk, OnErr};
ghost use Rattle.std.specs.List.{flat_map};
ghost use Rattle.rbd_flat.specs.Series.{extents_in};

use rbd_kinds::{Extent, NoMemory};
use std::alloc::Global;
use std::marker::Model;

/// So many extents of equal length. Each begins `step` bytes behind the one before: so do the
/// stripe units of an object.
#[derive(Clone, Copy, Debug, PartialEq, Eq)]
pub struct Series {
    pub first: Extent,
    pub step: u64,
    pub count: u64,
}

/// Places of an image, in order: the bytes of the first extent, then those of the next. Contracts
/// see the list of the extents. They are kept as series, so that those of a whole object take no
/// more memory than those of a few units.
#[derive(Debug, Drop)]
pub struct Extents {
    all: Vec<Series>,
}

impl Model for Extents {
    ghost use Rattle.std.specs.Prelude.{List};
    ghost use Rattle.std.specs.List.{flat_map};
    ghost use Rattle.rbd_kinds.specs.declared.layout.Extent.{Extent};
    ghost use Rattle.rbd_flat.specs.Series.{extents_in};

    ghost Value = { List Extent };

    ghost view = { λ e. flat_map extents_in e.all.items };
}

impl Extents {
    /// No extents, and room for so many series.
    pub fn with_capacity(alloc: Global, capacity: usize) -> Result<Self, NoMemory>
        ensures { IfOk result (λ none. none ≡ []) }
    {
        Ok(Extents {
            all: Vec::with_capacity(alloc, capacity)?,
        })
    }

    /// Adds the extents of a series at the end.
    pub fn push(&mut self, series: Series) -> Result<(), NoMemory>
        ensures ok { OnOk result (self.new ≡ self.old ++ extents_in series) }
        ensures err { OnErr result (self.new ≡ self.old) }
    {
        self.all.push(series)?;
        Ok(())
    }

    /// The series, in order.
    pub fn as_slice(&self) -> &[Series]
        ensures { flat_map extents_in result.now ≡ self.now }
    {
        self.all.as_slice()
    }
}
