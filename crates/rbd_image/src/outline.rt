//! What a header tells of what a removal takes away.
ghost use Rattle.std.specs.Prelude.{◌≡◌, ◌++◌, map, IfOk, OnOk};
ghost use Rattle.rbd_meaning.specs.Removals as of_removals;
ghost use Rattle.rbd_image.specs.RemovalPart.{IsOutlineOf};
ghost use Rattle.rbd_image.specs.Remnants.{contents, map_remnant, remnants};

use crate::objects::{object_in, state_count};
use crate::remnant::Remnant;
use rbd_kinds::{HeaderView, NoMemory, ParentLink, SnapView, Snaps, TryClone};
use std::alloc::Global;
use std::collections::VecDeque;

/// What a header tells of what is removed: the link to a parent, the snapshots, and whether there
/// is a journal.
#[derive(Drop)]
pub struct Outline {
    link: Option<ParentLink>,
    snaps: Snaps,
    journal: bool,
}

impl Outline {
    /// What a header tells, with a copy of its snapshots, unless their memory is shared. NoMemory
    /// where that is refused.
    pub fn new(header: &HeaderView) -> Result<Self, NoMemory>
        ensures { IfOk result (IsOutlineOf header.now) }
    {
        Ok(Outline {
            link: link_of(header),
            snaps: header.snaps.try_clone()?,
            journal: header.journal,
        })
    }

    /// All that is removed, in order, by the states of the head's map. NoMemory also where these
    /// are more than the numbers of 64 bits, which no memory holds.
    pub fn remnants(&self, alloc: Global, bits: &[u8]) -> Result<VecDeque<Remnant>, NoMemory>
        ensures { IfOk result (λ made. made.items ≡ remnants self.now.link self.now.snaps self.now.journal bits.now) }
    {
        let mut made = VecDeque::new(alloc);
        made.push_back(Remnant::Name)?;
        made.push_back(Remnant::Header)?;
        if let Some(link) = self.link {
            made.push_back(Remnant::Link(link))?;
        }
        self.add_contents(&mut made, bits)?;
        Ok(made)
    }

    /// Adds the objects whose state isn't 0, ascending, and behind them the maps and the journal. A
    /// byte of the map that is 0 has four unused objects, which are passed over by one test.
    fn add_contents(&self, made: &mut VecDeque<Remnant>, bits: &[u8]) -> Result<(), NoMemory>
        ensures { OnOk result (made.new.items ≡ made.old.items ++ contents self.now.snaps self.now.journal bits.now) }
    {
        for index in 0..state_count(bits)? / 4 {
            if bits[index as usize] == 0 {
                continue;
            }
            for object in 4 * index..4 * index + 4 {
                if let Some(object) = object_in(bits, object) {
                    made.push_back(Remnant::Object(object))?;
                }
            }
        }
        made.push_back(Remnant::Map(None))?;
        add_maps(made, &self.snaps)?;
        if self.journal {
            made.push_back(Remnant::Journal)?;
        }
        Ok(())
    }
}

/// The parent of the head, or of a snapshot where the head has none.
fn link_of(header: &HeaderView) -> Option<ParentLink>
    ensures { result ≡ of_removals.link_of header.now }
{
    match header.parent {
        Some(link) => Some(link),
        None => parent_in(header.snaps.as_slice()),
    }
}

/// The first parent that a snapshot has.
fn parent_in(snaps: &[SnapView]) -> Option<ParentLink>
    ensures { result ≡ of_removals.parent_in snaps.now }
{
    for snap in snaps {
        if let Some(link) = snap.parent {
            return Some(link);
        }
    }
    None
}

/// Adds the maps of snapshots.
fn add_maps(made: &mut VecDeque<Remnant>, snaps: &Snaps) -> Result<(), NoMemory>
    ensures { OnOk result (made.new.items ≡ made.old.items ++ map map_remnant snaps.now) }
{
    for snap in snaps.as_slice() {
        made.push_back(Remnant::Map(Some(snap.id)))?;
    }
    Ok(())
}
