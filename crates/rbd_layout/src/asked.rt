//! The layout that a new image or a clone is asked to have.
ghost use Rattle.std.specs.Prelude.{◌≡◌, ◌↔◌, ◌<◌, ◌^◌, IsTrue};
ghost use Rattle.rbd_layout.specs.Asked as asked;
ghost use Rattle.rbd_layout.specs.Asked.{KeepsLimits};

use crate::count::objects;
use crate::shape::check;
use rbd_kinds::{Layout, Shape};

/// The object size in bytes where none is asked for (Ceph: 4 MiB).
const USUAL_OBJECT: u64 = 4_194_304;

/// How many objects an image has at most.
const MOST_OBJECTS: u64 = 1_048_576;

/// The layout of an image that is made new: where its shape doesn't say otherwise, objects of 4
/// MiB, the stripe unit the whole object, and one object in a stripe (Ceph: `rbd create`).
pub fn layout_of(shape: &Shape) -> Layout
    ensures { result ≡ asked.layout_of shape.now }
{
    layout_on(USUAL_OBJECT, shape)
}

/// The layout of a clone: its parent's, where its shape says nothing of it. Where it says anything,
/// the object size is the parent's unless it says otherwise, and the rest is as for an image that
/// is made new (own).
pub fn clone_layout_of(parent: &Layout, shape: &Shape) -> Layout
    ensures { result ≡ asked.clone_layout_of parent.now shape.now }
{
    if asks_for_layout(shape) {
        layout_on(parent.object, shape)
    } else {
        *parent
    }
}

/// Whether a shape says anything of the layout.
fn asks_for_layout(shape: &Shape) -> bool
    ensures { result ≡ asked.asks_for_layout shape.now }
{
    shape.object.is_some() || shape.unit.is_some() || shape.count.is_some()
}

/// The layout that a shape asks for, with an object size in bytes where it asks for none.
fn layout_on(usual: u64, shape: &Shape) -> Layout
    ensures { result ≡ asked.layout_on usual shape.now }
{
    let object = shape.object.map_or(usual, |object| object.get());
    Layout {
        object,
        unit: shape.unit.map_or(object, |unit| unit.get()),
        count: shape.count.unwrap_or(1),
    }
}

/// Whether the layout is within its limits, and a size in bytes has at most 2^20 objects (own).
pub fn keeps_limits(layout: &Layout, size: u64) -> bool
    requires { size < 2 ^ 63 }
    ensures { IsTrue result ↔ KeepsLimits layout.now size }
{
    check(layout).is_ok() && objects(layout, size) <= MOST_OBJECTS
}
