//! The frames that a journal holds.
ghost use Rattle.std.specs.Prelude.{◌≡◌, ◌≤◌, drop, length};

use rbd_kinds::{Bytes, Tag};
use std::collections::VecDeque;
use std::marker::Model;

/// A frame, and the tag of its position.
#[derive(Drop)]
pub struct HeldFrame {
    pub tag: Tag,
    pub frame: Bytes,
}

impl Model for HeldFrame {
    ghost use Rattle.rbd_journal.specs.Records.{Held};

    ghost Value = { Held };

    ghost view = { λ e. record { tag = e.tag; frame = e.frame } };
}

/// Drops entries from the front.
pub fn drop_front(entries: &mut VecDeque<HeldFrame>, count: usize)
    requires { count ≤ length entries.old.items }
    ensures { entries.new.items ≡ drop count entries.old.items }
{
    for _ in 0..count {
        entries.pop_front();
    }
}
