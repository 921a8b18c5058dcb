//! What a request changes object by object.
ghost use Rattle.std.specs.Prelude.{◌≡◌, ℕ, None, IfOk};
ghost use Rattle.rbd_kinds.specs.declared.header.HeaderView.{HeaderView};
ghost use Rattle.rbd_kinds.specs.declared.id.SiteId.{SiteId};
ghost use Rattle.rbd_kinds.specs.declared.journal.JournalEvent.{JournalEvent};
ghost use Rattle.rbd_kinds.specs.Form.{IsHeaderInForm};
ghost use Rattle.rbd_machine.specs.Plan.{Plan, Note};
ghost use Rattle.rbd_machine.specs.Steps.{applied};
ghost use Rattle.rbd_change.specs.Extent.{in_turn};

use crate::at_object::ObjectChange;
use rbd_kinds::{HeaderView, ImageId, NoMemory, SiteId};
use rbd_machine::Refuses;
use std::alloc::Global;
use std::collections::VecDeque;

/// What a request changes of an image object by object, beside others: why it is refused at its
/// looks ([`Refuses`]), the event that it notes, and the pieces that it does behind that event.
pub trait ExtentChange: Refuses + Drop {
    /// What is done to one object.
    type AtObject: ObjectChange;

    /// Its event.
    ghost noted: { Self → JournalEvent };

    /// The plan from its event on, by the header of its look under the lock.
    ghost does: { Self → SiteId → (image : ℕ) → HeaderView → Plan };

    /// What is done behind the event, piece by piece, by a header that it doesn't refuse. NoMemory
    /// where memory for it is refused.
    fn pieces(
        &self,
        alloc: Global,
        site: SiteId,
        image: ImageId,
        header: &HeaderView,
    ) -> Result<VecDeque<Self::AtObject>, NoMemory>
        requires form { IsHeaderInForm header.now }
        requires may { Self.refuses self.now header.now ≡ None }
        ensures { IfOk result (λ made. Note site image (noted self.now)
            (in_turn Self.AtObject.rest Self.AtObject.number made.items (applied site image))
            ≡ does self.now site image header.now) };
}
