//! What a request changes.
ghost use Rattle.std.specs.Prelude.{◌≡◌, ℕ, Bool, true, Option, None, is_some, IfOk};
ghost use Rattle.rbd_commands.specs.declared.command.Command.{Command};
ghost use Rattle.rbd_kinds.specs.declared.header.HeaderView.{HeaderView};
ghost use Rattle.rbd_kinds.specs.declared.id.SiteId.{SiteId};
ghost use Rattle.rbd_kinds.specs.declared.journal.JournalEvent.{JournalEvent};
ghost use Rattle.rbd_kinds.specs.Form.{IsHeaderInForm};
ghost use Rattle.rbd_kinds.specs.declared.sharing.Sharing.{Sharing};
ghost use Rattle.rbd_machine.specs.Plan.{Plan};
ghost use Rattle.rbd_machine.specs.Steps.{change_plan};
ghost use Rattle.rbd_change.specs.Event.{noting};

use crate::steps::ChangeSteps;
use rbd_kinds::{Command, HeaderView, ImageId, Name, NoMemory, Sharing, SiteId};
use rbd_machine::Refuses;
use std::alloc::Global;

/// What a request changes of an image in one part: why it is refused at its looks ([`Refuses`]),
/// beside which others it goes, the event that it notes, where it has one, and the part that it
/// does behind that event.
pub trait Change: Refuses + Drop {
    /// What is done, behind the event.
    type Steps: ChangeSteps;

    /// The commands that ask for it.
    ghost serves: { Command → Bool };

    /// The plan of such a command at a site.
    ghost plan: { SiteId → Command → Plan };

    /// Beside which others it goes.
    ghost shares: { Self → Sharing };

    /// Its event, where it has one.
    ghost noted: { Self → Option JournalEvent };

    /// The plan behind its look under the lock, by the header which that look told.
    ghost does: { Self → SiteId → (image : ℕ) → HeaderView → Plan };

    /// What a command asks for: the name of the image, and the change. It takes no memory.
    fn from_command(command: Command) -> (Name, Self)
        requires { serves command ≡ true }
        ensures { (site : SiteId)
            → change_plan site result.0 (shares result.1) (Self.refuses result.1) (does result.1 site)
            ≡ plan site command };

    /// Beside which others it goes on its image.
    fn sharing(&self) -> Sharing
        ensures { result ≡ shares self.now };

    /// Whether it has an event.
    fn has_event(&self) -> bool
        ensures { result ≡ is_some (noted self.now) };

    /// What is done, by a header that it doesn't refuse, behind the event where it has one.
    /// NoMemory where memory for it is refused.
    fn part(
        &self,
        alloc: Global,
        site: SiteId,
        image: ImageId,
        header: &HeaderView,
    ) -> Result<Self::Steps, NoMemory>
        requires form { IsHeaderInForm header.now }
        requires may { Self.refuses self.now header.now ≡ None }
        ensures { IfOk result (λ part. noting site image (noted self.now) (Self.Steps.rest part)
            ≡ does self.now site image header.now) };
}
