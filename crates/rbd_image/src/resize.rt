//! `resize`
ghost use Rattle.std.specs.Prelude.{◌≡◌, Some, None, if◌then◌else◌};
ghost use Rattle.rbd_commands.specs.declared.refusal.Refusal.TheVariants.{BadShape};
ghost use Rattle.rbd_meaning.specs.Resizes.{has_few_objects as are_few};
ghost use Rattle.rbd_image.specs.SizeLaws.{new_size_asks, new_size_tells};
ghost use Rattle.rbd_image.specs.Resize.{is_resize, resize_plan, refuses_of, shares_of, event_of, does, rest_of_new_size, TellsNewSize, IsNewSizeReady};

use crate::few::has_few_objects;
use rbd_change::{Change, ChangeRequest, ChangeSteps};
use rbd_kinds::{
    Answer, Command, HeaderView, ImageId, Name, NoMemory, Op, Refusal, Sharing, SiteId, Want,
};
use rbd_machine::{Progress, Refuses, non_primary};
use rbd_pieces::Size;
use std::alloc::Global;

/// The request of a `resize`: sets the size of an image's head.
///
/// ```text
/// Approaching   to its look under the lock, alone in the image's line   (see `Approach`)
///    │             refused: NonPrimary, BadShape
/// Noting        the event Resize, in the image's journal
///    │
/// Acting        map-resize, header-set-size, or
///    │          map-get, zeros, header-set-size              (see `Size`)
/// Applying      the event counts as applied
///    │
///    ▼
/// Done
/// ```
///
/// Each operation may be answered `fenced`, which ends the request with Fenced.
pub type ResizeRequest = ChangeRequest<SizeChange, NewSize>;

/// The size in bytes that is asked for.
#[derive(Drop)]
pub struct SizeChange {
    to: u64,
}

/// What sets it, behind the event.
#[derive(Drop)]
pub struct NewSize {
    size: Size,
}

impl Change for SizeChange {
    type Steps = NewSize;

    ghost serves = { is_resize };

    ghost plan = { resize_plan };

    ghost shares = { shares_of };

    ghost noted = { event_of };

    ghost does = { does };

    fn from_command(command: Command) -> (Name, Self) {
        match command {
            Command::Resize { image, size } => (image.into_name(), SizeChange { to: size.get() }),
            _ => unreachable!(),
        }
    }

    fn sharing(&self) -> Sharing {
        Sharing::Alone
    }

    fn has_event(&self) -> bool {
        true
    }

    fn part(
        &self,
        alloc: Global,
        site: SiteId,
        image: ImageId,
        header: &HeaderView,
    ) -> Result<NewSize, NoMemory> {
        Ok(NewSize {
            size: Size::new(alloc, site, image, header, self.to)?,
        })
    }
}

impl Refuses for SizeChange {
    ghost refuses = { refuses_of };

    /// NonPrimary at a secondary, which clients don't change, and then BadShape where the size has
    /// more than 2^20 objects.
    fn refusal(&self, header: &HeaderView) -> Option<Refusal> {
        non_primary(header.role).or(too_many(header, self.to))
    }
}

/// BadShape, where a size has more than 2^20 objects by the layout of an image.
fn too_many(header: &HeaderView, to: u64) -> Option<Refusal>
    ensures { result ≡ (if are_few header.now.layout to then None else Some BadShape) }
{
    if has_few_objects(&header.layout, to) {
        None
    } else {
        Some(Refusal::BadShape)
    }
}

impl ChangeSteps for NewSize {
    ghost rest = { rest_of_new_size };

    ghost tells = { TellsNewSize };

    ghost is_ready = { IsNewSizeReady };

    fn wants(&self) -> Want {
        self.size.wants()
    }

    fn next(&self, alloc: Global) -> Result<Op, NoMemory> {
        self.size.next(alloc)
    }

    fn ready(&mut self, alloc: Global, answer: &Answer) -> Result<(), NoMemory> {
        self.size.ready(alloc, answer)
    }

    fn feed(&mut self, answer: &Answer) -> Progress<()> {
        self.size.feed(answer)
    }

    ghost asks = { new_size_asks };

    ghost told = { new_size_tells };
}
