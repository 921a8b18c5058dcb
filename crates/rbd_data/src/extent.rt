//! What refuses a change of a range of bytes.
ghost use Rattle.std.specs.Prelude.{◌≡◌};
ghost use Rattle.rbd_meaning.specs.Range.{out_of_range as is_out_of_range};
ghost use Rattle.rbd_meaning.specs.Writes.{write_refuses};

use rbd_kinds::{Extent, HeaderView, Refusal};
use rbd_machine::non_primary;

/// Why a header refuses that a client changes a range of an image's bytes: NonPrimary, where the
/// image is a secondary, and BadRange, where the range doesn't fit into the size.
pub fn range_refusal(extent: &Extent, header: &HeaderView) -> Option<Refusal>
    ensures { result ≡ write_refuses extent.now header.now }
{
    non_primary(header.role).or(out_of_range(extent, header.size))
}

/// BadRange, where the extent doesn't fit into a size.
pub fn out_of_range(extent: &Extent, size: u64) -> Option<Refusal>
    ensures { result ≡ is_out_of_range extent.now size }
{
    if extent.fits(size) {
        None
    } else {
        Some(Refusal::BadRange)
    }
}
