//! What of an image is read.
ghost use Rattle.std.specs.Prelude.{◌≡◌, option_copied};
ghost use Rattle.rbd_header.specs.Header.{view_of as named_view};

use rbd_kinds::{HeaderView, Name, SnapId};

/// What of an image is read: the head or a snapshot, and its size in bytes.
#[derive(Clone, Copy, Debug)]
pub struct View {
    pub snap: Option<SnapId>,
    pub size: u64,
}

/// The view of a name, the head where there is none. It is `None` exactly where the header lists no
/// snapshot of the name.
pub fn view_of(header: &HeaderView, snap: Option<&Name>) -> Option<View>
    ensures { result ≡ named_view header.now (option_copied snap.entry) }
{
    let Some(name) = snap else {
        return Some(View {
            snap: None,
            size: header.size,
        });
    };
    let found = header.named(name)?;
    Some(View {
        snap: Some(found.id),
        size: found.size,
    })
}
