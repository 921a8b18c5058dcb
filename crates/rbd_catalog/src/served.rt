//! Which commands are served.
ghost use Rattle.std.specs.Prelude.{◌≡◌};
ghost use Rattle.rbd_catalog.specs.Plans.{is_built as is_one_built};

use rbd_kinds::Command;

/// Whether a command is served. It isn't where it makes an image with a journal or a clone, or asks
/// something of clones or mirrors. Ask this before a request of the command is made.
pub fn is_built(command: &Command) -> bool
    ensures { result ≡ is_one_built command.now }
{
    match command {
        Command::Create { shape, .. } => !shape.journal,
        Command::Clone { .. } | Command::Flatten { .. } | Command::Children { .. } => false,
        Command::SnapProtect { .. } | Command::SnapUnprotect { .. } => false,
        Command::MirrorEnable { .. } | Command::MirrorDemote { .. } => false,
        Command::MirrorPromote { .. } | Command::MirrorResync { .. } => false,
        Command::MirrorStatus { .. } | Command::MirrorFollow { .. } => false,
        _ => true,
    }
}
