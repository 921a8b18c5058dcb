//! Copies of commands.
ghost use Rattle.std.specs.Prelude.{◌≡◌, true, Some, IfOk};
ghost use Rattle.rbd_commands.specs.CommandCopy.{only_image, pair_alone, has_more};
ghost use Rattle.rbd_commands.specs.declared.command.Command.TheVariants as variant;

use crate::command::{Command, Payload, ReadLength, Shape};
use rbd_values::{AskedName, NoMemory, Number, TryClone};

// What has to be copied of a command is one image's name, or two names, for most of them: a
// function with a way out for each command and each of its names takes the prover minutes.
impl TryClone for Command {
    fn try_clone(&self) -> Result<Self, NoMemory> {
        match self {
            Command::List => Ok(Command::List),
            Command::Create { image, .. }
            | Command::Fill { image, .. }
            | Command::Discard { image, .. }
            | Command::Resize { image, .. }
            | Command::Remove { image }
            | Command::Info { image }
            | Command::Used { image }
            | Command::Flatten { image }
            | Command::Quiesce { image }
            | Command::Resume { image }
            | Command::Close { image }
            | Command::SnapList { image }
            | Command::MirrorEnable { image }
            | Command::MirrorDemote { image }
            | Command::MirrorPromote { image, .. }
            | Command::MirrorResync { image }
            | Command::MirrorStatus { image }
            | Command::MirrorFollow { image } => copied_of_image(self, image),
            Command::Rename { from, to } => copied_of_pair(self, from, to),
            Command::Children { image, snap }
            | Command::SnapCreate { image, snap }
            | Command::SnapRemove { image, snap }
            | Command::SnapProtect { image, snap }
            | Command::SnapUnprotect { image, snap }
            | Command::SnapRollback { image, snap } => copied_of_pair(self, image, snap),
            _ => copied_of_more(self),
        }
    }
}

/// A copy of a command of which only the image's name has to be copied.
fn copied_of_image(command: &Command, image: &AskedName) -> Result<Command, NoMemory>
    requires { only_image command.now ≡ Some image.now }
    ensures { IfOk result (λ copy. copy ≡ command.now) }
{
    let image = image.try_clone()?;
    Ok(of_image(command, image))
}

/// The command of that kind, of an image, with the same plain parts.
fn of_image(command: &Command, image: AskedName) -> Command
    requires { only_image command.now ≡ Some image }
    ensures { result ≡ command.now }
{
    match command {
        Command::Create { size, shape, .. } => Command::Create {
            image,
            size: *size,
            shape: *shape,
        },
        Command::Fill { at, len, byte, .. } => Command::Fill {
            image,
            at: *at,
            len: *len,
            byte: *byte,
        },
        Command::Discard { at, len, .. } => Command::Discard {
            image,
            at: *at,
            len: *len,
        },
        Command::Resize { size, .. } => Command::Resize { image, size: *size },
        Command::MirrorPromote { force, .. } => Command::MirrorPromote {
            image,
            force: *force,
        },
        Command::Remove { .. } => Command::Remove { image },
        Command::Info { .. } => Command::Info { image },
        Command::Used { .. } => Command::Used { image },
        Command::Flatten { .. } => Command::Flatten { image },
        Command::Quiesce { .. } => Command::Quiesce { image },
        Command::Resume { .. } => Command::Resume { image },
        Command::Close { .. } => Command::Close { image },
        Command::SnapList { .. } => Command::SnapList { image },
        Command::MirrorEnable { .. } => Command::MirrorEnable { image },
        Command::MirrorDemote { .. } => Command::MirrorDemote { image },
        Command::MirrorResync { .. } => Command::MirrorResync { image },
        Command::MirrorStatus { .. } => Command::MirrorStatus { image },
        Command::MirrorFollow { .. } => Command::MirrorFollow { image },
        _ => unreachable!(),
    }
}

/// A copy of a command that asks for two names alone.
fn copied_of_pair(
    command: &Command,
    one: &AskedName,
    other: &AskedName,
) -> Result<Command, NoMemory>
    requires { pair_alone command.now ≡ Some (one.now, other.now) }
    ensures { IfOk result (λ copy. copy ≡ command.now) }
{
    let one = one.try_clone()?;
    let other = other.try_clone()?;
    Ok(of_pair(command, one, other))
}

/// The command of that kind, of two names.
fn of_pair(command: &Command, one: AskedName, other: AskedName) -> Command
    requires { pair_alone command.now ≡ Some (one, other) }
    ensures { result ≡ command.now }
{
    let (image, snap) = (one, other);
    match command {
        Command::Rename { .. } => Command::Rename {
            from: image,
            to: snap,
        },
        Command::Children { .. } => Command::Children { image, snap },
        Command::SnapCreate { .. } => Command::SnapCreate { image, snap },
        Command::SnapRemove { .. } => Command::SnapRemove { image, snap },
        Command::SnapProtect { .. } => Command::SnapProtect { image, snap },
        Command::SnapUnprotect { .. } => Command::SnapUnprotect { image, snap },
        Command::SnapRollback { .. } => Command::SnapRollback { image, snap },
        _ => unreachable!(),
    }
}

/// A copy of a command that has more to copy: three names, a name that may be absent, or bytes.
fn copied_of_more(command: &Command) -> Result<Command, NoMemory>
    requires { has_more command.now ≡ true }
    ensures { IfOk result (λ copy. copy ≡ command.now) }
{
    match command {
        Command::Clone {
            parent,
            snap,
            image,
            shape,
        } => copied_clone(parent, snap, image, *shape),
        Command::Write { image, at, bytes } => copied_write(image, *at, bytes),
        Command::Read {
            image,
            snap,
            at,
            len,
        } => copied_read(image, snap, *at, *len),
        Command::Tell { image, bytes } => copied_tell(image, bytes),
        _ => unreachable!(),
    }
}

fn copied_clone(
    parent: &AskedName,
    snap: &AskedName,
    image: &AskedName,
    shape: Shape,
) -> Result<Command, NoMemory>
    ensures { IfOk result (λ copy. copy ≡ variant.Clone parent.now snap.now image.now shape) }
{
    Ok(Command::Clone {
        parent: parent.try_clone()?,
        snap: snap.try_clone()?,
        image: image.try_clone()?,
        shape,
    })
}

fn copied_write(image: &AskedName, at: Number, bytes: &Payload) -> Result<Command, NoMemory>
    ensures { IfOk result (λ copy. copy ≡ variant.Write image.now at bytes.now) }
{
    Ok(Command::Write {
        image: image.try_clone()?,
        at,
        bytes: bytes.try_clone()?,
    })
}

fn copied_read(
    image: &AskedName,
    snap: &Option<AskedName>,
    at: Number,
    len: ReadLength,
) -> Result<Command, NoMemory>
    ensures { IfOk result (λ copy. copy ≡ variant.Read image.now snap.now at len) }
{
    Ok(Command::Read {
        image: image.try_clone()?,
        snap: copied_name(snap)?,
        at,
        len,
    })
}

fn copied_tell(image: &AskedName, bytes: &Payload) -> Result<Command, NoMemory>
    ensures { IfOk result (λ copy. copy ≡ variant.Tell image.now bytes.now) }
{
    Ok(Command::Tell {
        image: image.try_clone()?,
        bytes: bytes.try_clone()?,
    })
}

fn copied_name(name: &Option<AskedName>) -> Result<Option<AskedName>, NoMemory>
    ensures { IfOk result (λ copy. copy ≡ name.now) }
{
    match name {
        Some(name) => Ok(Some(name.try_clone()?)),
        None => Ok(None),
    }
}
