//! Operations on the directory.
ghost use Rattle.std.specs.Prelude.{◌≡◌, IfOk, OnOk, OnErr};
ghost use Rattle.rbd_site.specs.DirectoryStep.{image_found, directory_answer, directory_after};

use crate::found::done_where;
use rbd_kinds::{Answer, DirectoryOp, ImageId, Name, NoMemory};
use rbd_registry::{AddFault, Directory, RenameFault};

/// What an operation is answered now.
pub fn answer(directory: &Directory, op: &DirectoryOp) -> Result<Answer, NoMemory>
    ensures { IfOk result (λ answer. answer ≡ directory_answer directory.now op.now) }
{
    match op {
        DirectoryOp::Find { name } => Ok(found(directory.find(name))),
        DirectoryOp::Add { name } => Ok(added(directory, name)),
        DirectoryOp::Rename { from, to } => Ok(renamed(directory, from, to)),
        DirectoryOp::List => Ok(Answer::Names(directory.list()?)),
        DirectoryOp::Remove { image } => Ok(done_where(directory.holds(*image))),
    }
}

/// Does an operation, or nothing at all.
pub fn change(directory: &mut Directory, op: &DirectoryOp) -> Result<(), NoMemory>
    ensures ok { OnOk result (directory.new ≡ directory_after directory.old op.now) }
    ensures err { OnErr result (directory.new ≡ directory.old) }
{
    match op {
        DirectoryOp::Add { name } => add(directory, name),
        DirectoryOp::Rename { from, to } => rename(directory, from, to),
        DirectoryOp::Find { name: _ } | DirectoryOp::List => Ok(()),
        DirectoryOp::Remove { image } => {
            remove(directory, *image);
            Ok(())
        }
    }
}

fn found(image: Option<ImageId>) -> Answer
    ensures { result ≡ image_found image }
{
    match image {
        Some(image) => Answer::Id(image),
        None => Answer::Absent,
    }
}

fn added(directory: &Directory, name: &Name) -> Answer
    ensures { result ≡ directory_answer directory.now (DirectoryOp.Add name.now) }
{
    if directory.find(name).is_some() {
        return Answer::Exists;
    }
    if directory.is_full() {
        return Answer::Full;
    }
    Answer::Id(ImageId(directory.drawn() + 1))
}

fn renamed(directory: &Directory, from: &Name, to: &Name) -> Answer
    ensures { result ≡ directory_answer directory.now (DirectoryOp.Rename from.now to.now) }
{
    if directory.find(from).is_none() {
        return Answer::Absent;
    }
    if directory.find(to).is_some() {
        return Answer::Exists;
    }
    Answer::Done
}

fn add(directory: &mut Directory, name: &Name) -> Result<(), NoMemory>
    ensures ok { OnOk result (directory.new ≡ directory_after directory.old (DirectoryOp.Add name.now)) }
    ensures err { OnErr result (directory.new ≡ directory.old) }
{
    match directory.add(name) {
        Ok(_) => Ok(()),
        Err(fault) => match fault {
            AddFault::Exists => Ok(()),
            AddFault::Full => Ok(()),
            AddFault::NoMemory => Err(NoMemory),
        },
    }
}

fn rename(directory: &mut Directory, from: &Name, to: &Name) -> Result<(), NoMemory>
    ensures ok { OnOk result (directory.new ≡ directory_after directory.old (DirectoryOp.Rename from.now to.now)) }
    ensures err { OnErr result (directory.new ≡ directory.old) }
{
    match directory.rename(from, to) {
        Ok(()) => Ok(()),
        Err(fault) => match fault {
            RenameFault::NoName => Ok(()),
            RenameFault::Exists => Ok(()),
            RenameFault::NoMemory => Err(NoMemory),
        },
    }
}

fn remove(directory: &mut Directory, image: ImageId)
    ensures { directory.new ≡ directory_after directory.old (DirectoryOp.Remove image) }
{
    directory.remove(image);
}
