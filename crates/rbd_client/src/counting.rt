//! What an answer comes to for the locks.
ghost use Rattle.std.specs.Prelude.{◌<◌};
ghost use Rattle.rbd_client.specs.Feeding.{comings_of, quiesces, resumes, CountsAll};
ghost use Rattle.rbd_lock.specs.Locks.{IsSoundLocks};

use rbd_commands::Quiescing;
use rbd_kinds::{Answer, DirectoryOp, Fed, ImageAt, ImageId, Op, SiteId};
use rbd_lock::Locks;

/// Counts an operation of the client that was answered, and the quiesce that the request begins at
/// its look under the lock or ends. It takes no memory.
pub fn count(
    locks: &mut Locks,
    quiescing: Quiescing,
    look: Option<ImageAt>,
    site: SiteId,
    op: &Op,
    fed: &Fed,
)
    requires { 0 < locks.old.room }
    ensures counts { CountsAll (comings_of quiescing look site op.now fed.now) locks.old locks.new }
    ensures sound { IsSoundLocks locks.old → IsSoundLocks locks.new }
{
    let Fed::Answer(answer) = fed else {
        return;
    };
    locks.count(site, op, answer);
    match (quiescing, answer) {
        (Quiescing::Begins, Answer::Header(_)) => begin_quiesce(locks, look),
        (Quiescing::Ends, Answer::Id(image)) => end_quiesce(locks, site, op, *image),
        _ => {}
    }
}

fn begin_quiesce(locks: &mut Locks, look: Option<ImageAt>)
    requires { 0 < locks.old.room }
    ensures counts { CountsAll (quiesces look) locks.old locks.new }
    ensures sound { IsSoundLocks locks.old → IsSoundLocks locks.new }
{
    if let Some(at) = look {
        locks.quiesce(&at);
    }
}

fn end_quiesce(locks: &mut Locks, site: SiteId, op: &Op, image: ImageId)
    ensures counts { CountsAll (resumes site op.now image) locks.old locks.new }
    ensures sound { IsSoundLocks locks.old → IsSoundLocks locks.new }
{
    if let Op::Directory(DirectoryOp::Find { name: _ }) = op {
        locks.resume(&ImageAt { site, image });
    }
}
