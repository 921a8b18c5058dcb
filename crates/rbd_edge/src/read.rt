ghost use Rattle.std.specs.Prelude.{◌≡◌, ◌+◌, ◌-◌, ◌^◌, ◌<◌, ◌≤◌, ◌↔◌, ◌++◌, [], length, take, IfOk, OnOk, OnErr, IfSome, IsErrOf, vec_len, Some};
ghost use Rattle.rbd_edge.specs.Source.{left_after, IsFurther};
ghost use Rattle.rbd_edge.specs.Texts.{read_text};
ghost use Rattle.rbd_edge.specs.declared.read.ReadFault.TheVariants.{Failed, NoMemory};

use crate::failed::Failed;
use crate::source::Source;
use std::alloc::{AllocError, Global};
use std::error::Error;
use std::fmt;

/// How many bytes are asked for at a time.
const BLOCK: usize = 65_536;

/// Why a source was not read to its end or to the limit.
#[derive(Clone, Copy, Debug, PartialEq, Eq)]
pub enum ReadFault {
    /// The source failed: its count of faults rose by one.
    Failed,
    /// A growth of memory was refused.
    NoMemory,
}

impl fmt::Display for ReadFault {
    ghost output = { λ fault. Some (read_text fault) };

    fn fmt<W: fmt::Write>(&self, f: &mut fmt::Formatter<W>) -> fmt::Result {
        match self {
            ReadFault::Failed => f.write_str("a read failed"),
            ReadFault::NoMemory => f.write_str("out of memory"),
        }
    }
}

impl Error for ReadFault {}

impl From<Failed> for ReadFault {
    ghost from_gives = { λ _ fault. fault ≡ Failed };

    fn from(_failed: Failed) -> ReadFault {
        ReadFault::Failed
    }
}

impl From<AllocError> for ReadFault {
    ghost from_gives = { λ _ fault. fault ≡ NoMemory };

    fn from(_refused: AllocError) -> ReadFault {
        ReadFault::NoMemory
    }
}

/// Reads a source to its end, or until `limit` bytes were taken, and never takes more. So fewer
/// than `limit` bytes are all that the source had left.
///
/// At an `Err` what was read is lost, and the source has what it had left but for some bytes at the
/// front, `limit` at most.
#[tactic(auto, using(crate::proofs::Told::reading))]
pub fn read_to<S: Source>(alloc: Global, source: &mut S, limit: usize) -> Result<Vec<u8>, ReadFault>
    requires some { 1 ≤ limit }
    requires countable { S.faults source.old < 2 ^ 64 - 1 }

    ensures few { IfOk result (λ bytes. vec_len bytes ≤ limit) }
    ensures quiet { OnOk result (S.faults source.new ≡ S.faults source.old) }

    // Where the source tells its bytes.
    ensures bytes { IfOk result (λ bytes. IfSome (S.left source.old) (λ left. bytes.items ≡ take limit left)) }
    ensures rest { OnOk result (S.left source.new ≡ left_after limit (S.left source.old)) }

    // When each error comes, and what it leaves.
    ensures failed { IsErrOf result ReadFault.Failed ↔ (S.faults source.new ≡ S.faults source.old + 1) }
    ensures no_memory { IsErrOf result ReadFault.NoMemory → S.faults source.new ≡ S.faults source.old }
    ensures further { OnErr result (IsFurther limit (S.left source.old) (S.left source.new)) }
{
    let block = BLOCK.min(limit);
    let mut buffer = vec![in alloc; 0; block]?;
    let mut bytes = Vec::new(alloc);
    while bytes.len() < limit {
        let room = block.min(limit - bytes.len());
        if append_some(source, &mut buffer[..room], &mut bytes)? == 0 {
            return Ok(bytes);
        }
    }
    Ok(bytes)
}

/// Appends what one call of a source puts into `room`, and answers how many bytes it was.
#[tactic(auto, using(crate::proofs::Told::reading))]
fn append_some<S: Source>(
    source: &mut S,
    room: &mut [u8],
    bytes: &mut Vec<u8>,
) -> Result<usize, ReadFault>
    requires room { 0 < length room.old }
    requires countable { S.faults source.old < 2 ^ 64 - 1 }

    ensures bound { IfOk result (λ n. n ≤ length room.old) }
    ensures len { IfOk result (λ n. vec_len bytes.new ≡ vec_len bytes.old + n) }
    ensures bytes { IfOk result (λ n. IfSome (S.left source.old) (λ left.
        bytes.new.items ≡ bytes.old.items ++ take n left)) }
    ensures few { IfOk result (λ n. IfSome (S.left source.old) (λ left. n ≤ length left)) }
    ensures rest { IfOk result (λ n. S.left source.new ≡ left_after n (S.left source.old)) }
    ensures end { IfOk result (λ n. n ≡ 0 → IfSome (S.left source.old) (λ left. left ≡ [])) }
    ensures quiet { OnOk result (S.faults source.new ≡ S.faults source.old) }

    ensures failed { IsErrOf result ReadFault.Failed → S.faults source.new ≡ S.faults source.old + 1 }
    ensures no_memory { IsErrOf result ReadFault.NoMemory → S.faults source.new ≡ S.faults source.old }
    ensures further { OnErr result (IsFurther (length room.old) (S.left source.old) (S.left source.new)) }
{
    let n = source.take(room)?;
    bytes.extend_from_slice(&room[..n])?;
    Ok(n)
}
