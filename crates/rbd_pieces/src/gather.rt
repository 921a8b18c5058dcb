//! Reading the pieces of a view.
ghost use Rattle.std.specs.Prelude.{◌≡◌, ℕ, ◌+◌, ◌<◌, ◌≤◌, ◌^◌, None, ◌++◌, replicate, List, [], length, vec_capacity, vec_len, IfOk, IfSome, OnOk};
ghost use Rattle.rbd_kinds.specs.declared.machine.Fed.TheVariants as fed_with;
ghost use Rattle.rbd_kinds.specs.Parts.{parts_len};
ghost use Rattle.rbd_machine.specs.Plan.{Plan, Wants, Asks, plan_after};
ghost use Rattle.rbd_machine.specs.Steps.{going};
ghost use Rattle.rbd_pieces.specs.Gather.{gather, rest_of_gather, Gathers, HasRoomForAnswer, IsRoomForBytes, TellsBytes, on_bytes};

use rbd_kinds::{
    Answer, Bytes, DataOp, ImageId, NoMemory, Op, OpKind, Part, Refusal, SiteId, SnapId, TryClone,
    Want,
};
use rbd_layout::Piece;
use rbd_machine::{Progress, refusal_of};
use std::alloc::Global;
use std::collections::VecDeque;
use std::mem::replace;

/// The bytes of some pieces of a view, the head or a snapshot, read one object after another.
///
/// ```text
///   ┌─▶ data-read ──none──▶ zeros ──┐
///   │      │ bytes                  │
///   │      ▼                        │
///   └── the next piece ◀────────────┘
///          │ no piece is left
///          ▼
///       the end
/// ```
#[derive(Drop)]
pub struct Gather {
    site: SiteId,
    image: ImageId,
    snap: Option<SnapId>,
    /// The piece that is read next.
    piece: Piece,
    /// Those after it.
    pieces: VecDeque<Piece>,
    /// What was read.
    bytes: Vec<u8>,
}

impl Gather {
    /// Reads these pieces, one at least, of the head or of a snapshot. It takes no memory.
    pub fn new(
        alloc: Global,
        site: SiteId,
        image: ImageId,
        snap: Option<SnapId>,
        pieces: Vec<Piece>,
    ) -> Self
        requires { 0 < length pieces.items }
        ensures { (next : List ℕ → Plan) → rest_of_gather result next ≡ gather site image snap pieces.items [] next }
    {
        let mut pieces = VecDeque::from_vec(pieces);
        let piece = pieces.pop_front().unwrap();
        Gather {
            site,
            image,
            snap,
            piece,
            pieces,
            bytes: Vec::new(alloc),
        }
    }

    /// What was read so far, in the order of the pieces and of their parts.
    pub fn bytes(&self) -> &[u8]
        ensures { result.now ≡ self.now.bytes.items }
    {
        self.bytes.as_slice()
    }

    /// Takes what was read so far out of it, without a copy. It takes no memory.
    pub fn take_bytes(&mut self) -> Bytes
        ensures bytes { result ≡ self.old.bytes.items }
        ensures left { self.new.bytes.items ≡ [] }
    {
        let none = Vec::new(*self.bytes.allocator());
        Bytes::from_vec(replace(&mut self.bytes, none))
    }

    /// What it wants.
    pub fn wants(&self) -> Want
        ensures { (next : List ℕ → Plan) → Wants (rest_of_gather self.now next) result }
    {
        Want::Op {
            site: self.site,
            kind: OpKind::DataRead,
        }
    }

    /// The operation that it wants. NoMemory where memory for it is refused.
    pub fn next(&self, alloc: Global) -> Result<Op, NoMemory>
        ensures { (next : List ℕ → Plan) → IfOk result (Asks (rest_of_gather self.now next)) }
    {
        let op = DataOp::Read {
            snap: self.snap,
            parts: self.piece.parts.try_clone()?,
        };
        Op::on_object(alloc, self.image, self.piece.object, op)
    }

    /// Takes the room for the bytes that an answer shows. NoMemory where that is refused.
    pub fn ready(&mut self, answer: &Answer) -> Result<(), NoMemory>
        ensures rest { (next : List ℕ → Plan) → rest_of_gather self.new next ≡ rest_of_gather self.old next }
        ensures ready { OnOk result (HasRoomForAnswer self.new answer.now) }
    {
        let room = match answer {
            Answer::Bytes(bytes) => bytes.len(),
            _ => total(self.piece.parts.as_slice()).ok_or(NoMemory)?,
        };
        self.bytes.reserve(room)?;
        Ok(())
    }

    /// Goes on with an answer that it has the memory for. Refused with Fenced by `fenced`; `none`
    /// shows zeros. It takes no memory.
    pub fn feed(&mut self, answer: &Answer) -> Progress<()>
        requires tells { TellsBytes answer.now }
        requires room { HasRoomForAnswer self.old answer.now }
        ensures { (next : List ℕ → Plan)
            → Gathers next (plan_after (rest_of_gather self.old next) (fed_with.Answer answer.now)) result self.new }
    {
        match read_into(&mut self.bytes, self.piece.parts.as_slice(), answer) {
            Ok(()) => self.go_on(),
            Err(refusal) => Progress::Refused(refusal),
        }
    }

    /// Goes on to the next piece.
    fn go_on(&mut self) -> Progress<()>
        ensures { (next : List ℕ → Plan)
            → Gathers next
            (gather self.old.site self.old.image self.old.snap self.old.pieces.items self.old.bytes.items next)
            result self.new }
    {
        match self.pieces.pop_front() {
            None => Progress::Ended(()),
            Some(piece) => {
                self.piece = piece;
                Progress::More
            }
        }
    }
}

/// How many bytes the parts have together, or `None` where they are 2^64 or more.
fn total(parts: &[Part]) -> Option<usize>
    ensures some { IfSome result (λ len. len ≡ parts_len parts.now) }
    ensures none { result ≡ None → 2 ^ 64 ≤ parts_len parts.now }
{
    let mut len = 0usize;
    for part in parts {
        match len.checked_add(part.len as usize) {
            Some(longer) => len = longer,
            None => return None,
        }
    }
    Some(len)
}

/// Adds what an answer shows of the parts, or tells why the request ends.
fn read_into(bytes: &mut Vec<u8>, parts: &[Part], answer: &Answer) -> Result<(), Refusal>
    requires tells { TellsBytes answer.now }
    requires room { IsRoomForBytes (vec_len bytes.old) (vec_capacity bytes.old) parts.now answer.now }
    ensures { (next : List ℕ → Plan)
        → on_bytes parts.now (λ more. next (bytes.old.items ++ more)) answer.now
        ≡ going (λ done. next bytes.new.items) result }
{
    match answer {
        Answer::Bytes(more) => {
            add_bytes(bytes, more.as_slice());
            Ok(())
        }
        Answer::Absent => {
            add_zeros(bytes, parts);
            Ok(())
        }
        _ => Err(refusal_of(answer)),
    }
}

/// Adds bytes for which there is room.
fn add_bytes(bytes: &mut Vec<u8>, more: &[u8])
    requires { vec_len bytes.old + length more.now ≤ vec_capacity bytes.old }
    ensures { bytes.new.items ≡ bytes.old.items ++ more.now }
{
    bytes.extend_from_slice(more).unwrap();
}

/// Adds as many zeros as the parts have bytes together.
fn add_zeros(bytes: &mut Vec<u8>, parts: &[Part])
    requires { vec_len bytes.old + parts_len parts.now ≤ vec_capacity bytes.old }
    ensures { bytes.new.items ≡ bytes.old.items ++ replicate (parts_len parts.now) 0 }
{
    let Some(added) = total(parts) else {
        unreachable!()
    };
    let len = bytes.len() + added;
    bytes.resize(len, 0).unwrap();
}
