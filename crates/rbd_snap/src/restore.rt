//! Objects that become what they were at a snapshot.
ghost use Rattle.std.specs.Prelude.{◌≡◌, ℕ, List, Some, IsSome, replicate, IfOk, OnOk};
ghost use Rattle.rbd_kinds.specs.declared.machine.Fed.TheVariants as fed_with;
ghost use Rattle.rbd_kinds.specs.Form.{IsHeaderInForm};
ghost use Rattle.rbd_kinds.specs.Parts.{parts_len};
ghost use Rattle.rbd_machine.specs.Plan.{Plan, Wants, Asks, plan_after};
ghost use Rattle.rbd_machine.specs.Objects.{data_read};
ghost use Rattle.rbd_machine.specs.Steps.{Progresses, ProgressesBy};
ghost use Rattle.rbd_pieces.specs.Gather.{TellsBytes};
ghost use Rattle.rbd_snap.specs.Rollback.{restore_all};
ghost use Rattle.rbd_snap.specs.Restore as of_restore;
ghost use Rattle.rbd_snap.specs.Restore.{rest_of_restore, rest_of_some};
ghost use Rattle.rbd_snap.specs.declared.restore.Stage.TheVariants as stage;
ghost use Rattle.rbd_pieces.specs.Full.{full_piece, rest_of_full};

use rbd_header::context_of;
use rbd_kinds::{
    Answer, Bytes, DataOp, Extent, HeaderView, ImageId, NoMemory, Op, OpKind, SiteId, SnapContext,
    SnapId, TryClone, Want,
};
use rbd_layout::{Piece, pieces};
use rbd_machine::{Progress, refusal_of};
use rbd_pieces::FullPiece;
use std::alloc::Global;
use std::collections::VecDeque;
use std::marker::Model;

/// All objects of an image's head that become what they were at a snapshot, one after another.
/// Contracts see it as `Restoring`.
///
/// ```text
///   ┌─▶ Reading     data-read of the object at the snapshot ──none──▶ zeros ──┐
///   │      │ bytes                                                            │
///   │      ▼                                                                  │
///   │   Replacing   the head's object becomes these bytes (see `FullPiece`) ◀─┘
///   │      │
///   └── the next object
///          │ no object is left
///          ▼
///       the end
/// ```
///
/// What else is answered `none` ends the request with NoImage, and `fenced` with Fenced.
#[derive(Drop)]
pub struct Restore {
    site: SiteId,
    image: ImageId,
    /// The head's header, and its snapshot context.
    header: HeaderView,
    context: SnapContext,
    snap: SnapId,
    /// The object that is restored, all that the head has of it.
    piece: Piece,
    /// Those after it.
    others: VecDeque<Piece>,
    stage: Stage,
    /// What replaces the object, once its bytes were told.
    readied: Option<FullPiece>,
}

/// A stage of it.
#[derive(Drop)]
pub enum Stage {
    Reading,
    Replacing(FullPiece),
}

impl Model for Restore {
    ghost use Rattle.std.specs.Prelude.{◌≡◌, ◌∷◌, All};
    ghost use Rattle.rbd_kinds.specs.Form.{IsHeaderInForm};
    ghost use Rattle.rbd_header.specs.Header.{context_of};
    ghost use Rattle.rbd_snap.specs.Restore.{Restoring, HasWholeObject};

    ghost Value = { Restoring };

    ghost view = { λ r. record {
      site = r.site;
      image = r.image;
      header = r.header;
      snap = r.snap;
      piece = r.piece;
      others = r.others.items;
      stage = r.stage;
      readied = r.readied;
    } };

    ghost invariant = { λ r. IsHeaderInForm r.header × (r.context ≡ context_of r.header)
        × All (HasWholeObject r.header) (r.piece ∷ r.others.items) };
}

impl Restore {
    /// All objects of an image's head, by its header, with the bytes that they have at a snapshot:
    /// `None` where the head has no object. NoMemory where their pieces or the snapshot context are
    /// refused.
    pub fn new(
        alloc: Global,
        site: SiteId,
        image: ImageId,
        header: HeaderView,
        snap: SnapId,
    ) -> Result<Option<Self>, NoMemory>
        requires { IsHeaderInForm header }
        ensures { IfOk result (λ made. (next : Plan)
            → rest_of_some made next ≡ restore_all site image header snap next) }
    {
        let head = Extent {
            at: 0,
            len: header.size,
        };
        let mut others = VecDeque::from_vec(pieces(alloc, &header.layout, &head)?);
        let context = context_of(alloc, &header)?;
        let Some(piece) = others.pop_front() else {
            return Ok(None);
        };
        Ok(Some(Restore {
            site,
            image,
            header,
            context,
            snap,
            piece,
            others,
            stage: Stage::Reading,
            readied: None,
        }))
    }

    /// What it wants.
    pub fn wants(&self) -> Want
        ensures { (next : Plan) → Wants (rest_of_restore self.now next) result }
    {
        match &self.stage {
            Stage::Reading => Want::Op {
                site: self.site,
                kind: OpKind::DataRead,
            },
            Stage::Replacing(full) => full.wants(),
        }
    }

    /// The operation that it wants. NoMemory where memory for it is refused.
    pub fn next(&self, alloc: Global) -> Result<Op, NoMemory>
        ensures { (next : Plan) → IfOk result (Asks (rest_of_restore self.now next)) }
    {
        match &self.stage {
            Stage::Reading => self.read(alloc),
            Stage::Replacing(full) => full.next(alloc),
        }
    }

    /// The object is read at the snapshot.
    fn read(&self, alloc: Global) -> Result<Op, NoMemory>
        ensures { IfOk result (λ op. op ≡ data_read self.now.image (Some self.now.snap) self.now.piece) }
    {
        let op = DataOp::Read {
            snap: Some(self.snap),
            parts: self.piece.parts.try_clone()?,
        };
        Op::on_object(alloc, self.image, self.piece.object, op)
    }

    /// Takes the memory for an answer: where the object's bytes are told, that of what replaces it.
    /// NoMemory where that is refused.
    pub fn ready(&mut self, alloc: Global, answer: &Answer) -> Result<(), NoMemory>
        ensures rest { (next : Plan) → rest_of_restore self.new next ≡ rest_of_restore self.old next }
        ensures ready { OnOk result (of_restore.IsReady self.new answer.now) }
    {
        let Stage::Reading = &self.stage else {
            return Ok(());
        };
        match answer {
            Answer::Bytes(bytes) => {
                self.readied = Some(self.full(bytes)?);
                Ok(())
            }
            Answer::Absent => {
                self.readied = Some(self.zeros(alloc)?);
                Ok(())
            }
            _ => Ok(()),
        }
    }

    /// The object becomes these bytes.
    fn full(&self, bytes: &Bytes) -> Result<FullPiece, NoMemory>
        ensures { IfOk result (λ f. (next : Plan)
            → rest_of_full f next
            ≡ full_piece self.now.site self.now.image self.now.header self.now.piece bytes.now next) }
    {
        let context = self.context.try_clone()?;
        let piece = Piece {
            object: self.piece.object,
            parts: self.piece.parts.try_clone()?,
        };
        FullPiece::under(self.site, self.image, &self.header, context, piece, bytes)
    }

    /// The object becomes zeros. Where no byte is left that isn't zero, none need be there.
    #[tactic(auto, using(crate::proofs::Restored::zeros_are_none))]
    fn zeros(&self, alloc: Global) -> Result<FullPiece, NoMemory>
        ensures { IfOk result (λ f. (next : Plan) → rest_of_full f next
            ≡ full_piece self.now.site self.now.image self.now.header self.now.piece
            (replicate (parts_len self.now.piece.parts) 0) next) }
    {
        self.full(&Bytes::from_vec(Vec::new(alloc)))
    }

    /// Goes on with an answer that it has the memory for. Refused with NoImage by `none`, unless it
    /// reads, and with Fenced by `fenced`. It takes no memory.
    pub fn feed(&mut self, answer: &Answer) -> Progress<()>
        requires tells { of_restore.Tells self.old.stage answer.now }
        requires ready { of_restore.IsReady self.old answer.now }
        ensures { ProgressesBy rest_of_restore answer.now result self.old self.new }
    {
        match &mut self.stage {
            Stage::Reading => self.begin(answer),
            Stage::Replacing(full) => match full.feed(answer) {
                Progress::More => Progress::More,
                Progress::Ended(()) => self.go_on(),
                Progress::Refused(refusal) => Progress::Refused(refusal),
            },
        }
    }

    /// Goes on behind the read.
    fn begin(&mut self, answer: &Answer) -> Progress<()>
        requires tells { TellsBytes answer.now }
        requires ready { of_restore.IsReadyAt stage.Reading self.old answer.now }
        ensures { (next : Plan)
            → Progresses next
            (plan_after (of_restore.rest_from stage.Reading self.old next) (fed_with.Answer answer.now))
            result (rest_of_restore self.new next) }
    {
        match answer {
            Answer::Bytes(_) => self.replace(),
            Answer::Absent => self.replace(),
            _ => Progress::Refused(refusal_of(answer)),
        }
    }

    /// Goes on with what replaces the object.
    fn replace(&mut self) -> Progress<()>
        requires { IsSome self.old.readied }
        ensures { (bytes : List ℕ) (next : Plan) → of_restore.IsReplacedBy self.old bytes self.old.readied
            → Progresses next
            (full_piece self.old.site self.old.image self.old.header self.old.piece bytes
            (of_restore.rest_of_others self.old next))
            result (rest_of_restore self.new next) }
    {
        match self.readied.take() {
            Some(full) => {
                self.stage = Stage::Replacing(full);
                Progress::More
            }
            None => unreachable!(),
        }
    }

    /// Goes on to the next object.
    fn go_on(&mut self) -> Progress<()>
        ensures { (next : Plan)
            → Progresses next (of_restore.rest_of_others self.old next) result (rest_of_restore self.new next) }
    {
        match self.others.pop_front() {
            None => Progress::Ended(()),
            Some(piece) => {
                self.piece = piece;
                self.stage = Stage::Reading;
                Progress::More
            }
        }
    }
}
