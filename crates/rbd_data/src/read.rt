//! `read`
ghost use Rattle.std.specs.Prelude.{◌≡◌, ◌==◌, ℕ, true, Some, None, List, [], IfOk, OnOk, OnErr};
ghost use Rattle.rbd_kinds.specs.declared.machine.Fed.TheVariants as fed_with;
ghost use Rattle.rbd_kinds.specs.Form.{IsHeaderInForm};
ghost use Rattle.rbd_header.specs.Header.{view_of as named_view};
ghost use Rattle.rbd_header.specs.declared.view.View.{View};
ghost use Rattle.rbd_layout.specs.Pieces.{pieces_of};
ghost use Rattle.rbd_pieces.specs.Gather.{gather as gathered, rest_of_gather};
ghost use Rattle.rbd_machine.specs.Answers.{IsHeaderToldInForm};
ghost use Rattle.rbd_machine.specs.Plan.{Plan, GoesOn, plan_after};
ghost use Rattle.rbd_machine.specs.Steps.{going, TellsHeader};
ghost use Rattle.rbd_meaning.specs.Range.{out_of_range};
ghost use Rattle.rbd_data.specs.Read as of_read;
ghost use Rattle.rbd_data.specs.Seen as of_seen;
ghost use Rattle.rbd_data.specs.declared.read.Stage.TheVariants as stage;

use crate::extent::out_of_range as refused_range;
use crate::looked::Looked;
use rbd_header::{View, view_of};
use rbd_kinds::{
    Answer, AskedName, Bytes, Command, Extent, Fed, Flow, HeaderView, ImageId, Name, NoMemory, Op,
    OpKind, Refusal, Reply, SiteId, Want,
};
use rbd_layout::pieces;
use rbd_machine::{
    Machine, Progress, Reason, dir_find, header_get, refusal_of, told_header, told_image,
};
use rbd_pieces::Gather;
use std::alloc::Global;

/// The request of a `read` of bytes of an image or of a snapshot. It needs no lock: the header's
/// generation, before and after, shows whether the header changed while it went from object to
/// object.
///
/// ```text
///    ┌─────────▶ Finding    dir-find     ──none──▶ NoImage
///    │              │ id
///    │           Looking    header-get   ──none──▶ NoImage; or NoSnap, BadRange by this header
///    │              │ header
///    │           Gathering  a data-read for each object   (see `Gather`)
///    │              │
///    └── none ── Closing    header-get
///        or another │ the same generation
///        generation ▼
///                the bytes
/// ```
#[derive(Drop)]
pub struct ReadRequest {
    site: SiteId,
    name: Name,
    snap: Option<Name>,
    extent: Extent,
    stage: Stage,
    /// The pieces that are read, made ready for the first look.
    prepared: Option<Gather>,
    /// The reply's bytes, made ready for the closing look.
    shown: Option<Bytes>,
}

/// A stage of a read, with what it found out.
#[derive(Drop)]
pub enum Stage {
    Finding,
    Looking(ImageId),
    Gathering(ImageId, Looked, Gather),
    Closing(ImageId, Looked, Bytes),
}

impl ReadRequest {
    /// A `read` at the session's home site. It takes no memory.
    pub fn new(home: SiteId, command: Command) -> Self
        requires { of_read.is_read command ≡ true }
        ensures { of_read.IsReadOf home command (of_read.standing_of result) }
    {
        match command {
            Command::Read {
                image,
                snap,
                at,
                len,
            } => ReadRequest {
                site: home,
                name: image.into_name(),
                snap: named(snap),
                extent: Extent {
                    at: at.get(),
                    len: len.get(),
                },
                stage: Stage::Finding,
                prepared: None,
                shown: None,
            },
            _ => unreachable!(),
        }
    }

    /// The view that a header shows, or why the read is refused.
    fn view(&self, header: &HeaderView) -> Result<View, Refusal>
        ensures plan { (image : ℕ) → of_read.read_by_header self.now.site self.now.snap self.now.extent image header.now
            ≡ going (of_read.gathering self.now.site image header.now self.now.extent) result }
        ensures view { IfOk result (λ view. named_view header.now self.now.snap ≡ Some view) }
        ensures fits { IfOk result (λ view. out_of_range self.now.extent view.size ≡ None) }
        ensures none { OnErr result ((view : View)
            → named_view header.now self.now.snap ≡ Some view → out_of_range self.now.extent view.size ≡ None → ⊥) }
    {
        let Some(view) = view_of(header, self.snap.as_ref()) else {
            return Err(Refusal::NoSnap);
        };
        match refused_range(&self.extent, view.size) {
            Some(refusal) => Err(refusal),
            None => Ok(view),
        }
    }
}

/// The name of the snapshot, where one is asked for.
fn named(snap: Option<AskedName>) -> Option<Name>
    ensures { result ≡ snap }
{
    match snap {
        Some(snap) => Some(snap.into_name()),
        None => None,
    }
}

impl ReadRequest {
    /// Takes the memory for the first look: the pieces that are read, where it isn't refused.
    fn prepare(
        &mut self,
        alloc: Global,
        image: ImageId,
        header: &HeaderView,
    ) -> Result<(), NoMemory>
        requires { IsHeaderInForm header.now }
        ensures same { of_read.standing_of self.new ≡ of_read.standing_of self.old }
        ensures stage { self.new.stage ≡ self.old.stage }
        ensures prepared { OnOk result (of_read.IsReadPrepared self.new image header.now) }
    {
        match self.view(header) {
            Ok(view) => {
                let gather = self.gather(alloc, image, header, &view)?;
                self.prepared = Some(gather);
                Ok(())
            }
            Err(_refusal) => Ok(()),
        }
    }

    /// The pieces of a view that are read.
    fn gather(
        &self,
        alloc: Global,
        image: ImageId,
        header: &HeaderView,
        view: &View,
    ) -> Result<Gather, NoMemory>
        requires form { IsHeaderInForm header.now }
        requires view { named_view header.now self.now.snap ≡ Some view.now }
        requires fits { out_of_range self.now.extent view.now.size ≡ None }
        ensures { IfOk result (λ g. (next : List ℕ → Plan)
            → rest_of_gather g next
            ≡ gathered self.now.site image view.now.snap (pieces_of header.now.layout self.now.extent) [] next) }
    {
        let listed = pieces(alloc, &header.layout, &self.extent)?;
        Ok(Gather::new(alloc, self.site, image, view.snap, listed))
    }

    /// Goes on with the answer to the first look.
    fn look(&mut self, image: ImageId, answer: &Answer) -> Flow
        requires at { self.old.stage ≡ stage.Looking image }
        requires tells { TellsHeader answer.now }
        requires form { IsHeaderToldInForm answer.now }
        requires ready { of_read.IsReady self.old answer.now }
        ensures { GoesOn (of_read.standing_of self.old).labels
            (plan_after (of_read.rest_at (stage.Looking image) self.old) (fed_with.Answer answer.now))
            result (of_read.standing_of self.new) }
    {
        let header = match told_header(answer) {
            Ok(header) => header,
            Err(refusal) => return Flow::Done(Reply::Refused(refusal)),
        };
        match self.view(header) {
            Err(refusal) => Flow::Done(Reply::Refused(refusal)),
            Ok(_view) => {
                let looked = Looked::new(header, &self.extent);
                match self.prepared.take() {
                    Some(gather) => {
                        self.stage = Stage::Gathering(image, looked, gather);
                        Flow::More
                    }
                    None => unreachable!(),
                }
            }
        }
    }
}

impl ReadRequest {
    /// Goes on with the answer to the closing look.
    fn close(&mut self, answer: &Answer) -> Flow
        requires at { of_read.IsClosing self.old.stage }
        requires tells { TellsHeader answer.now }
        requires ready { of_read.IsReady self.old answer.now }
        ensures { GoesOn (of_read.standing_of self.old).labels
            (plan_after (of_read.rest_at self.old.stage self.old) (fed_with.Answer answer.now))
            result (of_read.standing_of self.new) }
    {
        let Stage::Closing(_, looked, _) = &self.stage else {
            unreachable!()
        };
        match answer {
            Answer::Header(header) => {
                if looked.is_still(header) {
                    match self.shown.take() {
                        Some(bytes) => Flow::Done(Reply::Bytes(bytes)),
                        None => unreachable!(),
                    }
                } else {
                    self.stage = Stage::Finding;
                    Flow::More
                }
            }
            Answer::Absent => {
                self.stage = Stage::Finding;
                Flow::More
            }
            _ => Flow::Done(Reply::Refused(refusal_of(answer))),
        }
    }
}

/// Takes the memory for the closing look: the reply's bytes, where the header is still what it was.
fn show(
    alloc: Global,
    shown: &mut Option<Bytes>,
    looked: &Looked,
    read: &[u8],
    header: &HeaderView,
) -> Result<(), NoMemory>
    ensures { OnOk result ((header.now.generation == looked.now.generation) ≡ true
        → shown.new ≡ Some (of_seen.shown_bytes looked.now read.now)) }
{
    if !looked.is_still(header) {
        return Ok(());
    }
    *shown = Some(looked.arranged(alloc, read)?);
    Ok(())
}

impl Machine for ReadRequest {
    ghost stands = { of_read.standing_of };

    ghost is_ready = { of_read.IsReady };

    fn wants(&self) -> Want {
        let site = self.site;
        match &self.stage {
            Stage::Finding => Want::Op {
                site,
                kind: OpKind::DirFind,
            },
            Stage::Looking(_) => Want::Op {
                site,
                kind: OpKind::HeaderGet,
            },
            Stage::Gathering(_, _, gather) => gather.wants(),
            Stage::Closing(_, _, _) => Want::Op {
                site,
                kind: OpKind::HeaderGet,
            },
        }
    }

    fn next(&self, alloc: Global) -> Result<Op, NoMemory> {
        match &self.stage {
            Stage::Finding => dir_find(&self.name),
            Stage::Looking(image) => Ok(header_get(*image)),
            Stage::Gathering(_, _, gather) => gather.next(alloc),
            Stage::Closing(image, _, _) => Ok(header_get(*image)),
        }
    }

    fn reason(&self) -> Reason {
        Reason::Own
    }

    fn ready(&mut self, alloc: Global, fed: &Fed) -> Result<(), NoMemory> {
        let Fed::Answer(answer) = fed else {
            unreachable!()
        };
        match &mut self.stage {
            Stage::Finding => Ok(()),
            Stage::Looking(image) => {
                let image = *image;
                let Answer::Header(header) = answer else {
                    return Ok(());
                };
                self.prepare(alloc, image, header)
            }
            Stage::Gathering(_, _, gather) => gather.ready(answer),
            Stage::Closing(_, looked, read) => {
                let Answer::Header(header) = answer else {
                    return Ok(());
                };
                show(alloc, &mut self.shown, looked, read.as_slice(), header)
            }
        }
    }

    fn feed(&mut self, fed: &Fed) -> Flow {
        let Fed::Answer(answer) = fed else {
            unreachable!()
        };
        match &mut self.stage {
            Stage::Finding => match told_image(answer) {
                Ok(image) => {
                    self.stage = Stage::Looking(image);
                    Flow::More
                }
                Err(refusal) => Flow::Done(Reply::Refused(refusal)),
            },
            Stage::Looking(image) => {
                let image = *image;
                self.look(image, answer)
            }
            Stage::Gathering(image, looked, gather) => match gather.feed(answer) {
                Progress::More => Flow::More,
                Progress::Ended(()) => {
                    self.stage = Stage::Closing(*image, looked.again(), gather.take_bytes());
                    Flow::More
                }
                Progress::Refused(refusal) => Flow::Done(Reply::Refused(refusal)),
            },
            Stage::Closing(_, _, _) => self.close(answer),
        }
    }
}
