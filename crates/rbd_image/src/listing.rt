//! `ls`, `info`, `snap ls`, `du` and `rename`
ghost use Rattle.std.specs.Prelude.{◌≡◌, true, IfOk, IfSome, IsSome};
ghost use Rattle.rbd_kinds.specs.declared.directory_op.DirectoryOp.TheVariants as directory;
ghost use Rattle.rbd_kinds.specs.declared.machine.Fed.TheVariants as fed_with;
ghost use Rattle.rbd_kinds.specs.declared.operation.Op.TheVariants as on;
ghost use Rattle.rbd_kinds.specs.Form.{IsHeaderInForm};
ghost use Rattle.rbd_machine.specs.Answers.{CanBeFed};
ghost use Rattle.rbd_machine.specs.Plan.{GoesOn, Goto, Return, plan_after, without_labels};
ghost use Rattle.rbd_meaning.specs.Count.{object_count as count_of};
ghost use Rattle.rbd_meaning.specs.Listings.{used_among as states_in_use};
ghost use Rattle.rbd_image.specs.Listing.{is_listing, listing_plan, rest_of_list, shows, HasReply, IsReplyReadied, TellsRenamed, on_renamed, plan_with_header};

use crate::operations::map_get;
use crate::used::used_among;
use rbd_kinds::{
    Answer, Command, DirectoryOp, Fed, Flow, HeaderView, ImageId, Name, NoMemory, Op, OpKind,
    Refusal, Reply, Shared, SiteId, TryClone, Want,
};
use rbd_layout::objects;
use rbd_machine::{Machine, Reason, dir_find, header_get, refusal_of, told_image};
use std::alloc::Global;

/// A request that shows the names of a site's images (`ls`), what an image's header tells (`info`),
/// its snapshots (`snap ls`), or how many of its objects are in use (`du`). Or it gives an image
/// another name (`rename`).
///
/// ```text
/// Listing    dir-list
///    │ names
///    ▼
/// the names
///
/// Finding    dir-find     ──none──▶ NoImage
///    │ id
/// Looking    header-get   ──none──▶ NoImage
///    │ header
///    ├──▶ the header, or its snapshots
///    │ of its size, so many objects
/// Counting   map-get      ──none──▶ NoImage
///    │ bits
///    ▼
/// how many of the objects are in use
///
/// Renaming   dir-rename   ──none────▶ NoImage
///    │ done               ──exists──▶ ImageExists
///    ▼
/// Done
/// ```
///
/// Each operation may be answered `fenced`, which ends the request with Fenced.
#[derive(Drop)]
pub struct ListRequest {
    site: SiteId,
    stage: Stage,
    /// The reply, once there is memory for it.
    readied: Option<Reply>,
}

/// A stage of the request.
#[derive(Drop)]
enum Stage {
    Listing,
    Finding(Name, Shown),
    Looking(ImageId, Shown),
    /// The size has so many objects.
    Counting(ImageId, u64),
    Renaming(Name, Name),
}

/// What is shown of an image.
#[derive(Clone, Copy, PartialEq, Eq)]
enum Shown {
    Header,
    Snaps,
    /// How many of its objects are in use.
    Used,
}

impl ListRequest {
    /// The request of an `ls`, `info`, `snap ls`, `du` or `rename` at a session's home site. It
    /// takes no memory.
    pub fn new(home: SiteId, command: Command) -> Self
        requires { is_listing command ≡ true }
        ensures { rest_of_list result ≡ listing_plan home command }
    {
        let stage = match command {
            Command::List => Stage::Listing,
            Command::Info { image } => Stage::Finding(image.into_name(), Shown::Header),
            Command::SnapList { image } => Stage::Finding(image.into_name(), Shown::Snaps),
            Command::Used { image } => Stage::Finding(image.into_name(), Shown::Used),
            Command::Rename { from, to } => Stage::Renaming(from.into_name(), to.into_name()),
            _ => unreachable!(),
        };
        ListRequest {
            site: home,
            stage,
            readied: None,
        }
    }

    /// Goes on with the answer to its operation.
    #[tactic(auto, using(crate::proofs::Tells::list_tells, crate::proofs::Tells::states_tell, crate::proofs::Tells::rename_tells, rbd_machine::proofs::Tells::find_tells, rbd_machine::proofs::Tells::look_tells))]
    fn answer(&mut self, answer: &Answer) -> Flow
        requires can { CanBeFed (rest_of_list self.old) (fed_with.Answer answer.now) }
        requires ready { HasReply self.old answer.now }
        ensures { GoesOn Goto (plan_after (rest_of_list self.old) (fed_with.Answer answer.now)) result
            (without_labels (rest_of_list self.new)) }
    {
        match &self.stage {
            Stage::Listing => match answer {
                Answer::Names(_) => self.reply(),
                _ => Flow::Done(Reply::Refused(refusal_of(answer))),
            },
            Stage::Finding(_, shown) => match told_image(answer) {
                Ok(image) => {
                    self.stage = Stage::Looking(image, *shown);
                    Flow::More
                }
                Err(refusal) => Flow::Done(Reply::Refused(refusal)),
            },
            Stage::Looking(image, shown) => match answer {
                Answer::Header(header) => {
                    let image = *image;
                    let shown = *shown;
                    self.show(image, shown, header)
                }
                _ => Flow::Done(Reply::Refused(refusal_of(answer))),
            },
            Stage::Counting(_, of) => match answer {
                Answer::Bits(bits) => Flow::Done(used_of(*of, bits.as_slice())),
                _ => Flow::Done(Reply::Refused(refusal_of(answer))),
            },
            Stage::Renaming(_, _) => Flow::Done(renamed(answer)),
        }
    }

    /// Goes on with the header of its image: shows it, or looks at the head's map.
    fn show(&mut self, image: ImageId, shown: Shown, header: &HeaderView) -> Flow
        requires form { IsHeaderInForm header.now }
        requires ready { self.old.readied ≡ shows shown header.now }
        ensures { GoesOn Goto (plan_with_header shown self.old.site image header.now) result
            (without_labels (rest_of_list self.new)) }
    {
        match shown {
            Shown::Header => self.reply(),
            Shown::Snaps => self.reply(),
            Shown::Used => {
                self.stage = Stage::Counting(image, object_count(header));
                Flow::More
            }
        }
    }

    /// Gives out the reply that was readied.
    fn reply(&mut self) -> Flow
        requires { IsSome self.old.readied }
        ensures { IfSome self.old.readied (λ reply. result ≡ Flow.Done reply) }
    {
        match self.readied.take() {
            Some(reply) => Flow::Done(reply),
            None => unreachable!(),
        }
    }
}

/// How many objects an image has by its header's size.
fn object_count(header: &HeaderView) -> u64
    requires { IsHeaderInForm header.now }
    ensures { result ≡ count_of header.now.layout header.now.size }
{
    objects(&header.layout, header.size)
}

/// How many of so many objects are in use by the bits of a map, as a reply.
fn used_of(of: u64, bits: &[u8]) -> Reply
    ensures { result ≡ Reply.Used (states_in_use of bits.now) of }
{
    let used = used_among(of, bits);
    Reply::Used { used, of }
}

/// What the answer to a `dir-rename` comes to.
fn renamed(answer: &Answer) -> Reply
    requires { TellsRenamed answer.now }
    ensures { on_renamed answer.now ≡ Return result }
{
    match answer {
        Answer::Done => Reply::Done,
        Answer::Exists => Reply::Refused(Refusal::ImageExists),
        _ => Reply::Refused(refusal_of(answer)),
    }
}

/// What is shown of a header, as a reply, where nothing else is to be shown.
fn reply_with(shown: Shown, header: &Shared<HeaderView>) -> Result<Option<Reply>, NoMemory>
    ensures { IfOk result (λ reply. reply ≡ shows shown header.now) }
{
    match shown {
        Shown::Header => Ok(Some(Reply::Info(header.try_clone()?))),
        Shown::Snaps => Ok(Some(Reply::Snaps(header.snaps.try_clone()?))),
        Shown::Used => Ok(None),
    }
}

/// The reply that an answer brings at a step, if it brings one that needs memory.
fn reply_to(stage: &Stage, answer: &Answer) -> Result<Option<Reply>, NoMemory>
    ensures { IfOk result (λ readied. IsReplyReadied stage.now readied answer.now) }
{
    match stage {
        Stage::Listing => match answer {
            Answer::Names(names) => Ok(Some(Reply::Names(names.try_clone()?))),
            _ => Ok(None),
        },
        Stage::Looking(_, shown) => match answer {
            Answer::Header(header) => reply_with(*shown, header),
            _ => Ok(None),
        },
        Stage::Finding(_, _) => Ok(None),
        Stage::Counting(_, _) => Ok(None),
        Stage::Renaming(_, _) => Ok(None),
    }
}

impl Machine for ListRequest {
    ghost stands = { λ r. without_labels (rest_of_list r) };

    ghost is_ready = { HasReply };

    fn wants(&self) -> Want {
        let site = self.site;
        let kind = match &self.stage {
            Stage::Listing => OpKind::DirList,
            Stage::Finding(_, _) => OpKind::DirFind,
            Stage::Looking(_, _) => OpKind::HeaderGet,
            Stage::Counting(_, _) => OpKind::MapGet,
            Stage::Renaming(_, _) => OpKind::DirRename,
        };
        Want::Op { site, kind }
    }

    fn next(&self, alloc: Global) -> Result<Op, NoMemory> {
        match &self.stage {
            Stage::Listing => Ok(Op::Directory(DirectoryOp::List)),
            Stage::Finding(name, _) => dir_find(name),
            Stage::Looking(image, _) => Ok(header_get(*image)),
            Stage::Counting(image, _) => Ok(map_get(*image)),
            Stage::Renaming(from, to) => dir_rename(alloc, from, to),
        }
    }

    fn reason(&self) -> Reason {
        Reason::Own
    }

    fn ready(&mut self, _alloc: Global, fed: &Fed) -> Result<(), NoMemory> {
        let Fed::Answer(answer) = fed else {
            unreachable!()
        };
        self.readied = reply_to(&self.stage, answer)?;
        Ok(())
    }

    fn feed(&mut self, fed: &Fed) -> Flow {
        let Fed::Answer(answer) = fed else {
            unreachable!()
        };
        self.answer(answer)
    }
}

/// An image of a name gets another one.
fn dir_rename(alloc: Global, from: &Name, to: &Name) -> Result<Op, NoMemory>
    ensures { IfOk result (λ op. op ≡ on.Directory (directory.Rename from.now to.now)) }
{
    let from = from.try_clone()?;
    let to = Shared::new(alloc, to.try_clone()?)?;
    Ok(Op::Directory(DirectoryOp::Rename { from, to }))
}
