//! Both sites, and the mail between their clients.
ghost use Rattle.std.specs.Prelude.{◌≡◌, IfOk, OnErr, OnOk, [], option_copied};
ghost use Rattle.rbd_kinds.specs.declared.id.SiteId.{SiteId as Which};
ghost use Rattle.rbd_kinds.specs.declared.machine.Fed.TheVariants as of_fed;
ghost use Rattle.rbd_site.specs.Step.{MayDo, answer_to};
ghost use Rattle.rbd_world.specs.Operate.{IsLogged, IsSameElsewhere};
ghost use Rattle.rbd_world.specs.Sending.{latest_op};
ghost use Rattle.rbd_world.specs.Step.{AreSameSites};
ghost use Rattle.rbd_world.specs.World.{records_in, site_in};

use crate::foresee::Due;
use rbd_kinds::{Fed, NoMemory, Op, SiteId};
use rbd_site::{Done, DoneOp, Site};
use rbd_watch::Mail;
use std::alloc::Global;

/// Both sites (clusters), each with its own records and its own log, and the notices that both
/// posted: one numbering serves both.
#[derive(Drop)]
pub struct Sites {
    pub a: Site,
    pub b: Site,
    pub mail: Mail,
}

impl Sites {
    /// Both sites, without images, with empty logs, and no notice.
    pub fn new(alloc: Global) -> Result<Self, NoMemory>
        ensures logs { IfOk result (λ sites. (s : Which) → (site_in s sites).log ≡ []) }
        ensures ids { IfOk result (λ sites. (s : Which) → (site_in s sites).id ≡ s) }
        ensures mail { IfOk result (λ sites. sites.mail ≡ []) }
    {
        let a = Site::new(alloc, SiteId::A)?;
        match Site::new(alloc, SiteId::B) {
            Ok(b) => {
                let mail = Mail::new(alloc);
                Ok(Sites { a, b, mail })
            }
            Err(fault) => {
                drop(a);
                Err(fault)
            }
        }
    }

    /// One of them.
    pub fn at(&self, site: SiteId) -> &Site
        ensures { result.now ≡ site_in site self.now }
    {
        match site {
            SiteId::A => &self.a,
            SiteId::B => &self.b,
        }
    }
}

/// The operation that a site did last, where it was one of an instance.
pub fn latest(log: &[Done]) -> Option<&Op>
    ensures { option_copied result ≡ latest_op log.now }
{
    let done = log.last()?;
    match &done.op {
        DoneOp::Op(op) => Some(op),
        _ => None,
    }
}

/// The operation that is due is done at its site, and its answer is what its sender is fed.
/// NoMemory where memory is refused; then nothing was done.
pub fn apply(sites: &mut Sites, due: Due, fed: &Fed) -> Result<(), NoMemory>
    requires may { MayDo (records_in due.site sites.old) due.who due.op }
    requires fed { fed.now ≡ of_fed.Answer (answer_to (records_in due.site sites.old) due.who due.op) }
    ensures logged { OnOk result (IsLogged due.who due.op (site_in due.site sites.old)
        (site_in due.site sites.new) sites.old.mail sites.new.mail) }
    ensures elsewhere { IsSameElsewhere due.site sites.old sites.new }
    ensures err { OnErr result (AreSameSites sites.old sites.new) }
{
    let Fed::Answer(answer) = fed else {
        unreachable!()
    };
    let Due {
        who,
        by: _,
        site,
        op,
    } = due;
    match site {
        SiteId::A => sites.a.apply_answered(who, op, answer, &mut sites.mail),
        SiteId::B => sites.b.apply_answered(who, op, answer, &mut sites.mail),
    }
}
