//! A notice comes to the instance that it is for.
ghost use Rattle.std.specs.Prelude.{◌≡◌, ℕ, Some, IfOk, OnOk, OnErr};
ghost use Rattle.rbd_kinds.specs.Instances.{same_instance};
ghost use Rattle.rbd_client.specs.Sound.{IsSoundClient};
ghost use Rattle.rbd_watch.specs.Posting.{notice_numbered};
ghost use Rattle.rbd_world.specs.Run.{outcome_of};
ghost use Rattle.rbd_world.specs.Step.{Becomes, DoesToLives, IsSoundIf, delivered, heard_by};
ghost use Rattle.rbd_world.specs.World.{client_in};
ghost use Rattle.rbd_world.specs.declared.event.Event.TheVariants as of_event;

use crate::event::Outcome;
use crate::lives::Lives;
use rbd_client::Client;
use rbd_kinds::{Instance, NoMemory, Notice, SessionNo};
use rbd_machine::Request;
use rbd_watch::Mail;

/// The instance that a notice is for hears it: nothing where there is no such notice, or that
/// instance doesn't run. NoMemory where memory is refused; then nothing changes.
pub fn deliver_notice<R: Request>(
    mail: &Mail,
    lives: &mut Vec<Lives<R>>,
    number: u64,
) -> Result<Outcome, NoMemory>
    requires { (session : ℕ) → IsSoundIf R.stands (client_in session lives.old.items) }
    ensures outcome { IfOk result (λ o. o ≡ outcome_of (delivered (notice_numbered number mail.now) lives.old.items)) }
    ensures lives { OnOk result (DoesToLives R.stands (of_event.Deliver number)
        (delivered (notice_numbered number mail.now) lives.old.items) lives.old.items lives.new.items) }
    ensures err { OnErr result (lives.new.items ≡ lives.old.items) }
{
    match mail.get(number) {
        Some(notice) => tell(lives, notice.to.session, notice),
        None => Ok(Outcome::Nothing),
    }
}

/// The client that runs in its session hears it, if one does.
fn tell<R: Request>(
    lives: &mut Vec<Lives<R>>,
    session: SessionNo,
    notice: &Notice,
) -> Result<Outcome, NoMemory>
    requires session { session ≡ notice.now.to.session }
    requires sound { (number : ℕ) → IsSoundIf R.stands (client_in number lives.old.items) }
    ensures outcome { IfOk result (λ o. o ≡ outcome_of (delivered (Some notice.now) lives.old.items)) }
    ensures lives { OnOk result ((number : ℕ)
        → DoesToLives R.stands (of_event.Deliver number)
        (delivered (Some notice.now) lives.old.items) lives.old.items lives.new.items) }
    ensures err { OnErr result (lives.new.items ≡ lives.old.items) }
{
    let Some(life) = lives.get_mut(session.0 as usize) else {
        return Ok(Outcome::Nothing);
    };
    let Some(client) = &mut life.running else {
        return Ok(Outcome::Nothing);
    };
    hear(client, notice)
}

/// A client hears a notice that is for it.
fn hear<R: Request>(client: &mut Client<R>, notice: &Notice) -> Result<Outcome, NoMemory>
    requires { IsSoundClient R.stands client.old }
    ensures outcome { IfOk result (λ o. o ≡ outcome_of (heard_by notice.now (Some client.old))) }
    ensures becomes { OnOk result ((number : ℕ)
        → Becomes R.stands (of_event.Deliver number) (heard_by notice.now (Some client.old)) client.old client.new) }
    ensures sound { IsSoundClient R.stands client.new }
    ensures err { OnErr result (client.new ≡ client.old) }
{
    if !is_same(&client.instance(), &notice.to) {
        return Ok(Outcome::Nothing);
    }
    client.hear(notice)?;
    Ok(Outcome::Heard)
}

fn is_same(one: &Instance, other: &Instance) -> bool
    ensures { result ≡ same_instance one.now other.now }
{
    if one.session != other.session {
        return false;
    }
    one.life == other.life
}
