//! What answers tell a request, and when they end it.
ghost use Rattle.std.specs.Prelude.{◌≡◌, ℕ, IfOk};
ghost use Rattle.rbd_kinds.specs.declared.header.HeaderView.{HeaderView};
ghost use Rattle.rbd_machine.specs.Plan.{Plan};
ghost use Rattle.rbd_machine.specs.Steps.{on_id, on_header, on_done, not_there, going, refused, EndsIt, TellsImage, TellsHeader, TellsDone, non_primary as refused_role};
ghost use Rattle.rbd_kinds.specs.declared.answer.Answer.TheVariants.{Header};

use rbd_kinds::{Answer, HeaderView, ImageId, Refusal, Role};

/// The image that a name has, or why the request ends: Fenced, or NoImage where there is no such
/// name.
pub fn told_image(answer: &Answer) -> Result<ImageId, Refusal>
    requires { TellsImage answer.now }
    ensures { (next : ℕ → Plan) → on_id next answer.now ≡ going next result }
{
    match answer {
        Answer::Id(image) => Ok(*image),
        _ => Err(refusal_of(answer)),
    }
}

/// The header that an image has, or why the request ends: Fenced, or NoImage where it has none.
pub fn told_header(answer: &Answer) -> Result<&HeaderView, Refusal>
    requires { TellsHeader answer.now }
    ensures plan { (next : HeaderView → Plan) → on_header next answer.now ≡ going (λ h. next h.now) result }
    ensures told { IfOk result (λ header. answer.now ≡ Header header.now) }
{
    match answer {
        Answer::Header(header) => Ok(header),
        _ => Err(refusal_of(answer)),
    }
}

/// That a change was done, or why the request ends: Fenced, or NoImage where what it changes isn't
/// there.
pub fn told_done(answer: &Answer) -> Result<(), Refusal>
    requires { TellsDone answer.now }
    ensures { (next : Plan) → on_done next answer.now ≡ going (λ done. next) result }
{
    match answer {
        Answer::Done => Ok(()),
        _ => Err(refusal_of(answer)),
    }
}

/// Why an answer ends a request: Fenced by `fenced`, and NoImage by `none`.
pub fn refusal_of(answer: &Answer) -> Refusal
    requires { EndsIt answer.now }
    ensures { not_there answer.now ≡ refused result }
{
    match answer {
        Answer::Fenced => Refusal::Fenced,
        Answer::Absent => Refusal::NoImage,
        _ => unreachable!(),
    }
}

/// NonPrimary where the role is Secondary: clients don't change what follows the other site.
pub fn non_primary(role: Role) -> Option<Refusal>
    ensures { result ≡ refused_role role }
{
    match role {
        Role::Secondary => Some(Refusal::NonPrimary),
        _ => None,
    }
}
