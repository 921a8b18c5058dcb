//! Lines of a schedule.
ghost use Rattle.std.specs.Prelude.{◌≡◌, ◌≤◌, [], length};
ghost use Rattle.rbd_script.specs.Fault.{Gives};
ghost use Rattle.rbd_script.specs.Schedule.{schedule_form, schedule_of as schedule_in};
ghost use Rattle.rbd_script.specs.Token.{tokens_of};
ghost use Rattle.rbd_script.specs.Word.{all_schedule_verbs, schedule_verb_of, schedule_word, with_word as with_word_in};

use crate::fault::{PartFault, known};
use crate::script::{Said, Sessions};
use crate::tokens::Tokens;
use crate::word::is;

/// The words of the lines of a schedule.
#[derive(Clone, Copy)]
pub enum ScheduleVerb {
    Poll,
    Until,
    Settle,
    Deliver,
    Lose,
    Expire,
    Stop,
    Restart,
    Late,
    Trim,
}

impl ScheduleVerb {
    const ALL: [ScheduleVerb; 10] = [
        ScheduleVerb::Poll,
        ScheduleVerb::Until,
        ScheduleVerb::Settle,
        ScheduleVerb::Deliver,
        ScheduleVerb::Lose,
        ScheduleVerb::Expire,
        ScheduleVerb::Stop,
        ScheduleVerb::Restart,
        ScheduleVerb::Late,
        ScheduleVerb::Trim,
    ];

    fn word(self) -> &'static str
        ensures { result.now ≡ schedule_word self }
    {
        match self {
            ScheduleVerb::Poll => "@poll",
            ScheduleVerb::Until => "@until",
            ScheduleVerb::Settle => "@settle",
            ScheduleVerb::Deliver => "@deliver",
            ScheduleVerb::Lose => "@lose",
            ScheduleVerb::Expire => "@expire",
            ScheduleVerb::Stop => "@stop",
            ScheduleVerb::Restart => "@restart",
            ScheduleVerb::Late => "@late",
            ScheduleVerb::Trim => "@trim",
        }
    }

    /// The word of the token.
    #[tactic(auto, unfolding(crate::specs::Word::schedule_verb_of))]
    pub fn of(token: &[u8]) -> Result<ScheduleVerb, PartFault>
        ensures { Gives result (schedule_verb_of token.now) }
    {
        known(ScheduleVerb::with_word(token))
    }

    fn with_word(token: &[u8]) -> Option<ScheduleVerb>
        ensures { result ≡ with_word_in schedule_word all_schedule_verbs token.now }
    {
        ScheduleVerb::ALL
            .iter()
            .copied()
            .find(|verb| is(token, verb.word()))
    }
}

/// What a line of a schedule says.
#[tactic(auto, unfolding(crate::specs::Schedule::schedule_of))]
pub fn schedule_of(sessions: &Sessions, mut tokens: Tokens<'_>) -> Result<Said, PartFault>
    requires { length sessions.now ≤ 32 }
    ensures { Gives result (schedule_in sessions.now (tokens_of tokens.entry.rest.now)) }
{
    match tokens.schedule_verb()? {
        ScheduleVerb::Poll => poll(sessions, tokens),
        ScheduleVerb::Until => until(sessions, tokens),
        ScheduleVerb::Settle => settle(tokens),
        ScheduleVerb::Deliver => deliver(tokens),
        ScheduleVerb::Lose => lose(tokens),
        ScheduleVerb::Expire => expire(sessions, tokens),
        ScheduleVerb::Stop => stop(sessions, tokens),
        ScheduleVerb::Restart => restart(sessions, tokens),
        ScheduleVerb::Late => late(sessions, tokens),
        ScheduleVerb::Trim => trim(tokens),
    }
}

/// `@poll NAME SLOT [TIMES]`
#[tactic(auto, unfolding(crate::specs::Form::form))]
fn poll(sessions: &Sessions, mut tokens: Tokens<'_>) -> Result<Said, PartFault>
    requires { length sessions.now ≤ 32 }
    ensures { Gives result (schedule_form sessions.now ScheduleVerb.Poll (tokens_of tokens.entry.rest.now)) }
{
    let session = tokens.session(sessions)?;
    let slot = tokens.slot()?;
    let times = tokens.times()?;
    tokens.end(Said::Poll {
        session,
        slot,
        times,
    })
}

/// `@until NAME SLOT WORD`
#[tactic(auto, unfolding(crate::specs::Form::form))]
fn until(sessions: &Sessions, mut tokens: Tokens<'_>) -> Result<Said, PartFault>
    requires { length sessions.now ≤ 32 }
    ensures { Gives result (schedule_form sessions.now ScheduleVerb.Until (tokens_of tokens.entry.rest.now)) }
{
    let session = tokens.session(sessions)?;
    let slot = tokens.slot()?;
    let kind = tokens.kind()?;
    tokens.end(Said::Until {
        session,
        slot,
        kind,
    })
}

/// `@settle N`
#[tactic(auto, unfolding(crate::specs::Form::form))]
fn settle(mut tokens: Tokens<'_>) -> Result<Said, PartFault>
    ensures { Gives result (schedule_form [] ScheduleVerb.Settle (tokens_of tokens.entry.rest.now)) }
{
    let rounds = tokens.number()?;
    tokens.end(Said::Settle(rounds))
}

/// `@deliver N`
#[tactic(auto, unfolding(crate::specs::Form::form))]
fn deliver(mut tokens: Tokens<'_>) -> Result<Said, PartFault>
    ensures { Gives result (schedule_form [] ScheduleVerb.Deliver (tokens_of tokens.entry.rest.now)) }
{
    let notice = tokens.number()?;
    tokens.end(Said::Deliver(notice))
}

/// `@lose N`
#[tactic(auto, unfolding(crate::specs::Form::form))]
fn lose(mut tokens: Tokens<'_>) -> Result<Said, PartFault>
    ensures { Gives result (schedule_form [] ScheduleVerb.Lose (tokens_of tokens.entry.rest.now)) }
{
    let notice = tokens.number()?;
    tokens.end(Said::Lose(notice))
}

/// `@expire NAME SITE ID`
#[tactic(auto, unfolding(crate::specs::Form::form))]
fn expire(sessions: &Sessions, mut tokens: Tokens<'_>) -> Result<Said, PartFault>
    requires { length sessions.now ≤ 32 }
    ensures { Gives result (schedule_form sessions.now ScheduleVerb.Expire (tokens_of tokens.entry.rest.now)) }
{
    let session = tokens.session(sessions)?;
    let site = tokens.site()?;
    let image = tokens.id()?;
    tokens.end(Said::Expire {
        session,
        site,
        image,
    })
}

/// `@stop NAME`
#[tactic(auto, unfolding(crate::specs::Form::form))]
fn stop(sessions: &Sessions, mut tokens: Tokens<'_>) -> Result<Said, PartFault>
    requires { length sessions.now ≤ 32 }
    ensures { Gives result (schedule_form sessions.now ScheduleVerb.Stop (tokens_of tokens.entry.rest.now)) }
{
    let session = tokens.session(sessions)?;
    tokens.end(Said::Stop(session))
}

/// `@restart NAME`
#[tactic(auto, unfolding(crate::specs::Form::form))]
fn restart(sessions: &Sessions, mut tokens: Tokens<'_>) -> Result<Said, PartFault>
    requires { length sessions.now ≤ 32 }
    ensures { Gives result (schedule_form sessions.now ScheduleVerb.Restart (tokens_of tokens.entry.rest.now)) }
{
    let session = tokens.session(sessions)?;
    tokens.end(Said::Restart(session))
}

/// `@late NAME SLOT`
#[tactic(auto, unfolding(crate::specs::Form::form))]
fn late(sessions: &Sessions, mut tokens: Tokens<'_>) -> Result<Said, PartFault>
    requires { length sessions.now ≤ 32 }
    ensures { Gives result (schedule_form sessions.now ScheduleVerb.Late (tokens_of tokens.entry.rest.now)) }
{
    let session = tokens.session(sessions)?;
    let slot = tokens.slot()?;
    tokens.end(Said::Late { session, slot })
}

/// `@trim SITE ID OBJECT`
#[tactic(auto, unfolding(crate::specs::Form::form))]
fn trim(mut tokens: Tokens<'_>) -> Result<Said, PartFault>
    ensures { Gives result (schedule_form [] ScheduleVerb.Trim (tokens_of tokens.entry.rest.now)) }
{
    let site = tokens.site()?;
    let image = tokens.id()?;
    let object = tokens.number()?;
    tokens.end(Said::Trim {
        site,
        image,
        object,
    })
}
