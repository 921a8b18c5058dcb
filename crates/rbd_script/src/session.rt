//! Tokens that name sessions.
ghost use Rattle.std.specs.Prelude.{◌≡◌, ◌<◌, ◌≤◌, length, position, OnOk};
ghost use Rattle.std.specs.List.{list_all, list_any};
ghost use Rattle.rbd_script.specs.Fault.{Gives};
ghost use Rattle.rbd_script.specs.Session.{is_letter_or_digit, has_session_name, is_session_name as is_session_name_in, new_session_of as new_session_in, session_of_token as session_in};

use crate::fault::{LineCause, PartFault, known};
use crate::script::Sessions;
use crate::word::is;
use rbd_kinds::{Bytes, Name, SessionNo};
use std::alloc::Global;

/// How many sessions a script may declare.
const SESSION_LIMIT: usize = 32;

/// The number of the session that was declared by the name.
#[tactic(auto, unfolding(crate::specs::Session::session_of_token))]
pub fn session_of(sessions: &Sessions, token: &[u8]) -> Result<SessionNo, PartFault>
    requires { length sessions.now ≤ 32 }
    ensures { Gives result (session_in sessions.now token.now) }
{
    let place = known(place_of_session(sessions, token))?;
    Ok(SessionNo(place as u8))
}

fn place_of_session(sessions: &Sessions, token: &[u8]) -> Option<usize>
    ensures { result ≡ position (has_session_name token.now) sessions.now }
{
    sessions
        .as_slice()
        .iter()
        .position(|session| session.name.as_slice() == token)
}

/// The name of one more session, of 32 at most.
#[tactic(auto, unfolding(crate::specs::Session::new_session_of))]
pub fn new_session_of(alloc: Global, sessions: &Sessions, token: &[u8]) -> Result<Name, PartFault>
    ensures name { Gives result (new_session_in sessions.now token.now) }
    ensures few { OnOk result (length sessions.now < 32) }
{
    if !is_session_name(token) || is_declared(sessions, token) {
        return Err(PartFault::Cause(LineCause::BadName));
    }
    if sessions.len() >= SESSION_LIMIT {
        return Err(PartFault::Cause(LineCause::BadName));
    }
    let text = Bytes::from_slice(alloc, token)?;
    Ok(Name::parse(text).unwrap())
}

fn is_declared(sessions: &Sessions, token: &[u8]) -> bool
    ensures { result ≡ list_any (has_session_name token.now) sessions.now }
{
    sessions
        .as_slice()
        .iter()
        .any(|session| session.name.as_slice() == token)
}

/// Whether the token may name a session: 1 to 32 letters and digits, a letter first, not `client`.
fn is_session_name(token: &[u8]) -> bool
    ensures { result ≡ is_session_name_in token.now }
{
    let Some(&first) = token.first() else {
        return false;
    };
    if !first.is_ascii_lowercase() {
        return false;
    }
    if is(token, "client") {
        return false;
    }
    token.len() <= 32 && are_letters_or_digits(token)
}

fn are_letters_or_digits(token: &[u8]) -> bool
    ensures { result ≡ list_all is_letter_or_digit token.now }
{
    token
        .iter()
        .all(|&byte| byte.is_ascii_lowercase() || byte.is_ascii_digit())
}
