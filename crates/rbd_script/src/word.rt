//! Tokens that are words.
ghost use Rattle.std.specs.Prelude.{◌≡◌};
ghost use Rattle.rbd_kinds.specs.Operation.{op_word};
ghost use Rattle.rbd_script.specs.Fault.{Gives};
ghost use Rattle.rbd_script.specs.Token.{is as is_in};
ghost use Rattle.rbd_script.specs.Word.{all_kinds, kind_of_token as kind_in, site_of_token as site_in, with_word};

use crate::fault::{LineCause, PartFault, known};
use rbd_kinds::{OpKind, SiteId};

/// Whether the token is the word.
pub fn is(token: &[u8], word: &str) -> bool
    ensures { result ≡ is_in word.now token.now }
{
    token == word.as_bytes()
}

/// The site of the token.
#[tactic(auto, unfolding(crate::specs::Word::site_of_token))]
pub fn site_of(token: &[u8]) -> Result<SiteId, PartFault>
    ensures { Gives result (site_in token.now) }
{
    if is(token, "a") {
        return Ok(SiteId::A);
    }
    if is(token, "b") {
        return Ok(SiteId::B);
    }
    Err(PartFault::Cause(LineCause::UnknownWord))
}

/// The kind of operation that has the token as its word.
#[tactic(auto, unfolding(crate::specs::Word::kind_of_token))]
pub fn kind_of(token: &[u8]) -> Result<OpKind, PartFault>
    ensures { Gives result (kind_in token.now) }
{
    known(kind_with_word(token))
}

fn kind_with_word(token: &[u8]) -> Option<OpKind>
    ensures { result ≡ with_word op_word all_kinds token.now }
{
    match OpKind::from_word(token) {
        Some(kind) => Some(kind),
        None => None,
    }
}
