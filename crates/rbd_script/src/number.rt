//! Tokens that are numbers.
ghost use Rattle.std.specs.Prelude.{◌≡◌, ◌≤◌, ◌^◌, IsTrue, IfSome, IfNone};
ghost use Rattle.std.specs.List.{list_all};
ghost use Rattle.rbd_script.specs.Fault.{Gives};
ghost use Rattle.rbd_script.specs.Number.{is_digit, is_numeral as is_numeral_in, number_after, number_between as number_in};

use crate::fault::{LineCause, PartFault};
use rbd_kinds::AtMost;

/// The number from `least` to `MOST` that the token spells in decimal, without sign or leading
/// zeros.
#[tactic(auto, unfolding(crate::specs::Number::number_between))]
pub fn number_between<const MOST: u64>(least: u64, token: &[u8]) -> Result<AtMost<MOST>, PartFault>
    ensures { Gives result (number_in least MOST token.now) }
{
    let Some(number) = number_of(token) else {
        return Err(PartFault::Cause(LineCause::BadNumber));
    };
    if number < least {
        return Err(PartFault::Cause(LineCause::BadNumber));
    }
    match AtMost::new(number) {
        Some(number) => Ok(number),
        None => Err(PartFault::Cause(LineCause::BadNumber)),
    }
}

/// The number that the token spells, where it is below 2^64.
fn number_of(token: &[u8]) -> Option<u64>
    ensures found { IfSome result (λ n. IsTrue (is_numeral_in token.now) × (n ≡ number_after 0 token.now)) }
    ensures none { IfNone result (IsTrue (is_numeral_in token.now) → 2 ^ 64 ≤ number_after 0 token.now) }
{
    if !is_numeral(token) {
        return None;
    }
    let Ok(text) = str::from_utf8(token) else {
        return None;
    };
    match text.parse::<u64>() {
        Ok(number) => Some(number),
        Err(_) => None,
    }
}

/// Whether the token is some digits, of which the first isn't `0` where there are several.
fn is_numeral(token: &[u8]) -> bool
    ensures { result ≡ is_numeral_in token.now }
{
    let Some(&first) = token.first() else {
        return false;
    };
    if first == b'0' && token.len() > 1 {
        return false;
    }
    are_digits(token)
}

fn are_digits(token: &[u8]) -> bool
    ensures { result ≡ list_all is_digit token.now }
{
    token.iter().all(|byte| byte.is_ascii_digit())
}
