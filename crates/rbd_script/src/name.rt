//! Tokens that name images and snapshots.
ghost use Rattle.std.specs.Prelude.{◌≡◌, [], IfSome, IfNone};
ghost use Rattle.std.specs.List.{after_first, before_first, list_any};
ghost use Rattle.rbd_script.specs.Fault.{Gives};
ghost use Rattle.rbd_script.specs.Name.{is_at_sign, name_of_token as name_in, snap_of_token as snap_in, target_of as target_in};

use crate::fault::{LineCause, PartFault};
use crate::place::place_of;
use rbd_kinds::{AskedName, Bytes};
use std::alloc::Global;

/// The name that the token spells.
#[tactic(auto, unfolding(crate::specs::Name::name_of_token))]
pub fn name_of(alloc: Global, token: &[u8]) -> Result<AskedName, PartFault>
    ensures { Gives result (name_in token.now) }
{
    // A token of any length isn't copied.
    if token.len() > 64 {
        return Err(PartFault::Cause(LineCause::BadName));
    }
    let text = Bytes::from_slice(alloc, token)?;
    match AskedName::parse(text) {
        Some(name) => Ok(name),
        None => Err(PartFault::Cause(LineCause::BadName)),
    }
}

/// The image and the snapshot of `IMAGE@SNAP`.
#[tactic(auto, unfolding(crate::specs::Name::snap_of_token))]
pub fn snap_of(alloc: Global, token: &[u8]) -> Result<(AskedName, AskedName), PartFault>
    ensures { Gives result (snap_in token.now) }
{
    let Some((image, snap)) = halves(token) else {
        return Err(PartFault::Cause(LineCause::BadName));
    };
    let image = name_of(alloc, image)?;
    let snap = name_of(alloc, snap)?;
    Ok((image, snap))
}

/// What stands before the first `@`, and what behind it.
fn halves(token: &[u8]) -> Option<(&[u8], &[u8])>
    ensures found { IfSome result (λ t. (t.0.now ≡ before_first is_at_sign token.now)
        × (t.1.now ≡ after_first is_at_sign token.now)) }
    ensures none { IfNone result (after_first is_at_sign token.now ≡ []) }
{
    let (image, behind) = token.split_at(place_of(b'@', token));
    match behind {
        [] => None,
        [_, snap @ ..] => Some((image, snap)),
    }
}

/// The image of `IMAGE[@SNAP]`, and the snapshot where it is named.
#[tactic(auto, unfolding(crate::specs::Name::target_of))]
pub fn target_of(alloc: Global, token: &[u8]) -> Result<(AskedName, Option<AskedName>), PartFault>
    ensures { Gives result (target_in token.now) }
{
    if has_at(token) {
        let (image, snap) = snap_of(alloc, token)?;
        return Ok((image, Some(snap)));
    }
    let image = name_of(alloc, token)?;
    Ok((image, None))
}

fn has_at(token: &[u8]) -> bool
    ensures { result ≡ list_any is_at_sign token.now }
{
    token.iter().any(|&byte| byte == b'@')
}
