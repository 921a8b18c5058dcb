//! Tokens of pairs of lower-case hexadecimal digits.
ghost use Rattle.std.specs.Prelude.{◌≡◌, ◌*◌, length, IsTrue, OnOk, IfOk, IfErr};
ghost use Rattle.std.specs.List.{list_all};
ghost use Rattle.rbd_script.specs.Fault.{Gives};
ghost use Rattle.rbd_script.specs.Hex.{are_pairs, byte_of_digits as byte_in, bytes_of_digits as bytes_in, bytes_of_pairs, digit_of, IsFaultOf, is_hex_digit, pair_of};

use crate::fault::{LineCause, PartFault};
use rbd_kinds::{Bytes, Payload};
use std::alloc::Global;

/// The value of each digit, by its byte, and 16 for a byte that is no digit.
const VALUES: [u8; 256] = [
    16, 16, 16, 16, 16, 16, 16, 16, 16, 16, 16, 16, 16, 16, 16, 16, 16, 16, 16, 16, 16, 16, 16, 16,
    16, 16, 16, 16, 16, 16, 16, 16, 16, 16, 16, 16, 16, 16, 16, 16, 16, 16, 16, 16, 16, 16, 16, 16,
    0, 1, 2, 3, 4, 5, 6, 7, 8, 9, 16, 16, 16, 16, 16, 16, 16, 16, 16, 16, 16, 16, 16, 16, 16, 16,
    16, 16, 16, 16, 16, 16, 16, 16, 16, 16, 16, 16, 16, 16, 16, 16, 16, 16, 16, 16, 16, 16, 16, 10,
    11, 12, 13, 14, 15, 16, 16, 16, 16, 16, 16, 16, 16, 16, 16, 16, 16, 16, 16, 16, 16, 16, 16, 16,
    16, 16, 16, 16, 16, 16, 16, 16, 16, 16, 16, 16, 16, 16, 16, 16, 16, 16, 16, 16, 16, 16, 16, 16,
    16, 16, 16, 16, 16, 16, 16, 16, 16, 16, 16, 16, 16, 16, 16, 16, 16, 16, 16, 16, 16, 16, 16, 16,
    16, 16, 16, 16, 16, 16, 16, 16, 16, 16, 16, 16, 16, 16, 16, 16, 16, 16, 16, 16, 16, 16, 16, 16,
    16, 16, 16, 16, 16, 16, 16, 16, 16, 16, 16, 16, 16, 16, 16, 16, 16, 16, 16, 16, 16, 16, 16, 16,
    16, 16, 16, 16, 16, 16, 16, 16, 16, 16, 16, 16, 16, 16, 16, 16, 16, 16, 16, 16, 16, 16, 16, 16,
    16, 16, 16, 16, 16, 16, 16, 16, 16, 16, 16, 16, 16, 16,
];

/// The 1 to 65,536 bytes that the token spells, in memory that copies and slices of them share.
#[tactic(auto, unfolding(crate::specs::Hex::bytes_of_digits))]
pub fn payload_of(alloc: Global, token: &[u8]) -> Result<Payload, PartFault>
    ensures { Gives result (bytes_in token.now) }
{
    if token.len() > 131072 {
        return Err(PartFault::Cause(LineCause::BadNumber));
    }
    let bytes = Bytes::from_vec(decoded(alloc, token)?).share()?;
    match Payload::new(bytes) {
        Some(payload) => Ok(payload),
        None => Err(PartFault::Cause(LineCause::BadNumber)),
    }
}

/// The bytes that some pairs spell.
fn decoded(alloc: Global, token: &[u8]) -> Result<Vec<u8>, PartFault>
    ensures pairs { OnOk result (IsTrue (are_pairs token.now)) }
    ensures value { IfOk result (λ bytes. bytes.items ≡ bytes_of_pairs token.now) }
    ensures length { IfOk result (λ bytes. 2 * length bytes.items ≡ length token.now) }
    ensures fault { IfErr result (IsFaultOf token.now) }
{
    if token.len() % 2 != 0 {
        return Err(PartFault::Cause(LineCause::BadNumber));
    }
    let Ok(mut bytes) = vec![in alloc; 0u8; token.len() / 2] else {
        return Err(PartFault::NoMemory);
    };
    if !read_pairs(token, bytes.as_mut_slice()) {
        return Err(PartFault::Cause(LineCause::BadNumber));
    }
    Ok(bytes)
}

/// Writes the byte of each pair, and tells whether all are pairs of digits.
fn read_pairs(token: &[u8], bytes: &mut [u8]) -> bool
    requires { length token.now ≡ 2 * length bytes.old }
    ensures digits { result ≡ list_all is_hex_digit token.now }
    ensures value { IsTrue result → bytes.new ≡ bytes_of_pairs token.now }
    ensures long { length bytes.new ≡ length bytes.old }
{
    'pairs: for i in 0..bytes.len() {
        let Some(byte) = pair(token[2 * i], token[2 * i + 1]) else {
            return false;
        };
        bytes[i] = byte;
    }
    true
}

/// The byte of one pair.
#[tactic(auto, unfolding(crate::specs::Hex::byte_of_digits))]
pub fn byte_of(token: &[u8]) -> Result<u8, PartFault>
    ensures { Gives result (byte_in token.now) }
{
    let [high, low] = token else {
        return Err(PartFault::Cause(LineCause::BadNumber));
    };
    match pair(*high, *low) {
        Some(byte) => Ok(byte),
        None => Err(PartFault::Cause(LineCause::BadNumber)),
    }
}

/// The byte of two digits.
fn pair(high: u8, low: u8) -> Option<u8>
    ensures { result ≡ pair_of high low }
{
    let high = digit(high)?;
    let low = digit(low)?;
    Some(high * 16 + low)
}

/// The value of a digit.
fn digit(byte: u8) -> Option<u8>
    ensures { result ≡ digit_of byte }
{
    let value = VALUES[usize::from(byte)];
    if value < 16 { Some(value) } else { None }
}
