//! Numbers, as they are printed.
ghost use Rattle.std.specs.Prelude.{◌≡◌, ◌++◌, ◌<◌, OnOk, map, slice_index};
ghost use Rattle.std.specs.Int.Digits.{digits_of};
ghost use Rattle.hex.specs.Hex.{lower_digits};
ghost use Rattle.rbd_text.specs.Numbers.{hexadecimal, sixteen_digits};

use itoa::{Buffer, Integer};
use rbd_kinds::NoMemory;

const DIGITS: [u8; 16] = *b"0123456789abcdef";

/// Appends a number in decimal.
pub fn push_number<I: Integer>(text: &mut Vec<u8>, number: I) -> Result<(), NoMemory>
    ensures { OnOk result (text.new.items ≡ text.old.items ++ I.text number) }
{
    text.extend_from_slice(Buffer::new().format(number).as_bytes())?;
    Ok(())
}

/// Appends a number in lower-case hexadecimal, without leading zeros.
pub fn push_hexadecimal(text: &mut Vec<u8>, number: u32) -> Result<(), NoMemory>
    ensures { OnOk result (text.new.items ≡ text.old.items ++ hexadecimal number) }
{
    if number == 0 {
        text.push(b'0')?;
        return Ok(());
    }
    push_digits(text, number)
}

fn push_digits(text: &mut Vec<u8>, number: u32) -> Result<(), NoMemory>
    ensures { OnOk result (text.new.items ≡ text.old.items ++ map (slice_index lower_digits) (digits_of 16 number)) }
{
    if number == 0 {
        return Ok(());
    }
    push_digits(text, number / 16)?;
    text.push(digit(number % 16))?;
    Ok(())
}

fn digit(value: u32) -> u8
    requires { value < 16 }
    ensures { result ≡ slice_index lower_digits value }
{
    DIGITS[value as usize]
}

/// Appends a number as 16 lower-case hexadecimal digits.
pub fn push_sixteen_digits(text: &mut Vec<u8>, number: u64) -> Result<(), NoMemory>
    ensures { OnOk result (text.new.items ≡ text.old.items ++ sixteen_digits number) }
{
    let mut digits = [0; 16];
    hex::encode_to_slice(number.to_be_bytes(), &mut digits).unwrap();
    text.extend_from_slice(&digits)?;
    Ok(())
}
