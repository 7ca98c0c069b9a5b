//! Numbers as canonical decimals: `0`, or a digit from 1 to 9 and further digits; where signed, also
//! `-` and one of these but `0`. So each number has one spelling, and no sign, zero or space before
//! it is skipped.

ghost use Rattle.std.specs.Prelude.{◌≡◌, ◌++◌, ◌^◌, OnOk, OnErr};
ghost use Rattle.std.specs.Fmt.{signed_decimal};
ghost use Rattle.df_model.specs.Numbers;

use df_model::NoMemory;
use itoa::Buffer;

/// The number that a canonical decimal within signed 64 bits stands for, None for any other text.
pub fn parse_i64(text: &[u8]) -> Option<i64>
    ensures { result ≡ Numbers.signed text.now }
{
    match text {
        [] => None,
        [b'-', rest @ ..] => {
            let number = parse_u64(rest)?;
            if number == 0 {
                return None;
            }
            // Wider than the number, since the least i64 has no counterpart above 0.
            i64::try_from(-i128::from(number)).ok()
        }
        _ => {
            let number = parse_u64(text)?;
            i64::try_from(number).ok()
        }
    }
}

/// The number that a canonical decimal within unsigned 64 bits stands for, None for any other text.
pub fn parse_u64(text: &[u8]) -> Option<u64>
    ensures { result ≡ Numbers.unsigned text.now }
{
    match text {
        [] => None,
        [b'0', _, ..] => None,
        _ => read_digits(text),
    }
}

/// The number that these digits make, where it fits.
fn read_digits(text: &[u8]) -> Option<u64>
    ensures { result ≡ Numbers.below (2 ^ 64) (Numbers.digits 0 text.now) }
{
    let mut number: u64 = 0;
    'digits: for &byte in text {
        if !byte.is_ascii_digit() {
            return None;
        }
        let digit = u64::from(byte - b'0');
        if number > (u64::MAX - digit) / 10 {
            return None;
        }
        number = number * 10 + digit;
    }
    Some(number)
}

/// Appends the decimal of the number. The digits are made on the stack, so memory is asked for once.
pub fn push_i64(to: &mut Vec<u8>, n: i64) -> Result<(), NoMemory>
    ensures ok { OnOk result (to.new.items ≡ to.old.items ++ signed_decimal n) }
    ensures err { OnErr result (to.new.items ≡ to.old.items) }
{
    let mut buffer = Buffer::new();
    to.extend_from_slice(buffer.format(n).as_bytes())?;
    Ok(())
}
