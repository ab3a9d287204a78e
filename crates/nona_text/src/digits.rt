// Bytes to numbers.

ghost use Rattle.std.specs.Prelude.{◌≡◌, ◌-◌, ◌<◌, ◌≤◌, ◌^◌, true, length, min, pos, neg_ℤ};
ghost use Rattle.std.specs.List.{list_all};
ghost use Rattle.nona_text.specs.Bytes.{is_digit, number_of};
ghost use Rattle.nona_text.specs.Digits.{are_digits, number_within, positive_of, negative_of, signed_of};

use crate::bytes::is_digit;

/// The most digits of a number in a script or an option.
pub const DIGITS: usize = 13;

/// The greatest number of 64 bits with a sign, 2^63 - 1.
pub const GREATEST: u64 = 9223372036854775807;

/// How far below 0 the least number of 64 bits with a sign stands, 2^63.
pub const FARTHEST: u64 = 9223372036854775808;

fn all_digits(bytes: &[u8]) -> bool
    ensures { result ≡ list_all is_digit bytes.now }
{
    bytes.iter().all(|b| is_digit(*b))
}

fn are_digits(bytes: &[u8]) -> bool
    ensures { result ≡ are_digits bytes.now }
{
    match bytes {
        [] => false,
        [_, ..] => all_digits(bytes),
    }
}

/// The number that digits spell, or 2^64 - 1 where it is greater. Takes time in proportion to the digits.
pub fn value(digits: &[u8]) -> u64
    ensures { result ≡ min (number_of digits.now) (2 ^ 64 - 1) }
{
    let mut value: u64 = 0;
    for digit in digits {
        let next = u64::from(digit.saturating_sub(b'0'));
        value = value.saturating_mul(10).saturating_add(next);
    }
    value
}

/// The value of few digits.
fn small_value(digits: &[u8]) -> u64
    requires digits { are_digits digits.now ≡ true }
    requires few { length digits.now ≤ DIGITS }
    ensures { result ≡ number_of digits.now }
{
    value(digits)
}

/// The number that bytes are: 1 to 13 digits, leading zeros with them, whose value is from `low` to `high`. Other bytes
/// are none.
pub fn number_within(low: u64, high: u64, bytes: &[u8]) -> Option<u64>
    ensures { result ≡ number_within low high bytes.now }
{
    if !are_digits(bytes) || bytes.len() > DIGITS {
        return None;
    }
    let value = small_value(bytes);
    if low <= value && value <= high {
        Some(value)
    } else {
        None
    }
}

fn positive(digits: &[u8]) -> Option<i64>
    ensures { result ≡ positive_of digits.now }
{
    if !are_digits(digits) {
        return None;
    }
    let value = value(digits);
    if value > GREATEST {
        None
    } else {
        Some(value as i64)
    }
}

/// The number so far below 0.
fn below_zero(value: u64) -> i64
    requires { value ≤ 2 ^ 63 }
    ensures { result ≡ neg_ℤ (pos value) }
{
    if value == 0 {
        0
    } else {
        -((value - 1) as i64) - 1
    }
}

fn negative(digits: &[u8]) -> Option<i64>
    ensures { result ≡ negative_of digits.now }
{
    if !are_digits(digits) {
        return None;
    }
    let value = value(digits);
    if value > FARTHEST {
        None
    } else {
        Some(below_zero(value))
    }
}

/// The number that bytes are: a `-` or none, and then one or more digits, leading zeros with them, whose value is an
/// `i64`. Other bytes are none. Takes time in proportion to the bytes.
pub fn signed_number(bytes: &[u8]) -> Option<i64>
    ensures { result ≡ signed_of bytes.now }
{
    match bytes {
        [] => None,
        [first, digits @ ..] => {
            if *first == b'-' {
                negative(digits)
            } else {
                positive(bytes)
            }
        }
    }
}
