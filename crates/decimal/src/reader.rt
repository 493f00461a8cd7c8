// Texts read as decimals: `0`, or a digit 1 to 9 and any further digits, or a minus sign before such a number other than 0.
ghost use Rattle.std.specs.Prelude.{◌-◌, ◌≤◌, ◌<◌, pos, neg_ℤ, ◌≡◌};
ghost use Rattle.std.specs.List.{list_all};
ghost use Rattle.decimal.specs.Decimal.{is_digit, is_unsigned, value};
ghost use Rattle.decimal.specs.Numerals.{signed_reading, limited_reading};
ghost use Rattle.decimal.specs.DecimalSteps.{up_to, unsigned_reading, plain, minus};

use crate::error::DecimalError;
use crate::signs::complement;

fn is_digit(c: u8) -> bool
    ensures { result ≡ is_digit c }
{
    c.is_ascii_digit()
}

// Whether every byte is a digit.
fn all_digits(text: &[u8]) -> bool
    ensures { result ≡ list_all is_digit text.now }
{
    text.iter().all(|c| is_digit(*c))
}

fn is_unsigned(text: &[u8]) -> bool
    ensures { result ≡ is_unsigned text.now }
{
    match text {
        [] => false,
        [b'0', more @ ..] => more.is_empty(),
        _ => all_digits(text),
    }
}

// The value of a digit.
fn digit(c: u8) -> u64
    ensures { result ≡ c - 48 }
{
    u64::from(c.saturating_sub(b'0'))
}

// The value of digits, where it is at most the limit.
fn value_up_to(text: &[u8], limit: u64) -> Option<u64>
    ensures { result ≡ up_to limit (value text.now) }
{
    let mut n: u64 = 0;
    for c in text {
        n = n.checked_mul(10)?.checked_add(digit(*c))?;
        if limit < n {
            return None;
        }
    }
    Some(n)
}

// A text without a sign, of any length, read as a decimal of at most the limit.
fn read_unsigned(text: &[u8], limit: u64) -> Result<u64, DecimalError>
    ensures { result ≡ unsigned_reading limit text.now }
{
    if !is_unsigned(text) {
        return Err(DecimalError::Malformed);
    }
    value_up_to(text, limit).ok_or(DecimalError::Outside)
}

// A text of any length read as a decimal from `low` to `high`. A negative decimal is one, and outside. Free answer: where `low` is past
// `high` every decimal is outside.
pub fn read_within(text: &[u8], low: u64, high: u64) -> Result<u64, DecimalError>
    ensures { result ≡ limited_reading low high text.now }
{
    match text {
        [] => Err(DecimalError::Malformed),
        [b'-', digits @ ..] => {
            // past 0 is outside, and there is no -0
            read_unsigned(digits, 0)?;
            Err(DecimalError::Malformed)
        }
        _ => {
            let n = read_unsigned(text, high)?;
            if n < low {
                return Err(DecimalError::Outside);
            }
            Ok(n)
        }
    }
}

// -n, for a size of 1 to 2^63.
fn negated(n: u64) -> i64
    requires { (0 < n) × (n ≤ 9223372036854775808) }
    ensures { result ≡ neg_ℤ (pos n) }
{
    complement((n - 1) as i64)
}

fn read_plain(text: &[u8]) -> Result<i64, DecimalError>
    ensures { result ≡ plain (unsigned_reading 9223372036854775807 text.now) }
{
    let n = read_unsigned(text, 9223372036854775807)?;
    Ok(n as i64)
}

// The digits after a minus sign. There is no -0.
fn read_minus(text: &[u8]) -> Result<i64, DecimalError>
    ensures { result ≡ minus (unsigned_reading 9223372036854775808 text.now) }
{
    let n = read_unsigned(text, 9223372036854775808)?;
    if n == 0 {
        return Err(DecimalError::Malformed);
    }
    Ok(negated(n))
}

// Any text read as a signed decimal of 64 bits.
pub fn read_decimal(text: &[u8]) -> Result<i64, DecimalError>
    ensures { result ≡ signed_reading text.now }
{
    match text {
        [] => Err(DecimalError::Malformed),
        [b'-', digits @ ..] => read_minus(digits),
        _ => read_plain(text),
    }
}
