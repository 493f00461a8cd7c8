// The one text of a number, and its length.
ghost use Rattle.std.specs.Prelude.{◌≤◌, nat_abs, ◌≡◌, ◌++◌, length, drop};
ghost use Rattle.text.specs.Place.{chars_answered, put};
ghost use Rattle.decimal.specs.Decimal.{value, digits, decimal_text};
ghost use Rattle.decimal.specs.Numerals.{decimal_writing};

use refusals::Refusal;
use text::place::has_room;
use text::units::Chars;

// The size of a number, without its sign.
fn magnitude(value: i64) -> u64
    ensures { result ≡ nat_abs value }
{
    value.unsigned_abs()
}

// How many digits the shortest text of a number has.
fn count_digits(value: u64) -> usize
    ensures { result ≡ length (digits value) }
{
    if value < 10 {
        return 1;
    }
    value.ilog10() as usize + 1
}

// Puts the shortest text of a number at the start of a buffer, from its last digit on.
fn put_digits(value: u64, buf: &mut [u8]) -> usize
    requires { length (digits value) ≤ length buf.old }
    ensures { (result ≡ length (digits value)) × (buf.new ≡ digits value ++ drop (length (digits value)) buf.old) }
{
    let count = count_digits(value);
    let mut rest = value;
    for i in (0..count).rev() {
        buf[i] = b'0' + (rest % 10) as u8;
        rest /= 10;
    }
    count
}

// How many characters the text of a number without a sign has.
pub fn unsigned_len(value: u64) -> Chars
    ensures { result.0 ≡ length (digits value) }
{
    Chars(count_digits(value))
}

// The text of a number without a sign into `buf` from `at` on. 17: it doesn't fit.
pub fn write_unsigned(value: u64, buf: &mut [u8], at: usize) -> Result<Chars, Refusal>
    ensures { chars_answered result buf.new ≡ put buf.old at (digits value) }
{
    let count = unsigned_len(value);
    if !has_room(buf.len(), at, count.0) {
        return Err(Refusal::NoRoom);
    }
    put_digits(value, &mut buf[at..]);
    Ok(count)
}

// How many characters the text of a number has.
pub fn decimal_len(value: i64) -> Chars
    ensures { result.0 ≡ length (decimal_text value) }
{
    let size = magnitude(value);
    if value < 0 {
        Chars(1 + count_digits(size))
    } else {
        Chars(count_digits(size))
    }
}

// Puts the text of a number at the start of a buffer.
fn put_decimal(value: i64, buf: &mut [u8]) -> usize
    requires { length (decimal_text value) ≤ length buf.old }
    ensures { (result ≡ length (decimal_text value)) × (buf.new ≡ decimal_text value ++ drop (length (decimal_text value)) buf.old) }
{
    let size = magnitude(value);
    if value < 0 {
        buf[0] = b'-';
        1 + put_digits(size, &mut buf[1..])
    } else {
        put_digits(size, buf)
    }
}

// The text of a number into `buf` from `at` on. 17: it doesn't fit.
pub fn write_decimal(value: i64, buf: &mut [u8], at: usize) -> Result<Chars, Refusal>
    ensures { chars_answered result buf.new ≡ decimal_writing value buf.old at }
{
    let count = decimal_len(value);
    if !has_room(buf.len(), at, count.0) {
        return Err(Refusal::NoRoom);
    }
    put_decimal(value, &mut buf[at..]);
    Ok(count)
}
