// A tag and a text after it, at the start of a buffer: the tags are `$`, `$v=`, and a comma with a parameter's name and `=`.
ghost use Rattle.std.specs.Prelude.{◌+◌, ◌≤◌, ◌≡◌, ◌++◌, length};
ghost use Rattle.text.specs.Place.{Wrote};
ghost use Rattle.decimal.specs.Decimal.{digits};
ghost use Rattle.table.specs.Limits.{longest_permitted};
ghost use Rattle.profile.specs.Fields.{write_bytes};
ghost use Rattle.profile.specs.PieceTexts.{tagged, tagged_length};

use b64::encoder::encode;
use b64::lengths::encoded_len;
use decimal::writer::{unsigned_len, write_unsigned};
use text::place::write_text;
use text::units::{Bytes, Chars};

// A text alone.
pub fn put_text(text: &[u8], out: &mut [u8]) -> Chars
    requires { length text.now ≤ length out.old }
    ensures { Wrote text.now out.old out.new result.0 }
{
    write_text(text, out, 0).unwrap()
}

// A number after its tag.
pub fn put_decimal(tag: &[u8], n: u32, out: &mut [u8]) -> Chars
    requires { length (tag.now ++ digits n) ≤ length out.old }
    ensures { Wrote (tag.now ++ digits n) out.old out.new result.0 }
{
    let at = put_text(tag, out).0;
    let put = write_unsigned(u64::from(n), out, at).unwrap();
    Chars(at + put.0)
}

// The length of a number after a tag of so many characters.
pub fn decimal_len(tag: Chars, n: u32) -> Chars
    requires { tag.0 ≤ longest_permitted }
    ensures { result.0 ≡ tag.0 + length (digits n) }
{
    tag.plus(unsigned_len(u64::from(n)))
}

// A byte string after its tag; nothing where it is empty.
pub fn put_bytes(tag: &[u8], bytes: &[u8], out: &mut [u8]) -> Chars
    requires { length (tagged tag.now (write_bytes bytes.now)) ≤ length out.old }
    ensures { Wrote (tagged tag.now (write_bytes bytes.now)) out.old out.new result.0 }
{
    if bytes.is_empty() {
        return Chars(0);
    }
    let at = put_text(tag, out).0;
    let put = encode(bytes, out, at).unwrap();
    Chars(at + put.0)
}

// The length of a byte string after a tag of so many characters.
pub fn bytes_len(tag: Chars, bytes: &[u8]) -> Chars
    requires { tagged_length tag.0 (write_bytes bytes.now) ≤ longest_permitted }
    ensures { result.0 ≡ tagged_length tag.0 (write_bytes bytes.now) }
{
    if bytes.is_empty() {
        return Chars(0);
    }
    tag.plus(encoded_len(Bytes(bytes.len())))
}
