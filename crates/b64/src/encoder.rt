// From bytes to B64 characters, into a lent buffer.
ghost use Rattle.std.specs.Prelude.{◌≡◌, ◌++◌, ◌+◌, ◌≤◌, ◌<◌, length, drop};
ghost use Rattle.text.specs.Place.{chars_answered};
ghost use Rattle.b64.specs.B64.{encode, encoding};

use crate::lengths::encoded_len;
use crate::letters::LetterTable;
use refusals::Refusal;
use text::place::has_room;
use text::units::{Bytes, Chars};

// The four characters of three bytes, at the start of a buffer.
fn encode_group(table: LetterTable<'_>, group: &[u8; 3], out: &mut [u8])
    requires { 4 ≤ length out.old }
    ensures { out.new ≡ encode group.now ++ drop 4 out.old }
{
    let [x, y, z] = *group;
    out[0] = table.letter_of(x / 4);
    out[1] = table.letter_of(x % 4 * 16 + y / 16);
    out[2] = table.letter_of(y % 16 * 4 + z / 64);
    out[3] = table.letter_of(z % 64);
}

// The rest after the whole groups: one or two bytes, or none.
fn encode_rest(table: LetterTable<'_>, bytes: &[u8], out: &mut [u8])
    requires bytes_len_bound { length bytes.now < 3 }
    requires bytes_in_bounds { length (encode bytes.now) ≤ length out.old }
    ensures { out.new ≡ encode bytes.now ++ drop (length (encode bytes.now)) out.old }
{
    let [x, ..] = *bytes else {
        return;
    };
    out[0] = table.letter_of(x / 4);
    if let [_, y, ..] = *bytes {
        out[1] = table.letter_of(x % 4 * 16 + y / 16);
        out[2] = table.letter_of(y % 16 * 4);
    } else {
        out[1] = table.letter_of(x % 4 * 16);
    }
}

// All of the bytes, from the start of a buffer that has room for their characters.
// By as_chunks, or with a match of three arms in encode_rest, phc_write takes about 20 instructions more.
fn encode_all(table: LetterTable<'_>, bytes: &[u8], out: &mut [u8])
    requires { length (encode bytes.now) ≤ length out.old }
    ensures { out.new ≡ encode bytes.now ++ drop (length (encode bytes.now)) out.old }
{
    let mut rest = bytes;
    let mut o = 0;
    while let Some((group, after)) = rest.split_first_chunk::<3>() {
        encode_group(table, group, &mut out[o..]);
        rest = after;
        o += 4;
    }
    encode_rest(table, rest, &mut out[o..]);
}

// The text of bytes into `buf` from `at` on. 17: it doesn't fit.
pub fn encode(bytes: &[u8], buf: &mut [u8], at: usize) -> Result<Chars, Refusal>
    ensures { chars_answered result buf.new ≡ encoding bytes.now buf.old at }
{
    let table = LetterTable::new();
    let count = encoded_len(Bytes(bytes.len()));
    if !has_room(buf.len(), at, count.0) {
        return Err(Refusal::NoRoom);
    }
    encode_all(table, bytes, &mut buf[at..]);
    Ok(count)
}
