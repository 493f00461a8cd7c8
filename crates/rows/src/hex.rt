// Byte strings written as hex digits.
ghost use Rattle.std.specs.Prelude.{◌<◌, ◌≡◌, length, take};
ghost use Rattle.text.specs.Place.{Wrote};
ghost use Rattle.rows.specs.Hex.{nibble_of, hex_bytes, bytes_at};

use crate::columns::column;
use readers::filled::Filled;
use text::units::Bytes;

// Room for a byte string: more than any limit, so that one byte too many reaches a writer.
const ROOM: usize = 80;

// The value of a hex digit. Free answer: 0 for any other byte.
#[tactic(auto, unfolding(crate::specs::Hex::nibble_of))]
fn nibble(c: u8) -> u8
    ensures { (result ≡ nibble_of c) × (result < 16) }
{
    match c {
        b'0'..=b'9' => c - b'0',
        b'a'..=b'f' => c - b'a' + 10,
        _ => 0,
    }
}

// The bytes of hex digits, from the start of a buffer on, as many as it takes; the count is theirs. A last digit without its pair is left out.
pub fn decode_hex(text: &[u8], buf: &mut [u8]) -> Bytes
    ensures { Wrote (take (length buf.old) (hex_bytes text.now)) buf.old buf.new result.0 }
{
    let count = (text.len() / 2).min(buf.len());
    // By index: of what a `zip` of `iter_mut` writes nothing is known after the loop.
    for (i, byte) in buf[..count].iter_mut().enumerate() {
        *byte = nibble(text[2 * i]) * 16 + nibble(text[2 * i + 1]);
    }
    Bytes(count)
}

// The bytes of a column of hex digits, at most 80. Free answer: what stands past them in the array.
pub fn hex_column(line: &[u8], index: usize) -> Filled<ROOM>
    ensures { (result.count ≡ length (bytes_at line.now index)) × (take result.count result.array ≡ bytes_at line.now index) }
{
    let mut array = [0u8; ROOM];
    let count = decode_hex(column(line, index), &mut array);
    Filled {
        array,
        count: count.0,
    }
}
