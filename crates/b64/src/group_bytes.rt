// The bytes of a group of four characters, and of the last two or three, stored at a place of a buffer that has room for them.
ghost use Rattle.std.specs.Prelude.{◌+◌, ◌≤◌, ◌<◌, ◌≡◌, [], ◌∷◌, length, get_or};
ghost use Rattle.text.specs.Place.{over};
ghost use Rattle.b64.specs.B64.{sextet};
ghost use Rattle.b64.specs.B64Steps.{group_at, three, two, one};

use crate::groups::group;
use crate::sextets::{SextetTable, bits};

// The sextets of four characters.
fn sextets_of(table: SextetTable<'_>, chars: &[u8; 4]) -> [u8; 4]
    ensures { result ≡ sextet (get_or chars.now 0 0) ∷ sextet (get_or chars.now 1 0) ∷ sextet (get_or chars.now 2 0) ∷ sextet (get_or chars.now 3 0) ∷ [] }
{
    let [a, b, c, d] = *chars;
    [
        table.sextet_of(a),
        table.sextet_of(b),
        table.sextet_of(c),
        table.sextet_of(d),
    ]
}

// The 24 bits of the four characters at a place; 2^24 where one is not of the alphabet.
pub fn four(table: SextetTable<'_>, s: &[u8], i: usize) -> u32
    requires { i + 4 ≤ length s.now }
    ensures { result ≡ group_at s.now i }
{
    let a = table.sextet_of(s[i]);
    let b = table.sextet_of(s[i + 1]);
    let c = table.sextet_of(s[i + 2]);
    let d = table.sextet_of(s[i + 3]);
    group(a, b, c, d)
}

// The bytes of 24 bits.
pub fn put_three(out: &mut [u8], o: usize, n: u32)
    requires { (o + 3 ≤ length out.old) × (n < 16777216) }
    ensures { out.new ≡ over out.old o (three n) }
{
    out[o] = (n / 65536) as u8;
    out[o + 1] = (n / 256 % 256) as u8;
    out[o + 2] = (n % 256) as u8;
}

// The bytes of four characters that are known to be of the alphabet: nothing is tested again.
pub fn put_group(table: SextetTable<'_>, chars: &[u8; 4], out: &mut [u8], o: usize)
    requires { (o + 3 ≤ length out.old) × (group_at chars.now 0 < 16777216) }
    ensures { out.new ≡ over out.old o (three (group_at chars.now 0)) }
{
    let [a, b, c, d] = sextets_of(table, chars);
    put_three(out, o, bits(a, b, c, d));
}

// The bytes of three sextets.
pub fn put_two(out: &mut [u8], o: usize, a: u8, b: u8, c: u8)
    requires { (o + 2 ≤ length out.old) × (a < 64) × (b < 64) × (c < 64) }
    ensures { out.new ≡ over out.old o (two a b c) }
{
    out[o] = a * 4 + b / 16;
    out[o + 1] = b % 16 * 16 + c / 4;
}

// The byte of two sextets.
pub fn put_one(out: &mut [u8], o: usize, a: u8, b: u8)
    requires { (o + 1 ≤ length out.old) × (a < 64) × (b < 64) }
    ensures { out.new ≡ over out.old o (one a b) }
{
    out[o] = a * 4 + b / 16;
}
