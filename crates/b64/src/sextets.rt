// Sextets from the table that is lent, four of them as one number, and whether a text is canonical.
ghost use Rattle.std.specs.Prelude.{◌≡◌, not, ◌&&◌, ◌%◌, eqb, length};
ghost use Rattle.text.specs.Text.{within, all};
ghost use Rattle.b64.specs.B64.{sextet, Sextets, in_alphabet, low_bits_zero, canonical};
ghost use Rattle.b64.specs.B64Steps.{bits_of};

use crate::alphabet::SEXTETS;

// A table of each byte's sextet. A caller takes it once and hands it down: a constant named in a small function is stored anew at each call.
#[derive(Clone, Copy)]
pub struct SextetTable<'a> {
    entries: &'a [u8; 256],
    ghost holds_sextets: { Sextets entries.now },
}

impl SextetTable<'static> {
    pub fn new() -> Self {
        SextetTable { entries: &SEXTETS }
    }
}

impl SextetTable<'_> {
    // The sextet of a byte.
    pub fn sextet_of(self, c: u8) -> u8
        ensures { result ≡ sextet c }
    {
        self.entries[usize::from(c)]
    }
}

// Four numbers of six bits as one of 24.
pub fn bits(a: u8, b: u8, c: u8, d: u8) -> u32
    ensures { result ≡ bits_of a b c d }
{
    (u32::from(a) * 64 + u32::from(b)) * 4096 + (u32::from(c) * 64 + u32::from(d))
}

fn in_range(low: u8, high: u8, c: u8) -> bool
    ensures { result ≡ within low high c }
{
    (low <= c) & (c <= high)
}

// Whether a byte is of the alphabet, without the table and without a branch: a loop over it is compiled to vector instructions. `/` stands right
// before `0`, so one range takes both.
fn in_alphabet(c: u8) -> bool
    ensures { result ≡ in_alphabet c }
{
    in_range(b'A', b'Z', c) | in_range(b'a', b'z', c) | in_range(b'/', b'9', c) | (c == b'+')
}

// Every byte is looked at, also past one outside the alphabet: a return from the loop would keep it from vector instructions.
fn all_in_alphabet(text: &[u8]) -> bool
    ensures { result ≡ all in_alphabet text.now }
{
    let mut good = true;
    for c in text {
        good &= in_alphabet(*c);
    }
    good
}

// The length leaves no single character, and the unused low bits of the last one are zero.
fn has_canonical_end(table: SextetTable<'_>, text: &[u8]) -> bool
    ensures { result ≡ (not (eqb (length text.now % 4) 1) && low_bits_zero text.now) }
{
    let (_, rest) = text.as_chunks::<4>();
    match rest {
        [] => true,
        [_] => false,
        [_, b] => table.sextet_of(*b) % 16 == 0,
        [_, _, c, ..] => table.sextet_of(*c) % 4 == 0,
    }
}

// is_canonical, with the table lent.
pub fn is_canonical_by(table: SextetTable<'_>, text: &[u8]) -> bool
    ensures { result ≡ canonical text.now }
{
    all_in_alphabet(text) && has_canonical_end(table, text)
}
