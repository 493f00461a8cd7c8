// From B64 characters to bytes, into a lent buffer, by whole groups of four: a text that is judged first, or what stands at a place.
ghost use Rattle.std.specs.Prelude.{◌≡◌, true, ◌++◌, ◌+◌, ◌*◌, ◌/◌, ◌≤◌, ◌<◌, length, get_or, drop};
ghost use Rattle.text.specs.Place.{bytes_answered};
ghost use Rattle.b64.specs.B64.{sextet, canonical, decode, decoding};
ghost use Rattle.b64.specs.Runs.{RunGives};
ghost use Rattle.b64.specs.RunSteps.{Reached, Stopped};

use crate::group_bytes::{four, put_group, put_one, put_three, put_two};
use crate::lengths::decoded_len;
use crate::sextets::{SextetTable, is_canonical_by};
use refusals::Refusal;
use text::place::has_room;
use text::units::{Bytes, Chars};

// How far a run was decoded: the place after the characters, and the place after their bytes; and whether the run is a canonical text whose bytes
// fit, so that this is all of it.
#[derive(Clone, Copy)]
pub struct Run {
    pub next: usize,
    pub end: usize,
    pub complete: bool,
}

// The sextet at a place; 255 past the end, as for a byte outside the alphabet.
fn sextet_at(table: SextetTable<'_>, s: &[u8], i: usize) -> u8
    ensures { result ≡ sextet (get_or s.now i 0) }
{
    match s.get(i) {
        Some(c) => table.sextet_of(*c),
        None => 255,
    }
}

// Whole groups: four characters to three bytes, as many as stand at the place and fit. One bound for text and room.
// By as_chunks and enumerate, phc_read_all takes 1 to 2 % more instructions.
fn decode_groups(
    table: SextetTable<'_>,
    s: &[u8],
    at: usize,
    out: &mut [u8],
    from: usize,
) -> (usize, usize)
    requires { (at ≤ length s.now) × (from ≤ length out.old) }
    ensures { Reached s.now at out.old from out.new result.0 result.1 × Stopped s.now out.new result.0 result.1 }
{
    let last = at + ((s.len() - at) / 4).min((out.len() - from) / 3) * 4;
    let mut i = at;
    let mut o = from;
    while i < last {
        let n = four(table, s, i);
        if 16777215 < n {
            return (i, o);
        }
        put_three(out, o, n);
        i += 4;
        o += 3;
    }
    (i, o)
}

// What stands after the whole groups: the last two or three characters of a canonical text, where they fit; anything else is left.
fn decode_rest(table: SextetTable<'_>, s: &[u8], i: usize, out: &mut [u8], o: usize) -> Run
    requires { (i ≤ length s.now) × (o ≤ length out.old) × Stopped s.now out.old i o }
    ensures { RunGives s.now i out.old o out.new result }
{
    let a = sextet_at(table, s, i);
    if 63 < a {
        return Run {
            next: i,
            end: o,
            complete: true,
        };
    }
    let room = out.len() - o;
    let b = sextet_at(table, s, i + 1);
    let c = sextet_at(table, s, i + 2);
    match (b, c) {
        (0..64, 64..) if 1 <= room && b % 16 == 0 => {
            put_one(out, o, a, b);
            Run {
                next: i + 2,
                end: o + 1,
                complete: true,
            }
        }
        (0..64, 0..64) if 2 <= room && 63 < sextet_at(table, s, i + 3) && c % 4 == 0 => {
            put_two(out, o, a, b, c);
            Run {
                next: i + 3,
                end: o + 2,
                complete: true,
            }
        }
        _ => Run {
            next: i,
            end: o,
            complete: false,
        },
    }
}

// The run at a place, decoded as far as it goes into `out` from a place on: all of it, where it is a canonical text and its bytes fit; else whole
// groups, as many as fit. For a reader that doesn't know yet where a text ends, and decodes where nobody looks: it refuses nothing, so what it has
// decoded stays. Free answer: a place past the string's end has no run; past the buffer's end nothing fits, not even no bytes.
pub fn decode_run(s: &[u8], at: usize, out: &mut [u8], from: usize) -> Run
    ensures { RunGives s.now at out.old from out.new result }
{
    if out.len() < from {
        return Run {
            next: at,
            end: from,
            complete: false,
        };
    }
    if s.len() < at {
        return Run {
            next: at,
            end: from,
            complete: true,
        };
    }
    let table = SextetTable::new();
    let g = decode_groups(table, s, at, out, from);
    decode_rest(table, s, g.0, out, g.1)
}

// The groups of a canonical text, from the start of a buffer that has room for its bytes; two a turn, since one a turn takes 7 % more instructions.
fn decode_pairs(table: SextetTable<'_>, text: &[u8], out: &mut [u8])
    requires text_value { canonical text.now ≡ true }
    requires text_in_bounds { length (decode text.now) ≤ length out.old }
    ensures { Reached text.now 0 out.old 0 out.new (length text.now / 4 * 4) (length text.now / 4 * 3) }
{
    let (groups, _) = text.as_chunks::<4>();
    let (pairs, rest) = groups.as_chunks::<2>();
    for (k, [first, second]) in pairs.iter().enumerate() {
        put_group(table, first, out, k * 6);
        put_group(table, second, out, k * 6 + 3);
    }
    if let [group, ..] = rest {
        put_group(table, group, out, pairs.len() * 6);
    }
}

// A canonical text, from the start of a buffer that has room for its bytes: its groups and the rest.
fn decode_all(table: SextetTable<'_>, text: &[u8], out: &mut [u8])
    requires text_value { canonical text.now ≡ true }
    requires text_in_bounds { length (decode text.now) ≤ length out.old }
    ensures { out.new ≡ decode text.now ++ drop (length (decode text.now)) out.old }
{
    decode_pairs(table, text, out);
    let count = text.len() / 4;
    decode_rest(table, text, count * 4, out, count * 3);
}

// The bytes of a text into `buf` from `at` on. 12: the text is not canonical; then 17: they don't fit.
pub fn decode(text: &[u8], buf: &mut [u8], at: usize) -> Result<Bytes, Refusal>
    ensures { bytes_answered result buf.new ≡ decoding text.now buf.old at }
{
    let table = SextetTable::new();
    if !is_canonical_by(table, text) {
        return Err(Refusal::WrongBytes);
    }
    let count = decoded_len(Chars(text.len()));
    if !has_room(buf.len(), at, count.0) {
        return Err(Refusal::NoRoom);
    }
    decode_all(table, text, &mut buf[at..]);
    Ok(count)
}
