// A plain decoder of B64, character by character, with the contract of b64::decoder::decode: what the benchmark times that one beside.
ghost use Rattle.std.specs.Prelude.{◌≡◌, true, not, ◌&&◌, ◌++◌, ◌+◌, ◌%◌, ◌≤◌, ◌<◌, eqb, length, drop};
ghost use Rattle.text.specs.Place.{bytes_answered, over};
ghost use Rattle.b64.specs.B64.{sextet, Sextets, low_bits_modulus, canonical, decode, decoding};
ghost use Rattle.peers.specs.PlainSteps.{completed_byte, completed_bytes};

use b64::alphabet::SEXTETS;
use b64::lengths::decoded_len;
use refusals::Refusal;
use text::place::has_room;
use text::units::{Bytes, Chars};

fn sextet_of(table: &[u8; 256], c: u8) -> u8
    requires { Sextets table.now }
    ensures { result ≡ sextet c }
{
    table[usize::from(c)]
}

// Whether a text may end so: what its length leaves modulo 4, and its last sextet.
fn may_end(rest: usize, last: u8) -> bool
    ensures { result ≡ (not (eqb rest 1) && eqb (last % low_bits_modulus rest) 0) }
{
    match rest {
        1 => false,
        2 => last % 16 == 0,
        3 => last % 4 == 0,
        _ => true,
    }
}

// Whether a text is canonical, character by character.
fn is_canonical_by(table: &[u8; 256], text: &[u8]) -> bool
    requires { Sextets table.now }
    ensures { result ≡ canonical text.now }
{
    let mut last = 0;
    for c in text {
        last = sextet_of(table, *c);
        if 63 < last {
            return false;
        }
    }
    may_end(text.len() % 4, last)
}

// The byte that a character completes, from the sextet before it and its own; `place` is its place in its group, from 1 to 3.
fn completed(place: usize, prior: u8, own: u8) -> u8
    requires { (prior < 64) × (own < 64) }
    ensures { result ≡ completed_byte place prior own }
{
    match place {
        1 => prior * 4 + own / 16,
        2 => prior % 16 * 16 + own / 4,
        _ => prior % 4 * 64 + own,
    }
}

// Stores what a character completes at `o`, and gives the place after it. The first character of a group completes nothing.
fn store_next(place: usize, prior: u8, own: u8, out: &mut [u8], o: usize) -> usize
    requires prior_bound { (prior < 64) × (own < 64) }
    requires own_in_bounds { o + length (completed_bytes place prior own) ≤ length out.old }
    ensures { (result ≡ o + length (completed_bytes place prior own)) × (out.new ≡ over out.old o (completed_bytes place prior own)) }
{
    if place == 0 {
        return o;
    }
    out[o] = completed(place, prior, own);
    o + 1
}

// A canonical text, from the start of a buffer that has room for its bytes.
fn decode_all(table: &[u8; 256], text: &[u8], out: &mut [u8])
    requires text_value { canonical text.now ≡ true }
    requires text_in_bounds { length (decode text.now) ≤ length out.old }
    requires sextets { Sextets table.now }
    ensures { out.new ≡ decode text.now ++ drop (length (decode text.now)) out.old }
{
    let mut o = 0;
    let mut prior = 0;
    for (i, c) in text.iter().enumerate() {
        let own = sextet_of(table, *c);
        o = store_next(i % 4, prior, own, out, o);
        prior = own;
    }
}

// The bytes of a text into `buf` from `at` on. 12: the text is not canonical; then 17: they don't fit.
pub fn decode(text: &[u8], buf: &mut [u8], at: usize) -> Result<Bytes, Refusal>
    ensures { bytes_answered result buf.new ≡ decoding text.now buf.old at }
{
    let table = &SEXTETS;
    if !is_canonical_by(table, text) {
        return Err(Refusal::WrongBytes);
    }
    let count = decoded_len(Chars(text.len()));
    if !has_room(buf.len(), at, count.0) {
        return Err(Refusal::NoRoom);
    }
    decode_all(table, text, &mut buf[at..]);
    Ok(count)
}
