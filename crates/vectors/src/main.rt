// Worked examples, one on each line of standard input, its columns parted by tabs: RFC 4648's test vectors without padding, decimals on either
// side of their rule, and strings of the grammar. A row is written back with what the entry gives for it. Buffers are filled with dots and
// lent from a place in their middle, so that the bytes around what is written show. The stored output comes from the documents.
// Columns: encode, decode or number, text, place; range, text, low, high; string or places, text.
#![tactic(auto)]

use decimal::error::DecimalError;
use decimal::reader::{read_decimal, read_within};
use grammar::parts::{item_name, item_value, piece};
use grammar::pieces::{Layout, read};
use grammar::places::{Piece, Span};
use readers::filled::{Filled, INPUT};
use readers::lines::Lines;
use readers::show::{show, show_number};
use refusals::{Refusal, number_of};
use std::io::Write;
use text::scan::nth_part;

// The column at an index from 0; empty past the last. `rows` has the same, above the profiles.
fn column(line: &[u8], index: usize) -> &[u8] {
    nth_part(line, b'\t', index)
}

// A column read as a decimal; 0 for any other text.
fn count(line: &[u8], index: usize) -> u64 {
    read_within(column(line, index), 0, u64::MAX).unwrap_or(0)
}

// number, count, the buffer
fn outcome<W: Write>(out: &mut W, answer: Result<usize, Refusal>, buf: &[u8]) {
    show_number(out, number_of(&answer));
    show_number(out, answer.unwrap_or(0));
    show(out, b"\t");
    show(out, buf);
}

fn encode<W: Write>(out: &mut W, line: &[u8]) {
    let mut buf = [b'.'; 12];
    let at = count(line, 2) as usize;
    let answer = b64::encoder::encode(column(line, 1), &mut buf, at);
    outcome(out, answer.map(|count| count.0), &buf);
}

fn decode<W: Write>(out: &mut W, line: &[u8]) {
    let mut buf = [b'.'; 10];
    let at = count(line, 2) as usize;
    let answer = b64::decoder::decode(column(line, 1), &mut buf, at);
    outcome(out, answer.map(|count| count.0), &buf);
}

// The number read is written again; 0 for any other text.
fn decimal<W: Write>(out: &mut W, line: &[u8]) {
    let answer = read_decimal(column(line, 1)).map_err(Refusal::from);
    let mut buf = [b'.'; 24];
    let at = count(line, 2) as usize;
    let written = decimal::writer::write_decimal(answer.unwrap_or(0), &mut buf, at);
    show_number(out, number_of(&answer));
    outcome(out, written.map(|count| count.0), &buf);
}

// M malformed, O outside, or the value.
fn range<W: Write>(out: &mut W, line: &[u8]) {
    match read_within(column(line, 1), count(line, 2), count(line, 3)) {
        Err(DecimalError::Malformed) => show(out, b"\tM"),
        Err(DecimalError::Outside) => show(out, b"\tO"),
        Ok(n) => show_number(out, n),
    }
}

fn item<W: Write>(out: &mut W, s: &[u8], index: usize) {
    show(out, item_name(s, index));
    show(out, b":");
    show(out, item_value(s, index));
}

// number, items, the five pieces, the items at 0 and 1
fn string<W: Write>(out: &mut W, s: &[u8]) {
    let answer = read(s);
    show_number(out, number_of(&answer));
    show_number(out, answer.map_or(0, |layout| layout.items));
    show(out, b"\t");
    show(out, piece(s, Piece::Id));
    for which in [Piece::Version, Piece::Params, Piece::Salt, Piece::Output] {
        show(out, b"|");
        show(out, piece(s, which));
    }
    show(out, b"\t");
    item(out, s, 0);
    show(out, b" ");
    item(out, s, 1);
}

// The place and the length of a piece.
fn span<W: Write>(out: &mut W, w: Span) {
    show_number(out, w.at);
    show_number(out, w.len.0);
}

fn places<W: Write>(out: &mut W, s: &[u8]) {
    let spans = match read(s) {
        Ok(Layout { places: p, .. }) => [p.id, p.version, p.params, p.salt, p.output],
        Err(_) => [Span::NONE; 5],
    };
    for w in spans {
        span(out, w);
    }
}

// The first letter of a row names its entry.
fn answer<W: Write>(out: &mut W, line: &[u8]) {
    match line.first() {
        Some(b'e') => encode(out, line),
        Some(b'd') => decode(out, line),
        Some(b'n') => decimal(out, line),
        Some(b'r') => range(out, line),
        Some(b's') => string(out, column(line, 1)),
        Some(b'p') => places(out, column(line, 1)),
        _ => show(out, b"\tno such entry"),
    }
}

fn row<W: Write>(out: &mut W, line: &[u8]) {
    show(out, line);
    answer(out, line);
    show(out, b"\n");
}

fn main(rt: HostRuntime) {
    let mut out = rt.stdout();
    let mut input = Filled::<INPUT>::new();
    input.fill(&mut rt.stdin());
    for line in Lines(input.bytes()) {
        row(&mut out, line);
    }
    input.warn_if_full(&mut out);
}
