// Known answers of the writer: the fields of a string on each line of standard input, parted by tabs, and on standard output the same with
// the number and the string that the writer gives for them. The stored output was worked out from document 01 apart from this code.
// Columns: id, version (`absent`, a decimal, or `short` for the short writer), m, t, p, then keyid, data, salt and output in hex.
#![tactic(auto)]

use profile::writer::{write, write_short};
use readers::filled::{Filled, INPUT};
use readers::lines::Lines;
use readers::show::{show, show_number};
use refusals::{Refusal, number_of};
use rows::buffer::PLACE;
use rows::columns::{column, id};
use rows::fields::write_fields;
use rows::hex::hex_column;
use rows::show::show_text;
use std::io::Write;
use text::scan::same_text;
use text::units::Chars;

// The short writer, on id, salt and output.
fn write_short_defaults(line: &[u8], buf: &mut [u8]) -> Result<Chars, Refusal> {
    let salt = hex_column(line, 7);
    let output = hex_column(line, 8);
    write_short(id(line), salt.bytes(), output.bytes(), buf, PLACE)
}

fn write_line(line: &[u8], buf: &mut [u8]) -> Result<Chars, Refusal> {
    if same_text(column(line, 1), b"short") {
        write_short_defaults(line, buf)
    } else {
        write_fields(line, buf, write)
    }
}

// The line, the number and the string; no string where it is refused.
fn row<W: Write>(out: &mut W, line: &[u8]) {
    let mut buf = [0u8; 300];
    let answer = write_line(line, &mut buf);
    show(out, line);
    show_number(out, number_of(&answer));
    show_text(out, &buf, PLACE, answer.unwrap_or(Chars(0)));
    show(out, b"\n");
}

fn main(rt: HostRuntime) {
    let mut out = rt.stdout();
    let mut input = Filled::<INPUT>::new();
    input.fill(&mut rt.stdin());
    show(
        &mut out,
        b"id\tversion\tm\tt\tp\tkeyid\tdata\tsalt\toutput\tnumber\tstring\n",
    );
    for line in Lines(input.bytes()) {
        row(&mut out, line);
    }
    input.warn_if_full(&mut out);
}
