// Known answers of the directory spelling, in and out. A line of standard input that holds a tab is a row for the writer: id, version
// (`absent` or a decimal), m, t, p, then keyid, data, salt and output in hex. Any other line is a text for the reader, and the empty line is
// the empty text; no accepted text holds a tab. Standard output has each row with what the entries give for it, under one header for texts
// and one for fields. A text's last column is the number for its output where the room is one byte too little. The stored output was worked
// out from documents 01 and 02 apart from this code.
#![tactic(auto)]

use directory::reader::{byte_string, read};
use directory::writer::write;
use profile::fields::ByteString;
use readers::filled::{Filled, INPUT};
use readers::lines::Lines;
use readers::show::{show, show_number};
use refusals::number_of;
use rows::buffer::{PLACE, front};
use rows::fields::write_fields;
use rows::show::{show_hex, show_reading, show_text};
use std::io::Write;
use text::units::{Bytes, Chars};

// Room for the longest byte string, an output of 64 bytes, from PLACE on.
const ROOM: usize = 81;

// The bytes of a byte string; none where it is absent or the text is refused. One that was put elsewhere shows as `2e`.
fn show_bytes<W: Write>(out: &mut W, t: &[u8], choice: ByteString) {
    let mut buf = [b'.'; ROOM];
    let count = byte_string(t, choice, &mut buf, PLACE).unwrap_or(Bytes(0));
    show_hex(out, front(&buf[PLACE..], count));
}

// The place from which a buffer lacks room for the last of so many bytes; its end where there are none.
fn one_too_far(count: Bytes) -> usize {
    match count.0 {
        n @ 1..=ROOM => ROOM - n + 1,
        _ => ROOM,
    }
}

// 17 for an accepted text with an output.
fn number_without_room(t: &[u8]) -> u8 {
    let mut buf = [b'.'; ROOM];
    let count = byte_string(t, ByteString::Output, &mut buf, PLACE).unwrap_or(Bytes(0));
    number_of(&byte_string(t, ByteString::Output, &mut buf, one_too_far(count)))
}

fn read_row<W: Write>(out: &mut W, t: &[u8]) {
    show(out, t);
    show_reading(out, read(t));
    for choice in [
        ByteString::Keyid,
        ByteString::Data,
        ByteString::Salt,
        ByteString::Output,
    ] {
        show_bytes(out, t, choice);
    }
    show_number(out, number_without_room(t));
}

fn write_row<W: Write>(out: &mut W, line: &[u8]) {
    let mut buf = [b'.'; 300];
    let answer = write_fields(line, &mut buf, write);
    show(out, line);
    show_number(out, number_of(&answer));
    show_text(out, &buf, PLACE, answer.unwrap_or(Chars(0)));
}

fn row<W: Write>(out: &mut W, line: &[u8]) {
    if line.contains(&b'\t') {
        write_row(out, line);
    } else {
        read_row(out, line);
    }
    show(out, b"\n");
}

fn main(rt: HostRuntime) {
    let mut out = rt.stdout();
    let mut input = Filled::<INPUT>::new();
    input.fill(&mut rt.stdin());
    show(
        &mut out,
        b"text\tnumber\tkind\tid\tversion\tm\tt\tp\tkeyid\tdata\tsalt\toutput\tno_room\n",
    );
    show(
        &mut out,
        b"id\tversion\tm\tt\tp\tkeyid\tdata\tsalt\toutput\tnumber\ttext\n",
    );
    for line in Lines(input.bytes()) {
        row(&mut out, line);
    }
    input.warn_if_full(&mut out);
}
