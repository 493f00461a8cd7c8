// Known answers of the profile reader: a string on each line of standard input, and on standard output all that the entries give for it,
// parted by tabs; last the string that the writer gives for what was read. The stored output was worked out from document 01 apart from this
// code.
#![tactic(auto)]

use profile::fields::{ByteString, NumberFields};
use profile::reader::{algorithm_version, byte_string, read};
use profile::writer::write;
use readers::filled::{Filled, INPUT};
use readers::lines::Lines;
use readers::show::{show, show_number};
use refusals::Refusal;
use rows::buffer::front;
use rows::show::{show_hex, show_reading, show_text};
use std::io::Write;
use text::units::{Bytes, Chars};

// Room for the longest byte string, an output of 64 bytes.
const LONGEST_PERMITTED: usize = 64;

// The bytes of a byte string, decoded to the start of a buffer; none where it is absent or the string is refused.
fn bytes_in<'a>(s: &[u8], choice: ByteString, buf: &'a mut [u8]) -> &'a [u8] {
    let count = byte_string(s, choice, buf, 0).unwrap_or(Bytes(0));
    front(buf, count)
}

fn show_bytes<W: Write>(out: &mut W, s: &[u8], choice: ByteString) {
    let mut buf = [0u8; LONGEST_PERMITTED];
    show_hex(out, bytes_in(s, choice, &mut buf));
}

// The fields of an accepted string, written back to the start of a buffer: the number fields as they were read, the byte strings decoded here.
fn write_back(s: &[u8], fields: NumberFields, buf: &mut [u8]) -> Result<Chars, Refusal> {
    let mut keyid = [0u8; LONGEST_PERMITTED];
    let mut data = [0u8; LONGEST_PERMITTED];
    let mut salt = [0u8; LONGEST_PERMITTED];
    let mut output = [0u8; LONGEST_PERMITTED];
    write(
        fields,
        bytes_in(s, ByteString::Keyid, &mut keyid),
        bytes_in(s, ByteString::Data, &mut data),
        bytes_in(s, ByteString::Salt, &mut salt),
        bytes_in(s, ByteString::Output, &mut output),
        buf,
        0,
    )
}

fn show_written<W: Write>(out: &mut W, s: &[u8], fields: NumberFields) {
    let mut buf = [0u8; 300];
    let count = write_back(s, fields, &mut buf).unwrap_or(Chars(0));
    show_text(out, &buf, 0, count);
}

fn row<W: Write>(out: &mut W, s: &[u8]) {
    let answer = read(s);
    show(out, s);
    show_reading(out, answer);
    for choice in [
        ByteString::Keyid,
        ByteString::Data,
        ByteString::Salt,
        ByteString::Output,
    ] {
        show_bytes(out, s, choice);
    }
    show_number(out, algorithm_version(s).unwrap_or(0));
    match answer {
        Ok(record) => show_written(out, s, record.fields),
        Err(_) => show(out, b"\t"),
    }
    show(out, b"\n");
}

fn main(rt: HostRuntime) {
    let mut out = rt.stdout();
    let mut input = Filled::<INPUT>::new();
    input.fill(&mut rt.stdin());
    show(
        &mut out,
        b"string\tnumber\tkind\tid\tversion\tm\tt\tp\tkeyid\tdata\tsalt\toutput\talgorithm\twritten\n",
    );
    for line in Lines(input.bytes()) {
        row(&mut out, line);
    }
    input.warn_if_full(&mut out);
}
