// Answers on standard output, each column after its tab.
use grammar::places::{Span, part};
use profile::fields::{NumberFields, Record};
use readers::show::{show, show_number};
use refusals::{Refusal, number_of};
use std::io::Write;
use table::version::Version;
use text::units::Chars;

fn show_version<W: Write>(out: &mut W, v: Version) {
    match v {
        Version::Absent => show(out, b"\tabsent"),
        Version::Number(n) => show_number(out, n),
    }
}

// What stands for the fields of a refused string.
const NO_FIELDS: NumberFields = NumberFields {
    id: 0,
    version: Version::Absent,
    m: 0,
    t: 0,
    p: 0,
};

// number, kind, id, version, m, t, p: any number and kind as they are
pub fn show_fields<W: Write>(out: &mut W, number: u8, kind: u8, fields: NumberFields) {
    for n in [number, kind, fields.id] {
        show_number(out, n);
    }
    show_version(out, fields.version);
    for n in [fields.m, fields.t, fields.p] {
        show_number(out, n);
    }
}

// Those of what a reader gives.
pub fn show_reading<W: Write>(out: &mut W, answer: Result<Record, Refusal>) {
    let (kind, fields) = match answer {
        Ok(record) => (record.kind.number(), record.fields),
        Err(_) => (0, NO_FIELDS),
    };
    show_fields(out, number_of(&answer), kind, fields);
}

// The bytes as hex digits.
pub fn show_hex<W: Write>(out: &mut W, bytes: &[u8]) {
    show(out, b"\t");
    for b in bytes {
        let _ = write!(out, "{b:02x}");
    }
}

// Numbers, parted by commas.
pub fn show_numbers<W: Write>(out: &mut W, numbers: &[u8]) {
    show(out, b"\t");
    for (i, n) in numbers.iter().enumerate() {
        if i > 0 {
            show(out, b",");
        }
        let _ = write!(out, "{n}");
    }
}

// The text at a place of a buffer; none where it doesn't lie inside.
pub fn show_text<W: Write>(out: &mut W, buf: &[u8], at: usize, len: Chars) {
    show(out, b"\t");
    show(out, part(buf, Span { at, len }));
}
