// The columns of a row, parted by tabs, and the number fields that the first five hold: id, version, m, t and p.
ghost use Rattle.std.specs.Prelude.{◌≤◌, ◌≡◌};
ghost use Rattle.rows.specs.Columns.{column_at, decimal_up_to, version_in, number_fields_in};

use decimal::reader::read_within;
use profile::fields::NumberFields;
use table::version::Version;
use text::scan::{nth_part, same_text};

// The column at an index from 0. Free answer: empty past the last.
pub fn column(line: &[u8], index: usize) -> &[u8]
    ensures { result.now ≡ column_at line.now index }
{
    nth_part(line, b'\t', index)
}

// A decimal of at most `high`. Free answer: 0 for any other text.
#[tactic(auto, using(crate::proofs::ColumnLaws::value_or, crate::proofs::ColumnLaws::decimal_bound))]
pub fn decimal(text: &[u8], high: u64) -> u64
    ensures { (result ≡ decimal_up_to high text.now) × (result ≤ high) }
{
    read_within(text, 0, high).unwrap_or(0)
}

// The id, 0 where the column holds no number of 8 bits.
pub fn id(line: &[u8]) -> u8
    ensures { result ≡ decimal_up_to 255 (column_at line.now 0) }
{
    decimal(column(line, 0), 255) as u8
}

// A number of 32 bits, 0 for any other text.
fn number(text: &[u8]) -> u32
    ensures { result ≡ decimal_up_to 4294967295 text.now }
{
    decimal(text, 4294967295) as u32
}

// `absent`, or a number.
fn version(text: &[u8]) -> Version
    ensures { result ≡ version_in text.now }
{
    if same_text(text, b"absent") {
        Version::Absent
    } else {
        Version::Number(number(text))
    }
}

// The five of them, as a writer takes them.
pub fn number_fields(line: &[u8]) -> NumberFields
    ensures { result ≡ number_fields_in line.now }
{
    NumberFields {
        id: id(line),
        version: version(column(line, 1)),
        m: number(column(line, 2)),
        t: number(column(line, 3)),
        p: number(column(line, 4)),
    }
}
