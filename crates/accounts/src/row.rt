// A row of the listing: the line's number, its answer and its kind, parted by tabs, with a line feed.
ghost use Rattle.std.specs.Prelude.{◌≤◌, ◌≡◌, length};
ghost use Rattle.text.specs.Place.{chars_answered, put, Wrote};
ghost use Rattle.accounts.specs.Listing.{header, kind_line, row_text};

use crate::line::Answer;
use decimal::writer::{unsigned_len, write_unsigned};
use refusals::Refusal;
use text::place::{has_room, write_text};
use text::units::Chars;

// The first line of the listing, into `buf` from `at` on. 17: it doesn't fit.
pub fn write_header(buf: &mut [u8], at: usize) -> Result<Chars, Refusal>
    ensures { chars_answered result buf.new ≡ put buf.old at header }
{
    write_text(b"line\tanswer\tkind\n", buf, at)
}

// The kind's name and a line feed.
fn kind_line(kind: u8) -> &'static [u8]
    ensures { result.now ≡ kind_line kind }
{
    match kind {
        1 => b"parameters\n",
        2 => b"salt\n",
        3 => b"hash\n",
        _ => b"-\n",
    }
}

fn row_len(line: u64, answer: Answer) -> Chars
    ensures { result.0 ≡ length (row_text line answer) }
{
    unsigned_len(line)
        .plus(unsigned_len(u64::from(answer.number)))
        .plus(Chars(2))
        .plus(Chars(kind_line(answer.kind).len()))
}

// Puts the row at the start of a buffer that has room for it.
fn put_row(line: u64, answer: Answer, out: &mut [u8]) -> Chars
    requires { length (row_text line answer) ≤ length out.old }
    ensures { Wrote (row_text line answer) out.old out.new result.0 }
{
    let mut count = write_unsigned(line, out, 0).unwrap();
    count = count.plus(write_text(b"\t", out, count.0).unwrap());
    count = count.plus(write_unsigned(u64::from(answer.number), out, count.0).unwrap());
    count = count.plus(write_text(b"\t", out, count.0).unwrap());
    count.plus(write_text(kind_line(answer.kind), out, count.0).unwrap())
}

// A row of the listing, into `buf` from `at` on. 17: it doesn't fit. Free answer: a kind past 3 is shown as `-`.
pub fn write_row(line: u64, answer: Answer, buf: &mut [u8], at: usize) -> Result<Chars, Refusal>
    ensures { chars_answered result buf.new ≡ put buf.old at (row_text line answer) }
{
    let count = row_len(line, answer);
    if !has_room(buf.len(), at, count.0) {
        return Err(Refusal::NoRoom);
    }
    put_row(line, answer, &mut buf[at..]);
    Ok(count)
}
