// The listing of account text that comes in parts of any length, in constant memory: a row for each line, as soon as the line is complete.
ghost use Rattle.std.specs.Prelude.{ℕ, ◌+◌, ◌-◌, ◌≤◌, ◌≡◌, List, ◌++◌, length, take, drop};
ghost use Rattle.text.specs.Place.{chars_answered, over};
ghost use Rattle.accounts.specs.Lines.{line_answer, judge_answer};
ghost use Rattle.accounts.specs.Listing.{row_text, next_line};
ghost use Rattle.accounts.specs.Feeding.{most_kept, fed, row_fed, next_fed, end_put};
ghost use Rattle.accounts.specs.FeedingSteps.{Held};

use crate::limits::{LONGEST_LINE, MOST_KEPT};
use crate::line::{Answer, judge};
use crate::row::write_row;
use profile::fields::Kind;
use refusals::Refusal;
use text::place::write_text;
use text::scan::next_at;
use text::units::Chars;

// What a call gives that finds room.
#[derive(Clone, Copy)]
pub enum Listed {
    // A row was written: the place after its line in the part, the row's length, and the number of the next line. Go on with no byte kept.
    Row {
        place: usize,
        count: Chars,
        line: u64,
    },
    // The part is used up: so many bytes of the unfinished line are kept. Go on with the next part.
    UsedUp {
        kept: usize,
    },
}

// How many bytes of the array the state stands for.
fn held_len(array: &[u8], kept: usize) -> usize
    ensures { Held array.now kept result }
{
    next_at(&array[..kept.min(array.len())], 0, b'\n')
}

// The number of the next line; past the largest u64 it stays.
fn next_line(line: u64) -> u64
    ensures { result ≡ next_line line }
{
    line.saturating_add(1)
}

// Judges the line of two parts, which fit the buffer one after the other.
fn judge_copied(begun: &[u8], more: &[u8], out: &mut [u8]) -> Result<Kind, Refusal>
    requires { length begun.now + length more.now ≤ length out.old }
    ensures { judge_answer result ≡ line_answer (begun.now ++ more.now) }
{
    let len = begun.len() + more.len();
    out[..begun.len()].copy_from_slice(begun);
    out[begun.len()..len].copy_from_slice(more);
    judge(&out[..len])
}

// Judges the line of two parts: the bytes that were kept, and those up to its line feed.
fn judge_joined(begun: &[u8], more: &[u8]) -> Result<Kind, Refusal>
    ensures { judge_answer result ≡ line_answer (begun.now ++ more.now) }
{
    if begun.is_empty() {
        return judge(more);
    }
    if LONGEST_LINE < begun.len().saturating_add(more.len()) {
        return Err(Refusal::LineTooLong);
    }
    let mut scratch = [0u8; LONGEST_LINE];
    judge_copied(begun, more, &mut scratch)
}

// Keeps as many bytes more, after the first `held`, as there is room for.
fn keep(array: &mut [u8], held: usize, more: &[u8]) -> usize
    requires { (length array.old ≡ most_kept) × (held ≤ most_kept) }
    ensures { (result ≡ held + length (take (most_kept - held) more.now)) × (array.new ≡ over array.old held (take (most_kept - held) more.now)) }
{
    let count = more.len().min(MOST_KEPT - held);
    array[held..held + count].copy_from_slice(&more[..count]);
    held + count
}

// The row of a judged line.
fn row_of(
    line: u64,
    answer: Answer,
    place: usize,
    buf: &mut [u8],
    at: usize,
) -> Result<Listed, Refusal>
    ensures { (d : List ℕ) → fed result d buf.new ≡ row_fed line (row_text line answer) place d buf.old at }
{
    let count = write_row(line, answer, buf, at)?;
    Ok(Listed::Row {
        place,
        count,
        line: next_line(line),
    })
}

// The next row from a part of the input, from a place in it, into `buf` from `at` on. Begin with no byte kept and line 1. 17: the place lies past
// the buffer's end, or the row doesn't fit; nothing is consumed or written.
pub fn next(
    array: &mut [u8; MOST_KEPT],
    kept: usize,
    line: u64,
    part: &[u8],
    from: usize,
    buf: &mut [u8],
    at: usize,
) -> Result<Listed, Refusal>
    ensures { fed result array.new buf.new ≡ next_fed array.old kept line part.now from buf.old at }
{
    let held = held_len(array, kept);
    let end = next_at(part, from, b'\n');
    if end < part.len() {
        let answer = judge_joined(&array[..held], &part[from..end]);
        return row_of(line, Answer::from(answer), end + 1, buf, at);
    }
    if buf.len() < at {
        return Err(Refusal::NoRoom);
    }
    Ok(Listed::UsedUp {
        kept: keep(array, held, part.get(from..).unwrap_or(&[])),
    })
}

// The row of the last line at the end of the input, where it has any byte. 17: it doesn't fit.
pub fn end(
    array: &[u8; MOST_KEPT],
    kept: usize,
    line: u64,
    buf: &mut [u8],
    at: usize,
) -> Result<Chars, Refusal>
    ensures { chars_answered result buf.new ≡ end_put array.now kept line buf.old at }
{
    let held = held_len(array, kept);
    if held == 0 {
        return write_text(b"", buf, at);
    }
    write_row(line, Answer::from(judge(&array[..held])), buf, at)
}
