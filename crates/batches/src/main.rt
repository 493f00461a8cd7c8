// Known answers of batches of account lines. A line of standard input is a row: the text in hex, the place to begin at, the limit, and how many
// answers the lent slice holds. Standard output has each row with the number, the place to go on from, the count of lines judged and their
// numbers; and how many places of the slice keep what they held. The stored output was worked out from documents 01 and 02 apart from this code.
#![tactic(auto)]

use accounts::batch::{Batch, judge_batch};
use readers::filled::{Filled, INPUT};
use readers::lines::Lines;
use readers::show::{show, show_number};
use refusals::{Refusal, number_of};
use rows::buffer::front;
use rows::columns::{column, decimal};
use rows::hex::decode_hex;
use rows::show::show_numbers;
use std::io::Write;
use text::units::Bytes;

// No line has this number, so it shows where the slice was not written.
const UNWRITTEN: u8 = 255;

// What stands for a batch that is refused.
const NOT_JUDGED: Batch = Batch { place: 0, count: 0 };

// As many bytes as the hex digits of the largest input stand for, and so as many places as any text has lines.
fn array() -> [u8; 131072] {
    [UNWRITTEN; 131072]
}

fn number(line: &[u8], index: usize) -> usize {
    decimal(column(line, index), u64::MAX) as usize
}

// How many places hold what they held.
fn kept(slice: &[u8]) -> usize {
    // `filter` and `count` take a quarter more time, and `fold` half as much again.
    let mut count = 0usize;
    for b in slice {
        if *b == UNWRITTEN {
            count = count.saturating_add(1);
        }
    }
    count
}

fn show_batch<W: Write>(out: &mut W, answer: Result<Batch, Refusal>, slice: &[u8]) {
    let batch = answer.unwrap_or(NOT_JUDGED);
    show_number(out, number_of(&answer));
    show_number(out, batch.place);
    show_number(out, batch.count);
    show_numbers(out, front(slice, Bytes(batch.count)));
    show_number(out, kept(slice));
}

// The row's batch, into a slice with room for so many answers, or for as many as the array has.
fn row<W: Write>(out: &mut W, line: &[u8]) {
    let mut bytes = array();
    let mut answers = array();
    let count = decode_hex(column(line, 0), &mut bytes);
    let slots = number(line, 3).min(answers.len());
    let slice = &mut answers[..slots];
    let text = front(&bytes, count);
    let answer = judge_batch(text, number(line, 1), number(line, 2), slice);
    show(out, line);
    show_batch(out, answer, slice);
    show(out, b"\n");
}

fn main(rt: HostRuntime) {
    let mut out = rt.stdout();
    let mut input = Filled::<INPUT>::new();
    input.fill(&mut rt.stdin());
    show(
        &mut out,
        b"text in hex\tfrom\tlimit\tslots\tnumber\tplace\tcount\tanswers\tkept\n",
    );
    for line in Lines(input.bytes()) {
        row(&mut out, line);
    }
    input.warn_if_full(&mut out);
}
