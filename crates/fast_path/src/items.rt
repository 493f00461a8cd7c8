// One item of a string after its separator and its name, or left out: a number, a byte string.
ghost use Rattle.std.specs.Prelude.{ℕ, ◌+◌, ◌≤◌, List, length, drop};
ghost use Rattle.text.specs.Text.{and_then};
ghost use Rattle.fast_path.specs.Walk.{leading_number, written_number, omitted_number, number_in, written_bytes, bytes_in};
ghost use Rattle.fast_path.specs.WalkSteps.{NumberIs, most, BytesAre};

use crate::begin::begins;
use crate::leading_number::number;
use b64::decoder::decode_run;
use table::bounds::{in_range, is_size};
use table::limits::{BytesRule, NumberRule};
use table::omitted::{default_of, is_omitted, is_required};
use text::units::Bytes;

// A number, the place after its item, and the separator before the next.
#[derive(Clone, Copy)]
pub struct NumberItem {
    pub value: u32,
    pub next: usize,
    pub separator: u8,
}

// The place after a byte string's item, the place after its bytes, and the separator before the next item.
#[derive(Clone, Copy)]
pub struct BytesItem {
    pub next: usize,
    pub end: usize,
    pub separator: u8,
}

// A number whose separator and name were read.
fn written_number(rule: NumberRule, s: &[u8], at: usize) -> Option<NumberItem>
    ensures { NumberIs (and_then (leading_number (drop at s.now)) (written_number rule)) s.now result }
{
    let n = number(s, at)?;
    if !in_range(rule, n.value) || is_omitted(rule, n.value) {
        return None;
    }
    Some(NumberItem {
        value: n.value,
        next: n.next,
        separator: b',',
    })
}

// A number that doesn't stand in the string.
fn omitted_number(rule: NumberRule, at: usize, separator: u8) -> Option<NumberItem>
    ensures { (s : List ℕ) → at ≤ length s → NumberIs (omitted_number rule separator (drop at s)) s result }
{
    if is_required(rule) {
        return None;
    }
    Some(NumberItem {
        value: default_of(rule),
        next: at,
        separator,
    })
}

// A number after its separator and its name, or left out.
#[inline(always)]
pub fn number_item(
    rule: NumberRule,
    name: &[u8],
    s: &[u8],
    at: usize,
    separator: u8,
) -> Option<NumberItem>
    requires { at ≤ length s.now }
    ensures { NumberIs (number_in rule name.now separator (drop at s.now)) s.now result }
{
    if begins(s, at, separator, name) {
        return written_number(rule, s, at + 1 + name.len());
    }
    omitted_number(rule, at, separator)
}

// A byte string whose separator and name were read: at least one byte, and as many as permitted.
fn written_bytes(
    rule: BytesRule,
    s: &[u8],
    at: usize,
    out: &mut [u8],
    from: usize,
) -> Option<BytesItem>
    requires { (at ≤ length s.now) × (from + most rule ≤ length out.old) }
    ensures { BytesAre (written_bytes rule (drop at s.now)) (most rule) s.now out.old from out.new result }
{
    let run = decode_run(s, at, out, from);
    if !run.complete {
        return None;
    }
    let n = run.end - from;
    if n == 0 || !is_size(rule, Bytes(n)) {
        return None;
    }
    Some(BytesItem {
        next: run.next,
        end: run.end,
        separator: b',',
    })
}

// A byte string after its separator and its name, or none.
#[inline(always)]
pub fn bytes_item(
    rule: BytesRule,
    name: &[u8],
    s: &[u8],
    at: usize,
    separator: u8,
    out: &mut [u8],
    from: usize,
) -> Option<BytesItem>
    requires { (at ≤ length s.now) × (from + most rule ≤ length out.old) }
    ensures { BytesAre (bytes_in rule name.now separator (drop at s.now)) (most rule) s.now out.old from out.new result }
{
    if begins(s, at, separator, name) {
        return written_bytes(rule, s, at + 1 + name.len(), out, from);
    }
    Some(BytesItem {
        next: at,
        end: from,
        separator,
    })
}
