// One number parameter: its rule over the span of its value, and its text.
ghost use Rattle.std.specs.Prelude.{ℕ, ◌≤◌, ◌≡◌, List, length};
ghost use Rattle.std.proofs.Math.Option.{some};
ghost use Rattle.text.specs.Place.{Wrote};
ghost use Rattle.table.specs.Limits.{longest_permitted, missing_or_unknown_number};
ghost use Rattle.profile.specs.Fields.{read_number, written_out, write_number};
ghost use Rattle.profile.specs.Reader.{number_row};
ghost use Rattle.profile.specs.ReaderSteps.{span_text, Answers};
ghost use Rattle.profile.specs.PieceTexts.{tagged, tagged_length};

use crate::tagged::{decimal_len, put_decimal};
use decimal::reader::read_within;
use grammar::places::{Span, part};
use refusals::Refusal;
use table::limits::NumberRule;
use table::omitted::{default_of, is_omitted};
use table::ranges::{highest_of, lowest_of};
use text::units::Chars;

// Missing where it is required, or there where it is no parameter. The text doesn't matter.
pub fn missing_or_unknown(rule: NumberRule, span: Span) -> bool
    ensures { (t : List ℕ) → result ≡ missing_or_unknown_number rule (span_text t span) }
{
    match rule {
        NumberRule::Required { .. } => span.at == 0,
        NumberRule::Defaulted { .. } => false,
        NumberRule::Constant { .. } => span.at != 0,
    }
}

// The text of a value, read by its rule.
fn written(rule: NumberRule, text: &[u8]) -> Result<u32, Refusal>
    ensures { Answers (number_row rule (some text.now)) (read_number rule (some text.now)) result }
{
    let n = read_within(
        text,
        u64::from(lowest_of(rule)),
        u64::from(highest_of(rule)),
    )?;
    Ok(n as u32)
}

// A number parameter: as written or, where it is left out, what its rule gives.
pub fn read_number(rule: NumberRule, t: &[u8], span: Span) -> Result<u32, Refusal>
    ensures { Answers (number_row rule (span_text t.now span)) (read_number rule (span_text t.now span)) result }
{
    if span.at == 0 {
        Ok(default_of(rule))
    } else {
        written(rule, part(t, span))
    }
}

// Written out, though it is to be left out.
pub fn written_out(rule: NumberRule, span: Span, value: u32) -> bool
    ensures { (t : List ℕ) → value ≡ read_number rule (span_text t span) → result ≡ written_out rule (span_text t span) }
{
    span.at != 0 && is_omitted(rule, value)
}

// The length of a number after a tag of so many characters; nothing where it is left out.
pub fn number_len(tag: Chars, rule: NumberRule, n: u32) -> Chars
    requires { tag.0 ≤ longest_permitted }
    ensures { result.0 ≡ tagged_length tag.0 (write_number rule n) }
{
    if is_omitted(rule, n) {
        return Chars(0);
    }
    decimal_len(tag, n)
}

// Puts a number after its tag at the start of a buffer; nothing where it is left out.
pub fn put_number(tag: &[u8], rule: NumberRule, n: u32, out: &mut [u8]) -> Chars
    requires { length (tagged tag.now (write_number rule n)) ≤ length out.old }
    ensures { Wrote (tagged tag.now (write_number rule n)) out.old out.new result.0 }
{
    if is_omitted(rule, n) {
        return Chars(0);
    }
    put_decimal(tag, n, out)
}
