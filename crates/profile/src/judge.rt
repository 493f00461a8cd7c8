// Rows 8 to 15, over the id's column, the version, the values of the names, the salt and the output.
ghost use Rattle.std.specs.Prelude.{ℕ, ◌≡◌, List};
ghost use Rattle.text.specs.Rows.{first_number};
ghost use Rattle.refusals.specs.Numbers.{number};
ghost use Rattle.table.specs.Columns.{profile_in};
ghost use Rattle.profile.specs.Reader.{missing_or_unknown, number_rows, bytes_and_default_rows, rows_for};
ghost use Rattle.profile.specs.ReaderSteps.{span_text, span_texts, Answers, costs_read};

use crate::bytes_field::{bad_bytes, bad_size, unknown_bytes};
use crate::number_field::{missing_or_unknown, read_number, written_out};
use crate::values::Values;
use grammar::places::Span;
use refusals::Refusal;
use table::bounds::{memory_too_little, version_allowed};
use table::limits::Column;
use table::version::Version;

// The numbers read.
#[derive(Clone, Copy)]
pub struct Costs {
    pub m: u32,
    pub t: u32,
    pub p: u32,
}

// Names missing or unknown to the profile.
fn missing_or_unknown_names(column: Column, values: Values) -> bool
    ensures { (t : List ℕ) → result ≡ missing_or_unknown (profile_in column) (span_texts t values) }
{
    missing_or_unknown(column.m, values.m)
        || missing_or_unknown(column.t, values.t)
        || missing_or_unknown(column.p, values.p)
        || unknown_bytes(column.keyid, values.keyid)
        || unknown_bytes(column.data, values.data)
}

// m, t and p, then m < 8p: row 11.
fn read_numbers(column: Column, params: &[u8], values: Values) -> Result<Costs, Refusal>
    ensures { Answers (number_rows (profile_in column) (span_texts params.now values)) (costs_read (profile_in column) (span_texts params.now values)) result }
{
    let m = read_number(column.m, params, values.m)?;
    let t = read_number(column.t, params, values.t)?;
    let p = read_number(column.p, params, values.p)?;
    if memory_too_little(m, p) {
        return Err(Refusal::WrongNumber);
    }
    Ok(Costs { m, t, p })
}

// Rows 12 and 13.
fn bytes_and_defaults(
    column: Column,
    params: &[u8],
    values: Values,
    costs: Costs,
) -> Result<(), Refusal>
    requires { costs ≡ costs_read (profile_in column) (span_texts params.now values) }
    ensures { number result ≡ first_number (bytes_and_default_rows (profile_in column) (span_texts params.now values)) }
{
    if bad_bytes(column.keyid, params, values.keyid)
        || bad_bytes(column.data, params, values.data)
    {
        return Err(Refusal::WrongBytes);
    }
    if written_out(column.m, values.m, costs.m)
        || written_out(column.t, values.t, costs.t)
        || written_out(column.p, values.p, costs.p)
    {
        return Err(Refusal::WrittenOut);
    }
    Ok(())
}

// Rows 8 to 15: the first that applies.
pub fn judge(
    column: Column,
    version: Version,
    params: &[u8],
    values: Values,
    s: &[u8],
    salt: Span,
    output: Span,
) -> Result<Costs, Refusal>
    ensures { Answers (rows_for (profile_in column) version (span_texts params.now values) values.unmatched (span_text s.now salt) (span_text s.now output)) (costs_read (profile_in column) (span_texts params.now values)) result }
{
    if !column.known {
        return Err(Refusal::UnknownId);
    }
    if !version_allowed(column.versions, version) {
        return Err(Refusal::VersionNotPermitted);
    }
    if values.unmatched || missing_or_unknown_names(column, values) {
        return Err(Refusal::WrongNames);
    }
    let costs = read_numbers(column, params, values)?;
    bytes_and_defaults(column, params, values, costs)?;
    if bad_bytes(column.salt, s, salt) {
        return Err(Refusal::WrongSalt);
    }
    if bad_size(column.output, s, output) {
        return Err(Refusal::WrongOutput);
    }
    Ok(costs)
}
