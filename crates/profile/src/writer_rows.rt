// The writer's rows 8 to 16 over the fields.
ghost use Rattle.std.specs.Prelude.{◌≡◌};
ghost use Rattle.text.specs.Rows.{first_number};
ghost use Rattle.refusals.specs.Numbers.{number};
ghost use Rattle.table.specs.Columns.{profile_in};
ghost use Rattle.profile.specs.Writer.{range_rows, bytes_rows, column_rows};
ghost use Rattle.profile.specs.WriterSteps.{fields_with};

use crate::byte_strings::ByteStrings;
use crate::bytes_field::bytes_allowed;
use crate::fields::NumberFields;
use refusals::Refusal;
use table::bounds::{in_range, memory_too_little, version_allowed};
use table::limits::Column;

// Row 11: each number in its range, then m < 8p.
fn numbers_permitted(column: Column, n: NumberFields) -> Result<(), Refusal>
    ensures { number result ≡ first_number (range_rows (profile_in column) n) }
{
    if !in_range(column.m, n.m)
        || !in_range(column.t, n.t)
        || !in_range(column.p, n.p)
        || memory_too_little(n.m, n.p)
    {
        return Err(Refusal::WrongNumber);
    }
    Ok(())
}

// Rows 12 to 16: keyid, data, salt, output, then no output without a salt.
fn byte_strings_permitted(column: Column, strings: ByteStrings) -> Result<(), Refusal>
    ensures { number result ≡ first_number (bytes_rows (profile_in column) strings.entry.keyid.now strings.entry.«data».now strings.entry.salt.now strings.entry.output.now) }
{
    if !bytes_allowed(column.keyid, strings.keyid) || !bytes_allowed(column.data, strings.data) {
        return Err(Refusal::WrongBytes);
    }
    if !bytes_allowed(column.salt, strings.salt) {
        return Err(Refusal::WrongSalt);
    }
    if !bytes_allowed(column.output, strings.output) {
        return Err(Refusal::WrongOutput);
    }
    if strings.salt.is_empty() && !strings.output.is_empty() {
        return Err(Refusal::OutputWithoutSalt);
    }
    Ok(())
}

// Rows 8 to 16: the first that applies.
pub fn permitted(column: Column, n: NumberFields, strings: ByteStrings) -> Result<(), Refusal>
    ensures { number result ≡ first_number (column_rows (profile_in column) (fields_with n strings.entry)) }
{
    if !column.known {
        return Err(Refusal::UnknownId);
    }
    if !version_allowed(column.versions, n.version) {
        return Err(Refusal::VersionNotPermitted);
    }
    numbers_permitted(column, n)?;
    byte_strings_permitted(column, strings)
}
