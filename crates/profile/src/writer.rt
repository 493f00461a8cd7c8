// The writer: the one string of permitted fields, into a lent buffer from a place on; and the short writer, which takes its defaults.
ghost use Rattle.std.specs.Prelude.{◌≡◌, []};
ghost use Rattle.text.specs.Place.{chars_answered};
ghost use Rattle.table.specs.Limits.{edition_two};
ghost use Rattle.profile.specs.Fields.{field_set};
ghost use Rattle.profile.specs.Writer.{short_fields};
ghost use Rattle.profile.specs.Entries.{writing, short_writing};

use crate::byte_strings::ByteStrings;
use crate::fields::NumberFields;
use crate::writer_rows::permitted;
use crate::writer_text::{put_string, string_len};
use refusals::Refusal;
use table::columns::column_of;
use text::place::has_room;
use text::units::Chars;

// Writes the string of the fields into `buf` from `at` on; the count is its length. 8, 9, 11, 12, 14, 15, 16, then 17.
pub fn write(
    n: NumberFields,
    keyid: &[u8],
    data: &[u8],
    salt: &[u8],
    output: &[u8],
    buf: &mut [u8],
    at: usize,
) -> Result<Chars, Refusal>
    ensures { chars_answered result buf.new ≡ writing edition_two (field_set n keyid.now «data».now salt.now output.now) buf.old at }
{
    let strings = ByteStrings {
        keyid,
        data,
        salt,
        output,
    };
    let column = column_of(n.id);
    permitted(column, n, strings)?;
    let count = string_len(column, n, strings);
    if !has_room(buf.len(), at, count.0) {
        return Err(Refusal::NoRoom);
    }
    put_string(column, n, strings, &mut buf[at..]);
    Ok(count)
}

// The number fields that the short writer uses.
fn short_fields(id: u8) -> NumberFields
    ensures { result ≡ (short_fields edition_two id [] []).numbers }
{
    let defaults = column_of(id).defaults;
    NumberFields {
        id,
        version: defaults.version,
        m: defaults.m,
        t: defaults.t,
        p: defaults.p,
    }
}

// Writes the string of an id, a salt and an output, with the short writer's defaults and no keyid or data. 8, 14, 15, 16, then 17.
pub fn write_short(
    id: u8,
    salt: &[u8],
    output: &[u8],
    buf: &mut [u8],
    at: usize,
) -> Result<Chars, Refusal>
    ensures { chars_answered result buf.new ≡ short_writing edition_two id salt.now output.now buf.old at }
{
    write(short_fields(id), b"", b"", salt, output, buf, at)
}
