// The string of fields: its length, and putting it at the start of a buffer, piece after piece.
ghost use Rattle.std.specs.Prelude.{◌≤◌, ◌≡◌, length};
ghost use Rattle.text.specs.Place.{Wrote};
ghost use Rattle.table.specs.Limits.{longest_permitted};
ghost use Rattle.table.specs.Columns.{profile_in};
ghost use Rattle.profile.specs.PieceTexts.{costs_text, costs_length, items_text, dollared, head_text, pieces_text, pieces_length};
ghost use Rattle.profile.specs.WriterSteps.{fields_with};

use crate::byte_strings::ByteStrings;
use crate::fields::NumberFields;
use crate::name_field::{name_len, put_name};
use crate::number_field::{number_len, put_number};
use crate::tagged::{bytes_len, put_bytes};
use crate::version_field::{put_version, version_len};
use table::limits::Column;
use text::units::Chars;

// The length of the numbers as items.
fn costs_len(column: Column, n: NumberFields) -> Chars
    requires { costs_length (profile_in column) n ≤ longest_permitted }
    ensures { result.0 ≡ costs_length (profile_in column) n }
{
    number_len(Chars(3), column.m, n.m)
        .plus(number_len(Chars(3), column.t, n.t))
        .plus(number_len(Chars(3), column.p, n.p))
}

// The length of the string.
pub fn string_len(column: Column, n: NumberFields, strings: ByteStrings) -> Chars
    requires { pieces_length (profile_in column) (fields_with n strings) ≤ longest_permitted }
    ensures { result.0 ≡ pieces_length (profile_in column) (fields_with n strings.entry) }
{
    Chars(1)
        .plus(name_len(column.name))
        .plus(version_len(n.version))
        .plus(costs_len(column, n))
        .plus(bytes_len(Chars(7), strings.keyid))
        .plus(bytes_len(Chars(6), strings.data))
        .plus(bytes_len(Chars(1), strings.salt))
        .plus(bytes_len(Chars(1), strings.output))
}

// The numbers as items, each with a comma before it.
fn put_costs(column: Column, n: NumberFields, out: &mut [u8]) -> Chars
    requires { length (costs_text (profile_in column) n) ≤ length out.old }
    ensures { Wrote (costs_text (profile_in column) n) out.old out.new result.0 }
{
    let after_m = put_number(b",m=", column.m, n.m, out).0;
    let after_t = after_m + put_number(b",t=", column.t, n.t, &mut out[after_m..]).0;
    Chars(after_t + put_number(b",p=", column.p, n.p, &mut out[after_t..]).0)
}

// The items, each with a comma before it.
fn put_items(column: Column, n: NumberFields, strings: ByteStrings, out: &mut [u8]) -> Chars
    requires { length (items_text (profile_in column) n strings.keyid.now strings.«data».now) ≤ length out.old }
    ensures { Wrote (items_text (profile_in column) n strings.entry.keyid.now strings.entry.«data».now) out.old out.new result.0 }
{
    let after_costs = put_costs(column, n, out).0;
    let after_keyid = after_costs + put_bytes(b",keyid=", strings.keyid, &mut out[after_costs..]).0;
    Chars(after_keyid + put_bytes(b",data=", strings.data, &mut out[after_keyid..]).0)
}

// The parameter piece with its `$`, or nothing: the `$` stands where the first comma stood.
fn put_params(column: Column, n: NumberFields, strings: ByteStrings, out: &mut [u8]) -> Chars
    requires { length (dollared (items_text (profile_in column) n strings.keyid.now strings.«data».now)) ≤ length out.old }
    ensures { Wrote (dollared (items_text (profile_in column) n strings.entry.keyid.now strings.entry.«data».now)) out.old out.new result.0 }
{
    let count = put_items(column, n, strings, out);
    if count.0 != 0 {
        out[0] = b'$';
    }
    count
}

// Id, version and parameters.
fn put_head(column: Column, n: NumberFields, strings: ByteStrings, out: &mut [u8]) -> Chars
    requires { length (head_text (profile_in column) n strings.keyid.now strings.«data».now) ≤ length out.old }
    ensures { Wrote (head_text (profile_in column) n strings.entry.keyid.now strings.entry.«data».now) out.old out.new result.0 }
{
    let after_id = put_name(column.name, out).0;
    let after_version = after_id + put_version(n.version, &mut out[after_id..]).0;
    Chars(after_version + put_params(column, n, strings, &mut out[after_version..]).0)
}

// The whole string: each piece is lent what is left of the buffer.
pub fn put_string(column: Column, n: NumberFields, strings: ByteStrings, out: &mut [u8]) -> Chars
    requires { length (pieces_text (profile_in column) (fields_with n strings)) ≤ length out.old }
    ensures { Wrote (pieces_text (profile_in column) (fields_with n strings.entry)) out.old out.new result.0 }
{
    let after_head = put_head(column, n, strings, out).0;
    let after_salt = after_head + put_bytes(b"$", strings.salt, &mut out[after_head..]).0;
    Chars(after_salt + put_bytes(b"$", strings.output, &mut out[after_salt..]).0)
}
