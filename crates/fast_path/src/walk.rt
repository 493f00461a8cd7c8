// The whole walk: id, version, numbers, byte strings.
ghost use Rattle.std.specs.Prelude.{◌≡◌, ℕ, ◌-◌, ◌≤◌, List, length, drop};
ghost use Rattle.table.specs.Limits.{edition_two};
ghost use Rattle.table.specs.Columns.{listed, profile_in};
ghost use Rattle.profile.specs.Entries.{kind_number};
ghost use Rattle.fast_path.specs.Contents.{accepted_contents};
ghost use Rattle.fast_path.specs.Walk.{taken, allowed as allowed_version, version_in, head_in, with_strings, fields_after_id, walked};
ghost use Rattle.fast_path.specs.WalkSteps.{VersionIs, HeadIs, kind_for, contents_for, roomy, buffer_length, FoundIn};

use crate::begin::begins;
use crate::contents::Contents;
use crate::leading_number::number;
use crate::numbers::{Head, numbers};
use crate::strings::{two_keys, two_pieces};
use profile::fields::{Kind, NumberFields, Record};
use table::bounds::version_allowed;
use table::columns::column_of;
use table::ids::id_number;
use table::limits::{Column, LONGEST_PERMITTED, Versions};
use table::version::Version;
use text::scan::next_at;
use text::units::Bytes;

// Room for the four byte strings of any profile.
pub const BUFFER_LEN: usize = 152;

// The version, and the place after it.
#[derive(Clone, Copy)]
pub struct VersionItem {
    pub version: Version,
    pub next: usize,
}

// A version, where the profile permits it.
fn allowed(versions: Versions, version: Version, next: usize) -> Option<VersionItem>
    ensures { (s : List ℕ) → next ≤ length s → VersionIs (allowed_version (listed versions) version (drop next s)) s result }
{
    version_allowed(versions, version).then_some(VersionItem { version, next })
}

fn version_item(versions: Versions, s: &[u8], at: usize) -> Option<VersionItem>
    requires { at ≤ length s.now }
    ensures { VersionIs (version_in (listed versions) (drop at s.now)) s.now result }
{
    if begins(s, at, b'$', b"v=") {
        let n = number(s, at + 3)?;
        return allowed(versions, Version::Number(n.value), n.next);
    }
    allowed(versions, Version::Absent, at)
}

fn head_at(column: Column, id: u8, s: &[u8], at: usize) -> Option<Head>
    requires { at ≤ length s.now }
    ensures { HeadIs (head_in (profile_in column) id (drop at s.now)) s.now result }
{
    let item = version_item(column.versions, s, at)?;
    numbers(column, id, item.version, s, item.next)
}

fn kind_for(salt: usize, output: usize) -> Kind
    ensures { kind_number result ≡ kind_for salt output }
{
    if output != 0 {
        Kind::Hash
    } else if salt != 0 {
        Kind::Salt
    } else {
        Kind::Parameters
    }
}

// The answer for fields whose byte strings end at these places in their buffer.
fn contents_for(
    fields: NumberFields,
    keyid_end: usize,
    data_end: usize,
    salt_end: usize,
    output_end: usize,
) -> Contents
    requires { (keyid_end ≤ data_end) × (data_end ≤ salt_end) × (salt_end ≤ output_end) }
    ensures { accepted_contents result ≡ contents_for fields keyid_end (data_end - keyid_end) (salt_end - data_end) (output_end - salt_end) }
{
    Contents {
        reading: Record {
            kind: kind_for(salt_end - data_end, output_end - salt_end),
            fields,
        },
        keyid: Bytes(keyid_end),
        data: Bytes(data_end - keyid_end),
        salt: Bytes(salt_end - data_end),
        output: Bytes(output_end - salt_end),
    }
}

// The byte strings after the number fields, up to the end.
fn with_strings(
    column: Column,
    fields: NumberFields,
    s: &[u8],
    at: usize,
    separator: u8,
    out: &mut [u8],
) -> Option<Contents>
    requires { (at ≤ length s.now) × (roomy (profile_in column) ≤ length out.old) }
    ensures { FoundIn (with_strings (profile_in column) (taken fields separator (drop at s.now))) out.old out.new result }
{
    let keys = two_keys(
        column.keyid,
        b"keyid=",
        column.data,
        b"data=",
        s,
        at,
        separator,
        out,
        0,
    )?;
    let hashes = two_pieces(column.salt, column.output, s, keys.next, out, keys.end)?;
    if hashes.next != s.len() {
        return None;
    }
    Some(contents_for(fields, keys.middle, keys.end, hashes.middle, hashes.end))
}

// What stands after the id.
fn after_id(column: Column, id: u8, s: &[u8], at: usize, out: &mut [u8]) -> Option<Contents>
    requires { (at ≤ length s.now) × (roomy (profile_in column) ≤ length out.old) }
    ensures { FoundIn (fields_after_id (profile_in column) id (drop at s.now)) out.old out.new result }
{
    if !column.known {
        return None;
    }
    let head = head_at(column, id, s, at)?;
    with_strings(column, head.fields, s, head.next, head.separator, out)
}

// The fields of an accepted string, with their byte strings, one after the other, from the start of `out`. Of a string that is longer than any
// permitted one nothing is read.
pub fn walk_string(s: &[u8], out: &mut [u8]) -> Option<Contents>
    requires { buffer_length ≤ length out.old }
    ensures { FoundIn (walked edition_two s.now) out.old out.new result }
{
    if LONGEST_PERMITTED < s.len() || s.first() != Some(&b'$') {
        return None;
    }
    let end = next_at(s, 1, b'$');
    let id = id_number(&s[1..end]);
    after_id(column_of(id), id, s, end, out)
}
