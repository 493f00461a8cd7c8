// Writing: the string of the nine fields, and that of id, salt and output alone.
ghost use Rattle.std.specs.Prelude.{◌≡◌};
ghost use Rattle.table.specs.Limits.{edition_two};
ghost use Rattle.profile.specs.Entries.{writing, short_writing};
ghost use Rattle.phc.specs.Records.{coded};
ghost use Rattle.phc.specs.Writing.{handed};

use crate::code::{found, refused};
use crate::handed::handed_fields;
use profile::writer::{write, write_short};

// The string into the buffer from its start: a hundred times the count, or the refusal's number. Free answer: a flag other than 0 and 1 is 9, or
// 8 where the id is unknown.
#[unsafe(no_mangle)]
pub extern "C" fn phc_write(
    id: u8,
    has_version: u8,
    version: u32,
    m: u32,
    t: u32,
    p: u32,
    keyid: &[u8],
    data: &[u8],
    salt: &[u8],
    output: &[u8],
    buf: &mut [u8],
) -> u64
    ensures { (result ≡ coded (writing edition_two (handed id has_version version m t p keyid.now «data».now salt.now output.now) buf.old 0)) × (buf.new ≡ (writing edition_two (handed id has_version version m t p keyid.now «data».now salt.now output.now) buf.old 0).buffer) }
{
    let fields = handed_fields(id, has_version, version, m, t, p);
    match write(fields, keyid, data, salt, output, buf, 0) {
        Ok(count) => found(count.0 as u64),
        Err(refusal) => refused(refusal),
    }
}

// The same for an id, a salt and an output, with the short writer's defaults and no keyid or data.
#[unsafe(no_mangle)]
pub extern "C" fn phc_write_short(id: u8, salt: &[u8], output: &[u8], buf: &mut [u8]) -> u64
    ensures { (result ≡ coded (short_writing edition_two id salt.now output.now buf.old 0)) × (buf.new ≡ (short_writing edition_two id salt.now output.now buf.old 0).buffer) }
{
    match write_short(id, salt, output, buf, 0) {
        Ok(count) => found(count.0 as u64),
        Err(refusal) => refused(refusal),
    }
}
