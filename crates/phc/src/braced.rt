// The directory's spelling: all that a braced text carries, in one call, and the braced text of the nine fields.
ghost use Rattle.std.specs.Prelude.{◌≡◌};
ghost use Rattle.table.specs.Limits.{edition_two};
ghost use Rattle.directory.specs.Entries.{directory_writing};
ghost use Rattle.phc.specs.Records.{all_outcome, directory_recorded_all, coded};
ghost use Rattle.phc.specs.Writing.{handed};

use crate::code::{found, refused};
use crate::handed::handed_fields;
use crate::record::{RECORD_ALL_LEN, give_all, refused_or_full};
use directory::reader::{read, read_all};
use directory::writer::write;

// What `phc_read_all` gives, of a braced text: 24, then the numbers of its `$` string.
#[unsafe(no_mangle)]
pub extern "C" fn phc_directory_read_all(t: &[u8], record: &mut [u8], buf: &mut [u8]) -> u64
    ensures { all_outcome result «record».new buf.new ≡ directory_recorded_all t.now «record».old buf.old }
{
    if record.len() < RECORD_ALL_LEN {
        return refused_or_full(read(t));
    }
    give_all(read_all(t, buf, 0), record)
}

// The braced text into the buffer from its start: a hundred times the count, or the refusal's number. Free answer: a flag other than 0 and 1 is
// 9, or 24 for another id.
#[unsafe(no_mangle)]
pub extern "C" fn phc_directory_write(
    id: u8,
    has_version: u8,
    version: u32,
    m: u32,
    t: u32,
    p: u32,
    keyid: &[u8],
    data: &[u8],
    salt: &[u8],
    output: &[u8],
    buf: &mut [u8],
) -> u64
    ensures { (result ≡ coded (directory_writing edition_two (handed id has_version version m t p keyid.now «data».now salt.now output.now) buf.old 0)) × (buf.new ≡ (directory_writing edition_two (handed id has_version version m t p keyid.now «data».now salt.now output.now) buf.old 0).buffer) }
{
    let fields = handed_fields(id, has_version, version, m, t, p);
    match write(fields, keyid, data, salt, output, buf, 0) {
        Ok(count) => found(count.0 as u64),
        Err(refusal) => refused(refusal),
    }
}
