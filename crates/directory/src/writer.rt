// The writer of braced texts: the profile's string, in an array of its own, with braces in its prefix.
ghost use Rattle.std.specs.Prelude.{◌≡◌};
ghost use Rattle.text.specs.Place.{chars_answered};
ghost use Rattle.table.specs.Limits.{edition_two};
ghost use Rattle.profile.specs.Fields.{field_set};
ghost use Rattle.directory.specs.Entries.{is_directory_id, directory_writing};

use crate::braced::mark;
use crate::limits::{LONGEST_BRACED, PREFIX_LEN};
use profile::fields::NumberFields;
use refusals::Refusal;
use text::place::write_text;
use text::units::Chars;

// The ids that have a prefix.
const PBKDF2S2: u8 = 4;

const PBKDF2S3: u8 = 5;

fn is_directory_id(id: u8) -> bool
    ensures { result ≡ is_directory_id id }
{
    matches!(id, PBKDF2S2 | PBKDF2S3)
}

// Writes the braced text of the fields into `buf` from `at` on; the count is its length. 24 for another id, then 9, 11, 12, 14, 15, 16, then 24 for
// fields that are written as the id alone, then 17.
pub fn write(
    n: NumberFields,
    keyid: &[u8],
    data: &[u8],
    salt: &[u8],
    output: &[u8],
    buf: &mut [u8],
    at: usize,
) -> Result<Chars, Refusal>
    ensures { chars_answered result buf.new ≡ directory_writing edition_two (field_set n keyid.now «data».now salt.now output.now) buf.old at }
{
    if !is_directory_id(n.id) {
        return Err(Refusal::NoSpelling);
    }
    let mut s = [0u8; LONGEST_BRACED];
    let len = profile::writer::write(n, keyid, data, salt, output, &mut s, 0)?.0;
    if len < PREFIX_LEN {
        return Err(Refusal::NoSpelling);
    }
    mark(&mut s, b'{', b'}');
    write_text(&s[..len], buf, at)
}
