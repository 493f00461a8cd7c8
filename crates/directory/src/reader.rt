// The reader of braced texts: what the profile's entries give for the `$` string. That string is made in an array of its own: a short one, or a
// long one for a text that is too long to be accepted and still has a number.
ghost use Rattle.std.specs.Prelude.{◌≡◌, true, IfOk, IfErr};
ghost use Rattle.std.proofs.Math.Option.{some};
ghost use Rattle.text.specs.Place.{bytes_answered};
ghost use Rattle.table.specs.Limits.{edition_two};
ghost use Rattle.profile.specs.Entries.{read_answer};
ghost use Rattle.fast_path.specs.Contents.{contents_answer};
ghost use Rattle.directory.specs.Entries.{directory_reading, directory_decoded, directory_all_decoded, directory_contents};
ghost use Rattle.directory.specs.Braced.{dollar_string};
ghost use Rattle.directory.specs.BracedSteps.{is_braced, RefusedWith};

use crate::braced::{dollar_string, is_braced};
use crate::limits::LONGEST_BRACED;
use fast_path::contents::Contents;
use grammar::limits::LONGEST_STRING;
use profile::fields::{ByteString, Record};
use refusals::Refusal;
use text::units::Bytes;

// What `read` gives for a braced text of any length. After the prefix a text longer than any string is not looked at.
fn read_long(t: &[u8]) -> Result<Record, Refusal>
    requires { is_braced t.now ≡ true }
    ensures { read_answer result ≡ directory_reading edition_two t.now }
{
    if LONGEST_STRING < t.len() {
        return Err(Refusal::BadString);
    }
    let mut array = [0u8; LONGEST_STRING];
    profile::reader::read(dollar_string(t, &mut array))
}

// The `$` string of a braced text that is short enough to be accepted; what is wrong with any other text.
fn string_of<'a>(t: &[u8], array: &'a mut [u8; LONGEST_BRACED]) -> Result<&'a [u8], Refusal>
    ensures refused { IfErr result (RefusedWith t.now) }
    ensures string { IfOk result (λ s. dollar_string t.now ≡ some s.now) }
{
    if !is_braced(t) {
        return Err(Refusal::NoSpelling);
    }
    if LONGEST_BRACED < t.len() {
        // No text of so many bytes is accepted.
        return Err(read_long(t).unwrap_err());
    }
    Ok(dollar_string(t, array))
}

// Kind and number fields of a braced text; or 24, 1, 3 to 7, 9 to 15.
pub fn read(t: &[u8]) -> Result<Record, Refusal>
    ensures { read_answer result ≡ directory_reading edition_two t.now }
{
    let mut array = [0u8; LONGEST_BRACED];
    let s = string_of(t, &mut array)?;
    fast_path::reader::read(s)
}

// Decodes one of the four byte strings into `buf` from `at` on; the count is the decoded length, 0 when absent. The numbers of `read`, then 17.
pub fn byte_string(
    t: &[u8],
    choice: ByteString,
    buf: &mut [u8],
    at: usize,
) -> Result<Bytes, Refusal>
    ensures { bytes_answered result buf.new ≡ directory_decoded edition_two choice t.now buf.old at }
{
    let mut array = [0u8; LONGEST_BRACED];
    let s = string_of(t, &mut array)?;
    profile::reader::byte_string(s, choice, buf, at)
}

// What `read` gives, how many bytes each byte string has, and keyid, data, salt and output, one after the other, in `buf` from `at` on. The
// numbers of `read`, then 17.
pub fn read_all(t: &[u8], buf: &mut [u8], at: usize) -> Result<Contents, Refusal>
    ensures { (contents_answer result ≡ directory_contents edition_two t.now buf.old at) × (buf.new ≡ (directory_all_decoded edition_two t.now buf.old at).buffer) }
{
    let mut array = [0u8; LONGEST_BRACED];
    let s = string_of(t, &mut array)?;
    fast_path::reader::read_all(s, buf, at)
}
