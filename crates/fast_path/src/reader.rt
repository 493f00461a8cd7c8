// The profile reader, and all that a string carries in one call: the fast path for accepted strings, the profile's reader for the others.
ghost use Rattle.std.specs.Prelude.{◌≡◌, ◌≤◌, length};
ghost use Rattle.table.specs.Limits.{edition_two};
ghost use Rattle.profile.specs.Entries.{read_answer, reading};
ghost use Rattle.fast_path.specs.Contents.{all_decoded, accepted_contents, contents_answer, contents};
ghost use Rattle.fast_path.specs.WalkSteps.{total, StoredIs};

use crate::contents::Contents;
use crate::walk::{BUFFER_LEN, walk_string};
use profile::fields::Record;
use refusals::Refusal;
use text::place::write_text;

// Kind and number fields of a string, or what is wrong with it: what profile::reader::read gives.
pub fn read(s: &[u8]) -> Result<Record, Refusal>
    ensures { read_answer result ≡ reading edition_two s.now }
{
    let mut out = [0u8; BUFFER_LEN];
    match walk_string(s, &mut out) {
        Some(c) => Ok(c.reading),
        None => profile::reader::read(s),
    }
}

// The bytes that were found, into the caller's buffer; 17 where they don't fit.
fn store(c: Contents, out: &[u8], buf: &mut [u8], at: usize) -> Result<Contents, Refusal>
    requires { total (accepted_contents c) ≤ length out.now }
    ensures { StoredIs (accepted_contents c) out.now buf.old at buf.new (contents_answer result) }
{
    let n = c.keyid.0 + c.data.0 + c.salt.0 + c.output.0;
    write_text(&out[0..n], buf, at)?;
    Ok(c)
}

// The profile reader's answer, how many bytes each byte string has, and keyid, data, salt and output, one after the other, in `buf` from `at`
// on. 1 to 15, then 17. An accepted string is read once; a refused one is read again for its number.
pub fn read_all(s: &[u8], buf: &mut [u8], at: usize) -> Result<Contents, Refusal>
    ensures { (contents_answer result ≡ contents edition_two s.now buf.old at) × (buf.new ≡ (all_decoded edition_two s.now buf.old at).buffer) }
{
    let mut out = [0u8; BUFFER_LEN];
    match walk_string(s, &mut out) {
        Some(c) => store(c, &out, buf, at),
        None => Err(profile::reader::read(s).unwrap_err()),
    }
}
