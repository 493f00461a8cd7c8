// A record as bytes: kind, id, 1 where a version is written, 0, then version, m, t and p as 32-bit little-endian numbers; and the counts of the
// four byte strings after it.
ghost use Rattle.std.specs.Prelude.{◌≤◌, ◌≡◌, Ok, cond, ◌++◌, eqb, length};
ghost use Rattle.refusals.specs.Numbers.{number};
ghost use Rattle.text.specs.Place.{over};
ghost use Rattle.profile.specs.Entries.{read_answer};
ghost use Rattle.fast_path.specs.Contents.{accepted_contents, contents_answer};
ghost use Rattle.phc.specs.Records.{version_flag, version_number, words, head_bytes, record_bytes, count_bytes, record_length, record_all_length, recorded_contents};

use crate::code::refused;
use fast_path::contents::Contents;
use profile::fields::Record;
use refusals::Refusal;
use table::version::Version;

// The bytes of a record, and of one with the counts after it.
pub const RECORD_LEN: usize = 20;

pub const RECORD_ALL_LEN: usize = 36;

fn version_flag(version: Version) -> u8
    ensures { result ≡ version_flag version }
{
    match version {
        Version::Absent => 0,
        Version::Number(_) => 1,
    }
}

fn version_number(version: Version) -> u32
    ensures { result ≡ version_number version }
{
    match version {
        Version::Absent => 0,
        Version::Number(n) => n,
    }
}

// Four numbers of 32 bits, little-endian; of a larger one its lowest 32 bits.
pub fn four_words(a: usize, b: usize, c: usize, d: usize) -> [u8; 16]
    ensures { result ≡ words a b c d }
{
    let [a0, a1, a2, a3, ..] = a.to_le_bytes();
    let [b0, b1, b2, b3, ..] = b.to_le_bytes();
    let [c0, c1, c2, c3, ..] = c.to_le_bytes();
    let [d0, d1, d2, d3, ..] = d.to_le_bytes();
    [
        a0, a1, a2, a3, b0, b1, b2, b3, c0, c1, c2, c3, d0, d1, d2, d3,
    ]
}

fn head_bytes(r: Record) -> [u8; 4]
    ensures { result ≡ head_bytes (read_answer (Ok r)) }
{
    [
        r.kind.number(),
        r.fields.id,
        version_flag(r.fields.version),
        0,
    ]
}

fn number_bytes(r: Record) -> [u8; 16]
    ensures { result ≡ words (version_number r.fields.version) r.fields.m r.fields.t r.fields.p }
{
    let fields = r.fields;
    four_words(
        version_number(fields.version) as usize,
        fields.m as usize,
        fields.t as usize,
        fields.p as usize,
    )
}

// The record at the start of a buffer that has room for it.
pub fn put_record(r: Record, out: &mut [u8])
    requires { record_length ≤ length out.old }
    ensures { out.new ≡ over out.old 0 (record_bytes (read_answer (Ok r))) }
{
    out[..4].copy_from_slice(&head_bytes(r));
    out[4..RECORD_LEN].copy_from_slice(&number_bytes(r));
}

// The record and the counts after it.
fn put_record_all(c: Contents, out: &mut [u8])
    requires { record_all_length ≤ length out.old }
    ensures { out.new ≡ over out.old 0 (record_bytes (read_answer (Ok c.reading)) ++ count_bytes (accepted_contents c)) }
{
    put_record(c.reading, out);
    let counts = four_words(c.keyid.0, c.data.0, c.salt.0, c.output.0);
    out[RECORD_LEN..RECORD_ALL_LEN].copy_from_slice(&counts);
}

// The refusal's number; 17 where there is none.
pub fn refused_or_full(answer: Result<Record, Refusal>) -> u64
    ensures { result ≡ cond (eqb (number answer) 0) 17 (number answer) }
{
    match answer {
        Ok(_) => refused(Refusal::NoRoom),
        Err(refusal) => refused(refusal),
    }
}

// What was read, into a record that has room for it: 0, or the refusal's number.
pub fn give_all(answer: Result<Contents, Refusal>, record: &mut [u8]) -> u64
    requires { record_all_length ≤ length «record».old }
    ensures { (result ≡ (recorded_contents (contents_answer answer) «record».old).number) × («record».new ≡ (recorded_contents (contents_answer answer) «record».old).buffer) }
{
    match answer {
        Ok(c) => {
            put_record_all(c, record);
            0
        }
        Err(refusal) => refused(refusal),
    }
}
