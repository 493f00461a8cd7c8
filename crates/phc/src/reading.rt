// Reading: the record of a string, its algorithm version, and each of its byte strings.
ghost use Rattle.std.specs.Prelude.{◌≡◌};
ghost use Rattle.table.specs.Limits.{edition_two};
ghost use Rattle.profile.specs.Entries.{algorithm_version, decoded};
ghost use Rattle.profile.specs.declared.fields.ByteString.TheVariants.{Keyid, Data, Salt, Output};
ghost use Rattle.phc.specs.Records.{recorded, code_of, coded};

use crate::code::{found, refused};
use crate::record::{RECORD_LEN, put_record};
use fast_path::reader::read;
use profile::fields::ByteString;
use profile::reader::{algorithm_version_of, byte_string};
use refusals::Refusal;

// 0 and the record in the first 20 bytes, or the reader's number; then 17.
#[unsafe(no_mangle)]
pub extern "C" fn phc_read(s: &[u8], record: &mut [u8]) -> u64
    ensures { (result ≡ (recorded s.now «record».old).number) × («record».new ≡ (recorded s.now «record».old).buffer) }
{
    match read(s) {
        Ok(r) => {
            if record.len() < RECORD_LEN {
                return refused(Refusal::NoRoom);
            }
            put_record(r, record);
            0
        }
        Err(refusal) => refused(refusal),
    }
}

// The algorithm version that a string means: a hundred times it, or the reader's number.
#[unsafe(no_mangle)]
pub extern "C" fn phc_algorithm_version(s: &[u8]) -> u64
    ensures { result ≡ code_of (algorithm_version edition_two s.now).number (algorithm_version edition_two s.now).version }
{
    match read(s) {
        Ok(r) => found(u64::from(algorithm_version_of(r.fields))),
        Err(refusal) => refused(refusal),
    }
}

// One byte string into the buffer from its start: a hundred times the count, or the refusal's number.
fn decode_one(s: &[u8], choice: ByteString, buf: &mut [u8]) -> u64
    ensures { (result ≡ coded (decoded edition_two choice s.now buf.old 0)) × (buf.new ≡ (decoded edition_two choice s.now buf.old 0).buffer) }
{
    match byte_string(s, choice, buf, 0) {
        Ok(count) => found(count.0 as u64),
        Err(refusal) => refused(refusal),
    }
}

// keyid, decoded: a hundred times its count, or 1 to 15, then 17.
#[unsafe(no_mangle)]
pub extern "C" fn phc_keyid(s: &[u8], buf: &mut [u8]) -> u64
    ensures { (result ≡ coded (decoded edition_two Keyid s.now buf.old 0)) × (buf.new ≡ (decoded edition_two Keyid s.now buf.old 0).buffer) }
{
    decode_one(s, ByteString::Keyid, buf)
}

// data, in the same way.
#[unsafe(no_mangle)]
pub extern "C" fn phc_data(s: &[u8], buf: &mut [u8]) -> u64
    ensures { (result ≡ coded (decoded edition_two Data s.now buf.old 0)) × (buf.new ≡ (decoded edition_two Data s.now buf.old 0).buffer) }
{
    decode_one(s, ByteString::Data, buf)
}

// The salt, in the same way.
#[unsafe(no_mangle)]
pub extern "C" fn phc_salt(s: &[u8], buf: &mut [u8]) -> u64
    ensures { (result ≡ coded (decoded edition_two Salt s.now buf.old 0)) × (buf.new ≡ (decoded edition_two Salt s.now buf.old 0).buffer) }
{
    decode_one(s, ByteString::Salt, buf)
}

// The output, in the same way.
#[unsafe(no_mangle)]
pub extern "C" fn phc_output(s: &[u8], buf: &mut [u8]) -> u64
    ensures { (result ≡ coded (decoded edition_two Output s.now buf.old 0)) × (buf.new ≡ (decoded edition_two Output s.now buf.old 0).buffer) }
{
    decode_one(s, ByteString::Output, buf)
}
