// All that a string carries, in one call: the record with the counts after it, and the four byte strings.
ghost use Rattle.std.specs.Prelude.{◌≡◌};
ghost use Rattle.phc.specs.Records.{all_outcome, recorded_all};

use crate::record::{RECORD_ALL_LEN, give_all, refused_or_full};
use fast_path::reader::{read, read_all};

// 0, the record and the counts in the first 36 bytes, and keyid, data, salt and output, one after the other, in the buffer from its start; or
// the reader's number, then 17.
#[unsafe(no_mangle)]
pub extern "C" fn phc_read_all(s: &[u8], record: &mut [u8], buf: &mut [u8]) -> u64
    ensures { all_outcome result «record».new buf.new ≡ recorded_all s.now «record».old buf.old }
{
    if record.len() < RECORD_ALL_LEN {
        return refused_or_full(read(s));
    }
    give_all(read_all(s, buf, 0), record)
}
