// What the programs share that hold their input whole: a buffer filled from any reader, its lines, and answers.
#![tactic(auto)]

ghost use Rattle.std.specs.Prelude.{◌≤◌, length, take};
ghost use Rattle.std.specs.Io.KnownBytes.{Consumes};

pub mod filled;
pub mod lines;
pub mod show;

use std::io::Read;

// Fills a buffer from its start, as far as the input goes or can be read. The bytes that it counts are those that the reader had next.
pub fn read_full<R: Read>(reader: &mut R, buf: &mut [u8]) -> usize
    ensures bound { result ≤ length buf.new }
    ensures bytes { Consumes (R.remaining reader.old) (R.remaining reader.new) (take result buf.new) }
{
    let mut done = 0;
    while done < buf.len() {
        match reader.read(&mut buf[done..]) {
            Ok(0) | Err(_) => break,
            Ok(got) => done += got,
        }
    }
    done
}
