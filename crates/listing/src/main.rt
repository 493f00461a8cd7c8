// The listing program: account text on standard input, the listing on standard output, and on standard error what could not be read or written.
// It holds one part of the input, the unfinished line and the rows that wait to be written, whatever the input's length.
#![tactic(auto)]

use std::io;
use std::io::{Error, Read, Write};
use stream::rows::Rows;

// Room for a part of the input, and for the rows that wait.
const ROOM: usize = 65536;

const UNREAD: &[u8] = b"listing: standard input could not be read; the listing is incomplete\n";

const UNWRITTEN: &[u8] =
    b"listing: standard output could not be written; the listing is incomplete\n";

// One part of the input; whether to go on. After a failed write nothing more is read.
fn take_some<R: Read, W: Write>(
    reader: &mut R,
    writer: &mut W,
    rows: &mut Rows,
    out: &mut [u8],
    buf: &mut [u8],
) -> io::Result<bool> {
    let n = reader.read(buf)?;
    Ok(n > 0 && rows.take_part(writer, out, &buf[..n]).is_ok())
}

// The parts after the first, until there are no more or one can't be read.
fn take_all<R: Read, W: Write>(
    reader: &mut R,
    writer: &mut W,
    rows: &mut Rows,
    out: &mut [u8],
    buf: &mut [u8],
) -> io::Result<()> {
    for _ in 0..u64::MAX {
        if !take_some(reader, writer, rows, out, buf)? {
            return Ok(());
        }
    }
    // No input has so many parts; the rest of one that had would not be listed.
    Err(Error::other("the input has too many parts"))
}

// Says on standard error what failed; the exit status is 0 all the same.
fn report<W: Write>(err: &mut W, done: io::Result<()>, message: &[u8]) {
    if done.is_err() {
        let _ = err.write_all(message);
    }
}

// Made in a function of its own: a proof writes an array out wherever it is made.
fn space() -> [u8; ROOM] {
    [0; ROOM]
}

fn main(rt: HostRuntime) {
    let mut reader = rt.stdin();
    let mut writer = rt.stdout();
    let mut err = rt.stderr();
    let mut out = space();
    let mut buf = space();
    let mut rows = Rows::new(&mut out);
    // An input that can't be read at all has no listing, not even the header.
    let Ok(more) = take_some(&mut reader, &mut writer, &mut rows, &mut out, &mut buf) else {
        let _ = err.write_all(UNREAD);
        return;
    };
    let read = if more {
        take_all(&mut reader, &mut writer, &mut rows, &mut out, &mut buf)
    } else {
        Ok(())
    };
    // Only where the input ended is the unfinished line a last line.
    let written = if read.is_ok() {
        rows.finish(&mut writer, &mut out)
    } else {
        rows.flush_rows(&mut writer, &out)
    };
    report(&mut err, read, UNREAD);
    report(&mut err, written, UNWRITTEN);
}
