// Rows of the listing, part by part of the input. The rows that wait lie in a buffer of any length that the caller lends, the same to each call.
ghost use Rattle.std.specs.Prelude.{◌≤◌, ◌≡◌, ◌↔◌, true, false, length, take, OnOk, IsErr};
ghost use Rattle.std.specs.Io.KnownBytes.{Appends};

use accounts::limits::MOST_KEPT;
use accounts::listing::{Listed, end, next};
use accounts::row::write_header;
use std::io;
use std::io::{Error, Write};
use text::units::Chars;

// Where a listing that goes to a writer stands.
#[derive(Clone, Copy)]
pub struct Rows {
    // The bytes kept of the unfinished line, and its number.
    pub array: [u8; MOST_KEPT],
    pub kept: usize,
    pub line: u64,
    // The bytes of output that wait: the whole buffer in a state made by hand that says more.
    pub used: usize,
    // Whether every write so far succeeded.
    pub open: bool,
}

impl Rows {
    // Of no input yet: the header waits.
    pub fn new(out: &mut [u8]) -> Rows
        ensures open { result.«open» ≡ true }
        ensures waits { result.used ≤ length out.new }
        ensures size { length out.new ≡ length out.old }
    {
        let header = write_header(out, 0);
        Rows {
            array: [0; MOST_KEPT],
            kept: 0,
            line: 1,
            used: header.unwrap_or(Chars(0)).0.min(out.len()),
            open: true,
        }
    }

    // An error where an earlier write failed.
    fn check_open(&self) -> io::Result<()>
        ensures { IsErr result ↔ (self.now.«open» ≡ false) }
    {
        if self.open {
            Ok(())
        } else {
            Err(Error::other("an earlier write failed"))
        }
    }

    // Writes what waits.
    fn flush<W: Write>(&mut self, writer: &mut W, out: &[u8]) -> io::Result<()>
        ensures written { OnOk result (Appends (W.contents writer.old) (W.contents writer.new) (take self.old.used out.now)) }
        ensures unfinished { (self.new.array ≡ self.old.array) × (self.new.kept ≡ self.old.kept) × (self.new.line ≡ self.old.line) }
        ensures waits { OnOk result (self.new.used ≡ 0) }
        ensures still_waits { IsErr result → self.new.used ≡ self.old.used }
    {
        writer.write_all(&out[..self.used.min(out.len())])?;
        self.used = 0;
        Ok(())
    }

    // Writes what waits, for a row that doesn't fit behind it. An error also where nothing waits: the row fits no emptier buffer.
    fn make_room<W: Write>(&mut self, writer: &mut W, out: &[u8]) -> io::Result<()>
        ensures { (self.new.array ≡ self.old.array) × (self.new.kept ≡ self.old.kept) × (self.new.line ≡ self.old.line) }
    {
        if self.used == 0 {
            return Err(Error::other("a row doesn't fit the buffer"));
        }
        self.flush(writer, out)
    }

    // `count` bytes more wait; never past the buffer's `size`.
    fn wait(&mut self, count: usize, size: usize)
        ensures within { self.new.used ≤ size }
        ensures open { self.new.«open» ≡ self.old.«open» }
        ensures unfinished { (self.new.array ≡ self.old.array) × (self.new.kept ≡ self.old.kept) × (self.new.line ≡ self.old.line) }
    {
        self.used = self.used.saturating_add(count).min(size);
    }

    // take_part, where every write so far succeeded.
    fn take_rows<W: Write>(&mut self, writer: &mut W, out: &mut [u8], part: &[u8]) -> io::Result<()>
        ensures { length out.new ≡ length out.old }
    {
        let mut from = 0;
        for _ in 0..u64::MAX {
            match next(
                &mut self.array,
                self.kept,
                self.line,
                part,
                from,
                out,
                self.used,
            ) {
                Ok(Listed::Row { place, count, line }) => {
                    self.wait(count.0, out.len());
                    self.kept = 0;
                    self.line = line;
                    from = place;
                }
                Ok(Listed::UsedUp { kept }) => {
                    self.kept = kept;
                    return Ok(());
                }
                Err(_) => self.make_room(writer, out)?,
            }
        }
        Ok(())
    }

    // The rows of the lines that end in a part; when no more fit, those that wait are written. After a failed write nothing more is written,
    // and so where a row doesn't fit the whole buffer: 36 bytes are enough.
    pub fn take_part<W: Write>(
        &mut self,
        writer: &mut W,
        out: &mut [u8],
        part: &[u8],
    ) -> io::Result<()>
        ensures waits { self.new.used ≤ length out.old }
        ensures size { length out.new ≡ length out.old }
        ensures not_forgotten { self.old.«open» ≡ false → IsErr result }
        ensures stays_closed { self.old.«open» ≡ false → self.new.«open» ≡ false }
        ensures closes { IsErr result → self.new.«open» ≡ false }
        ensures writes_no_more { self.old.«open» ≡ false → writer.new ≡ writer.old }
    {
        self.wait(0, out.len());
        self.check_open()?;
        let taken = self.take_rows(writer, out, part);
        self.wait(0, out.len());
        self.open = taken.is_ok();
        taken
    }

    // What waits, without the unfinished line.
    pub fn flush_rows<W: Write>(&mut self, writer: &mut W, out: &[u8]) -> io::Result<()>
        ensures not_forgotten { self.old.«open» ≡ false → IsErr result }
        ensures closes { IsErr result → self.new.«open» ≡ false }
        ensures writes_no_more { self.old.«open» ≡ false → writer.new ≡ writer.old }
        ensures written { OnOk result (Appends (W.contents writer.old) (W.contents writer.new) (take self.old.used out.now)) }
        ensures unfinished { (self.new.array ≡ self.old.array) × (self.new.kept ≡ self.old.kept) × (self.new.line ≡ self.old.line) }
        ensures waits { OnOk result (self.new.used ≡ 0) }
        ensures still_waits { IsErr result → self.new.used ≡ self.old.used }
    {
        self.check_open()?;
        let written = self.flush(writer, out);
        self.open = written.is_ok();
        written
    }

    // finish, where every write so far succeeded. A row that doesn't fit goes into the emptied buffer.
    fn end_rows<W: Write>(&mut self, writer: &mut W, out: &mut [u8]) -> io::Result<()>
        ensures size { length out.new ≡ length out.old }
        ensures unfinished { (self.new.array ≡ self.old.array) × (self.new.kept ≡ self.old.kept) × (self.new.line ≡ self.old.line) }
    {
        let mut last = end(&self.array, self.kept, self.line, out, self.used);
        if last.is_err() {
            self.make_room(writer, out)?;
            last = end(&self.array, self.kept, self.line, out, 0);
        }
        let Ok(count) = last else {
            return Err(Error::other("a row doesn't fit the buffer"));
        };
        self.wait(count.0, out.len());
        self.flush(writer, out)
    }

    // The row of the last line, and what waits.
    pub fn finish<W: Write>(&mut self, writer: &mut W, out: &mut [u8]) -> io::Result<()>
        ensures size { length out.new ≡ length out.old }
        ensures not_forgotten { self.old.«open» ≡ false → IsErr result }
        ensures closes { IsErr result → self.new.«open» ≡ false }
        ensures writes_no_more { self.old.«open» ≡ false → writer.new ≡ writer.old }
        ensures unfinished { (self.new.array ≡ self.old.array) × (self.new.kept ≡ self.old.kept) × (self.new.line ≡ self.old.line) }
    {
        self.check_open()?;
        let ended = self.end_rows(writer, out);
        self.open = ended.is_ok();
        ended
    }
}
