// A buffer of its own, filled from its start.
ghost use Rattle.std.specs.Prelude.{◌≡◌, ◌≤◌, ◌==◌, length, take};
ghost use Rattle.std.specs.Io.KnownBytes.{Consumes};

use crate::read_full;
use crate::show::show;
use std::io::{Read, Write};

// Room for the rows of a program of known answers.
pub const INPUT: usize = 262144;

// An array of which the first `count` bytes are filled.
#[derive(Clone, Copy)]
pub struct Filled<const N: usize> {
    pub array: [u8; N],
    pub count: usize,
    pub ghost within: { count ≤ N },
}

// Says so where the input fills a buffer of any length: rows left out must not pass for rows that agree.
pub fn warn_if_full<W: Write>(out: &mut W, buf: &[u8], count: usize) {
    if buf.len() <= count {
        show(
            out,
            b"the input fills the buffer: what follows is left out\n",
        );
    }
}

impl<const N: usize> Filled<N> {
    // Nothing yet.
    pub fn new() -> Filled<N>
        ensures { result.count ≡ 0 }
    {
        Filled {
            array: [0u8; N],
            count: 0,
        }
    }

    // The next bytes of a reader, in place of what was filled: N, or as many as there are or can be read.
    pub fn fill<R: Read>(&mut self, reader: &mut R)
        ensures { Consumes (R.remaining reader.old) (R.remaining reader.new) (take self.new.count self.new.array) }
    {
        self.count = read_full(reader, &mut self.array);
    }

    // The same into a buffer of its own, which is copied once more on its way to the caller.
    pub fn read<R: Read>(reader: &mut R) -> Filled<N>
        ensures { Consumes (R.remaining reader.old) (R.remaining reader.new) (take result.count result.array) }
    {
        let mut filled = Filled::new();
        filled.fill(reader);
        filled
    }

    // The bytes that are filled.
    pub fn bytes(&self) -> &[u8]
        ensures { result.now ≡ take self.now.count self.now.array }
    {
        &self.array[..self.count]
    }

    // Says so where the input fills the buffer.
    pub fn warn_if_full<W: Write>(&self, out: &mut W) {
        warn_if_full(out, &self.array, self.count);
    }
}
