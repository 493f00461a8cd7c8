// Places in a buffer: where an answer is put, and the bytes that were filled.
ghost use Rattle.std.specs.Prelude.{◌≡◌, take};

use text::units::Bytes;

// Answers are put in the middle of a buffer, so that an entry that begins at its start shows.
pub const PLACE: usize = 17;

// The first bytes of a buffer; all where it has fewer.
pub fn front(buf: &[u8], count: Bytes) -> &[u8]
    ensures { result.now ≡ take count.0 buf.now }
{
    &buf[..count.0.min(buf.len())]
}
