// Writing into a lent buffer from a place in its middle onward.
ghost use Rattle.std.specs.Prelude.{◌≤◌, ◌≡◌, length};
ghost use Rattle.text.specs.Place.{has_room, chars_answered, over, put};

use crate::units::Chars;
use refusals::Refusal;

// Whether `count` bytes fit a buffer of `size` bytes from `at` on. No sum wraps.
pub fn has_room(size: usize, at: usize, count: usize) -> bool
    ensures { result ≡ has_room size at count }
{
    at <= size && count <= size - at
}

// A text to the start of a buffer that has room for it. A loop: the writers' tags have one to seven characters, and a call of copy_from_slice takes
// 21 instructions more than their copy.
fn copy_text(text: &[u8], out: &mut [u8])
    requires { length text.now ≤ length out.old }
    ensures { out.new ≡ over out.old 0 text.now }
{
    for (i, byte) in text.iter().enumerate() {
        out[i] = *byte;
    }
}

// A text into `buf` from `at` on. 17: it doesn't fit.
pub fn write_text(text: &[u8], buf: &mut [u8], at: usize) -> Result<Chars, Refusal>
    ensures { chars_answered result buf.new ≡ put buf.old at text.now }
{
    if !has_room(buf.len(), at, text.len()) {
        return Err(Refusal::NoRoom);
    }
    copy_text(text, &mut buf[at..]);
    Ok(Chars(text.len()))
}
