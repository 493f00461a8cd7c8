// The lines of a text, one after the other: a line ends at a line feed.
ghost use Rattle.std.specs.Prelude.{◌+◌, min, ◌≡◌, length, drop};
ghost use Rattle.text.specs.Text.{line_feed, next_at, cut};

use crate::scan::next_at;

// The line at a place, without its line feed. Free answer: empty past the end.
pub fn line_at(s: &[u8], at: usize) -> &[u8]
    ensures { result.now ≡ (cut line_feed (drop at s.now)).0 }
{
    if s.len() <= at {
        return &s[0..0];
    }
    let end = next_at(s, at, b'\n');
    &s[at..end]
}

// The place after that line and its line feed; the end where no line follows. Free answer: the end from past it.
pub fn after_line(s: &[u8], at: usize) -> usize
    ensures { result ≡ min (next_at line_feed s.now at + 1) (length s.now) }
{
    let end = next_at(s, at, b'\n');
    if end < s.len() {
        return end + 1;
    }
    s.len()
}
