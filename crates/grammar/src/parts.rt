// Parts of the caller's own string, never a copy. They hand back no number: the grammar reader has it.
ghost use Rattle.std.specs.Prelude.{◌≡◌};
ghost use Rattle.grammar.specs.Parts.{piece_text, item_at};

use crate::items::name_and_value;
use crate::pieces::read;
use crate::places::{Piece, part, span_of};
use text::scan::nth_part;

// A piece; empty where it is not there or the string is refused.
pub fn piece(s: &[u8], which: Piece) -> &[u8]
    ensures { result.now ≡ piece_text s.now which }
{
    match read(s) {
        Ok(layout) => part(s, span_of(layout.places, which)),
        Err(_) => &s[..0],
    }
}

// The name of the item at an index from 0; empty past the last, or where the string is refused.
pub fn item_name(s: &[u8], index: usize) -> &[u8]
    ensures { result.now ≡ (item_at s.now index).0 }
{
    name_and_value(nth_part(piece(s, Piece::Params), b',', index)).0
}

// The value of the item at an index from 0; empty past the last, or where the string is refused.
pub fn item_value(s: &[u8], index: usize) -> &[u8]
    ensures { result.now ≡ (item_at s.now index).1 }
{
    name_and_value(nth_part(piece(s, Piece::Params), b',', index)).1
}
