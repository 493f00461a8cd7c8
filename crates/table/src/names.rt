// The names of the ids, as one constant table. A caller takes it once, `let names = &NAMES;`, and hands it down.
ghost use Rattle.std.specs.Prelude.{◌≡◌};
ghost use Rattle.table.specs.Columns.{name_in};

use grammar::places::{Span, part};
use text::units::Chars;

// Names stand at the indexes 1 to 5; the one at 0 is empty.
pub const NAME_COUNT: usize = 6;

// A name takes nine bytes: its length, its bytes, and zeros after a short one.
const STRIDE: usize = 9;

// The names, one after the other.
pub const NAMES: [u8; 54] =
    *b"\0\0\0\0\0\0\0\0\0\x07argon2d\0\x07argon2i\0\x08argon2id\x08pbkdf2s2\x08pbkdf2s3";

// The name at an index of the table. Free answer: empty past the last.
#[tactic(auto, unfolding(crate::specs::Columns::name_in, grammar::specs::Parts::part_at))]
pub fn name_at(names: &[u8], index: usize) -> &[u8]
    ensures { result.now ≡ name_in names.now index }
{
    if NAME_COUNT <= index {
        return &names[..0];
    }
    let at = index * STRIDE;
    let Some(&len) = names.get(at) else {
        return &names[..0];
    };
    part(
        names,
        Span {
            at: at + 1,
            len: Chars(usize::from(len)),
        },
    )
}
