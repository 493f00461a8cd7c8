// The name of an id: its length, and putting it after a `$`.
ghost use Rattle.std.specs.Prelude.{suc, ◌≤◌, ◌≡◌, ◌∷◌, length};
ghost use Rattle.text.specs.Place.{Wrote};
ghost use Rattle.grammar.specs.Bytes.{dollar};
ghost use Rattle.table.specs.Columns.{name_at};

use crate::tagged::put_text;
use table::names::{NAMES, name_at};
use text::units::Chars;

// The length of the name at an index of the table.
pub fn name_len(index: usize) -> Chars
    ensures { result.0 ≡ length (name_at index) }
{
    Chars(name_at(&NAMES, index).len())
}

// Puts a `$` and the name at an index of the table at the start of a buffer.
pub fn put_name(index: usize, out: &mut [u8]) -> Chars
    requires { suc (length (name_at index)) ≤ length out.old }
    ensures { Wrote (dollar ∷ name_at index) out.old out.new result.0 }
{
    let after_dollar = put_text(b"$", out).0;
    Chars(after_dollar + put_text(name_at(&NAMES, index), &mut out[after_dollar..]).0)
}
