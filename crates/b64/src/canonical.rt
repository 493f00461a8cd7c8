// Canonical B64 texts.
ghost use Rattle.std.specs.Prelude.{◌≡◌};
ghost use Rattle.b64.specs.B64.{canonical};

use crate::sextets::{SextetTable, is_canonical_by};

// Every byte is of the alphabet, the length modulo 4 is not 1, and the unused low bits of the last character are zero.
pub fn is_canonical(text: &[u8]) -> bool
    ensures { result ≡ canonical text.now }
{
    let table = SextetTable::new();
    is_canonical_by(table, text)
}
