// The only way between the two units: bytes for characters of B64, and characters for bytes.
ghost use Rattle.std.specs.Prelude.{◌≡◌};
ghost use Rattle.b64.specs.Lengths.{bytes_of, chars_within};

use text::units::{Bytes, Chars};

// The bytes that so many characters of B64 hold. Free answer: a single character left over holds none.
pub fn decoded_len(n: Chars) -> Bytes
    ensures { result.0 ≡ bytes_of n.0 }
{
    let k = n.0;
    Bytes(k / 4 * 3 + k % 4 * 3 / 4)
}

// The characters of B64 that so many bytes take. Free answer: the largest usize where that is more.
// By saturating_mul and saturating_add, phc_write takes 5 to 14 instructions more.
pub fn encoded_len(n: Bytes) -> Chars
    ensures { result.0 ≡ chars_within n.0 }
{
    let k = n.0;
    let groups = k / 3;
    let rest = (k % 3 * 4 + 2) / 3;
    if groups <= (usize::MAX - rest) / 4 {
        Chars(groups * 4 + rest)
    } else {
        Chars(usize::MAX)
    }
}
