// A group of four characters, as one number.
ghost use Rattle.std.specs.Prelude.{◌≡◌};
ghost use Rattle.b64.specs.B64.{group_of};

use crate::sextets::bits;

// The 24 bits of a group of four sextets, as one number; 2^24 where one of them is 255. One comparison tests all four: they sum to at most
// 4 * 63. Free answer: numbers from 64 to 254 go by the same formula, or give 2^24.
pub fn group(a: u8, b: u8, c: u8, d: u8) -> u32
    ensures { result ≡ group_of a b c d }
{
    if 252 < u32::from(a) + u32::from(b) + u32::from(c) + u32::from(d) {
        return 16777216;
    }
    bits(a, b, c, d)
}
