// Values of parameters, and salts.
ghost use Rattle.std.specs.Prelude.{◌≡◌};
ghost use Rattle.grammar.specs.Rules.{is_value};

use crate::bytes::is_value_byte;
use crate::limits::LONGEST_VALUE;

// The value of a parameter or a salt: 1 to 128 bytes of their set.
#[tactic(auto, unfolding(crate::specs::Bytes::is_text))]
pub fn is_value(text: &[u8]) -> bool
    ensures { result ≡ is_value text.now }
{
    (1..=LONGEST_VALUE).contains(&text.len()) && text.iter().all(|&c| is_value_byte(c))
}
