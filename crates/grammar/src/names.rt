// Ids and names of parameters.
ghost use Rattle.std.specs.Prelude.{◌≡◌};
ghost use Rattle.grammar.specs.Rules.{is_name};

use crate::bytes::is_name_byte;
use crate::limits::LONGEST_NAME;

// An id or the name of a parameter: 1 to 32 bytes of their set.
#[tactic(auto, unfolding(crate::specs::Bytes::is_text))]
pub fn is_name(text: &[u8]) -> bool
    ensures { result ≡ is_name text.now }
{
    (1..=LONGEST_NAME).contains(&text.len()) && text.iter().all(|&c| is_name_byte(c))
}
