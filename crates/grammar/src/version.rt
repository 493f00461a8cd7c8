// The number in a version piece.
ghost use Rattle.std.specs.Prelude.{◌≡◌};
ghost use Rattle.grammar.specs.Rules.{version_reading};

use crate::limits::LARGEST_VERSION;
use decimal::error::DecimalError;
use decimal::reader::read_within;

// What stands after a version piece's `v=`, read as a number from 0 to 4,294,967,295. Free answer: the first two bytes are not
// looked at.
#[tactic(auto, unfolding(crate::specs::Rules::version_reading))]
pub fn version_number(text: &[u8]) -> Result<u64, DecimalError>
    ensures { result ≡ version_reading text.now }
{
    match text.get(2..) {
        Some(number) => read_within(number, 0, LARGEST_VERSION),
        None => Err(DecimalError::Malformed),
    }
}
