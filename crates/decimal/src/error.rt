// What is wrong with a text that is read as a decimal over a range.
ghost use Rattle.refusals.specs.declared.Refusal.TheVariants.{WrongNumber};
ghost use Rattle.std.specs.Prelude.{◌≡◌};

use refusals::Refusal;

#[derive(Clone, Copy, Debug, PartialEq, Eq)]
pub enum DecimalError {
    // No decimal.
    Malformed,
    // A decimal outside the range.
    Outside,
}

// Both have the number of a wrong number.
impl From<DecimalError> for Refusal {
    ghost from_gives = { λ _ r. r ≡ WrongNumber };

    fn from(_error: DecimalError) -> Refusal {
        Refusal::WrongNumber
    }
}
