// The ends of the range of a number.
ghost use Rattle.std.specs.Prelude.{◌≡◌};
ghost use Rattle.table.specs.Limits.{lowest, highest};

use crate::limits::NumberRule;

// The low end. Free answer: the number itself where it is constant.
pub fn lowest_of(rule: NumberRule) -> u32
    ensures { result ≡ lowest rule }
{
    match rule {
        NumberRule::Required { low, .. } | NumberRule::Defaulted { low, .. } => low,
        NumberRule::Constant { value } => value,
    }
}

// The high end. Free answer: the number itself where it is constant.
pub fn highest_of(rule: NumberRule) -> u32
    ensures { result ≡ highest rule }
{
    match rule {
        NumberRule::Required { high, .. } | NumberRule::Defaulted { high, .. } => high,
        NumberRule::Constant { value } => value,
    }
}
