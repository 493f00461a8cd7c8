// A number parameter that doesn't stand in the string.
ghost use Rattle.std.specs.Prelude.{◌≡◌};
ghost use Rattle.table.specs.Limits.{is_required, default_of, is_omitted};

use crate::limits::NumberRule;

// Whether it must stand there.
pub fn is_required(rule: NumberRule) -> bool
    ensures { result ≡ is_required rule }
{
    matches!(rule, NumberRule::Required { .. })
}

// The number that stands for one that is left out. Free answer: 0 for one that is required.
pub fn default_of(rule: NumberRule) -> u32
    ensures { result ≡ default_of rule }
{
    match rule {
        NumberRule::Required { .. } => 0,
        NumberRule::Defaulted { default, .. } => default,
        NumberRule::Constant { value } => value,
    }
}

// Whether a number is left out of the string: its default, or no parameter. Free answer: of one that is no parameter any number is.
pub fn is_omitted(rule: NumberRule, n: u32) -> bool
    ensures { result ≡ is_omitted rule n }
{
    match rule {
        NumberRule::Required { .. } => false,
        NumberRule::Defaulted { default, .. } => n == default,
        NumberRule::Constant { .. } => true,
    }
}
