// A step between numbers with and without a sign.
ghost use Rattle.std.specs.Prelude.{◌≡◌};
ghost use Rattle.decimal.specs.DecimalSteps.{complement_of};

// -1 - x, which fits for every x: 0 and -1, 1 and -2, .. change places.
pub fn complement(x: i64) -> i64
    ensures { result ≡ complement_of x }
{
    -1 - x
}
