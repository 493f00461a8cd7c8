// The order of numbers.
ghost use Rattle.std.specs.Prelude.{◌≡◌, min};

// The smaller of two numbers.
pub fn min(a: usize, b: usize) -> usize
    ensures { result ≡ min a b }
{
    a.min(b)
}
