// One answer for two things: a hundred times what was found, or the refusal's number, which is below 100.
ghost use Rattle.std.specs.Prelude.{◌*◌, ◌≤◌, ◌≡◌};
ghost use Rattle.refusals.specs.Numbers.{number_of};
ghost use Rattle.table.specs.Limits.{largest32};

use refusals::Refusal;

pub fn found(n: u64) -> u64
    requires { n ≤ largest32 }
    ensures { result ≡ 100 * n }
{
    n * 100
}

pub fn refused(refusal: Refusal) -> u64
    ensures { result ≡ number_of refusal }
{
    u64::from(refusal.number())
}
