// Whether a number, a size or a version lies within its rule.
ghost use Rattle.std.specs.Prelude.{◌≡◌};
ghost use Rattle.text.specs.Text.{has};
ghost use Rattle.table.specs.Limits.{in_range, memory_too_little, is_size, version_allowed};
ghost use Rattle.table.specs.Columns.{listed};

use crate::limits::{BytesRule, NumberRule, Versions};
use crate::ranges::{highest_of, lowest_of};
use crate::version::Version;
use text::units::Bytes;

// Whether a number is in the range of its own rule. Free answer: an m of 1 to 7 is; that m is at least 8p is
// `memory_too_little`.
pub fn in_range(rule: NumberRule, n: u32) -> bool
    ensures { result ≡ in_range rule n }
{
    (lowest_of(rule)..=highest_of(rule)).contains(&n)
}

// m < 8p, tested without a product that can wrap.
pub fn memory_too_little(m: u32, p: u32) -> bool
    ensures { result ≡ memory_too_little m p }
{
    m / 8 < p
}

// Whether a byte string that is there may have so many bytes. Free answer: one that is forbidden may have none, not even 0.
pub fn is_size(rule: BytesRule, size: Bytes) -> bool
    ensures { result ≡ is_size rule size.0 }
{
    match rule {
        BytesRule::Sized { low, high } => (low.0..=high.0).contains(&size.0),
        BytesRule::Forbidden => false,
    }
}

fn is_listed(versions: Versions, n: u32) -> bool
    ensures { result ≡ has n (listed versions) }
{
    match versions {
        Versions::Never => false,
        Versions::Either(a, b) => [a, b].contains(&n),
    }
}

// Whether a version may stand: absent, or one of those that may be written. Free answer: in the column of no profile absent is
// allowed too.
pub fn version_allowed(versions: Versions, version: Version) -> bool
    ensures { result ≡ version_allowed (listed versions) version }
{
    match version {
        Version::Absent => true,
        Version::Number(n) => is_listed(versions, n),
    }
}
