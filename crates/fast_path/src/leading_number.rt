// The digits at a place, as a number of 32 bits.
ghost use Rattle.std.specs.Prelude.{◌≡◌, ◌<◌, length};
ghost use Rattle.fast_path.specs.WalkSteps.{LeadingNumberIs, Counted};

// A number, and the place after its digits.
#[derive(Clone, Copy)]
pub struct LeadingNumber {
    pub value: u32,
    pub next: usize,
}

// All digits are counted: at least one, and no leading zero.
fn finished(s: &[u8], at: usize, value: u32, next: usize) -> Option<LeadingNumber>
    requires { (at < length s.now) × Counted s.now at value next }
    ensures { LeadingNumberIs s.now at result }
{
    if next == at {
        return None;
    }
    if s[at] == b'0' && next != at + 1 {
        return None;
    }
    Some(LeadingNumber { value, next })
}

// The digits one after the other, while their number has 32 bits; none where no decimal of 32 bits stands there.
pub fn number(s: &[u8], at: usize) -> Option<LeadingNumber>
    ensures { LeadingNumberIs s.now at result }
{
    if s.len() <= at {
        return None;
    }
    let mut n = 0u32;
    for (i, c) in s[at..].iter().enumerate() {
        // past 9 where the byte is no digit
        let d = c.wrapping_sub(b'0');
        if 9 < d {
            return finished(s, at, n, at + i);
        }
        n = n.checked_mul(10)?.checked_add(u32::from(d))?;
    }
    finished(s, at, n, s.len())
}
