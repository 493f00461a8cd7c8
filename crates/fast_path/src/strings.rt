// Two byte strings, one after the other: keyid and data among the parameters, or salt and output.
ghost use Rattle.std.specs.Prelude.{◌+◌, ◌≤◌, true, false, [], length, drop};
ghost use Rattle.grammar.specs.Bytes.{dollar};
ghost use Rattle.fast_path.specs.Walk.{pair_in};
ghost use Rattle.fast_path.specs.WalkSteps.{most, TwoAre};

use crate::items::bytes_item;
use table::limits::BytesRule;

// The place after two byte strings, and the places after the bytes of the first and of the second.
#[derive(Clone, Copy)]
pub struct Two {
    pub next: usize,
    pub middle: usize,
    pub end: usize,
}

// Two byte strings among the parameters, each after its separator and its name, or none.
pub fn two_keys(
    a: BytesRule,
    a_name: &[u8],
    b: BytesRule,
    b_name: &[u8],
    s: &[u8],
    at: usize,
    separator: u8,
    out: &mut [u8],
    from: usize,
) -> Option<Two>
    requires { (at ≤ length s.now) × (from + most a + most b ≤ length out.old) }
    ensures { TwoAre (pair_in a a_name.now b b_name.now false separator (drop at s.now)) (most a + most b) s.now out.old from out.new result }
{
    let first = bytes_item(a, a_name, s, at, separator, out, from)?;
    let second = bytes_item(b, b_name, s, first.next, first.separator, out, first.end)?;
    Some(Two {
        next: second.next,
        middle: first.end,
        end: second.end,
    })
}

// Salt and output, each with its own `$`.
pub fn two_pieces(
    a: BytesRule,
    b: BytesRule,
    s: &[u8],
    at: usize,
    out: &mut [u8],
    from: usize,
) -> Option<Two>
    requires { (at ≤ length s.now) × (from + most a + most b ≤ length out.old) }
    ensures { TwoAre (pair_in a [] b [] true dollar (drop at s.now)) (most a + most b) s.now out.old from out.new result }
{
    let first = bytes_item(a, b"", s, at, b'$', out, from)?;
    let second = bytes_item(b, b"", s, first.next, b'$', out, first.end)?;
    Some(Two {
        next: second.next,
        middle: first.end,
        end: second.end,
    })
}
