// One line of account text, without its line feed: name, tab, string.
ghost use Rattle.std.specs.Prelude.{◌≡◌, ◌==◌, IfOk};
ghost use Rattle.std.specs.List.{position};
ghost use Rattle.text.specs.Text.{tab};
ghost use Rattle.refusals.specs.Numbers.{number};
ghost use Rattle.accounts.specs.Lines.{string_of, line_refusal, line_answer, judge_answer};

use crate::limits::LONGEST_LINE;
use fast_path::reader::read;
use grammar::names::is_name;
use profile::fields::Kind;
use refusals::Refusal;

// The number of a line, and the kind of its string: 1 parameters, 2 salt, 3 hash; 0 where the line is refused.
// Numbers and no Result, as a row of the listing shows any number and kind as they are.
#[derive(Clone, Copy)]
pub struct Answer {
    pub number: u8,
    pub kind: u8,
}

// Those of what `judge` gives.
impl From<Result<Kind, Refusal>> for Answer {
    ghost from_gives = { λ judged a. a ≡ judge_answer judged };

    fn from(judged: Result<Kind, Refusal>) -> Answer {
        match judged {
            Ok(kind) => Answer {
                number: 0,
                kind: kind.number(),
            },
            Err(refusal) => Answer {
                number: refusal.number(),
                kind: 0,
            },
        }
    }
}

// The place of the first tab.
fn first_tab(line: &[u8]) -> Option<usize>
    ensures { result ≡ position (λ x. x == tab) line.now }
{
    line.iter().position(|c| *c == b'\t')
}

// The string of a line: all after its first tab. 18 or 19 where that row applies.
fn string_of(line: &[u8]) -> Result<&[u8], Refusal>
    ensures refusal { number result ≡ line_refusal line.now }
    ensures string { IfOk result (λ s. s.now ≡ string_of line.now) }
{
    // Known by the length: a long line is refused without a look at its bytes.
    if LONGEST_LINE < line.len() {
        return Err(Refusal::LineTooLong);
    }
    match first_tab(line) {
        Some(tab) if is_name(&line[..tab]) => Ok(&line[tab + 1..]),
        _ => Err(Refusal::BadName),
    }
}

// Judges one line, whatever bytes it holds: 18, 19, or what the profile reader says of all after its first tab.
pub fn judge(line: &[u8]) -> Result<Kind, Refusal>
    ensures { judge_answer result ≡ line_answer line.now }
{
    let string = string_of(line)?;
    let record = read(string)?;
    Ok(record.kind)
}
