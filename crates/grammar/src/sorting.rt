// Sorting the pieces of a string: the id, then the version, the parameters, the salt and the output where they are there.
ghost use Rattle.std.specs.Prelude.{◌≡◌, true};
ghost use Rattle.grammar.specs.Pieces.{belongs, pieces};
ghost use Rattle.grammar.specs.Rules.{begins_with_dollar};
ghost use Rattle.grammar.specs.SortingSteps.{Stepped, sorted_of};

use crate::places::{Piece, Places, Span};
use text::scan::next_at;
use text::units::Chars;

// `more`: pieces remain after the output.
#[derive(Clone, Copy)]
pub struct Sorted {
    pub places: Places,
    pub more: bool,
}

// The piece asked for, if it stands at the place, and where the next piece would begin.
#[derive(Clone, Copy)]
pub struct Step {
    pub span: Span,
    pub next: usize,
}

fn is_next(text: &[u8], which: Piece) -> bool
    ensures { result ≡ belongs which text.now }
{
    match which {
        Piece::Version => text.starts_with(b"v="),
        Piece::Params => text.contains(&b'='),
        Piece::Id | Piece::Salt | Piece::Output => true,
    }
}

#[tactic(auto, using(crate::proofs::SortLaws::stepped_past, crate::proofs::SortLaws::stepped_to, crate::proofs::SortLaws::stepped_not, text::proofs::Scanning::find_from_le))]
fn take_piece(s: &[u8], at: usize, which: Piece) -> Step
    ensures { Stepped s.now which at result.span result.next }
{
    if at <= s.len() {
        let end = next_at(s, at, b'$');
        if is_next(&s[at..end], which) {
            return Step {
                span: Span {
                    at,
                    len: Chars(end - at),
                },
                next: end + 1,
            };
        }
    }
    Step {
        span: Span::NONE,
        next: at,
    }
}

// The places of the pieces, each where it belongs, and whether more remain.
pub fn sort(s: &[u8]) -> Sorted
    requires { begins_with_dollar s.now ≡ true }
    ensures { result ≡ sorted_of (pieces s.now) }
{
    let a = take_piece(s, 1, Piece::Id);
    let b = take_piece(s, a.next, Piece::Version);
    let c = take_piece(s, b.next, Piece::Params);
    let d = take_piece(s, c.next, Piece::Salt);
    let e = take_piece(s, d.next, Piece::Output);
    Sorted {
        places: Places {
            id: a.span,
            version: b.span,
            params: c.span,
            salt: d.span,
            output: e.span,
        },
        more: e.next <= s.len(),
    }
}
