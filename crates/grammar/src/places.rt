// Where the pieces of a string stand, and the part of the string at such a place.
ghost use Rattle.std.specs.Prelude.{◌≡◌};
ghost use Rattle.grammar.specs.Layout.{span_of};
ghost use Rattle.grammar.specs.Parts.{part_at};

use text::place::has_room;
use text::units::Chars;

// 01's pieces: the bytes after a `$`; the version includes its `v=`, the parameters their commas.
#[derive(Clone, Copy)]
pub enum Piece {
    Id,
    Version,
    Params,
    Salt,
    Output,
}

// Where a piece stands: its place and its length; 0 and 0 for an absent one.
#[derive(Clone, Copy)]
pub struct Span {
    pub at: usize,
    pub len: Chars,
}

impl Span {
    // The span of what is not there.
    pub const NONE: Span = Span {
        at: 0,
        len: Chars(0),
    };
}

// Where the five pieces stand.
#[derive(Clone, Copy)]
pub struct Places {
    pub id: Span,
    pub version: Span,
    pub params: Span,
    pub salt: Span,
    pub output: Span,
}

// The span of one of the pieces.
pub fn span_of(places: Places, which: Piece) -> Span
    ensures { result ≡ span_of places which }
{
    match which {
        Piece::Id => places.id,
        Piece::Version => places.version,
        Piece::Params => places.params,
        Piece::Salt => places.salt,
        Piece::Output => places.output,
    }
}

// The part at a place and of a length. Free answer: empty where it doesn't lie inside.
#[tactic(auto, unfolding(crate::specs::Parts::part_at))]
pub fn part(s: &[u8], span: Span) -> &[u8]
    ensures { result.now ≡ part_at s.now span }
{
    if has_room(s.len(), span.at, span.len.0) {
        &s[span.at..span.at + span.len.0]
    } else {
        &s[..0]
    }
}
