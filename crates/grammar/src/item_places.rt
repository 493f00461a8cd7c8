// Where the items of a parameter piece stand.
ghost use Rattle.std.specs.Prelude.{◌≡◌};
ghost use Rattle.grammar.specs.ItemPlaces.{item_place};

use crate::places::Span;
use text::scan::next_at;
use text::units::Chars;

// Where an item stands: its name, its value (0 and 0 where it has no `=`), and where the next item would begin.
#[derive(Clone, Copy)]
pub struct ItemPlace {
    pub name: Span,
    pub value: Span,
    pub next: usize,
}

// The item that begins at a place, read no further than its comma. Free answer: past the end nothing stands, and the next place is the
// same.
pub fn item_place(params: &[u8], at: usize) -> ItemPlace
    ensures { result ≡ item_place params.now at }
{
    if params.len() < at {
        return ItemPlace {
            name: Span::NONE,
            value: Span::NONE,
            next: at,
        };
    }
    let end = next_at(params, at, b',');
    let item = &params[at..end];
    let len = next_at(item, 0, b'=');
    let value = if len < item.len() {
        let start = at + len + 1;
        Span {
            at: start,
            len: Chars(end - start),
        }
    } else {
        Span::NONE
    };
    ItemPlace {
        name: Span {
            at,
            len: Chars(len),
        },
        value,
        next: end + 1,
    }
}
