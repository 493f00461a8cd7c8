// The values of the five names in a parameter piece, found in one walk: where each stands in the piece.
ghost use Rattle.std.specs.Prelude.{◌≡◌, true, List, [], ℕ};
ghost use Rattle.text.specs.Text.{all};
ghost use Rattle.grammar.specs.Items.{items, items_from};
ghost use Rattle.grammar.specs.Rules.{is_item};
ghost use Rattle.profile.specs.ReaderSteps.{ValueStep, ValuesAre};

use grammar::item_places::item_place;
use grammar::places::{Span, part};
use text::scan::same_text;
use text::units::Chars;

// A value that is not there has the span 0 and 0. `unmatched`: items are left that have no name of the five, or not in their order.
#[derive(Clone, Copy)]
pub struct Values {
    pub m: Span,
    pub t: Span,
    pub p: Span,
    pub keyid: Span,
    pub data: Span,
    pub unmatched: bool,
}

// Where a value stands, and where the next item begins.
#[derive(Clone, Copy)]
pub struct Step {
    pub span: Span,
    pub next: usize,
}

// The value of the item at the place, if it has the name, and the place of the next item.
fn take_value(params: &[u8], at: usize, name: &[u8]) -> Step
    requires { all is_item (items_from params.now at) ≡ true }
    ensures { ValueStep params.now name.now at result.span result.next }
{
    let none = Span {
        at: 0,
        len: Chars(0),
    };
    if params.len() < at {
        return Step {
            span: none,
            next: at,
        };
    }
    let item = item_place(params, at);
    if same_text(part(params, item.name), name) {
        Step {
            span: item.value,
            next: item.next,
        }
    } else {
        Step {
            span: none,
            next: at,
        }
    }
}

// The values of a parameter piece that keeps its rule.
pub fn values_in(params: &[u8]) -> Values
    requires { all is_item (items params.now) ≡ true }
    ensures { ValuesAre params.now (items params.now) result }
{
    let m = take_value(params, 0, b"m");
    let t = take_value(params, m.next, b"t");
    let p = take_value(params, t.next, b"p");
    let keyid = take_value(params, p.next, b"keyid");
    let data = take_value(params, keyid.next, b"data");
    Values {
        m: m.span,
        t: t.span,
        p: p.span,
        keyid: keyid.span,
        data: data.span,
        unmatched: data.next <= params.len(),
    }
}

// The values where there is no parameter piece.
pub fn no_values() -> Values
    ensures { (t : List ℕ) → ValuesAre t [] result }
{
    let none = Span {
        at: 0,
        len: Chars(0),
    };
    Values {
        m: none,
        t: none,
        p: none,
        keyid: none,
        data: none,
        unmatched: false,
    }
}
