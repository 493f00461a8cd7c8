// The grammar reader: where the pieces of a string stand, or what is wrong with it.
ghost use Rattle.std.specs.Prelude.{◌≡◌};
ghost use Rattle.grammar.specs.Layout.{layout_answer, layout};

use crate::places::Places;
use crate::rules::{bad_string, items_of, judge};
use crate::sorting::sort;
use refusals::Refusal;

// Where the pieces stand, and how many items the parameters have.
#[derive(Clone, Copy)]
pub struct Layout {
    pub places: Places,
    pub items: usize,
}

// The grammar reader: the first of rows 1 to 7 that applies, or the places and the number of items.
#[tactic(auto, using(crate::proofs::Reading::bad_string_begins))]
pub fn read(s: &[u8]) -> Result<Layout, Refusal>
    ensures { layout_answer result ≡ layout s.now }
{
    if bad_string(s) {
        return Err(Refusal::BadString);
    }
    let sorted = sort(s);
    judge(s, sorted)?;
    Ok(Layout {
        places: sorted.places,
        items: items_of(s, sorted.places),
    })
}
