// The items of a parameter piece.
ghost use Rattle.std.specs.Prelude.{◌≡◌, length};
ghost use Rattle.text.specs.Text.{cut};
ghost use Rattle.grammar.specs.Bytes.{equals};
ghost use Rattle.grammar.specs.Items.{items};
ghost use Rattle.grammar.specs.Rules.{is_item, is_params};

use crate::limits::MOST_ITEMS;
use crate::names::is_name;
use crate::values::is_value;
use text::scan::same_text;

// What stands before the first `=` of an item and what stands after it; all and nothing where there is none.
pub fn name_and_value(item: &[u8]) -> (&[u8], &[u8])
    ensures name { result.0.now ≡ (cut equals item.now).0 }
    ensures value { result.1.now ≡ (cut equals item.now).1 }
{
    match item.iter().position(|&c| c == b'=') {
        Some(at) => (&item[..at], &item[at + 1..]),
        None => (item, &item[..0]),
    }
}

#[tactic(auto, unfolding(crate::specs::Rules::is_item))]
fn is_item(item: &[u8]) -> bool
    ensures { result ≡ is_item (cut equals item.now) }
{
    let (name, value) = name_and_value(item);
    is_name(name) && !same_text(name, b"v") && is_value(value)
}

// The number of items: one more than the commas.
pub fn item_count(params: &[u8]) -> usize
    ensures { result ≡ length (items params.now) }
{
    params.iter().filter(|&&c| c == b',').count() + 1
}

// 1 to 16 items, each by its rule: one walk, which ends at the first fault.
pub fn is_params(params: &[u8]) -> bool
    ensures { result ≡ is_params params.now }
{
    params
        .split(|&c| c == b',')
        .enumerate()
        .all(|(n, item)| n < MOST_ITEMS && is_item(item))
}
