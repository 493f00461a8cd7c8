// The rule of each piece, and rows 1 to 7.
ghost use Rattle.std.specs.Prelude.{◌≡◌, true, length};
ghost use Rattle.refusals.specs.Numbers.{number};
ghost use Rattle.text.specs.Rows.{first_number};
ghost use Rattle.grammar.specs.Pieces.{pieces};
ghost use Rattle.grammar.specs.Items.{items_of};
ghost use Rattle.grammar.specs.Rules.{is_version, is_output, rule_of, begins_with_dollar, bad_string, breaks, piece_rows};
ghost use Rattle.grammar.specs.Layout.{places_of};
ghost use Rattle.grammar.specs.SortingSteps.{sorted_of};

use crate::items::{is_params, item_count};
use crate::limits::{LONGEST_OUTPUT, LONGEST_STRING};
use crate::names::is_name;
use crate::places::{Piece, Places, part, span_of};
use crate::sorting::Sorted;
use crate::values::is_value;
use crate::version::version_number;
use b64::canonical::is_canonical;
use refusals::Refusal;

// Row 1.
#[tactic(auto, unfolding(crate::specs::Rules::bad_string))]
pub fn bad_string(s: &[u8]) -> bool
    ensures { result ≡ bad_string s.now }
{
    LONGEST_STRING < s.len() || s.first() != Some(&b'$')
}

#[tactic(auto, unfolding(crate::specs::Rules::is_version))]
fn is_version(text: &[u8]) -> bool
    ensures { result ≡ is_version text.now }
{
    version_number(text).is_ok()
}

#[tactic(auto, unfolding(crate::specs::Rules::is_output))]
fn is_output(text: &[u8]) -> bool
    ensures { result ≡ is_output text.now }
{
    (1..=LONGEST_OUTPUT.0).contains(&text.len()) && is_canonical(text)
}

// Whether a text keeps the rule of its piece.
fn keeps_rule(text: &[u8], which: Piece) -> bool
    ensures { result ≡ rule_of which text.now }
{
    match which {
        Piece::Id => is_name(text),
        Piece::Version => is_version(text),
        Piece::Params => is_params(text),
        Piece::Salt => is_value(text),
        Piece::Output => is_output(text),
    }
}

// Rows 2 to 6: whether a piece that is there breaks its rule.
#[tactic(auto, using(crate::proofs::RuleLaws::keeps_present))]
fn breaks(s: &[u8], places: Places, which: Piece) -> bool
    requires { (begins_with_dollar s.now ≡ true) × (places ≡ places_of (pieces s.now)) }
    ensures { result ≡ breaks (pieces s.now) which }
{
    let span = span_of(places, which);
    span.at != 0 && !keeps_rule(part(s, span), which)
}

// Rows 2 to 7: the first that applies.
pub fn judge(s: &[u8], sorted: Sorted) -> Result<(), Refusal>
    requires { (begins_with_dollar s.now ≡ true) × (sorted ≡ sorted_of (pieces s.now)) }
    ensures { number result ≡ first_number (piece_rows (pieces s.now)) }
{
    if breaks(s, sorted.places, Piece::Id) {
        return Err(Refusal::BadId);
    }
    if breaks(s, sorted.places, Piece::Version) {
        return Err(Refusal::BadVersion);
    }
    if breaks(s, sorted.places, Piece::Params) {
        return Err(Refusal::BadParameters);
    }
    if breaks(s, sorted.places, Piece::Salt) {
        return Err(Refusal::BadSalt);
    }
    if breaks(s, sorted.places, Piece::Output) {
        return Err(Refusal::BadOutput);
    }
    if sorted.more {
        return Err(Refusal::TooManyPieces);
    }
    Ok(())
}

// The number of items; 0 where there is no parameter piece.
#[tactic(auto, using(crate::proofs::RuleLaws::items_present))]
pub fn items_of(s: &[u8], places: Places) -> usize
    requires { (begins_with_dollar s.now ≡ true) × (places ≡ places_of (pieces s.now)) }
    ensures { result ≡ length (items_of (pieces s.now).params) }
{
    if places.params.at == 0 {
        0
    } else {
        item_count(part(s, places.params))
    }
}
