// PHC strings of any function name: the reader of a string's pieces, and parts of a string.
// The definitions that the contracts cite stand in specs/; document 01's rules are in specs/Rules.antt.
#![tactic(auto)]

pub mod bytes;
pub mod item_places;
mod items;
pub mod limits;
pub mod names;
pub mod parts;
pub mod pieces;
pub mod places;
mod rules;
mod sorting;
mod values;
pub mod version;
