// Document 01's table of the five profiles: a column for each id, and whether a number, a byte string or a version is what its column allows.
#![tactic(auto)]

pub mod bounds;
pub mod columns;
pub mod ids;
pub mod limits;
pub mod names;
pub mod omitted;
pub mod ranges;
pub mod version;
