// Texts as bytes, whatever their format: walks over them, writing from a place in a lent buffer, and the two units of length.
// Every law that mentions no format stands in proofs/.
#![tactic(auto)]

pub mod lines;
pub mod order;
pub mod place;
pub mod scan;
pub mod units;
