// The fast path: an accepted string is read in one walk, from its first byte to its last; any other goes to the profile's reader. The answer is
// the profile's own.
#![tactic(auto)]

mod begin;
pub mod contents;
mod items;
mod leading_number;
mod numbers;
pub mod reader;
mod strings;
mod walk;
