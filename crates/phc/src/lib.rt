// The entries of the profile, the directory and the account text for programs in other languages: numbers and byte slices, under C names
// (include/phc.h).
#![tactic(auto)]

pub mod batch;
pub mod braced;
mod code;
mod handed;
pub mod read_all;
pub mod reading;
mod record;
pub mod writing;
