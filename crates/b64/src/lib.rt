// B64: RFC 4648 section 4 without padding or whitespace.
#![tactic(auto)]

pub mod alphabet;
pub mod canonical;
pub mod decoder;
pub mod encoder;
mod group_bytes;
pub mod groups;
pub mod lengths;
mod letters;
mod sextets;
