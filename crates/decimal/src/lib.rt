// Decimals: `0`, or a digit 1 to 9 and any further digits, or a minus sign before such a number other than 0.
#![tactic(auto)]

pub mod error;
pub mod reader;
mod signs;
pub mod writer;
