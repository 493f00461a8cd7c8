// What the programs of known answers share: the columns of a row, and answers on standard output. The contracts determine what a row's
// columns hold; of what is written they say nothing.
#![tactic(auto)]

pub mod buffer;
pub mod columns;
pub mod fields;
pub mod hex;
pub mod show;
