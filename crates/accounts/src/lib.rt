// Account text: one account a line, its name, a tab and its PHC string. The line rule, the listing of any input, and
// batches of lines.
#![tactic(auto)]

pub mod batch;
pub mod limits;
pub mod line;
pub mod listing;
mod room;
pub mod row;
