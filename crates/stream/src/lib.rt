// The listing as a program runs it: rows gather in a buffer and go to a writer when no more fit. The rows are those that
// `accounts::listing` promises. The contracts here say little: that what waits lies in the buffer, that a failed write is not forgotten
// and nothing is written after it, and what a writer that tells its bytes holds once the rows that wait are written.
#![tactic(auto)]

pub mod rows;
