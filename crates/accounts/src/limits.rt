// The limits of account text.

// In bytes, without the line feed.
pub const LONGEST_LINE: usize = 512;

// The bytes that are kept of an unfinished line: one more than the longest line.
pub const MOST_KEPT: usize = 513;
