// The grammar's limits (specs/Limits.antt).
use text::units::Chars;

// Bytes of an id and of a parameter's name.
pub const LONGEST_NAME: usize = 32;

// Bytes of a value and of a salt.
pub const LONGEST_VALUE: usize = 128;

// Characters of an output.
pub const LONGEST_OUTPUT: Chars = Chars(128);

// Items of a parameter piece.
pub const MOST_ITEMS: usize = 16;

// A version's number.
pub const LARGEST_VERSION: u64 = 4294967295;

// Bytes of a whole string.
pub const LONGEST_STRING: usize = 2896;
