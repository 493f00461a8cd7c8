// The directory's limits (specs/Braced.antt).

// Characters of `{pbkdf2s2}`, of `{pbkdf2s3}` and of what a card keeps in their place.
pub const PREFIX_LEN: usize = 10;

// No braced text of more characters is accepted or written.
pub const LONGEST_BRACED: usize = 171;
