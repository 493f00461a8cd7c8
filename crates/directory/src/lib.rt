// The directory's spelling of pbkdf2 strings: `{pbkdf2s2}rest` where a card keeps `$pbkdf2s2$rest`.
#![tactic(auto)]

mod braced;
pub mod limits;
pub mod reader;
pub mod writer;
