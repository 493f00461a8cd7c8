// The five profiles over the grammar's promises: argon2d, argon2i, argon2id, pbkdf2s2, pbkdf2s3.
#![tactic(auto)]

mod byte_strings;
mod bytes_field;
pub mod fields;
mod judge;
mod name_field;
mod number_field;
mod parsed;
pub mod reader;
mod tagged;
mod values;
mod version_field;
pub mod writer;
mod writer_rows;
mod writer_text;
