// All that a string carries, in one answer.
use profile::fields::Record;
use text::units::Bytes;

// What an accepted string gives: the reader's record, and how many bytes each of the four byte strings has.
#[derive(Clone, Copy)]
pub struct Contents {
    pub reading: Record,
    pub keyid: Bytes,
    pub data: Bytes,
    pub salt: Bytes,
    pub output: Bytes,
}
