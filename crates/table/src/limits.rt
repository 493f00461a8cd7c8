// What a profile says, as plain data (specs/Limits.antt).
use crate::version::Version;
use text::units::Bytes;

// No permitted string has more bytes.
pub const LONGEST_PERMITTED: usize = 265;

// A number. Required: always written. Defaulted: left out where it is `default`. Constant: no parameter of this id, its number is `value`.
#[derive(Clone, Copy)]
pub enum NumberRule {
    Required { low: u32, high: u32 },
    Defaulted { low: u32, high: u32, default: u32 },
    Constant { value: u32 },
}

// A byte string: of `low` to `high` bytes, left out where it is empty; or always empty. An enum of its own: specs/Limits.antt is stated on it.
#[derive(Clone, Copy)]
pub enum BytesRule {
    Sized { low: Bytes, high: Bytes },
    Forbidden,
}

// The versions that may be written: none, or one of two. A version may always be absent. An enum of its own: the public `version_allowed` takes it.
#[derive(Clone, Copy)]
pub enum Versions {
    Never,
    Either(u32, u32),
}

// The numbers that the short writer uses.
#[derive(Clone, Copy)]
pub struct ShortDefaults {
    pub version: Version,
    pub m: u32,
    pub t: u32,
    pub p: u32,
}

// A column of document 01's table. `name` is an index into the names (src/names.rt), `implied` the algorithm version that a string
// without a version means.
#[derive(Clone, Copy)]
pub struct Column {
    pub known: bool,
    pub name: usize,
    pub versions: Versions,
    pub implied: u32,
    pub m: NumberRule,
    pub t: NumberRule,
    pub p: NumberRule,
    pub keyid: BytesRule,
    pub data: BytesRule,
    pub salt: BytesRule,
    pub output: BytesRule,
    pub defaults: ShortDefaults,
}
