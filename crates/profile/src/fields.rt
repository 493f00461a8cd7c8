// The fields of a string. The four byte strings travel beside the number fields.
ghost use Rattle.std.specs.Prelude.{◌≡◌};
ghost use Rattle.profile.specs.Entries.{kind_number};

use table::version::Version;

// The number fields: id, version, m, t and p. id is 1 to 5 in the order of the profiles' list; p is a u32, so that what is too large is refused
// and not wrapped.
#[derive(Clone, Copy)]
pub struct NumberFields {
    pub id: u8,
    pub version: Version,
    pub m: u32,
    pub t: u32,
    pub p: u32,
}

// One of the four byte strings.
#[derive(Clone, Copy)]
pub enum ByteString {
    Keyid,
    Data,
    Salt,
    Output,
}

// The kind of a string: parameters alone, with a salt, or with an output too.
#[derive(Clone, Copy, Debug, PartialEq, Eq)]
pub enum Kind {
    Parameters = 1,
    Salt = 2,
    Hash = 3,
}

impl Kind {
    // Its number in the papers.
    pub fn number(self) -> u8
        ensures { result ≡ kind_number self }
    {
        self as u8
    }
}

// What the profile reader gives of a string that is accepted.
#[derive(Clone, Copy)]
pub struct Record {
    pub kind: Kind,
    pub fields: NumberFields,
}
