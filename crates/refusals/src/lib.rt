// What is wrong with bad input: document 01's list, and 02's where a request has landed. An entry that refuses gives one of these, and each has
// its number, by which C and the listing say it.
#![tactic(auto)]

ghost use Rattle.std.specs.Prelude.{◌≡◌};
ghost use Rattle.refusals.specs.Numbers.{number, number_of};

#[derive(Clone, Copy, Debug, PartialEq, Eq)]
pub enum Refusal {
    // No bytes, more than 2,896, or first byte not `$`.
    BadString = 1,
    // Id piece breaks its rule.
    BadId = 2,
    // Version piece breaks its rule.
    BadVersion = 3,
    // Parameter piece breaks its rule.
    BadParameters = 4,
    // Salt piece breaks its rule.
    BadSalt = 5,
    // Output piece breaks its rule.
    BadOutput = 6,
    // More than two pieces remain after id, version, parameters.
    TooManyPieces = 7,
    // The id is not one of the five.
    UnknownId = 8,
    // The version is not permitted by the profile.
    VersionNotPermitted = 9,
    // Names missing, unknown, repeated or out of order.
    WrongNames = 10,
    // A number not a permitted decimal, out of range, or m < 8p.
    WrongNumber = 11,
    // keyid or data, or a text to be decoded, not canonical B64; or of a length not permitted.
    WrongBytes = 12,
    // pbkdf2 `t=20000` written out.
    WrittenOut = 13,
    // The salt, if there, not canonical B64 or its length not permitted.
    WrongSalt = 14,
    // The output, if there, of a length not permitted.
    WrongOutput = 15,
    // Writer only: output given without a salt.
    OutputWithoutSalt = 16,
    // The place lies past the buffer's end, or the bytes don't fit from there.
    NoRoom = 17,
    // Line over 512 bytes without its line feed.
    LineTooLong = 18,
    // No tab, or name not 1 to 32 of `a`..`z`, `0`..`9`, minus.
    BadName = 19,
    // A text without a directory's prefix, or with nothing after it; for the writer, another id, or fields that are written as the id alone.
    NoSpelling = 24,
}

impl Refusal {
    // Its number in the papers' list.
    pub fn number(self) -> u8
        ensures { result ≡ number_of self }
    {
        self as u8
    }
}

// The number of an entry's answer: 0 where it gives anything.
pub fn number_of<T>(answer: &Result<T, Refusal>) -> u8
    ensures { result ≡ number answer.now }
{
    match answer {
        Ok(_) => 0,
        Err(refusal) => refusal.number(),
    }
}
