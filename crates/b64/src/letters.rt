// The B64 alphabet, from sextets to characters.
ghost use Rattle.std.specs.Prelude.{◌≡◌, ◌<◌};
ghost use Rattle.b64.specs.B64.{letter, Letters};

// The letter of each sextet.
const LETTERS: [u8; 64] = [
    65, 66, 67, 68, 69, 70, 71, 72, 73, 74, 75, 76, 77, 78, 79, 80, 81, 82, 83, 84, 85, 86, 87, 88,
    89, 90, 97, 98, 99, 100, 101, 102, 103, 104, 105, 106, 107, 108, 109, 110, 111, 112, 113, 114,
    115, 116, 117, 118, 119, 120, 121, 122, 48, 49, 50, 51, 52, 53, 54, 55, 56, 57, 43, 47,
];

// A table of each sextet's letter, taken once as SextetTable is.
#[derive(Clone, Copy)]
pub struct LetterTable<'a> {
    entries: &'a [u8; 64],
    ghost holds_letters: { Letters entries.now },
}

impl LetterTable<'static> {
    pub fn new() -> Self {
        LetterTable { entries: &LETTERS }
    }
}

impl LetterTable<'_> {
    // The letter of a sextet.
    pub fn letter_of(self, v: u8) -> u8
        requires { v < 64 }
        ensures { result ≡ letter v }
    {
        self.entries[usize::from(v)]
    }
}
