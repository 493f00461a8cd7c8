// Lengths in characters and lengths in bytes are two units: 22 characters of B64 hold 16 bytes. Only the two length functions of the
// library `b64` go between them.
ghost use Rattle.std.specs.Prelude.{◌≡◌};
ghost use Rattle.text.specs.Units.{sum_within};

// A length in characters of a text.
#[derive(Clone, Copy)]
pub struct Chars(pub usize);

// A length in bytes, decoded.
#[derive(Clone, Copy)]
pub struct Bytes(pub usize);

impl Chars {
    // The sum of two lengths in characters. Free answer: the largest usize where that is more.
    pub fn plus(self, more: Chars) -> Chars
        ensures { result.0 ≡ sum_within self.0 more.0 }
    {
        Chars(self.0.saturating_add(more.0))
    }
}
