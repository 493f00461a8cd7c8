// The classes of bytes that the rules name.
ghost use Rattle.std.specs.Prelude.{◌≡◌};
ghost use Rattle.grammar.specs.Bytes.{is_name_byte, is_value_byte};

// A byte of an id or of a parameter's name.
#[tactic(auto, unfolding(crate::specs::Bytes::is_name_byte))]
pub fn is_name_byte(c: u8) -> bool
    ensures { result ≡ is_name_byte c }
{
    matches!(c, b'a'..=b'z' | b'0'..=b'9' | b'-')
}

// A byte of a parameter's value or of a salt.
#[tactic(auto, unfolding(crate::specs::Bytes::is_value_byte))]
pub fn is_value_byte(c: u8) -> bool
    ensures { result ≡ is_value_byte c }
{
    matches!(c, b'a'..=b'z' | b'A'..=b'Z' | b'0'..=b'9' | b'/' | b'+' | b'.' | b'-')
}
