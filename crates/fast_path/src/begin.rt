// Whether a separator and a name stand at a place.
ghost use Rattle.std.specs.Prelude.{◌≡◌, ◌∷◌, drop};
ghost use Rattle.text.specs.Text.{starts_with};

// Whether a separator stands at a place, and a name after it. It is inlined, as the readers of an item are: they know the name, and calls cost
// 150 instructions a string more.
#[inline(always)]
pub fn begins(s: &[u8], at: usize, separator: u8, name: &[u8]) -> bool
    ensures { result ≡ starts_with (separator ∷ name.now) (drop at s.now) }
{
    s.get(at) == Some(&separator) && s[at + 1..].starts_with(name)
}
