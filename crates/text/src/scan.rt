// Walks over texts: the next separator, the parts between separators, and whether two texts are the same.
ghost use Rattle.std.specs.Prelude.{◌≡◌, ◌==◌, [], get_or};
ghost use Rattle.std.specs.List.{position};
ghost use Rattle.text.specs.Text.{same, next_at, parts};

// The place of the first `byte`, where there is one.
fn position(s: &[u8], byte: u8) -> Option<usize>
    ensures { result ≡ position (λ x. x == byte) s.now }
{
    s.iter().position(|b| *b == byte)
}

// The place of the first `byte` from `from` on; the end where there is none. Free answer: `from` itself past the end.
pub fn next_at(s: &[u8], from: usize, byte: u8) -> usize
    ensures { result ≡ next_at byte s.now from }
{
    let Some(rest) = s.get(from..) else {
        return from;
    };
    from + position(rest, byte).unwrap_or(rest.len())
}

// Whether two texts have the same bytes.
pub fn same_text(a: &[u8], b: &[u8]) -> bool
    ensures { result ≡ same a.now b.now }
{
    a == b
}

// The part at an index from 0 between the separators. Free answer: empty past the last.
pub fn nth_part(s: &[u8], separator: u8, index: usize) -> &[u8]
    ensures { result.now ≡ get_or (parts separator s.now) index [] }
{
    s.split(|b| *b == separator).nth(index).unwrap_or(&s[..0])
}
