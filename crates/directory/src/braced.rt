// Braced texts and `$` strings: they differ in the first and the last byte of their prefix.
ghost use Rattle.std.specs.Prelude.{◌≤◌, ◌≡◌, true, length, set};
ghost use Rattle.std.proofs.Math.Option.{some};
ghost use Rattle.directory.specs.Braced.{dollar_string};
ghost use Rattle.directory.specs.BracedSteps.{prefix_length, is_braced};

use crate::limits::PREFIX_LEN;
use text::place::write_text;

// Whether a text goes on after one of the two prefixes.
pub fn is_braced(t: &[u8]) -> bool
    ensures { result ≡ is_braced t.now }
{
    if t.len() <= PREFIX_LEN {
        return false;
    }
    t.starts_with(b"{pbkdf2s2}") || t.starts_with(b"{pbkdf2s3}")
}

// Another first and last byte of the prefix.
pub fn mark(s: &mut [u8], first: u8, last: u8)
    requires { prefix_length ≤ length s.old }
    ensures { s.new ≡ set (set s.old 0 first) 9 last }
{
    s[0] = first;
    s[PREFIX_LEN - 1] = last;
}

// The `$` string of a braced text, at the start of an array that has room for it.
pub fn dollar_string<'a>(t: &[u8], out: &'a mut [u8]) -> &'a [u8]
    requires { (is_braced t.now ≡ true) × (length t.now ≤ length out.old) }
    ensures { dollar_string t.now ≡ some result.now }
{
    let string = &mut out[..t.len()];
    let _ = write_text(t, string, 0);
    mark(string, b'$', b'$');
    string
}
