// The version: its piece's text, and its length.
ghost use Rattle.std.specs.Prelude.{◌≤◌, ◌≡◌, length};
ghost use Rattle.text.specs.Text.{text};
ghost use Rattle.text.specs.Place.{Wrote};
ghost use Rattle.profile.specs.Fields.{write_version};
ghost use Rattle.profile.specs.PieceTexts.{tagged, tagged_length};

use crate::tagged::{decimal_len, put_decimal};
use table::version::Version;
use text::units::Chars;

// The length of the version piece with its `$`; nothing where the version is absent.
pub fn version_len(version: Version) -> Chars
    ensures { result.0 ≡ tagged_length 1 (write_version version) }
{
    match version {
        Version::Absent => Chars(0),
        Version::Number(n) => decimal_len(Chars(3), n),
    }
}

// Puts the version piece with its `$` at the start of a buffer; nothing where the version is absent.
pub fn put_version(version: Version, out: &mut [u8]) -> Chars
    requires { length (tagged (text "$") (write_version version)) ≤ length out.old }
    ensures { Wrote (tagged (text "$") (write_version version)) out.old out.new result.0 }
{
    match version {
        Version::Absent => Chars(0),
        Version::Number(n) => put_decimal(b"$v=", n, out),
    }
}
