// The number fields as C hands them over.
ghost use Rattle.std.specs.Prelude.{◌≡◌, []};
ghost use Rattle.phc.specs.Writing.{version_field, handed};

use profile::fields::NumberFields;
use table::version::Version;

// Absent, the number, or one that no profile permits.
fn version_field(has_version: u8, version: u32) -> Version
    ensures { result ≡ version_field has_version version }
{
    match has_version {
        0 => Version::Absent,
        1 => Version::Number(version),
        _ => Version::Number(0),
    }
}

pub fn handed_fields(id: u8, has_version: u8, version: u32, m: u32, t: u32, p: u32) -> NumberFields
    ensures { result ≡ (handed id has_version version m t p [] [] [] []).numbers }
{
    NumberFields {
        id,
        version: version_field(has_version, version),
        m,
        t,
        p,
    }
}
