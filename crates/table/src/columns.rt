// Document 01's table: the column of each id.
ghost use Rattle.std.specs.Prelude.{◌≡◌};
ghost use Rattle.table.specs.Limits.{no_profile, argon2 as argon2_profile, pbkdf2 as pbkdf2_profile, profile_of, edition_two};
ghost use Rattle.table.specs.Columns.{name_at, profile_in, name_index};

use crate::limits::{BytesRule, Column, NumberRule, ShortDefaults, Versions};
use crate::version::Version;
use text::units::Bytes;

// The iterations of pbkdf2 where `t` is left out; the short writer's too.
const DEFAULT_T: u32 = 20000;

fn sized(low: usize, high: usize) -> BytesRule
    ensures { result ≡ BytesRule.Sized (record { 0 = low }) (record { 0 = high }) }
{
    BytesRule::Sized {
        low: Bytes(low),
        high: Bytes(high),
    }
}

fn argon2(name: usize) -> Column
    ensures { (profile_in result ≡ argon2_profile (name_at name)) × (result.name ≡ name) }
{
    Column {
        known: true,
        name,
        versions: Versions::Either(16, 19),
        implied: 19,
        m: NumberRule::Required {
            low: 1,
            high: u32::MAX,
        },
        t: NumberRule::Required {
            low: 1,
            high: u32::MAX,
        },
        p: NumberRule::Required { low: 1, high: 255 },
        keyid: sized(0, 8),
        data: sized(0, 32),
        salt: sized(8, 48),
        output: sized(12, 64),
        defaults: ShortDefaults {
            version: Version::Number(19),
            m: 65536,
            t: 2,
            p: 1,
        },
    }
}

fn pbkdf2(name: usize) -> Column
    ensures { (profile_in result ≡ pbkdf2_profile (name_at name)) × (result.name ≡ name) }
{
    Column {
        known: true,
        name,
        versions: Versions::Never,
        implied: 0,
        m: NumberRule::Constant { value: 0 },
        t: NumberRule::Defaulted {
            low: 100,
            high: u32::MAX,
            default: DEFAULT_T,
        },
        p: NumberRule::Constant { value: 0 },
        keyid: sized(0, 8),
        data: BytesRule::Forbidden,
        salt: sized(4, 32),
        output: sized(12, 64),
        defaults: ShortDefaults {
            version: Version::Absent,
            m: 0,
            t: DEFAULT_T,
            p: 0,
        },
    }
}

#[tactic(auto, unfolding(crate::specs::Limits::edition_two, crate::specs::Columns::name_in, grammar::specs::Parts::part_at))]
fn no_profile() -> Column
    ensures { (profile_in result ≡ no_profile) × (result.name ≡ 0) }
{
    let none = NumberRule::Constant { value: 0 };
    let forbidden = BytesRule::Forbidden;
    Column {
        known: false,
        name: 0,
        versions: Versions::Never,
        implied: 0,
        m: none,
        t: none,
        p: none,
        keyid: forbidden,
        data: forbidden,
        salt: forbidden,
        output: forbidden,
        defaults: ShortDefaults {
            version: Version::Absent,
            m: 0,
            t: 0,
            p: 0,
        },
    }
}

// The column of an id by its number. Free answer: of another number that of no profile.
#[tactic(auto, using(crate::proofs::ColumnLaws::column_argon2, crate::proofs::ColumnLaws::column_pbkdf2, crate::proofs::ColumnLaws::column_other))]
pub fn column_of(id: u8) -> Column
    ensures { (profile_in result ≡ profile_of edition_two id) × (result.name ≡ name_index id) }
{
    match id {
        1..=3 => argon2(usize::from(id)),
        4..=5 => pbkdf2(usize::from(id)),
        _ => no_profile(),
    }
}
