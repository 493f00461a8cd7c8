// m, t and p, one after the other, and m at least 8p.
ghost use Rattle.std.specs.Prelude.{◌≡◌, ◌≤◌, length, drop};
ghost use Rattle.table.specs.Columns.{profile_in};
ghost use Rattle.fast_path.specs.Walk.{numbers_in};
ghost use Rattle.fast_path.specs.WalkSteps.{HeadIs};

use crate::items::number_item;
use profile::fields::NumberFields;
use table::bounds::memory_too_little;
use table::limits::Column;
use table::version::Version;

// The number fields, the place after them, and the separator before the next item.
#[derive(Clone, Copy)]
pub struct Head {
    pub fields: NumberFields,
    pub next: usize,
    pub separator: u8,
}

pub fn numbers(column: Column, id: u8, version: Version, s: &[u8], at: usize) -> Option<Head>
    requires { at ≤ length s.now }
    ensures { HeadIs (numbers_in (profile_in column) id version (drop at s.now)) s.now result }
{
    let m = number_item(column.m, b"m=", s, at, b'$')?;
    let t = number_item(column.t, b"t=", s, m.next, m.separator)?;
    let p = number_item(column.p, b"p=", s, t.next, t.separator)?;
    if memory_too_little(m.value, p.value) {
        return None;
    }
    let fields = NumberFields {
        id,
        version,
        m: m.value,
        t: t.value,
        p: p.value,
    };
    Some(Head {
        fields,
        next: p.next,
        separator: p.separator,
    })
}
