// Ids by their names.
ghost use Rattle.std.specs.Prelude.{◌≡◌};
ghost use Rattle.table.specs.Limits.{profile_of, id_of, is_named, edition_two};
ghost use Rattle.table.specs.Columns.{name_table};

use crate::columns::column_of;
use crate::names::{NAMES, name_at};
use text::scan::same_text;

// Whether the id of a number is known and has the name.
#[tactic(auto, using(crate::proofs::ColumnLaws::name_rule, crate::proofs::ColumnLaws::named_other))]
fn is_named(names: &[u8], id: u8, name: &[u8]) -> bool
    requires { names.now ≡ name_table }
    ensures { result ≡ is_named name.now (profile_of edition_two id) }
{
    same_text(name, name_at(names, usize::from(id))) && column_of(id).known
}

// The number of an id, counted from 1. Free answer: 0 for an unknown one.
pub fn id_number(name: &[u8]) -> u8
    ensures { result ≡ id_of edition_two name.now }
{
    let names: &[u8] = &NAMES;
    (1..6).find(|&id| is_named(names, id, name)).unwrap_or(0)
}
