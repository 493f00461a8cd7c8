// A parsed string.
use crate::fields::Record;
use crate::values::Values;
use grammar::places::Places;

// All that one reading of an accepted string finds: its record, the places of its pieces, and where the values of the names
// stand in the parameter piece.
#[derive(Clone, Copy)]
pub struct ParsedString {
    pub reading: Record,
    pub places: Places,
    pub values: Values,
}
