// The fields of a row, handed to a writer: the numbers of the first five columns, and four columns of hex digits.
use crate::buffer::PLACE;
use crate::columns::number_fields;
use crate::hex::hex_column;
use profile::fields::NumberFields;
use refusals::Refusal;
use text::units::Chars;

// What a writer of number fields, keyid, data, salt and output gives for a row, into a buffer from PLACE on.
pub fn write_fields<F>(line: &[u8], buf: &mut [u8], write: F) -> Result<Chars, Refusal>
where
    F: FnOnce(NumberFields, &[u8], &[u8], &[u8], &[u8], &mut [u8], usize) -> Result<Chars, Refusal>,
    requires { F.IsAlwaysCallable write }
{
    let keyid = hex_column(line, 5);
    let data = hex_column(line, 6);
    let salt = hex_column(line, 7);
    let output = hex_column(line, 8);
    write(
        number_fields(line),
        keyid.bytes(),
        data.bytes(),
        salt.bytes(),
        output.bytes(),
        buf,
        PLACE,
    )
}
