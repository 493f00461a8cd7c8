// The four byte strings that the writer is lent.
#[derive(Clone, Copy)]
pub struct ByteStrings<'a> {
    pub keyid: &'a [u8],
    pub data: &'a [u8],
    pub salt: &'a [u8],
    pub output: &'a [u8],
}
