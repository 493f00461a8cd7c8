// Answers, each column after its tab. A write that fails is passed over: what is missing shows beside the stored output.
use std::fmt::Display;
use std::io::Write;

pub fn show<W: Write>(out: &mut W, text: &[u8]) {
    let _ = out.write_all(text);
}

// A tab and a number.
pub fn show_number<W: Write>(out: &mut W, n: impl Display + Drop) {
    show(out, b"\t");
    let _ = write!(out, "{n}");
}
