// Known answers of the listing, cut at many places: the input is fed in parts of 0 to 600 bytes, so that cuts fall inside names and strings
// and beside tabs and line feeds, and rows wait in a buffer that holds only a few. The stored output was worked out from document 01 apart
// from this code.
#![tactic(auto)]

use readers::filled::Filled;
use std::io::Write;
use stream::rows::Rows;

// Room for the rows that wait, and for the input.
const FEW: usize = 64;

const INPUT: usize = 524288;

// Every length of a part from 0 to 600 comes, in leaps. A write that fails is passed over: what is missing shows beside the stored output.
fn list<W: Write>(writer: &mut W, text: &[u8]) {
    let mut out = [0; FEW];
    let mut rows = Rows::new(&mut out);
    let mut rest = text;
    let mut len = 0;
    while !rest.is_empty() {
        let (part, more) = rest.split_at(len.min(rest.len()));
        let _ = rows.take_part(writer, &mut out, part);
        rest = more;
        len = (len + 244) % 601;
    }
    let _ = rows.finish(writer, &mut out);
}

fn main(rt: HostRuntime) {
    let mut out = rt.stdout();
    let mut input = Filled::<INPUT>::new();
    input.fill(&mut rt.stdin());
    list(&mut out, input.bytes());
    input.warn_if_full(&mut out);
}
