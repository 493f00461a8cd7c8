// Whether a slice has room for the answers of a batch.
ghost use Rattle.std.specs.Prelude.{◌≡◌, leb};
ghost use Rattle.accounts.specs.Batches.{batch_count, place_after};

use text::scan::next_at;

// The place after at most so many lines.
fn skip_lines(text: &[u8], from: usize, limit: usize) -> usize
    ensures { result ≡ place_after text.now from limit }
{
    let mut place = from;
    for _ in 0..limit {
        if text.len() <= place {
            break;
        }
        place = next_at(text, place, b'\n') + 1;
    }
    place.min(text.len())
}

// Whether a slice of so many answers has room. Where it has room for the limit nothing is read; else no line past those that it holds.
pub fn answers_fit(text: &[u8], from: usize, limit: usize, room: usize) -> bool
    ensures { result ≡ leb (batch_count text.now from limit) room }
{
    if limit <= room {
        return true;
    }
    text.len() <= skip_lines(text, from, room)
}
