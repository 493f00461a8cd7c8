// The listing's judging of a whole text, in one loop: each line is found and judged as the listing does it, and no row is written.
ghost use Rattle.std.specs.Prelude.{◌≡◌};
ghost use Rattle.accounts.specs.Lines.{lines};
ghost use Rattle.accounts.specs.Batches.{numbers_of};
ghost use Rattle.peers.specs.Judging.{accepted};

use accounts::line::judge;
use text::scan::next_at;

// How many lines of account text are accepted.
#[unsafe(no_mangle)]
pub extern "C" fn peer_judge_all(text: &[u8]) -> u64
    ensures { result ≡ accepted (numbers_of (lines text.now)) }
{
    let mut place = 0;
    let mut count = 0;
    while place < text.len() {
        let end = next_at(text, place, b'\n');
        count += u64::from(judge(&text[place..end]).is_ok());
        place = end + 1;
    }
    count
}
