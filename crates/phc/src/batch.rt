// Batches of account lines.
ghost use Rattle.std.specs.Prelude.{◌≤◌, ◌≡◌, length};
ghost use Rattle.accounts.specs.Batches.{batch_answer};
ghost use Rattle.phc.specs.Batches.{batch_length, recorded_batch, judge_outcome, recorded_judging};

use crate::code::refused;
use crate::record::four_words;
use accounts::batch::{Batch, judge_batch};
use refusals::Refusal;

// The bytes of a result.
const BATCH_LEN: usize = 16;

// Place and count, 64-bit little-endian numbers, in a result that has room for them: 0, or the refusal's number.
fn give_batch(answer: Result<Batch, Refusal>, res: &mut [u8]) -> u64
    requires { batch_length ≤ length res.old }
    ensures { (result ≡ (recorded_batch (batch_answer answer) res.old).number) × (res.new ≡ (recorded_batch (batch_answer answer) res.old).buffer) }
{
    match answer {
        Ok(b) => {
            let bytes = four_words(b.place, b.place / 4294967296, b.count, b.count / 4294967296);
            res[..bytes.len()].copy_from_slice(&bytes);
            0
        }
        Err(refusal) => refused(refusal),
    }
}

// Judges at most `limit` lines of account text from a place on: 0, each line's number in the answers from their start, and place and count in the
// result's first 16 bytes; or 17.
#[unsafe(no_mangle)]
pub extern "C" fn phc_judge(
    text: &[u8],
    from: usize,
    limit: usize,
    answers: &mut [u8],
    res: &mut [u8],
) -> u64
    ensures { judge_outcome result answers.new res.new ≡ recorded_judging text.now from limit answers.old res.old }
{
    if res.len() < BATCH_LEN {
        return refused(Refusal::NoRoom);
    }
    give_batch(judge_batch(text, from, limit, answers), res)
}
