// Batches of lines: at most so many are judged in a call, so that a program can do other work in between.
ghost use Rattle.std.specs.Prelude.{◌≡◌, length, Ok};
ghost use Rattle.accounts.specs.Batches.{batch_answer, batch_outcome, batched};

use crate::line::{Answer, judge};
use crate::room::answers_fit;
use refusals::Refusal;
use text::scan::next_at;

// The place to go on from, and the count of lines judged.
#[derive(Clone, Copy)]
pub struct Batch {
    pub place: usize,
    pub count: usize,
}

// Judges as many lines as have an answer in the slice.
fn judge_lines(text: &[u8], from: usize, answers: &mut [u8]) -> Batch
    ensures { batch_outcome (batch_answer (Ok result)) answers.new ≡ batched text.now from (length answers.old) answers.old }
{
    let mut place = from;
    let mut count = 0;
    for answer in answers.iter_mut() {
        if text.len() <= place {
            break;
        }
        let end = next_at(text, place, b'\n');
        *answer = Answer::from(judge(&text[place..end])).number;
        place = end + 1;
        count += 1;
    }
    Batch {
        place: place.min(text.len()),
        count,
    }
}

// Judges at most `limit` lines of account text from a place on: each line's number into `answers`, in order from its start. 17: they don't fit.
// Free answers: a place past the end is as the end; from inside a line the rest of it is judged as a line.
pub fn judge_batch(
    text: &[u8],
    from: usize,
    limit: usize,
    answers: &mut [u8],
) -> Result<Batch, Refusal>
    ensures { batch_outcome (batch_answer result) answers.new ≡ batched text.now from limit answers.old }
{
    if !answers_fit(text, from, limit, answers.len()) {
        return Err(Refusal::NoRoom);
    }
    let most = limit.min(answers.len());
    Ok(judge_lines(text, from, &mut answers[..most]))
}
