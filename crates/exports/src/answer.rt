ghost use Rattle.std.specs.Prelude.{◌≡◌, ◌≤◌, length};
ghost use Rattle.exports.specs.Answer.{refusal_answer, result_answer, sizes_put, summary_put};

use number::put_words;
use schedule::Summary;
use terms::{Refusal, Sizes};

// A refusal as the number that an exported function answers. (No `From`: neither type is this crate's.)
pub(crate) fn refusal_answer(refusal: Refusal) -> u64
    ensures { result ≡ refusal_answer refusal }
{
    u64::from(refusal.number()) * 4294967296 + refusal.place() as u64 % 4294967296
}

// A number, or the refusal, as the number that an exported function answers.
pub(crate) fn answer_of(answer: Result<usize, Refusal>) -> u64
    ensures { result ≡ result_answer answer }
{
    match answer {
        Ok(number) => number as u64,
        Err(refusal) => refusal_answer(refusal),
    }
}

// Puts six sizes into lent memory.
pub(crate) fn put_sizes(bytes: &mut [u8], sizes: Sizes)
    requires { 24 ≤ length bytes.old }
    ensures { bytes.new ≡ sizes_put sizes bytes.old }
{
    let numbers = [
        sizes.slots,
        sizes.buffer,
        sizes.spacing,
        sizes.margin,
        sizes.thieves,
        sizes.start,
    ];
    put_words(bytes, 0, &numbers);
}

// Puts three totals, and how far memory lagged at most, into lent memory.
pub(crate) fn put_summary(bytes: &mut [u8], summary: Summary)
    requires { 16 ≤ length bytes.old }
    ensures { bytes.new ≡ summary_put summary bytes.old }
{
    let tally = summary.tally;
    let numbers = [tally.given, tally.aborts, tally.waits, summary.hidden];
    put_words(bytes, 0, &numbers);
}
