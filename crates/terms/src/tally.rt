ghost use Rattle.std.specs.Prelude.{◌≡◌};
ghost use Rattle.terms.specs.Tally.{counted, counted_if, none_counted};

use crate::outcome::Outcome;

// How many entries had each of three outcomes. A total that has reached the largest number stays there.
#[derive(Clone, Copy, Debug, PartialEq, Eq)]
pub struct Tally {
    // TASK: a task was handed out.
    pub given: u32,
    // ABORT: a thief went away with nothing, since the margin was not kept.
    pub aborts: u32,
    // WAIT: an entry could not be obeyed at that moment.
    pub waits: u32,
}

// A total, after an outcome that it counts or does not count.
fn counted_if(counts: bool, total: u32) -> u32
    ensures { result ≡ counted_if counts total }
{
    if counts {
        total.saturating_add(1)
    } else {
        total
    }
}

// Counts an outcome in a tally that the caller lends.
pub fn count_outcome(tally: &mut Tally, outcome: Outcome)
    ensures { tally.new ≡ counted tally.old outcome }
{
    let number = outcome.number();
    tally.given = counted_if(number == 17, tally.given);
    tally.aborts = counted_if(number == 19, tally.aborts);
    tally.waits = counted_if(number == 7, tally.waits);
}

impl Tally {
    // Nothing counted.
    pub fn none() -> Tally
        ensures { result ≡ none_counted }
    {
        Tally {
            given: 0,
            aborts: 0,
            waits: 0,
        }
    }

    // The tally after one outcome more. It lends its own tally to `count_outcome`, so that its callers need not lend theirs.
    pub fn counted(mut self, outcome: Outcome) -> Tally
        ensures { result ≡ counted self outcome }
    {
        count_outcome(&mut self, outcome);
        self
    }
}
