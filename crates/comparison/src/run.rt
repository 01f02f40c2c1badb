ghost use Rattle.std.specs.Prelude.{◌≡◌, ◌≤◌, ◌<◌, length};

use number::word_at;
use schedule::{LONGEST_TRACE, entry_at, obey_entries};
use terms::{Sizes, is_answer};

// A schedule, by its sizes and the two parts of its file, and the trace of its run. (The trace is lent: one that moved with the struct would be copied, 20,484 bytes.)
#[derive(Drop)]
pub(crate) struct Run<'a> {
    sizes: Sizes,
    kinds: &'a [u8],
    operands: &'a [u8],
    trace: &'a [u8; LONGEST_TRACE],
    ghost few: { length kinds.now ≤ 4096 },
}

impl<'a> Run<'a> {
    ghost use Rattle.comparison.specs.Comparison.{RunOf, answered, line_at, same_for, same_for_all};

    // Runs a schedule, into a trace that is lent.
    pub(crate) fn new(
        sizes: Sizes,
        kinds: &'a [u8],
        operands: &'a [u8],
        trace: &'a mut [u8; LONGEST_TRACE],
    ) -> Self
        requires { length kinds.now ≤ 4096 }
        ensures { RunOf sizes kinds.now operands.now result }
    {
        obey_entries(sizes, kinds, operands, trace);
        Run {
            sizes,
            kinds,
            operands,
            trace,
        }
    }

    // Whether the entry at a place gets an answer, and for the party.
    fn answers(&self, party: usize, at: usize) -> bool
        requires { at < length self.now.kinds.now }
        ensures { result ≡ answered party self.now at }
    {
        is_answer(self.trace[4 + at])
            && entry_at(self.sizes, self.kinds, self.operands, at).party() == party
    }

    // The outcome of the entry at a place, and its value.
    fn line(&self, at: usize) -> (u8, u32)
        requires { at < length self.now.kinds.now }
        ensures number { result.0 ≡ (line_at self.now at).number }
        ensures value { result.1 ≡ (line_at self.now at).value }
    {
        let trace = self.trace;
        let value = word_at(trace, 4 + self.kinds.len() + 4 * at);
        (trace[4 + at], value)
    }

    // Whether a party gets the same answers as in another run.
    fn same_for(&self, other: &Run, party: usize) -> bool
        ensures { result ≡ same_for self.now other.now party }
    {
        let lines = (0..self.kinds.len())
            .filter(|at| self.answers(party, *at))
            .map(|at| self.line(at));
        let others = (0..other.kinds.len())
            .filter(|at| other.answers(party, *at))
            .map(|at| other.line(at));
        lines.eq(others)
    }

    // Whether no party's answers differ from those in another run, the worker's and every thief's.
    pub(crate) fn same_for_all(&self, other: &Run) -> bool
        ensures { result ≡ same_for_all self.now other.now }
    {
        (0..self.sizes.thieves as usize + 1).all(|party| self.same_for(other, party))
    }
}
