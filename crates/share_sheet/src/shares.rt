ghost use Rattle.std.specs.Prelude.{◌≡◌, true, ◌<◌, length};
ghost use Rattle.terms.specs.Sizes.{within};
ghost use Rattle.share_sheet.specs.Filling.{GivenOnce, TraceOf, entries, noted, outcomes};
ghost use Rattle.share_sheet.specs.Sheet.{parties_of, places_of};

use crate::accepted::Accepted;
use number::word_at;
use schedule::entry_at;

// The most blocks that a sheet can have.
const MOST_BLOCKS: usize = 255;

// The party of a block that was not given.
const NOT_GIVEN: u8 = 255;

// The number of TASK in a trace.
const TASK: u8 = 17;

// For each block, the first one's first, the party that was given it and the entry: 255 and 0, if it was not given.
#[derive(Drop)]
pub(crate) struct Shares {
    pub(crate) parties: [u8; MOST_BLOCKS],
    pub(crate) entries: [u32; MOST_BLOCKS],
}

impl Shares {
    // If an outcome has the number of TASK, notes the party and the entry of its block.
    fn note(&mut self, number: u8, block: u32, party: usize, entry: usize)
        requires { (number ≡ 17 → within 1 255 block ≡ true) × (party < 256) × (entry < 4096) }
        ensures parties_after { self.new.parties ≡ noted number block party self.old.parties }
        ensures entries_after { self.new.entries ≡ noted number block entry self.old.entries }
    {
        if number == TASK {
            let at = block as usize - 1;
            self.parties[at] = party as u8;
            self.entries[at] = entry as u32;
        }
    }

    // What the trace of a schedule's run tells. (By places, since a line is read at four of them.)
    pub(crate) fn of_trace(schedule: &Accepted, trace: &[u8]) -> Shares
        requires trace_of { TraceOf (length schedule.now.kinds.now) (outcomes schedule.now) trace.now }
        requires given_once { GivenOnce 255 (outcomes schedule.now) }
        ensures parties { result.parties ≡ parties_of 255 (entries schedule.now) (outcomes schedule.now) }
        ensures entries { result.entries ≡ places_of 255 (entries schedule.now) (outcomes schedule.now) }
    {
        let mut shares = Shares {
            parties: [NOT_GIVEN; MOST_BLOCKS],
            entries: [0; MOST_BLOCKS],
        };
        for at in 0..schedule.kinds.len() {
            let number = trace[4 + at];
            let value = word_at(trace, 4 + schedule.kinds.len() + 4 * at);
            let entry = entry_at(schedule.sizes, schedule.kinds, schedule.operands, at);
            shares.note(number, value, entry.party(), at);
        }
        shares
    }
}
