ghost use Rattle.std.specs.Prelude.{◌≡◌, cond, [], ◌∷◌, ◌+◌, ◌*◌, ◌<◌, max, length};
ghost use Rattle.claim.specs.Run.{outcomes_of};
ghost use Rattle.number.specs.Number.{little_endian, overwritten};
ghost use Rattle.terms.specs.Outcome.{number_of, value_of};
ghost use Rattle.terms.specs.Refusal.{Refuses, refusal_in};
ghost use Rattle.terms.specs.Tally.{counted, none_counted};
ghost use Rattle.schedule.specs.Demand3.{RunLinearizes, RunLinearizesOn};
ghost use Rattle.schedule.specs.Faults.{run_has};
ghost use Rattle.schedule.specs.Format.{words_in};
ghost use Rattle.schedule.specs.Hidden.{RunWithinNeeded};
ghost use Rattle.schedule.specs.Run.{entries_of, outcomes_from, outcomes_from_on, run_file, run_file_on, stepped, summary_from, summary_from_on, trace_after, trace_after_on, trace_put};
ghost use Rattle.schedule.specs.Totals.{summary_by};
ghost use Rattle.schedule.specs.Trace.{trace_fits};

use crate::entries::entry_at;
use crate::layout::ENTRY_BYTES;
use crate::queue::QueueMachine;
use crate::reader::{kind_part, operand_part, read, refusal_of};
use machine::Machine;
use number::put_word;
use stores::{Done, Operations};
use terms::{Entry, Outcome, Refusal, Sizes, Tally};

// What one step of a run hands back: what `obey` does, and the totals. (Not a `Done` within: its readers name these fields.)
#[derive(Clone, Copy)]
pub struct Stepped {
    // The machine after the entry.
    pub machine: Machine,
    // The totals, the entry's outcome among them.
    pub tally: Tally,
    // The entry's outcome.
    pub outcome: Outcome,
    // How many stores of take step 1 are pending in that machine; 0 where it is out of range.
    pub hidden: u32,
}

// What a run tells of all its entries together.
#[derive(Clone, Copy, Debug, PartialEq, Eq)]
pub struct Summary {
    // The totals of their outcomes.
    pub tally: Tally,
    // The largest number of stores of take step 1 that were pending after an entry; 0 for no entries.
    pub hidden: u32,
}

impl Summary {
    // That of a run with no entries.
    fn none() -> Summary
        ensures { result ≡ record { tally = none_counted; hidden = 0 } }
    {
        Summary {
            tally: Tally::none(),
            hidden: 0,
        }
    }

    // With one entry more, by what it handed back.
    fn told(self, outcome: Outcome, hidden: u32) -> Summary
        ensures { result ≡ record { tally = counted self.tally outcome; hidden = max self.hidden hidden } }
    {
        Summary {
            tally: self.tally.counted(outcome),
            hidden: self.hidden.max(hidden),
        }
    }
}

// The queues that a file can be run on, by the paper's names.
#[derive(Clone, Copy, Debug, PartialEq, Eq)]
pub enum Queue {
    // With a lock: 01's queue, on the machine of the library `machine`.
    FfThe,
    // With compare-and-swap, on that of `cas`.
    FfCl,
}

// One entry, for those who watch a run: it is obeyed, and its outcome counted. A run begins with `Machine::fresh` and `Tally::none`.
pub fn step(machine: Machine, tally: Tally, entry: Entry) -> Stepped
    ensures { result ≡ stepped machine tally entry }
{
    let done = machine.obey(entry);
    Stepped {
        machine: done.machine,
        tally: tally.counted(done.outcome),
        outcome: done.outcome,
        hidden: done.hidden,
    }
}

// Whether the trace of so many entries fits a buffer of so many bytes. There is none of more than 4,096 entries, as there is no file of more.
fn trace_fits(entries: usize, room: usize) -> bool
    ensures { result ≡ trace_fits entries room }
{
    entries <= 4096 && 4 + ENTRY_BYTES * entries <= room
}

// Puts the outcome of an entry into the trace of so many, if that fits: its number into one part, and its value into the other.
fn put_outcome(trace: &mut [u8], entries: usize, at: usize, outcome: Outcome)
    requires { at < entries }
    ensures { trace.new ≡ cond (trace_fits entries (length trace.old)) (overwritten (4 + entries + 4 * at) (little_endian 4 (value_of outcome)) (overwritten (4 + at) (number_of outcome ∷ []) trace.old)) trace.old }
{
    if trace_fits(entries, trace.len()) {
        let number = outcome.number();
        let value = outcome.value();
        trace[4 + at] = number;
        put_word(trace, 4 + entries + 4 * at, value);
    }
}

// Puts the number of entries into their trace, if that fits.
fn put_count(trace: &mut [u8], entries: usize)
    ensures { trace.new ≡ cond (trace_fits entries (length trace.old)) (overwritten 0 (little_endian 4 entries) trace.old) trace.old }
{
    if trace_fits(entries, trace.len()) {
        put_word(trace, 0, entries as u32);
    }
}

// The loop of `obey_entries` and of `obey_entries_on`, from any machine of any queue. What the last entry handed back is carried round it whole, and the loop stands in a function that is called
// from one place for each machine: so the compiler keeps the machine where it is (`docs/ARCHITECTURE.md`, "Where a run's time goes").
fn obey_from<M: QueueMachine>(
    machine: M,
    sizes: Sizes,
    kinds: &[u8],
    operands: &[u8],
    trace: &mut [u8],
) -> Summary
    ensures value { result ≡ summary_by M.queue machine (entries_of sizes kinds.now (words_in operands.now)) }
    ensures trace_after { trace.new ≡ trace_put (outcomes_of M.queue machine (entries_of sizes kinds.now (words_in operands.now))) trace.old }
{
    // Of this one only the machine is read.
    let mut done = Done {
        machine,
        outcome: Outcome::Moved,
        hidden: 0,
    };
    let mut summary = Summary::none();
    for at in 0..kinds.len() {
        let entry = entry_at(sizes, kinds, operands, at);
        done = done.machine.obey(entry);
        summary = summary.told(done.outcome, done.hidden);
        put_outcome(trace, kinds.len(), at, done.outcome);
    }
    put_count(trace, kinds.len());
    summary
}

// Obeys the entries of the two parts of a file, from the fresh machine with these sizes, tells the totals and how far memory lagged at most, and puts the trace into a
// buffer, if it fits; else the buffer stays as it was, and whoever wants the summary alone lends an empty one. Whoever runs a file that was read, runs it by this
// function. It checks nothing: with sizes out of range every outcome is 7, and so is that of a place with no allowed entry.
pub fn obey_entries(sizes: Sizes, kinds: &[u8], operands: &[u8], trace: &mut [u8]) -> Summary
    ensures value { result ≡ summary_from sizes kinds.now (words_in operands.now) }
    ensures trace_after { trace.new ≡ trace_put (outcomes_from sizes kinds.now (words_in operands.now)) trace.old }
{
    obey_from(Machine::fresh(sizes), sizes, kinds, operands, trace)
}

// Obeys the entries of the two parts of a file as `obey_entries` does, on the queue that is named.
pub fn obey_entries_on(
    queue: Queue,
    sizes: Sizes,
    kinds: &[u8],
    operands: &[u8],
    trace: &mut [u8],
) -> Summary
    ensures value { result ≡ summary_from_on queue sizes kinds.now (words_in operands.now) }
    ensures trace_after { trace.new ≡ trace_put (outcomes_from_on queue sizes kinds.now (words_in operands.now)) trace.old }
{
    match queue {
        Queue::FfThe => obey_entries(sizes, kinds, operands, trace),
        Queue::FfCl => obey_from(cas::Machine::fresh(sizes), sizes, kinds, operands, trace),
    }
}

// Runs a schedule file on the queue that is named, and writes the trace into a buffer. Nothing is obeyed and nothing written before the whole file is read and the
// trace is known to fit; beyond the trace the buffer stays as it was.
pub fn run_on(queue: Queue, file: &[u8], trace: &mut [u8]) -> Result<Summary, Refusal>
    ensures value { result ≡ run_file_on queue file.now (length trace.old) }
    ensures trace_after { trace.new ≡ trace_after_on queue file.now trace.old }
    ensures run_linearizes_on { RunLinearizesOn queue file.now trace.new result }
    ensures refuses { Refuses (run_has file.now (length trace.old)) (refusal_in result) }
    ensures run_within_needed { RunWithinNeeded file.now result }
{
    let reading = read(file);
    // 01 names this form for a refusal of the whole file.
    let Ok((sizes, entries)) = reading else {
        return Err(refusal_of(reading));
    };
    if !trace_fits(entries, trace.len()) {
        return Err(Refusal::Room);
    }
    let kinds = kind_part(file, reading);
    let operands = operand_part(file, reading);
    Ok(obey_entries_on(queue, sizes, kinds, operands, trace))
}

// Runs a schedule file on FF-THE, as `run_on` does.
pub fn run(file: &[u8], trace: &mut [u8]) -> Result<Summary, Refusal>
    ensures value { result ≡ run_file file.now (length trace.old) }
    ensures trace_after { trace.new ≡ trace_after file.now trace.old }
    ensures run_linearizes { RunLinearizes file.now trace.new result }
    ensures refuses { Refuses (run_has file.now (length trace.old)) (refusal_in result) }
    ensures run_within_needed { RunWithinNeeded file.now result }
{
    run_on(Queue::FfThe, file, trace)
}
