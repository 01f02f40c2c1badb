ghost use Rattle.std.specs.Prelude.{◌≡◌, length};
ghost use Rattle.comparison.specs.Alike.{likeness};
ghost use Rattle.schedule.specs.Reader.{read_file};
ghost use Rattle.share_sheet.specs.Sheet.{sheet_after, make_sheet};
ghost use Rattle.terms.specs.Sizes.{needed_margin, sized};
ghost use Rattle.writer.specs.Writer.{buffer_after, write_file};
ghost use Rattle.exports.specs.Types.{FfCl, FfThe};
ghost use Rattle.exports.specs.Answer.{likeness_answer, reading_answer, run_into, running_answer, sheet_answer, sizes_after, totals_after, trace_into, writing_answer};

use crate::answer::{answer_of, put_sizes, put_summary, refusal_answer};
use comparison::{RefusedFile, alike};
use schedule::{Queue, read, refusal_of, run_on};
use share_sheet::share_sheet;
use terms::{Refusal, Sizes, needed_margin};
use writer::write;

// Reads a schedule file. Tells the number of its entries, and puts its six sizes, as written, into the 24 bytes that are lent for them; with fewer, it is ROOM.
#[unsafe(no_mangle)]
pub extern "C" fn rehearsal_read(file: &[u8], sizes: &mut [u8]) -> u64
    ensures value { result ≡ reading_answer (read_file file.now) sizes.old }
    ensures sizes_after { sizes.new ≡ sizes_after (read_file file.now) sizes.old }
{
    let reading = read(file);
    let Ok((found, entries)) = reading else {
        return refusal_answer(refusal_of(reading));
    };
    if sizes.len() < 24 {
        return refusal_answer(Refusal::Room);
    }
    put_sizes(sizes, found);
    entries as u64
}

// Runs a schedule file on the queue that is named, as the two functions below tell it.
fn run_into(queue: Queue, file: &[u8], trace: &mut [u8], totals: &mut [u8]) -> u64
    ensures value { result ≡ running_answer (run_into queue file.now (length trace.old) totals.old) }
    ensures trace_after { trace.new ≡ trace_into queue file.now trace.old totals.old }
    ensures totals_after { totals.new ≡ totals_after (run_into queue file.now (length trace.old) totals.old) totals.old }
{
    if totals.len() < 16 {
        return refusal_answer(refusal_of(read(file)));
    }
    match run_on(queue, file, trace) {
        Ok(summary) => {
            put_summary(totals, summary);
            0
        }
        Err(refusal) => refusal_answer(refusal),
    }
}

// Runs a schedule file and writes its trace. Tells 0, and puts the totals, given, aborts and waits, and beside them how far memory lagged at most, hidden, into the 16 bytes that are
// lent for them; with fewer, it is ROOM, and nothing is run.
#[unsafe(no_mangle)]
pub extern "C" fn rehearsal_run(file: &[u8], trace: &mut [u8], totals: &mut [u8]) -> u64
    ensures value { result ≡ running_answer (run_into FfThe file.now (length trace.old) totals.old) }
    ensures trace_after { trace.new ≡ trace_into FfThe file.now trace.old totals.old }
    ensures totals_after { totals.new ≡ totals_after (run_into FfThe file.now (length trace.old) totals.old) totals.old }
{
    run_into(Queue::FfThe, file, trace, totals)
}

// The same on the compare-and-swap queue.
#[unsafe(no_mangle)]
pub extern "C" fn rehearsal_cas_run(file: &[u8], trace: &mut [u8], totals: &mut [u8]) -> u64
    ensures value { result ≡ running_answer (run_into FfCl file.now (length trace.old) totals.old) }
    ensures trace_after { trace.new ≡ trace_into FfCl file.now trace.old totals.old }
    ensures totals_after { totals.new ≡ totals_after (run_into FfCl file.now (length trace.old) totals.old) totals.old }
{
    run_into(Queue::FfCl, file, trace, totals)
}

// Compares two schedule files. Tells 1 where they are alike, and 0 where they are not.
#[unsafe(no_mangle)]
pub extern "C" fn rehearsal_alike(first: &[u8], second: &[u8]) -> u64
    ensures { result ≡ likeness_answer (likeness first.now second.now) }
{
    match alike(first, second) {
        Ok(same) => u64::from(same),
        Err(RefusedFile::First(refusal) | RefusedFile::Second(refusal)) => refusal_answer(refusal),
    }
}

// Writes the file of six sizes, kinds and operands. Tells how many bytes the file has.
#[unsafe(no_mangle)]
pub extern "C" fn rehearsal_write(
    slots: u32,
    buffer: u32,
    spacing: u32,
    margin: u32,
    thieves: u32,
    start: u32,
    kinds: &[u8],
    operands: &[u32],
    file: &mut [u8],
) -> u64
    ensures value { result ≡ writing_answer (write_file (sized slots buffer spacing margin thieves start) kinds.now operands.now (length file.old)) }
    ensures file_after { file.new ≡ buffer_after (sized slots buffer spacing margin thieves start) kinds.now operands.now file.old }
{
    let sizes = Sizes {
        slots,
        buffer,
        spacing,
        margin,
        thieves,
        start,
    };
    answer_of(write(sizes, kinds, operands, file))
}

// Makes the share sheet of a schedule file and a count of blocks. Tells how many bytes the sheet has.
#[unsafe(no_mangle)]
pub extern "C" fn rehearsal_share_sheet(file: &[u8], count: u32, sheet: &mut [u8]) -> u64
    ensures value { result ≡ sheet_answer (make_sheet file.now count (length sheet.old)) }
    ensures sheet_after { sheet.new ≡ sheet_after file.now count sheet.old }
{
    answer_of(share_sheet(file, count, sheet))
}

// The margin that a buffer of this size needs where takes are spaced so far apart.
#[unsafe(no_mangle)]
pub extern "C" fn rehearsal_needed_margin(buffer: u32, spacing: u32) -> u32
    ensures { result ≡ needed_margin buffer spacing }
{
    needed_margin(buffer, spacing)
}
