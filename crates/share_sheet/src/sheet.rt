ghost use Rattle.std.specs.Prelude.{◌≡◌, length};
ghost use Rattle.terms.specs.Refusal.{Refuses, refusal_in};
ghost use Rattle.number.specs.Number.{overwritten};
ghost use Rattle.schedule.specs.Check.{first};
ghost use Rattle.share_sheet.specs.Faults.{sheet_has};
ghost use Rattle.share_sheet.specs.Filling.{entries, outcomes};
ghost use Rattle.share_sheet.specs.Given.{SheetTells};
ghost use Rattle.share_sheet.specs.Sheet.{checks_after_reading, make_sheet, sheet_after, sheet_of};

use crate::accepted::Accepted;
use crate::blocks::check_blocks;
use crate::shares::Shares;
use number::{put_bytes, put_words};
use schedule::{LONGEST_TRACE, obey_entries};
use terms::{Refusal, within};

// Whether a schedule has a sheet of so many blocks, and the sheet fits into so many bytes.
fn check_sheet(schedule: &Accepted, count: u32, room: usize) -> Result<(), Refusal>
    ensures { result ≡ first (checks_after_reading schedule.now.sizes (entries schedule.now) count room) }
{
    if !within(1, 255, count) {
        return Err(Refusal::Size(7));
    }
    if !schedule.sizes.enough_margin() {
        return Err(Refusal::Margin);
    }
    check_blocks(schedule, count)?;
    if room < 1 + 5 * count as usize {
        return Err(Refusal::Room);
    }
    Ok(())
}

// Runs a schedule that has passed every check, into a trace of its own, and puts the sheet.
fn put_sheet(sheet: &mut [u8], schedule: &Accepted, count: usize)
    requires { first (checks_after_reading schedule.now.sizes (entries schedule.now) count (length sheet.old)) ≡ Ok tt }
    ensures { sheet.new ≡ overwritten 0 (sheet_of count (entries schedule.now) (outcomes schedule.now)) sheet.old }
{
    let mut trace = [0; LONGEST_TRACE];
    obey_entries(
        schedule.sizes,
        schedule.kinds,
        schedule.operands,
        &mut trace,
    );
    let shares = Shares::of_trace(schedule, &trace);
    sheet[0] = count as u8;
    put_bytes(sheet, 1, &shares.parties[..count]);
    put_words(sheet, 1 + count, &shares.entries[..count]);
}

// Makes the share sheet of a schedule file and a count of blocks, in a buffer, and answers how many bytes it has. Nothing is run and
// nothing written before everything has been checked; beyond the sheet the buffer stays as it was.
pub fn share_sheet(file: &[u8], count: u32, sheet: &mut [u8]) -> Result<usize, Refusal>
    ensures value { result ≡ make_sheet file.now count (length sheet.old) }
    ensures sheet_after { sheet.new ≡ sheet_after file.now count sheet.old }
    ensures sheet_tells { SheetTells file.now count sheet.new result }
    ensures refuses { Refuses (sheet_has file.now count (length sheet.old)) (refusal_in result) }
{
    let schedule = Accepted::read(file)?;
    check_sheet(&schedule, count, sheet.len())?;
    put_sheet(sheet, &schedule, count as usize);
    Ok(1 + 5 * count as usize)
}
