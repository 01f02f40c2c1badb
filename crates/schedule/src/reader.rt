ghost use Rattle.std.specs.Prelude.{◌≡◌, ◌+◌, ◌≤◌, leb, length};
ghost use Rattle.terms.specs.Refusal.{Refuses, refusal_in};
ghost use Rattle.schedule.specs.Check.{first};
ghost use Rattle.schedule.specs.Faults.{file_has};
ghost use Rattle.schedule.specs.Format.{sizes_in};
ghost use Rattle.schedule.specs.Reader.{behind, kind_part, kind_start, operand_part, operand_start, read_file, reading_of, refusal_of, size_checks};

use crate::check::check_ranges;
use crate::entries::check_entries;
use crate::layout::{ENTRY_BYTES, SIZES_BYTES};
use number::word_at;
use terms::{Refusal, Sizes};

// The first six sizes, each decoded once.
fn sizes_in(file: &[u8]) -> Sizes
    requires { 28 ≤ length file.now }
    ensures { result ≡ sizes_in file.now }
{
    Sizes {
        slots: word_at(file, 0),
        buffer: word_at(file, 4),
        spacing: word_at(file, 8),
        margin: word_at(file, 12),
        thieves: word_at(file, 16),
        start: word_at(file, 20),
    }
}

// Decodes the sizes, and checks them and the length that they ask for: all that is looked at before the entries, of which the answer says nothing yet.
fn read_sizes(file: &[u8]) -> Result<(Sizes, usize), Refusal>
    ensures { result ≡ reading_of file.now (first (size_checks file.now)) }
{
    if file.len() < SIZES_BYTES {
        return Err(Refusal::Short);
    }
    let sizes = sizes_in(file);
    let entries = word_at(file, 24) as usize;
    check_ranges(sizes, entries)?;
    if file.len() != SIZES_BYTES + ENTRY_BYTES * entries {
        return Err(Refusal::Short);
    }
    Ok((sizes, entries))
}

// Reads a schedule file, its sizes and then its entries by these: the first six sizes, and how many entries it has.
pub fn read(file: &[u8]) -> Result<(Sizes, usize), Refusal>
    ensures value { result ≡ read_file file.now }
    ensures refuses { Refuses (file_has file.now) (refusal_in result) }
{
    let reading = read_sizes(file);
    let Ok((sizes, _)) = reading else {
        return reading;
    };
    let kinds = kind_part(file, reading);
    let operands = operand_part(file, reading);
    check_entries(sizes, kinds, operands)?;
    reading
}

// Why nothing came of a file, for whoever knows that nothing did: its own refusal or, of an accepted one, ROOM.
pub fn refusal_of(reading: Result<(Sizes, usize), Refusal>) -> Refusal
    ensures { result ≡ refusal_of reading }
{
    match reading {
        Ok(_) => Refusal::Room,
        Err(refusal) => refusal,
    }
}

// Whether so many kinds lie in a file of so many bytes.
fn holds_kinds(bytes: usize, entries: usize) -> bool
    ensures { result ≡ leb (28 + entries) bytes }
{
    bytes >= SIZES_BYTES && entries <= bytes - SIZES_BYTES
}

// The part of a file that its kinds are, one byte each, as the answer of `read` says; an empty part, if the file is refused, or the answer is another file's and asks for
// more kinds than this one has bytes behind its sizes.
pub fn kind_part(file: &[u8], reading: Result<(Sizes, usize), Refusal>) -> &[u8]
    ensures result_value { result.now ≡ kind_part file.now reading }
    ensures ref_ptr_value { result.ref_ptr ≡ behind (kind_start file.now reading) file.entry.ref_ptr }
{
    let Ok((_, entries)) = reading else {
        return &file[..0];
    };
    if !holds_kinds(file.len(), entries) {
        return &file[..0];
    }
    &file[SIZES_BYTES..SIZES_BYTES + entries]
}

// The part of a file that its operands are, four bytes each, to the end, as the answer of `read` says; an empty part, likewise.
pub fn operand_part(file: &[u8], reading: Result<(Sizes, usize), Refusal>) -> &[u8]
    ensures result_value { result.now ≡ operand_part file.now reading }
    ensures ref_ptr_value { result.ref_ptr ≡ behind (operand_start file.now reading) file.entry.ref_ptr }
{
    let Ok((_, entries)) = reading else {
        return &file[..0];
    };
    if !holds_kinds(file.len(), entries) {
        return &file[..0];
    }
    &file[SIZES_BYTES + entries..]
}
