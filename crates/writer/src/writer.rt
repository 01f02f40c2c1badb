ghost use Rattle.std.specs.Prelude.{◌≡◌, ◌≤◌, length};
ghost use Rattle.schedule.specs.Format.{file_of, size_numbers};
ghost use Rattle.number.specs.Number.{overwritten};
ghost use Rattle.terms.specs.Refusal.{Refuses, refusal_in};
ghost use Rattle.writer.specs.Faults.{writing_has};
ghost use Rattle.writer.specs.Writer.{buffer_after, check_writing, write_file};

use crate::entries::check_arrays;
use number::{put_bytes, put_words};
use schedule::{ENTRY_BYTES, SIZES_BYTES, check_ranges};
use terms::{Refusal, Sizes};

// Whether sizes and arrays make a file, and it fits into so many bytes.
fn check_writing(sizes: Sizes, kinds: &[u8], operands: &[u32], room: usize) -> Result<(), Refusal>
    ensures { result ≡ check_writing sizes kinds.now operands.now room }
{
    check_ranges(sizes, kinds.len())?;
    if kinds.len() != operands.len() {
        return Err(Refusal::Short);
    }
    check_arrays(sizes, kinds, operands)?;
    if room < SIZES_BYTES + ENTRY_BYTES * kinds.len() {
        return Err(Refusal::Room);
    }
    Ok(())
}

// The numbers that a file begins with: the six sizes, and how many entries it has.
fn size_numbers(sizes: Sizes, entries: usize) -> [u32; 7]
    requires { entries ≤ 4096 }
    ensures { result ≡ size_numbers sizes entries }
{
    [
        sizes.slots,
        sizes.buffer,
        sizes.spacing,
        sizes.margin,
        sizes.thieves,
        sizes.start,
        entries as u32,
    ]
}

// Puts a file that has passed every check.
fn put_file(buffer: &mut [u8], sizes: Sizes, kinds: &[u8], operands: &[u32])
    requires { check_writing sizes kinds.now operands.now (length buffer.old) ≡ Ok tt }
    ensures { buffer.new ≡ overwritten 0 (file_of sizes kinds.now operands.now) buffer.old }
{
    let entries = kinds.len();
    put_words(buffer, 0, &size_numbers(sizes, entries));
    put_bytes(buffer, SIZES_BYTES, kinds);
    put_words(buffer, SIZES_BYTES + entries, operands);
}

// Writes the file of six sizes and two parallel arrays, kinds and operands, into a buffer, and answers how many bytes it has. Nothing
// is written before everything has been checked; beyond the file the buffer stays as it was.
pub fn write(
    sizes: Sizes,
    kinds: &[u8],
    operands: &[u32],
    buffer: &mut [u8],
) -> Result<usize, Refusal>
    ensures value { result ≡ write_file sizes kinds.now operands.now (length buffer.old) }
    ensures buffer_after { buffer.new ≡ buffer_after sizes kinds.now operands.now buffer.old }
    ensures refuses { Refuses (writing_has sizes kinds.now operands.now (length buffer.old)) (refusal_in result) }
{
    check_writing(sizes, kinds, operands, buffer.len())?;
    put_file(buffer, sizes, kinds, operands);
    Ok(SIZES_BYTES + ENTRY_BYTES * kinds.len())
}
