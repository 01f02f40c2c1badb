ghost use Rattle.std.specs.Prelude.{◌≡◌};
ghost use Rattle.schedule.specs.Entries.{check_parts, entry_at, entry_to_obey};
ghost use Rattle.schedule.specs.Faults.{PartsTellFirstFault};
ghost use Rattle.schedule.specs.Format.{words_in};

use number::word_at;
use terms::{Entry, Refusal, Sizes, entry_of};

// What stands at a place of the two parts of a file, kind bytes and four bytes for each operand; SHORT where one of them ends before it.
// (Sizes, kinds and operands are handed on one by one, as the public functions take them; a struct of the three would have to be made in each of these.)
fn meaning_at(sizes: Sizes, kinds: &[u8], operands: &[u8], at: usize) -> Result<Entry, Refusal>
    ensures { result ≡ entry_at sizes kinds.now (words_in operands.now) at }
{
    if at < kinds.len() && at < operands.len() / 4 {
        return entry_of(sizes.thieves, at, kinds[at], word_at(operands, 4 * at));
    }
    Err(Refusal::Short)
}

// Whether all entries of the two parts of a file are allowed, by its decoded sizes. The first that is not decides. Parts that do not belong together, since there are not
// four bytes of operand for each kind, are SHORT before any entry is looked at.
pub fn check_entries(sizes: Sizes, kinds: &[u8], operands: &[u8]) -> Result<(), Refusal>
    ensures value { result ≡ check_parts sizes kinds.now operands.now }
    ensures parts_tell_first_fault { PartsTellFirstFault sizes kinds.now operands.now result }
{
    if operands.len() % 4 != 0 || operands.len() / 4 != kinds.len() {
        return Err(Refusal::Short);
    }
    for at in 0..kinds.len() {
        meaning_at(sizes, kinds, operands, at)?;
    }
    Ok(())
}

// The entry to obey at a place of the two parts. Where none is allowed, a step of a thief that is not there stands in, which is answered 7 and changes nothing.
pub fn entry_at(sizes: Sizes, kinds: &[u8], operands: &[u8], at: usize) -> Entry
    ensures { result ≡ entry_to_obey (entry_at sizes kinds.now (words_in operands.now) at) }
{
    meaning_at(sizes, kinds, operands, at).unwrap_or(Entry::ThiefStep(u32::MAX))
}
