ghost use Rattle.std.specs.Prelude.{◌≡◌};
ghost use Rattle.terms.specs.Kinds.{allowed_if, entry_of};

use crate::entry::Entry;
use crate::refusal::Refusal;

// The entry, if its operand is allowed.
fn allowed_if(allowed: bool, place: usize, entry: Entry) -> Result<Entry, Refusal>
    ensures { result ≡ allowed_if allowed place entry }
{
    if allowed {
        Ok(entry)
    } else {
        Err(Refusal::Who(place))
    }
}

// The entry that a kind byte means, over its whole range, with the operand beside it; or KIND or WHO, with the place, which is
// the entry's in its schedule. The kind is judged before the operand.
pub fn entry_of(thieves: u32, place: usize, kind: u8, operand: u32) -> Result<Entry, Refusal>
    ensures { result ≡ entry_of thieves place kind operand }
{
    match kind {
        0 => allowed_if(operand == 0, place, Entry::Drain),
        1 => allowed_if(operand == 0, place, Entry::ClientStore),
        2 => Ok(Entry::BeginPut(operand)),
        3 => allowed_if(operand == 0, place, Entry::BeginTake),
        4 => allowed_if(operand == 0, place, Entry::WorkerStep),
        5 => allowed_if(operand < thieves, place, Entry::BeginSteal(operand)),
        6 => allowed_if(operand < thieves, place, Entry::ThiefStep(operand)),
        7..=255 => Err(Refusal::Kind(place)),
    }
}
