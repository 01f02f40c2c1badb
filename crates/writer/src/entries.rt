ghost use Rattle.std.specs.Prelude.{◌≡◌, length};
ghost use Rattle.schedule.specs.Entries.{check_entries};

use terms::{Refusal, Sizes, entry_of};

// Whether all entries of two arrays are allowed, before they are a file. The first that is not decides. (`schedule` has this loop over a
// file's bytes. One function for both would take a closure, with clauses on its calls, in place of two lines.)
pub(crate) fn check_arrays(sizes: Sizes, kinds: &[u8], operands: &[u32]) -> Result<(), Refusal>
    requires { length operands.now ≡ length kinds.now }
    ensures { result ≡ check_entries sizes kinds.now operands.now }
{
    for (at, kind) in kinds.iter().enumerate() {
        entry_of(sizes.thieves, at, *kind, operands[at])?;
    }
    Ok(())
}
