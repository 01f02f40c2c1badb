ghost use Rattle.std.specs.Prelude.{◌≡◌};
ghost use Rattle.schedule.specs.Check.{check_ranges};

use terms::{Refusal, Sizes};

// Whether the seven sizes are in range. `terms` knows the first six; the seventh is the number of entries.
pub fn check_ranges(sizes: Sizes, entries: usize) -> Result<(), Refusal>
    ensures { result ≡ check_ranges sizes entries }
{
    if let Some(place) = sizes.check() {
        return Err(Refusal::Size(place));
    }
    if entries > 4096 {
        return Err(Refusal::Size(6));
    }
    Ok(())
}
