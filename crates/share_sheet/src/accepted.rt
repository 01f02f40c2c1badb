ghost use Rattle.std.specs.Prelude.{◌≡◌, true, ◌≤◌, length, Ok};
ghost use Rattle.terms.specs.Sizes.{sizes_in_range};
ghost use Rattle.schedule.specs.Entries.{check_entries};
ghost use Rattle.schedule.specs.Format.{words_in};

use schedule::{kind_part, operand_part, read, refusal_of};
use terms::{Refusal, Sizes};

// A schedule file that was accepted: its sizes, and its kinds and operands, parts of the file.
#[derive(Drop)]
pub(crate) struct Accepted<'a> {
    pub(crate) sizes: Sizes,
    pub(crate) kinds: &'a [u8],
    pub(crate) operands: &'a [u8],
    pub ghost ranged: { sizes_in_range sizes ≡ true },
    pub ghost few: { length kinds.now ≤ 4096 },
    pub ghost allowed: { check_entries sizes kinds.now (words_in operands.now) ≡ Ok tt },
}

impl<'a> Accepted<'a> {
    ghost use Rattle.share_sheet.specs.Filling.{ReadAs};

    // Reads a schedule file.
    pub(crate) fn read(file: &'a [u8]) -> Result<Self, Refusal>
        ensures { ReadAs file.now result }
    {
        let reading = read(file);
        let Ok((sizes, _)) = reading else {
            return Err(refusal_of(reading));
        };
        Ok(Accepted {
            sizes,
            kinds: kind_part(file, reading),
            operands: operand_part(file, reading),
        })
    }
}
