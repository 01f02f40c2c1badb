ghost use Rattle.std.specs.Prelude.{◌≡◌, cond, ◌≤◌};
ghost use Rattle.properties.specs.ExactlyOnce.{number_put};
ghost use Rattle.share_sheet.specs.Filling.{entries, marked, wrong_by_marks};
ghost use Rattle.share_sheet.specs.Sheet.{check_blocks};

use crate::accepted::Accepted;
use schedule::entry_at;
use terms::{Entry, Refusal, within};

// How many marks there are: one for each block of the largest count, and one for 0, which is no block.
const MARKS: usize = 256;

// Whether an entry begins to put what is none of so many blocks, or one that is marked as used. If neither, its block is marked.
fn uses_wrongly(marks: &mut [bool; MARKS], count: u32, entry: Entry) -> bool
    requires { count ≤ 255 }
    ensures value { result ≡ wrong_by_marks count marks.old (number_put entry) }
    ensures marks_after { marks.new ≡ cond result marks.old (marked (number_put entry) marks.old) }
{
    let Entry::BeginPut(block) = entry else {
        return false;
    };
    if !within(1, count, block) || marks[block as usize] {
        return true;
    }
    marks[block as usize] = true;
    false
}

// Whether each begin put of a schedule is of one of so many blocks, and of none that an earlier one is of. The first
// that is not decides, whatever its outcome would be. (No `find`: the marks change from one entry to the next.)
pub(crate) fn check_blocks(schedule: &Accepted, count: u32) -> Result<(), Refusal>
    requires { count ≤ 255 }
    ensures { result ≡ check_blocks count (entries schedule.now) }
{
    let mut marks = [false; MARKS];
    for at in 0..schedule.kinds.len() {
        let entry = entry_at(schedule.sizes, schedule.kinds, schedule.operands, at);
        if uses_wrongly(&mut marks, count, entry) {
            return Err(Refusal::Block(at));
        }
    }
    Ok(())
}
