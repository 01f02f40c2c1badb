ghost use Rattle.std.specs.Prelude.{◌≡◌};
ghost use Rattle.comparison.specs.Alike.{LikenessRefuses, likeness};

use crate::run::Run;
use schedule::{LONGEST_TRACE, kind_part, operand_part, read, refusal_of};
use terms::Refusal;

// Which of two files is refused, and why.
#[derive(Clone, Copy, Debug, PartialEq, Eq)]
pub enum RefusedFile {
    // The first, whatever the second is.
    First(Refusal),
    // The second, and the first is not.
    Second(Refusal),
}

// Whether two schedules are alike. A refused file decides, the first one first; then the sizes do, and only then are the files run.
pub fn alike(first: &[u8], second: &[u8]) -> Result<bool, RefusedFile>
    ensures value { result ≡ likeness first.now second.now }
    ensures likeness_refuses { LikenessRefuses first.now second.now result }
{
    let reading = read(first);
    let Ok((sizes, _)) = reading else {
        return Err(RefusedFile::First(refusal_of(reading)));
    };
    let other = read(second);
    let Ok((other_sizes, _)) = other else {
        return Err(RefusedFile::Second(refusal_of(other)));
    };
    // As written: a margin of 0 is none but 0.
    if sizes != other_sizes {
        return Ok(false);
    }
    let mut trace = [0; LONGEST_TRACE];
    let mut other_trace = [0; LONGEST_TRACE];
    let run = Run::new(
        sizes,
        kind_part(first, reading),
        operand_part(first, reading),
        &mut trace,
    );
    let other_run = Run::new(
        sizes,
        kind_part(second, other),
        operand_part(second, other),
        &mut other_trace,
    );
    Ok(run.same_for_all(&other_run))
}
