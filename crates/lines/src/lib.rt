// The lines that the program prints for a schedule file, as text in memory.
//
// `lines_of` reads a file, runs it on a queue (`Queue`, of `schedule`) and answers what a person is to see of it: the sizes and whether the margin is enough, a line for
// each entry, and the totals, for FF-THE with how far memory lagged; or the one line of a refusal. It asks nothing of its caller, and what it answers is `lines_of`
// (`specs/Lines.antt`), byte for byte. A program is left with reading and printing. Reading order:
//
// - `text`: the text in memory, and numbers and other bytes put behind it;
// - `lines`: one line of each sort, and all of them.
#![tactic(auto)]

mod lines;
mod text;

pub use lines::lines_of;
pub use text::{TEXT_ROOM, Text};
